// What is answered to a command.

use faults::{Fault, Refusal};
use opening::PairFault;
use replay::Answer;
use round::Report;

/// What a call of the round answers; of a sheet, all but its memory.
#[derive(Clone, Copy, PartialEq, Eq, Debug)]
pub struct Called(pub Answer);

/// What is answered to a command.
#[derive(Clone, Copy, PartialEq, Eq, Debug)]
pub enum Reply {
    Done,
    Number(u32),
    Bay(Option<u32>),
    Holds(bool),
    Refused(Refusal),
    Faulty(Fault),
    FaultyPair(PairFault),
    Closed(Report),
    NoRound,
}
