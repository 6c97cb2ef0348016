// What a round is asked, and what it answers.
use faults::Refusal;
use round::{Taken, Written};

/// A call of a round.
#[derive(Clone, Copy, PartialEq, Eq, Debug)]
pub enum Call {
    Count { a: u32, b: u32 },
    Nearest(u32),
    Sign(u32),
    Pick(u32),
    Go(u32),
    Next,
    /// A sheet of so many of the next numbers of the reader's memory, or of all that are left.
    Sheet(u32),
}

/// What a call answers.
#[derive(Clone, Copy, PartialEq, Eq, Debug)]
pub enum Answer {
    Count(Result<u32, Refusal>),
    Nearest(Result<Option<u32>, Refusal>),
    Sign(Result<Option<u32>, Refusal>),
    Pick(Result<u32, Refusal>),
    Go(Result<(), Refusal>),
    Next(Taken),
    Sheet(Written),
}

/// A call, and what two readers were answered to it.
#[derive(Clone, Copy, PartialEq, Eq, Debug)]
pub struct Exchange {
    pub call: Call,
    pub first: Answer,
    pub second: Answer,
}
