// Why a batch is refused.

use faults::{Fault, Refusal};
use opening::PairFault;

/// Why nothing is filled: the index is not opened, or it is, and its set is not filled.
#[derive(Clone, Copy, PartialEq, Eq, Debug)]
pub enum FillFault {
    Opening(Fault),
    Filling(Fault),
}

/// Why there is no sheet: one of the two indexes is not opened, or both are, and the round does not go to the place.
#[derive(Clone, Copy, PartialEq, Eq, Debug)]
pub enum SheetFault {
    Opening(PairFault),
    Place(Refusal),
}
