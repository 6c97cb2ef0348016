// Which of a pair of indexes was refused, and why.
ghost use Rattle.std.specs.Prelude.{◌≡◌};

use faults::Fault;

/// The two indexes of a pair: the free bays and the bays of a class.
#[derive(Clone, Copy, PartialEq, Eq, Debug)]
pub enum Side {
    F,
    C,
}

/// The fault of one of the two indexes.
#[derive(Clone, Copy, PartialEq, Eq, Debug)]
pub struct PairFault {
    pub side: Side,
    pub fault: Fault,
}

impl Side {
    /// A fault of the index of this side.
    pub fn of(self, fault: Fault) -> PairFault
        ensures { result ≡ record { side = self; fault = fault } }
    {
        PairFault { side: self, fault }
    }
}
