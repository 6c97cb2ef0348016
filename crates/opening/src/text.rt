// How the fault of a pair reads.
ghost use Rattle.opening.specs.Texts.{side_name, pair_fault_text};
ghost use Rattle.std.specs.Prelude.{Some};

use super::fault::{PairFault, Side};
use std::error::Error;
use std::fmt;

impl fmt::Display for Side {
    ghost output = { λ x. Some (side_name x) };

    fn fmt<W: fmt::Write>(&self, f: &mut fmt::Formatter<W>) -> fmt::Result {
        match self {
            Side::F => f.write_str("F"),
            Side::C => f.write_str("C"),
        }
    }
}

impl fmt::Display for PairFault {
    ghost output = { λ x. Some (pair_fault_text x) };

    fn fmt<W: fmt::Write>(&self, f: &mut fmt::Formatter<W>) -> fmt::Result {
        write!(f, "{} {}", self.side, self.fault)
    }
}

impl Error for PairFault {}
