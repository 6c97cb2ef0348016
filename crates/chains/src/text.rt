// How the fault of a step reads.
ghost use Rattle.chains.specs.Texts.{chain_fault_text};
ghost use Rattle.std.specs.Prelude.{Some};

use super::fault::ChainFault;
use std::error::Error;
use std::fmt;

impl fmt::Display for ChainFault {
    ghost output = { λ x. Some (chain_fault_text x) };

    fn fmt<W: fmt::Write>(&self, f: &mut fmt::Formatter<W>) -> fmt::Result {
        write!(f, "{} {} {}", self.side, self.step, self.fault)
    }
}

impl Error for ChainFault {}
