// How what a round gives reads: numbers with a blank between them.
ghost use Rattle.round.specs.Texts.{taken_text, report_text};
ghost use Rattle.std.specs.Prelude.{Some};

use super::state::{Report, Taken};
use std::fmt;

impl fmt::Display for Taken {
    ghost output = { λ t. Some (taken_text t) };

    fn fmt<W: fmt::Write>(&self, f: &mut fmt::Formatter<W>) -> fmt::Result {
        write!(f, "{} {}", self.bay.unwrap_or(0), self.stretches)
    }
}

impl fmt::Display for Report {
    ghost output = { λ r. Some (report_text r) };

    fn fmt<W: fmt::Write>(&self, f: &mut fmt::Formatter<W>) -> fmt::Result {
        write!(f, "{} {} {}", self.handed, self.stretches, self.place)
    }
}
