// How a fault reads.
ghost use Rattle.faults.specs.Texts.{form_name, fault_text};
ghost use Rattle.std.specs.Prelude.{Some};

use super::fault::{Fault, Form};
use std::error::Error;
use std::fmt;

impl fmt::Display for Form {
    ghost output = { λ x. Some (form_name x) };

    fn fmt<W: fmt::Write>(&self, f: &mut fmt::Formatter<W>) -> fmt::Result {
        match self {
            Form::Plain => f.write_str("plain"),
            Form::List => f.write_str("list"),
            Form::Zombit => f.write_str("zombit"),
            Form::Pioneer => f.write_str("pioneer"),
        }
    }
}

impl fmt::Display for Fault {
    ghost output = { λ x. Some (fault_text x) };

    fn fmt<W: fmt::Write>(&self, f: &mut fmt::Formatter<W>) -> fmt::Result {
        let number = self.flaw.number();
        write!(f, "refused {number} {} {}", self.form, self.part)
    }
}

impl Error for Fault {}
