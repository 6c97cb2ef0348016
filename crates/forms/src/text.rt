// How a chosen form reads.
ghost use Rattle.forms.specs.Texts.{choice_text};
ghost use Rattle.std.specs.Prelude.{Some};

use super::choice::Choice;
use faults::Form;
use std::fmt;

impl fmt::Display for Choice {
    ghost output = { λ x. Some (choice_text x) };

    fn fmt<W: fmt::Write>(&self, f: &mut fmt::Formatter<W>) -> fmt::Result {
        match self {
            Choice::Plain => write!(f, "{}", Form::Plain),
            Choice::List => write!(f, "{}", Form::List),
            Choice::Zombit { size } => write!(f, "{} {size}", Form::Zombit),
            Choice::Pioneer => write!(f, "{}", Form::Pioneer),
        }
    }
}
