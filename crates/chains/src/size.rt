// Whether a form can be had in the block size that is asked for.
ghost use Rattle.std.specs.Prelude.{◌≡◌};
ghost use Rattle.forms.specs.Choices.{layout_of};

use faults::{Fault, Form, Located};
use forms::Choice;

// Checks the block size of a form that has one, as measuring does, but with no set at hand.
pub(crate) fn check_size(choice: Choice) -> Result<(), Fault>
    ensures { result ≡ (layout_of choice).measuring }
{
    match choice {
        Choice::Zombit { size } => zombit::check_size(size).at(Form::Zombit, 0),
        Choice::Plain | Choice::List | Choice::Pioneer => Ok(()),
    }
}
