// The choice of a form at run time: a set is measured for it, filled into the fronts of two memories, and opened again from there.
#![tactic(auto)]

ghost use Rattle.filling.specs.Layouts.{Keeps};
ghost use Rattle.forms.specs.Choices.{layout_of, Measures};
ghost use Rattle.forms.specs.Laying.{Fits};
ghost use Rattle.forms.specs.Telling.{TellsLayout};
ghost use Rattle.forms.specs.declared.choice.Choice.{Choice};

mod asks;
mod choice;
mod fronts;
mod index;
mod laying;
mod measuring;
mod opened;
mod opens;
mod room;
mod source;
mod text;
mod told;

pub use choice::Choice;
pub use index::Index;
pub use laying::fill;
pub use opened::open;
pub use room::check_rooms;
pub use source::Source;
pub use told::Told;

/// In each form, what is filled is opened, and stands for the set; what is told of a set is what its form says of it; and neither
/// measuring nor filling is refused with a block size that the form has and memories that are long enough. There is nothing to run:
/// the contract is the theorem.
pub fn forms_keep()
    ensures keeps { (x : Choice) → Keeps (layout_of x) }
    ensures tells { TellsLayout }
    ensures measures { Measures }
    ensures fits { Fits }
{}
