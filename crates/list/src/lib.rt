// The list form of an index: the members as rising numbers.
#![tactic(auto)]

ghost use Rattle.filling.specs.Layouts.{Keeps};
ghost use Rattle.list.specs.Filling.{list_layout};
ghost use Rattle.list.specs.Refilling.{PartsTell, RefillsReturn};

mod asks;
mod beside;
mod check;
mod fill;
mod index;
mod measuring;
mod ones;
mod open;
mod others;
mod putting;
mod quarters;
mod rank;
mod row;
mod select;
mod slip;
mod source;
mod told;

pub use index::List;
pub use measuring::measure;
pub use slip::ListSlip;
pub use source::ListSource;
pub use told::ListTold;

/// What is filled is opened, and stands for the set; and the numbers obey their law. There is nothing to run: the contract is the
/// theorem.
pub fn fills_keep()
    ensures keeps { Keeps list_layout }
    ensures tells { PartsTell }
{}

/// What is opened and filled anew is what was opened. There is nothing to run: the contract is the theorem.
pub fn refills_return()
    ensures { RefillsReturn }
{}
