// The plain form of an index: one bitvector with a bit for each bay.
#![tactic(auto)]

ghost use Rattle.filling.specs.Layouts.{Keeps};
ghost use Rattle.plain.specs.Filling.{plain_layout};
ghost use Rattle.plain.specs.Refilling.{PartsTell, RefillsReturn};

mod asks;
mod behind;
mod fill;
mod index;
mod measuring;
mod open;
mod slip;
mod source;
mod told;

pub use index::Plain;
pub use measuring::measure;
pub use slip::PlainSlip;
pub use source::PlainSource;
pub use told::PlainTold;

/// What is filled is opened, and stands for the set; and the bytes obey their law. There is nothing to run: the contract is the
/// theorem.
pub fn fills_keep()
    ensures keeps { Keeps plain_layout }
    ensures tells { PartsTell }
{}

/// What is opened and filled anew is what was opened. There is nothing to run: the contract is the theorem.
pub fn refills_return()
    ensures { RefillsReturn }
{}
