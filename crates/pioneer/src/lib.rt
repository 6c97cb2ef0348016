// The pioneer form of an index: a bitvector of the first bays of the runs of members, and one of the sums of their lengths.
#![tactic(auto)]

ghost use Rattle.filling.specs.Layouts.{Keeps};
ghost use Rattle.pioneer.specs.Filling.{pioneer_layout};
ghost use Rattle.pioneer.specs.Refilling.{PartsTell, RefillsReturn};

mod asks;
mod between;
mod checks;
mod count;
mod fill;
mod find;
mod index;
mod measuring;
mod ones;
mod open;
mod run;
mod slip;
mod source;
mod told;
mod unpack;
mod words;
mod write;

pub use index::Pioneer;
pub use measuring::measure;
pub use slip::PioneerSlip;
pub use source::PioneerSource;
pub use told::PioneerTold;

/// What is filled is opened, stands for the set, and tells its runs. There is nothing to run: the contract is the theorem.
pub fn fills_keep()
    ensures keeps { Keeps pioneer_layout }
    ensures tells { PartsTell }
{}

/// What is opened and filled anew is what was opened. There is nothing to run: the contract is the theorem.
pub fn refills_return()
    ensures { RefillsReturn }
{}
