// The zombit form of an index: blocks of bays, of which only the mixed ones have their bays written out.
#![tactic(auto)]

ghost use Rattle.std.specs.Prelude.{ℕ};
ghost use Rattle.filling.specs.Layouts.{Keeps};
ghost use Rattle.zombit.specs.Filling.{zombit_layout};
ghost use Rattle.zombit.specs.Refilling.{PartsTell, RefillsReturn};
ghost use Rattle.zombit.specs.Told.{LawfulTold};

mod asks;
mod blocks;
mod checks;
mod counts;
mod fill;
mod find;
mod in_block;
mod index;
mod kind;
mod measuring;
mod open;
mod passed;
mod passing;
mod row;
mod rows;
mod seen;
mod slip;
mod source;
mod told;
mod unpack;
mod write;

pub use checks::check_size;
pub use index::Zombit;
pub use measuring::measure;
pub use slip::ZombitSlip;
pub use source::ZombitSource;
pub use told::ZombitTold;

/// Rows are lawful exactly if each bit is what it must be for the set that they stand for. There is nothing to run: the contract is
/// the theorem.
pub fn lawful_told()
    ensures { LawfulTold }
{}

/// What is filled is opened, and stands for the set; each of its bits is what it must be for the set. There is nothing to run: the
/// contract is the theorem.
pub fn fills_keep()
    ensures keeps { (β : ℕ) → Keeps (zombit_layout β) }
    ensures tells { PartsTell }
{}

/// What is opened and filled anew is what was opened. There is nothing to run: the contract is the theorem.
pub fn refills_return()
    ensures { RefillsReturn }
{}
