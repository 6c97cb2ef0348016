// A set that is filled and opened again, through a list of forms chosen at run time.
#![tactic(auto)]

mod extent;
mod fault;
mod judging;
mod pair;
mod place;
mod plan;
mod refilling;
mod reopening;
mod size;
mod source;
mod text;

pub use extent::Extent;
pub use fault::ChainFault;
pub use judging::judge;
pub use pair::refill_pair;
pub use place::Last;
pub use plan::Plan;
pub use reopening::latest;
pub use source::Source;
