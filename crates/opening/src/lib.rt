// Opening an index of any form, and a pair of them.
#![tactic(auto)]

mod fault;
mod opens;
mod pair;
mod text;

pub use fault::{PairFault, Side};
pub use opens::Opens;
pub use pair::open_pair;
