// The rows of a round over any two sets.
#![tactic(auto)]

mod list;
mod rows;

pub use list::Listed;
pub use rows::list_round;
