// The claim of two readers, of which the later reads what the sets of the first were filled into.
#![tactic(auto)]

mod both;
mod refilled;

pub use both::read_both;
pub use refilled::read_refilled;
