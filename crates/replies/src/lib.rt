// What the console answers to a line, and how it reads.
#![tactic(auto)]

mod calling;
mod reply;
mod text;

pub use calling::{call_round, write_called};
pub use reply::{Called, Reply};
