// Whole lists of calls on rounds: one list is played on two rounds, each over two sets of its own.
#![tactic(auto)]

mod asking;
mod calls;
mod exchanges;
mod readers;
mod text;

pub use asking::ask;
pub use calls::{Answer, Call, Exchange};
pub use readers::two_readers;
