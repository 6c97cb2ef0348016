// The two slots of the console: what they hold, how a command changes it, and what a question about it is answered.
#![tactic(auto)]

mod asking;
mod changes;
mod pair;

pub use asking::ask;
pub use pair::Slots;
