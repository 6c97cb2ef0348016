// A line of the console's input, read as a command.
#![tactic(auto)]

mod command;
mod expected;
mod indexes;
mod laws;
mod lines;
mod names;
mod naming;
mod questions;
mod sentences;
mod taking;
mod text;

pub use command::{Command, Question, Slot};
pub use expected::{Expected, Unread};
pub use laws::commands_hold;
pub use lines::{LONGEST, read_line};
