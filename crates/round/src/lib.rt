// A round through the common bays of two sets, by the fewest stretches.
#![tactic(auto)]

mod asks;
mod moves;
mod pace;
mod posts;
mod sheets;
mod state;
mod text;
mod walk;

pub use posts::posts_rise;
pub use state::{Report, Round, Taken, Written};
