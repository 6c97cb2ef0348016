// Layers over a counting set, each again a counting set.
#![tactic(auto)]

mod asks;
mod clone;
mod level;
mod make;
mod place;
mod turned;

pub use level::Level;
pub use turned::Turned;
