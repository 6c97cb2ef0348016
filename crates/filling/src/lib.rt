// Filling a set into the memory of a form.
#![tactic(auto)]

mod room;

pub use room::check_room;
