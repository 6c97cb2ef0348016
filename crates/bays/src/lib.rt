// The libraries for C, as a static library. include/bays.h declares these functions, and says what each answers and who owns what.
#![tactic(auto)]

mod named;
mod one_set;
mod refusing;
mod structs;
mod telling;
mod two_sets;

pub use structs::{BaysFault, BaysReport, BaysTold};
