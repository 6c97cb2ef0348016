// How words, numbers and parts are written in a line, read and printed.
#![tactic(auto)]

mod bytes;
mod dash;
mod laws;
mod number;
mod numbers;
mod words;

pub use bytes::{read_bytes, write_bytes};
pub use laws::{reads_back, reads_exactly, words_hold};
pub use number::read_number;
pub use numbers::{read_numbers, write_numbers};
pub use words::Words;
