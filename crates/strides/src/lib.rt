// Two rows of bits, free bays and a class of bays, walked through together, 64 bits at a time: the bits that are in both, and how
// many stretches begin. This is a leaf for a round: it asks for whole words, for as many bits in each row as are to be passed, and for
// numbers that fit.
#![tactic(auto)]

mod numbers;
mod passed;
mod rows;
mod stance;
mod standing;

pub use passed::Passed;
pub use rows::pass_rows;
pub use standing::Stance;
