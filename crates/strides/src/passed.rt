// How far two rows are passed.

use super::standing::Stance;

/// How many bits were passed, how many numbers were written, how many stretches began, and the stance behind the bits.
#[derive(Clone, Copy, PartialEq, Eq, Debug)]
pub struct Passed {
    pub bits: u32,
    pub written: u32,
    pub starts: u32,
    pub stance: Stance,
}
