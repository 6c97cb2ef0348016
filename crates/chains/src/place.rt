// Where the last index of a chain lies.
use forms::Told;

/// What was told of the last index, and where its parts begin in the two memories.
#[derive(Clone, Copy, PartialEq, Eq, Debug)]
pub struct Last {
    pub told: Told,
    pub bytes_at: usize,
    pub numbers_at: usize,
}
