// What an index is opened from.

use forms::Told;

/// What was told of an index, and the two memories at whose fronts its parts stand, one behind the other.
#[derive(Clone, Copy, PartialEq, Eq, Debug)]
pub struct Record<'a> {
    pub told: Told,
    pub bytes: &'a [u8],
    pub numbers: &'a [u16],
}
