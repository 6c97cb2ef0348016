// Rows of yes and no for the bays of a set, and bytes that hold them.
use std::alloc::{AllocError, Global};

// Single bays, short and long runs.
pub(crate) const MIXED: [u8; 40] = [
    165, 77, 0, 255, 128, 24, 37, 0, 255, 240, 48, 187, 0, 255, 254, 29, 109, 0, 255, 1, 44, 222,
    0, 255, 128, 35, 123, 0, 255, 1, 217, 30, 0, 255, 240, 63, 114, 0, 255, 127,
];

// The bits of some bytes as a row.
pub(crate) fn row_of(alloc: Global, bytes: &[u8]) -> Result<Vec<bool>, AllocError> {
    bytes
        .iter()
        .flat_map(|byte| (0..8).map(move |place| (*byte >> place) % 2 == 1))
        .collect(alloc)
}

// A row as bytes, in which the bits after the last are 0.
pub(crate) fn bytes_of(alloc: Global, row: &[bool]) -> Result<Vec<u8>, AllocError> {
    row.chunks(8)
        .map(|eight| {
            eight
                .iter()
                .rev()
                .fold(0u8, |byte, bit| byte << 1 | u8::from(*bit))
        })
        .collect(alloc)
}
