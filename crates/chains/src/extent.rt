// How much of two memories.

/// So many bytes and so many 16-bit numbers: what is left of two memories, or what lies before a place in them.
#[derive(Clone, Copy, PartialEq, Eq, Debug)]
pub struct Extent {
    pub bytes: usize,
    pub numbers: usize,
}
