// Blocks that were passed over.

// What the first `block` blocks have: the bits of the mixed ones, and the members of all.
#[derive(Clone, Copy)]
pub(crate) struct Passed {
    pub(crate) block: u32,
    pub(crate) bits: u32,
    pub(crate) members: u32,
}
