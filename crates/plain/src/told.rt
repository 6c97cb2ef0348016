// What a set takes in the plain form.

/// The last bay, and how many bytes the part has.
#[derive(Clone, Copy, PartialEq, Eq, Debug)]
pub struct PlainTold {
    pub last: u32,
    pub bits: usize,
}
