// What a set takes in the pioneer form.

/// The last bay, and the number of members, and how many bytes each part has.
#[derive(Clone, Copy, PartialEq, Eq, Debug)]
pub struct PioneerTold {
    pub last: u32,
    pub count: u32,
    pub starts: usize,
    pub sums: usize,
}
