// What a set takes in the zombit form.

/// The last bay, and the block size, and how many bytes each part has.
#[derive(Clone, Copy, PartialEq, Eq, Debug)]
pub struct ZombitTold {
    pub last: u32,
    pub size: u32,
    pub uniform: usize,
    pub marked: usize,
    pub mixed: usize,
}
