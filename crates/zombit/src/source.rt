// What a zombit index opens from.

/// The last bay, the block size, and U, O and M.
#[derive(Clone, Copy, PartialEq, Eq, Debug)]
pub struct ZombitSource<'a> {
    pub last: u32,
    pub size: u32,
    pub uniform: &'a [u8],
    pub marked: &'a [u8],
    pub mixed: &'a [u8],
}
