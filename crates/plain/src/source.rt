// What a plain index opens from.

/// The last bay, and a bit for each bay.
#[derive(Clone, Copy, PartialEq, Eq, Debug)]
pub struct PlainSource<'a> {
    pub last: u32,
    pub bits: &'a [u8],
}
