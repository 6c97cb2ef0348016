// What a pioneer index opens from.

/// The last bay, the number of members, the first bays of the runs of members, and the sums of their lengths.
#[derive(Clone, Copy, PartialEq, Eq, Debug)]
pub struct PioneerSource<'a> {
    pub last: u32,
    pub count: u32,
    pub starts: &'a [u8],
    pub sums: &'a [u8],
}
