// What a list index opens from.

/// The last bay, and the members as rising numbers.
#[derive(Clone, Copy, PartialEq, Eq, Debug)]
pub struct ListSource<'a> {
    pub last: u32,
    pub numbers: &'a [u16],
}
