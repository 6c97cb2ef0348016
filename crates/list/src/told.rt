// What a set takes in the list form.

/// The last bay, and how many numbers the part has.
#[derive(Clone, Copy, PartialEq, Eq, Debug)]
pub struct ListTold {
    pub last: u32,
    pub numbers: usize,
}
