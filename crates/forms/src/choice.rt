// The forms to choose from.

/// A form that a set is filled into, with its block size if it has one.
#[derive(Clone, Copy, PartialEq, Eq, Debug)]
pub enum Choice {
    Plain,
    List,
    Zombit { size: u32 },
    Pioneer,
}
