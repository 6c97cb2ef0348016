// What a block is to a sort of bays.

// All of a block is of the sort, none of it is, or the block is mixed.
#[derive(Clone, Copy)]
pub(crate) enum Kind {
    All,
    Bare,
    Mixed,
}
