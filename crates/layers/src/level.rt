// A level: some bays of the set beneath, counted from 1.
ghost use Rattle.layers.specs.Layers.{BaysOf};

use sets::{Counting, Walking};

/// The bays `first` to `last` of a set, counted from 1.
#[derive(Drop, Copy)]
pub struct Level<S: Counting> {
    pub(crate) below: S,
    pub(crate) first: u32,
    pub(crate) last: u32,
    ghost bays: { BaysOf first last (S.Walking.meant below) },
}
