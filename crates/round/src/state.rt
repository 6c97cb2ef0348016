// A round, and what its calls answer.
ghost use Rattle.round.specs.Standing.{Standing};

use sets::{Counting, Walking};

/// A round over the free bays and a class of bays. It cannot be let go, only closed.
pub struct Round<F: Counting, C: Walking> {
    pub(crate) free: F,
    pub(crate) class: C,
    // What the round would give if it were closed.
    pub(crate) state: Report,
    ghost ok: { Standing (F.Walking.meant free) (C.Walking.meant class) state },
}

/// What `next` took: the common bay, if there was one, and the number of stretches.
#[derive(Clone, Copy, PartialEq, Eq, Debug)]
pub struct Taken {
    pub bay: Option<u32>,
    pub stretches: u32,
}

/// How many bays a sheet wrote, and the number of stretches that it took.
#[derive(Clone, Copy, PartialEq, Eq, Debug)]
pub struct Written {
    pub bays: u32,
    pub stretches: u32,
}

/// What a round gives when it is closed: the bays handed out, the stretches taken, and the place.
#[derive(Clone, Copy, PartialEq, Eq, Debug)]
pub struct Report {
    pub handed: u32,
    pub stretches: u32,
    pub place: u32,
}
