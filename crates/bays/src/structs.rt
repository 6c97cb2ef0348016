// What C passes, and what it is answered.

/// What was told of an index: the number of its form, its numbers, and the lengths of its parts.
#[repr(C)]
#[derive(Clone, Copy, PartialEq, Eq, Debug)]
pub struct BaysTold {
    pub form: u32,
    pub last: u32,
    pub number: u32,
    pub first: usize,
    pub second: usize,
    pub third: usize,
}

/// Why a call was refused: the number of the refusal, and in which part of which index; all 0 where it was not.
#[repr(C)]
#[derive(Clone, Copy, PartialEq, Eq, Debug)]
pub struct BaysFault {
    pub number: u32,
    pub part: u32,
    pub index: u32,
}

/// What a round gives when it is closed: the bays handed out, the stretches taken, and the place.
#[repr(C)]
#[derive(Clone, Copy, PartialEq, Eq, Debug)]
pub struct BaysReport {
    pub handed: u32,
    pub stretches: u32,
    pub place: u32,
}
