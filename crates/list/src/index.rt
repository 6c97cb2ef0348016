// An opened list index. No unlawful one can be made.
ghost use Rattle.list.specs.Places.{Inside, Climbs};
ghost use Rattle.sets.specs.Sets.{LastBay};

/// The bays 1 to `last`, and the members as strictly rising numbers in the caller's memory.
#[derive(Clone, Copy, PartialEq, Eq, Debug)]
pub struct List<'a> {
    pub(crate) last: u32,
    pub(crate) numbers: &'a [u16],
    ghost sized: { LastBay last },
    ghost inside: { Inside last numbers.now },
    ghost climbs: { Climbs numbers.now },
}
