// An opened plain index. No unlawful one can be made.
ghost use Rattle.bits.specs.Checks.{Whole, Clear};
ghost use Rattle.sets.specs.Sets.{LastBay};

/// The bays 1 to `last`, and a bitvector in the caller's memory: bit i is 1 exactly if bay i is a member.
#[derive(Clone, Copy, PartialEq, Eq, Debug)]
pub struct Plain<'a> {
    pub(crate) last: u32,
    pub(crate) bits: &'a [u8],
    ghost sized: { LastBay last },
    ghost whole: { Whole last bits.now },
    ghost clear: { Clear last bits.now },
}
