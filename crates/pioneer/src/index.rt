// An opened pioneer index. No unlawful one can be made.
ghost use Rattle.std.specs.Prelude.{◌≤◌};
ghost use Rattle.bits.specs.Bits.{bit_at};
ghost use Rattle.bits.specs.Checks.{Whole, Clear};
ghost use Rattle.pioneer.specs.Runs.{Lawful};
ghost use Rattle.sets.specs.Sets.{LastBay};

/// The bays 1 to `last` with `count` members, and two bitvectors in the caller's memory: the first bays of the runs of members, and
/// the sums of the first 1, 2, .. run lengths.
#[derive(Clone, Copy, PartialEq, Eq, Debug)]
pub struct Pioneer<'a> {
    pub(crate) last: u32,
    pub(crate) count: u32,
    pub(crate) starts: &'a [u8],
    pub(crate) sums: &'a [u8],
    ghost sized: { LastBay last },
    ghost most: { count ≤ last },
    ghost whole: { Whole last starts.now × Whole count sums.now },
    ghost clear: { Clear last starts.now × Clear count sums.now },
    ghost lawful: { Lawful last count (bit_at starts.now) (bit_at sums.now) },
}
