// An opened zombit index. No unlawful one can be made.
ghost use Rattle.bits.specs.Bits.{bit_at};
ghost use Rattle.bits.specs.Checks.{Whole, Clear};
ghost use Rattle.zombit.specs.Blocks.{blocks_of, bits_before};
ghost use Rattle.zombit.specs.Lawful.{Marked, Within, SomeOne, SomeZero, Ended};

use super::blocks::Blocks;

/// The bays in blocks, and three bitvectors in the caller's memory: `uniform` (U) marks the blocks that are all members or all
/// non-members, `marked` (O) those with at least one member, and `mixed` (M) has the bays of each other block, in order.
#[derive(Clone, Copy, PartialEq, Eq, Debug)]
pub struct Zombit<'a> {
    pub(crate) blocks: Blocks,
    pub(crate) uniform: &'a [u8],
    pub(crate) marked: &'a [u8],
    pub(crate) mixed: &'a [u8],
    ghost whole_u: { Whole (blocks_of blocks.last blocks.size) uniform.now },
    ghost whole_o: { Whole (blocks_of blocks.last blocks.size) marked.now },
    ghost whole_m: { Whole (bits_before blocks.size (bit_at uniform.now) (blocks_of blocks.last blocks.size)) mixed.now },
    ghost clear_u: { Clear (blocks_of blocks.last blocks.size) uniform.now },
    ghost clear_o: { Clear (blocks_of blocks.last blocks.size) marked.now },
    ghost clear_m: { Clear (bits_before blocks.size (bit_at uniform.now) (blocks_of blocks.last blocks.size)) mixed.now },
    ghost marks: { Marked blocks.last blocks.size (bit_at uniform.now) (bit_at marked.now) },
    ghost within: { Within blocks.last blocks.size (bit_at uniform.now) (bit_at marked.now) },
    ghost ones: { SomeOne blocks.last blocks.size (bit_at uniform.now) (bit_at mixed.now) },
    ghost zeros: { SomeZero blocks.last blocks.size (bit_at uniform.now) (bit_at mixed.now) },
    ghost ends: { Ended blocks.last blocks.size (bit_at uniform.now) (bit_at mixed.now) },
}
