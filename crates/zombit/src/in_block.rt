// A place in one block.
ghost use Rattle.std.specs.Prelude.{ℕ, ◌<◌, ◌≤◌, Some};
ghost use Rattle.zombit.specs.Meant.{blocks, bits_before_block, MixedAt, BitOf, InBlock};

use super::index::Zombit;
use super::kind::Kind;
use sets::Sort;

impl<'a> Zombit<'a> {
    // A place in block `k`: place `at` where all of the block is of the sort, none where none of it is, and where it is mixed the
    // place of the bit that `find` finds in the mixed row, told how many bits lie there before those of the block.
    pub(crate) fn place_in_block<F: FnOnce(u32) -> Option<u32>>(
        &self,
        sort: Sort,
        k: u32,
        at: u32,
        find: F,
    ) -> Option<u32>
        requires block { k < blocks self.now }
        requires end { at ≤ self.now.blocks.size }
        requires callable { MixedAt self.now k → F.pre find (bits_before_block self.now k) }
        requires inside { (q : ℕ) → MixedAt self.now k → F.post find (bits_before_block self.now k) (Some q) → BitOf self.now k q }
        ensures { InBlock self.now sort k at (F.post find (bits_before_block self.now k)) result }
    {
        match self.kind(sort, k) {
            Kind::All => Some(self.blocks.place(k, at)),
            Kind::Bare => None,
            Kind::Mixed => {
                let before = self.bits_before(k);
                let bit = find(before)?;
                Some(self.blocks.place(k, bit - before))
            }
        }
    }
}
