// The first and the last place of a sort, in a block and over blocks.
ghost use Rattle.std.specs.Prelude.{◌≡◌, suc, ◌+◌, ◌*◌, ◌<◌, ◌≤◌};
ghost use Rattle.sets.specs.Search.{last_to};
ghost use Rattle.zombit.specs.Meant.{blocks, sorted, cut_at, first_place, FirstTo, LastAfter};

use super::blocks::Spot;
use super::index::Zombit;
use sets::Sort;

impl<'a> Zombit<'a> {
    // A place that was found, unless it lies past the last bay.
    pub(crate) fn within(&self, found: Option<u32>) -> Option<u32>
        ensures { result ≡ cut_at self.now.blocks.last found }
    {
        let last = self.blocks.last;
        found.filter(|bay| *bay <= last)
    }

    // The first place of the sort from place `at` of block `k` to the end of the block.
    pub(crate) fn first_in_block(&self, sort: Sort, k: u32, at: u32) -> Option<u32>
        requires block { k < blocks self.now }
        requires first { 1 ≤ at }
        requires end { at ≤ self.now.blocks.size }
        ensures { FirstTo self.now sort (k * self.now.blocks.size + at) (k * self.now.blocks.size + self.now.blocks.size) result }
    {
        let size = self.blocks.size;
        self.place_in_block(sort, k, at, |before| {
            bits::next(self.mixed, sort, before + at, before + size)
        })
    }

    // The first place of the sort in block `k` or in one after it.
    pub(crate) fn first_from_block(&self, sort: Sort, k: u32) -> Option<u32>
        requires block { k ≤ blocks self.now }
        ensures { result ≡ first_place self.now sort (suc (k * self.now.blocks.size)) }
    {
        let bit = self.next_block(sort, k + 1)?;
        self.first_in_block(sort, bit - 1, 1)
    }

    // The first place of the sort from bay `i` on.
    pub(crate) fn first_from(&self, sort: Sort, i: u32) -> Option<u32>
        requires first { 1 ≤ i }
        requires within { i ≤ self.now.blocks.last }
        ensures { result ≡ first_place self.now sort i }
    {
        let Spot { block, at } = self.blocks.spot(i);
        // A match: with `or_else` over a closure that asks the whole index, the proof of what is returned did not close.
        match self.first_in_block(sort, block, at) {
            Some(bay) => Some(bay),
            None => self.first_from_block(sort, block + 1),
        }
    }

    // The last place of the sort in block `k` up to place `at`.
    pub(crate) fn last_in_block(&self, sort: Sort, k: u32, at: u32) -> Option<u32>
        requires block { k < blocks self.now }
        requires first { 1 ≤ at }
        requires end { at ≤ self.now.blocks.size }
        ensures { LastAfter self.now sort (k * self.now.blocks.size) (k * self.now.blocks.size + at) result }
    {
        self.place_in_block(sort, k, at, |before| {
            bits::previous(self.mixed, sort, before + at).filter(|bit| *bit > before)
        })
    }

    // The last place of the sort in the first `k` blocks.
    pub(crate) fn last_to_block(&self, sort: Sort, k: u32) -> Option<u32>
        requires block { k ≤ blocks self.now }
        ensures { result ≡ last_to (sorted self.now sort) (k * self.now.blocks.size) }
    {
        let bit = self.previous_block(sort, k)?;
        self.last_in_block(sort, bit - 1, self.blocks.size)
    }
}
