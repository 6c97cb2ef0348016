// How many places of a sort there are, and the n-th of them.
ghost use Rattle.std.specs.Prelude.{◌≡◌, ◌+◌, ◌*◌, ◌<◌, ◌≤◌};
ghost use Rattle.sets.specs.Search.{count_to, kth_to};
ghost use Rattle.zombit.specs.Meant.{O, bits_before_block, blocks, places, bays, sorted};
ghost use Rattle.zombit.specs.Passing.{IsPassed};

use super::blocks::Spot;
use super::index::Zombit;
use super::kind::Kind;
use super::passed::Passed;
use sets::Sort;

// What the first blocks have: the bays of the full ones, and the bits of the mixed ones.
#[derive(Clone, Copy)]
struct Before {
    full: u32,
    bits: u32,
}

impl<'a> Zombit<'a> {
    // What the first `k` blocks have.
    fn before(&self, k: u32) -> Before
        requires block { k ≤ blocks self.now }
        ensures bits { result.bits ≡ bits_before_block self.now k }
        ensures full { result.full + result.bits ≡ count_to (O self.now) k * self.now.blocks.size }
        ensures few { result.full + result.bits ≤ 69631 }
    {
        let bits = self.bits_before(k);
        let full = bits::ones(self.marked, k) * self.blocks.size - bits;
        Before { full, bits }
    }

    // How many members lie from bay 1 to `i`.
    pub(crate) fn members_to(&self, i: u32) -> u32
        requires within { i ≤ self.now.blocks.last }
        ensures { result ≡ count_to (bays self.now) i }
    {
        if i == 0 {
            return 0;
        }
        let Spot { block, at } = self.blocks.spot(i);
        let Before { full, bits } = self.before(block);
        match self.kind(Sort::Members, block) {
            Kind::All => full + at + bits::ones(self.mixed, bits),
            Kind::Bare => full + bits::ones(self.mixed, bits),
            Kind::Mixed => full + bits::ones(self.mixed, bits + at),
        }
    }

    // The `n`-th place of the sort, which lies in the block after those that were passed.
    pub(crate) fn nth_in_block(&self, sort: Sort, n: u32, passed: Passed) -> Option<u32>
        requires is { IsPassed self.now passed }
        requires block { passed.block < blocks self.now }
        requires before { count_to (sorted self.now sort) (passed.block * self.now.blocks.size) < n }
        requires reached { n ≤ count_to (sorted self.now sort) (passed.block * self.now.blocks.size + self.now.blocks.size) }
        ensures { result ≡ kth_to (sorted self.now sort) n (places self.now) }
    {
        let size = self.blocks.size;
        let left = n - sort.share(passed.members, passed.block * size);
        self.place_in_block(sort, passed.block, left, |before| {
            bits::kth_after(self.mixed, sort, before, left, before + size)
        })
    }
}
