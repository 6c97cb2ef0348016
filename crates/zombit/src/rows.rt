// What the rows of an index say of a block, and the next and the previous block that has a sort.
ghost use Rattle.std.specs.Prelude.{◌≡◌, ℕ, suc, ◌-◌, ◌<◌, ◌≤◌};
ghost use Rattle.sets.specs.Search.{first_from, last_to};
ghost use Rattle.zombit.specs.Meant.{blocks, bits_before_block, block_has, KindIs, MixedAt};

use super::index::Zombit;
use super::kind::Kind;
use sets::Sort;

impl<'a> Zombit<'a> {
    // What block `k` is to the sort.
    pub(crate) fn kind(&self, sort: Sort, k: u32) -> Kind
        requires block { k < blocks self.now }
        ensures { KindIs self.now sort k result }
    {
        if !bits::get(self.uniform, k + 1) {
            Kind::Mixed
        } else if sort.fits(bits::get(self.marked, k + 1)) {
            Kind::All
        } else {
            Kind::Bare
        }
    }

    // How many bits of the mixed row lie before those of block `k`.
    pub(crate) fn bits_before(&self, k: u32) -> u32
        requires block { k ≤ blocks self.now }
        ensures value { result ≡ bits_before_block self.now k }
        ensures few { result ≤ 69631 }
    {
        self.blocks.mixed_bits(self.uniform, k)
    }

    // The first block after the mixed block `k` that is not mixed; past the last where there is none.
    pub(crate) fn mixed_to(&self, k: u32) -> u32
        requires block { k < blocks self.now }
        requires mixed { MixedAt self.now k }
        ensures more { k < result }
        ensures within { result ≤ blocks self.now }
        ensures run { (i : ℕ) → k ≤ i → i < result → MixedAt self.now i }
    {
        let count = self.blocks.count();
        match bits::next(self.uniform, Sort::Members, k + 1, count) {
            Some(bit) => bit - 1,
            None => count,
        }
    }

    // The first block from bit `from` on that has a place of the sort, by its bit.
    pub(crate) fn next_block(&self, sort: Sort, from: u32) -> Option<u32>
        requires first { 1 ≤ from }
        ensures { result ≡ first_from (block_has self.now sort) from (suc (blocks self.now) - from) }
    {
        let last = self.blocks.count();
        let marked = bits::next(self.marked, sort, from, last);
        match sort {
            Sort::Members => marked,
            // A non-member also lies in a mixed block, which is marked.
            Sort::Others => {
                bits::next(self.uniform, sort, from, marked.unwrap_or(last)).or(marked)
            }
        }
    }

    // The last block up to bit `to` that has a place of the sort, by its bit.
    pub(crate) fn previous_block(&self, sort: Sort, to: u32) -> Option<u32>
        requires within { to ≤ blocks self.now }
        ensures { result ≡ last_to (block_has self.now sort) to }
    {
        let marked = bits::previous(self.marked, sort, to);
        match sort {
            Sort::Members => marked,
            // A non-member also lies in a mixed block, which is marked.
            Sort::Others => bits::previous(self.uniform, sort, to).max(marked),
        }
    }
}
