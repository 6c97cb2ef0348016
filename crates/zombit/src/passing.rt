// Passing over blocks, some at a time, while the bays are counted.
ghost use Rattle.std.specs.Prelude.{◌≡◌, ◌+◌, ◌*◌, ◌<◌, ◌≤◌};
ghost use Rattle.sets.specs.Search.{count_to};
ghost use Rattle.zombit.specs.Meant.{blocks, sorted};
ghost use Rattle.zombit.specs.Passing.{IsPassed};

use super::index::Zombit;
use super::passed::Passed;
use sets::Sort;

impl<'a> Zombit<'a> {
    // What the blocks that were passed have, and `n` blocks more.
    fn behind(&self, passed: Passed, n: u32) -> Passed
        requires is { IsPassed self.now passed }
        requires first { 1 ≤ n }
        requires few { n ≤ 64 }
        requires within { passed.block + n ≤ blocks self.now }
        ensures is { IsPassed self.now result }
        ensures block { result.block ≡ passed.block + n }
    {
        let size = self.blocks.size;
        let first = u64::MAX >> (64 - n);
        let mixed = (!bits::row(self.uniform, passed.block) & first).count_ones();
        let marked = (bits::row(self.marked, passed.block) & first).count_ones();
        let bits = passed.bits + mixed * size;
        let ones = bits::ones_after(self.mixed, passed.bits, bits);
        Passed {
            block: passed.block + n,
            bits,
            members: passed.members + marked * size + ones - mixed * size,
        }
    }

    // Passes over `step` blocks at a time, as long as they end before the `n`-th place of the sort.
    pub(crate) fn pass(&self, sort: Sort, n: u32, passed: Passed, step: u32) -> Passed
        requires is { IsPassed self.now passed }
        requires first { 1 ≤ step }
        requires few { step ≤ 64 }
        requires before { count_to (sorted self.now sort) (passed.block * self.now.blocks.size) < n }
        ensures is { IsPassed self.now result }
        ensures before { count_to (sorted self.now sort) (result.block * self.now.blocks.size) < n }
        ensures reached { result.block + step ≤ blocks self.now
            → n ≤ count_to (sorted self.now sort) ((result.block + step) * self.now.blocks.size) }
    {
        let mut passed = passed;
        for _ in 0..(self.blocks.count() - passed.block) / step {
            let behind = self.behind(passed, step);
            if n <= sort.share(behind.members, behind.block * self.blocks.size) {
                return passed;
            }
            passed = behind;
        }
        passed
    }
}
