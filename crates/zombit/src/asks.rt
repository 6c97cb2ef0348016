// The six questions, asked of the blocks.
ghost use Rattle.sets.specs.Made.{made_sized};
ghost use Rattle.zombit.specs.Meant.{bays, meaning};

use super::blocks::Spot;
use super::index::Zombit;
use super::kind::Kind;
use super::passed::Passed;
use sets::{Counting, Sort, Walking};

impl<'a> Walking for Zombit<'a> {
    ghost meant = { meaning };

    ghost sized = { λ z. made_sized z.blocks.last (bays z) z.blocks.sized };

    fn last(&self) -> u32 {
        self.blocks.last
    }

    fn holds(&self, i: u32) -> bool {
        if i == 0 || i > self.blocks.last {
            return false;
        }
        let Spot { block, at } = self.blocks.spot(i);
        match self.kind(Sort::Members, block) {
            Kind::All => true,
            Kind::Bare => false,
            Kind::Mixed => bits::get(self.mixed, self.bits_before(block) + at),
        }
    }

    fn next(&self, sort: Sort, i: u32) -> Option<u32> {
        if i > self.blocks.last {
            return None;
        }
        self.within(self.first_from(sort, i.max(1)))
    }

    fn previous(&self, sort: Sort, i: u32) -> Option<u32> {
        let to = i.min(self.blocks.last);
        if to == 0 {
            return None;
        }
        let Spot { block, at } = self.blocks.spot(to);
        // A match: with `or_else` over a closure that asks the whole index, the proof of what is returned did not close.
        match self.last_in_block(sort, block, at) {
            Some(bay) => Some(bay),
            None => self.last_to_block(sort, block),
        }
    }

    fn bits(&self, before: u32, out: &mut [u8]) {
        out.fill(0);
        if before < self.blocks.last {
            self.unpack(before, out);
        }
    }
}

impl<'a> Counting for Zombit<'a> {
    fn rank(&self, sort: Sort, i: u32) -> u32 {
        let to = i.min(self.blocks.last);
        sort.share(self.members_to(to), to)
    }

    fn select(&self, sort: Sort, n: u32) -> Option<u32> {
        if n == 0 || n > self.rank(sort, self.blocks.last) {
            return None;
        }
        let none = Passed {
            block: 0,
            bits: 0,
            members: 0,
        };
        let group = self.pass(sort, n, none, 64);
        let eight = self.pass(sort, n, group, 8);
        let passed = self.pass(sort, n, eight, 1);
        if passed.block == self.blocks.count() {
            return None;
        }
        self.within(self.nth_in_block(sort, n, passed))
    }
}
