// The six questions of a level, asked of the set beneath.
#![tactic(auto, using(crate::proofs::Levels::levels))]

ghost use Rattle.layers.specs.Layers.{level_in, level_sized};

use super::level::Level;
use sets::{Counting, Sort, Walking};

impl<S: Counting> Walking for Level<S> {
    ghost meant = { λ x. level_in x.first x.last (S.Walking.meant x.below) };

    ghost sized = { λ x. level_sized x.first x.last (S.Walking.meant x.below) (S.Walking.sized x.below) };

    fn last(&self) -> u32 {
        self.last - self.before()
    }

    fn holds(&self, i: u32) -> bool {
        if i == 0 || i > self.last() {
            return false;
        }
        let bay = self.before() + i;
        self.below.holds(bay)
    }

    fn next(&self, sort: Sort, i: u32) -> Option<u32> {
        let from = self.beneath(i.max(1));
        self.lift(self.below.next(sort, from))
    }

    fn previous(&self, sort: Sort, i: u32) -> Option<u32> {
        let to = self.beneath(i).min(self.last);
        self.lift(self.below.previous(sort, to))
    }

    fn bits(&self, before: u32, out: &mut [u8]) {
        self.below.bits(self.beneath(before), out);
        bits::cut(out, self.last().saturating_sub(before));
    }
}

impl<S: Counting> Counting for Level<S> {
    fn rank(&self, sort: Sort, i: u32) -> u32 {
        let to = self.beneath(i).min(self.last);
        let before = self.below.rank(sort, self.before());
        self.below.rank(sort, to) - before
    }

    fn select(&self, sort: Sort, n: u32) -> Option<u32> {
        let before = self.below.rank(sort, self.before());
        self.lift(self.below.select(sort, before.saturating_add(n)))
    }
}
