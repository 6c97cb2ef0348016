// The six questions, asked of the form's own index.
ghost use Rattle.forms.specs.Meant.{meant_of, meant_sized};

use super::index::Index;
use sets::{Counting, Sort, Walking};

impl<'a> Walking for Index<'a> {
    ghost meant = { meant_of };

    ghost sized = { meant_sized };

    fn last(&self) -> u32 {
        match self {
            Index::Plain(index) => index.last(),
            Index::List(index) => index.last(),
            Index::Zombit(index) => index.last(),
            Index::Pioneer(index) => index.last(),
        }
    }

    fn holds(&self, i: u32) -> bool {
        match self {
            Index::Plain(index) => index.holds(i),
            Index::List(index) => index.holds(i),
            Index::Zombit(index) => index.holds(i),
            Index::Pioneer(index) => index.holds(i),
        }
    }

    fn next(&self, sort: Sort, i: u32) -> Option<u32> {
        match self {
            Index::Plain(index) => index.next(sort, i),
            Index::List(index) => index.next(sort, i),
            Index::Zombit(index) => index.next(sort, i),
            Index::Pioneer(index) => index.next(sort, i),
        }
    }

    fn previous(&self, sort: Sort, i: u32) -> Option<u32> {
        match self {
            Index::Plain(index) => index.previous(sort, i),
            Index::List(index) => index.previous(sort, i),
            Index::Zombit(index) => index.previous(sort, i),
            Index::Pioneer(index) => index.previous(sort, i),
        }
    }

    fn bits(&self, before: u32, out: &mut [u8]) {
        match self {
            Index::Plain(index) => index.bits(before, out),
            Index::List(index) => index.bits(before, out),
            Index::Zombit(index) => index.bits(before, out),
            Index::Pioneer(index) => index.bits(before, out),
        }
    }
}

impl<'a> Counting for Index<'a> {
    fn rank(&self, sort: Sort, i: u32) -> u32 {
        match self {
            Index::Plain(index) => index.rank(sort, i),
            Index::List(index) => index.rank(sort, i),
            Index::Zombit(index) => index.rank(sort, i),
            Index::Pioneer(index) => index.rank(sort, i),
        }
    }

    fn select(&self, sort: Sort, n: u32) -> Option<u32> {
        match self {
            Index::Plain(index) => index.select(sort, n),
            Index::List(index) => index.select(sort, n),
            Index::Zombit(index) => index.select(sort, n),
            Index::Pioneer(index) => index.select(sort, n),
        }
    }
}
