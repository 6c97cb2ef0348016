// A reference to a set is a set.
use super::{Counting, Sort, Walking};

impl<'a, S: Walking> Walking for &'a S {
    ghost meant = { λ t. S.Walking.meant t.now };

    ghost sized = { λ t. S.Walking.sized t.now };

    fn last(&self) -> u32 {
        (**self).last()
    }

    fn holds(&self, i: u32) -> bool {
        (**self).holds(i)
    }

    fn next(&self, sort: Sort, i: u32) -> Option<u32> {
        (**self).next(sort, i)
    }

    fn previous(&self, sort: Sort, i: u32) -> Option<u32> {
        (**self).previous(sort, i)
    }

    fn bits(&self, before: u32, out: &mut [u8]) {
        (**self).bits(before, out)
    }
}

impl<'a, S: Counting> Counting for &'a S {
    fn rank(&self, sort: Sort, i: u32) -> u32 {
        (**self).rank(sort, i)
    }

    fn select(&self, sort: Sort, n: u32) -> Option<u32> {
        (**self).select(sort, n)
    }
}
