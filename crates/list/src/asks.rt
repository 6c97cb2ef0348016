// The six questions, asked of the numbers.
ghost use Rattle.list.specs.Decoding.{is_among, set_of};
ghost use Rattle.sets.specs.Made.{made_sized};

use super::index::List;
use super::putting::put_numbers;
use sets::{Counting, Sort, Walking};

impl<'a> Walking for List<'a> {
    ghost meant = { λ x. set_of x.last x.numbers.now };

    ghost sized = { λ x. made_sized x.last (is_among x.numbers.now) x.sized };

    fn last(&self) -> u32 {
        self.last
    }

    fn holds(&self, i: u32) -> bool {
        self.ends(self.members_to(i), i)
    }

    fn next(&self, sort: Sort, i: u32) -> Option<u32> {
        match sort {
            Sort::Members => self.select(sort, self.rank(sort, i.saturating_sub(1)) + 1),
            Sort::Others => self.next_other(i.max(1)),
        }
    }

    fn previous(&self, sort: Sort, i: u32) -> Option<u32> {
        match sort {
            Sort::Members => self.select(sort, self.rank(sort, i)),
            Sort::Others => self.previous_other(i.min(self.last)),
        }
    }

    fn bits(&self, before: u32, out: &mut [u8]) {
        let first = self.members_to(before) as usize;
        put_numbers(&self.numbers[first..], before, out);
    }
}

impl<'a> Counting for List<'a> {
    fn rank(&self, sort: Sort, i: u32) -> u32 {
        let to = i.min(self.last);
        sort.share(self.members_to(to), to)
    }

    fn select(&self, sort: Sort, n: u32) -> Option<u32> {
        let place = n.checked_sub(1)?;
        if n > self.last {
            return None;
        }
        match sort {
            Sort::Members => self
                .numbers
                .get(place as usize)
                .map(|number| *number as u32),
            Sort::Others => self.nth_other(n),
        }
    }
}
