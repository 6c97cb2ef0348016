// The six questions, answered by the run in which, or behind which, a bay falls.
ghost use Rattle.pioneer.specs.Found.{member_of};
ghost use Rattle.pioneer.specs.Runs.{set_of};
ghost use Rattle.sets.specs.Made.{made_sized};

use super::index::Pioneer;
use sets::{Counting, Sort, Walking};

impl<'a> Walking for Pioneer<'a> {
    ghost meant = { λ p. set_of p.last p.count p.starts.now p.sums.now };

    ghost sized = { λ p. made_sized p.last (member_of p) p.sized };

    fn last(&self) -> u32 {
        self.last
    }

    fn holds(&self, i: u32) -> bool {
        i <= self.last && (self.begins(i) || self.held(i).is_some())
    }

    fn next(&self, sort: Sort, i: u32) -> Option<u32> {
        let from = i.max(1);
        if from > self.last {
            return None;
        }
        if sort == Sort::Members && self.begins(from) {
            return Some(from);
        }
        match (sort, self.held(from)) {
            (Sort::Members, None) => bits::next(self.starts, Sort::Members, from, self.last),
            (Sort::Others, Some(run)) => {
                let behind = run.behind();
                (behind <= self.last).then_some(behind)
            }
            (Sort::Members, Some(_)) | (Sort::Others, None) => Some(from),
        }
    }

    fn previous(&self, sort: Sort, i: u32) -> Option<u32> {
        let to = i.min(self.last);
        match sort {
            Sort::Members => self.begun(to).map(|run| to.min(run.behind() - 1)),
            Sort::Others => {
                let bay = self.held(to).map_or(to, |run| run.start - 1);
                (bay > 0).then_some(bay)
            }
        }
    }

    fn bits(&self, before: u32, out: &mut [u8]) {
        self.unpack(before, out);
    }
}

impl<'a> Counting for Pioneer<'a> {
    fn rank(&self, sort: Sort, i: u32) -> u32 {
        let to = i.min(self.last);
        sort.share(self.members(to), to)
    }

    fn select(&self, sort: Sort, n: u32) -> Option<u32> {
        match sort {
            Sort::Members => self.member(n),
            Sort::Others => self.other(n),
        }
    }
}
