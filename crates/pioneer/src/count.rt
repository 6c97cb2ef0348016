// How many members lie up to a bay, and the k-th bay of a sort.
ghost use Rattle.std.specs.Prelude.{◌≡◌, ◌≤◌, not};
ghost use Rattle.pioneer.specs.Found.{member_of};
ghost use Rattle.sets.specs.Search.{count_to, kth_to};

use super::between::Between;
use super::index::Pioneer;
use sets::Sort;

impl<'a> Pioneer<'a> {
    // How many members lie from bay 1 to bay `i`.
    pub(crate) fn members(&self, i: u32) -> u32
        requires { i ≤ self.now.last }
        ensures value { result ≡ count_to (member_of self.now) i }
        ensures bound { result ≤ i }
    {
        // A match: with `map_or` over a closure, the differences in it were not proved to fit.
        match self.begun(i) {
            Some(run) => run.before + (i - run.start + 1).min(run.length),
            None => 0,
        }
    }

    // The `k`-th member: its run is the one whose sum is the first that is not below k.
    pub(crate) fn member(&self, k: u32) -> Option<u32>
        ensures { result ≡ kth_to (member_of self.now) k self.now.last }
    {
        if k == 0 || k > self.count {
            return None;
        }
        let r = bits::ones(self.sums, k - 1) + 1;
        let start = bits::kth(self.starts, Sort::Members, r, self.last)?;
        let before = bits::previous(self.sums, Sort::Members, k - 1).unwrap_or(0);
        Some(start + (k - before) - 1)
    }

    // The `k`-th non-member lies behind as many members as the runs before it have. Where the last run that begins by a bay is the last one
    // before it, it is found; else it lies before that run, or behind that bay.
    pub(crate) fn other(&self, k: u32) -> Option<u32>
        ensures { result ≡ kth_to (λ j. not (member_of self.now j)) k self.now.last }
    {
        if k == 0 || k > self.last - self.count {
            return None;
        }
        let mut between = Between {
            low: 0,
            few: 0,
            high: self.last,
            enough: self.last - self.count,
        };
        let mut tries: u32 = 0;
        while between.low < between.high {
            let bay = between.pick(k, tries);
            let (start, before, sum) = self.begun(bay).map_or(
                (0, 0, 0),
                |run| (run.start, run.before, run.before + run.length),
            );
            let behind = start + (sum - before);
            let found = k + sum;
            if found < behind {
                between.high = start - 1;
                between.enough = start - 1 - before;
            } else if bits::next(self.starts, Sort::Members, bay + 1, found).is_none() {
                return Some(found);
            } else {
                between.low = bay.max(behind.saturating_sub(1));
                between.few = between.low - sum;
            }
            tries = tries.saturating_add(1);
        }
        None
    }
}
