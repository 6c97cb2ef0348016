// The run in which, or behind which, a bay falls.
ghost use Rattle.std.specs.Prelude.{◌≡◌, ◌≤◌, true};
ghost use Rattle.pioneer.specs.Found.{member_of, BegunIs, HeldIs};

use super::index::Pioneer;
use super::run::Run;
use sets::Sort;

impl<'a> Pioneer<'a> {
    // The last run that begins at or before bay `i`.
    pub(crate) fn begun(&self, i: u32) -> Option<Run>
        requires { i ≤ self.now.last }
        ensures { BegunIs self.now i result }
    {
        let start = bits::previous(self.starts, Sort::Members, i)?;
        let r = bits::ones(self.starts, i);
        let sum = bits::kth(self.sums, Sort::Members, r, self.count)?;
        let before = bits::previous(self.sums, Sort::Members, sum - 1).unwrap_or(0);
        Some(Run {
            start,
            before,
            length: sum - before,
        })
    }

    // Whether a run begins at bay `i`: then it is a member, and no run has to be counted.
    pub(crate) fn begins(&self, i: u32) -> bool
        requires { i ≤ self.now.last }
        ensures { result ≡ true → (1 ≤ i) × (member_of self.now i ≡ true) }
    {
        i > 0 && bits::get(self.starts, i)
    }

    // The run that bay `i` lies in. Where one begins at the next bay, none does, and no run has to be counted.
    pub(crate) fn held(&self, i: u32) -> Option<Run>
        requires { i ≤ self.now.last }
        ensures { HeldIs self.now i result }
    {
        if i < self.last && bits::get(self.starts, i + 1) {
            return None;
        }
        self.begun(i).filter(|run| run.holds(i))
    }
}
