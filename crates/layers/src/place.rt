// Where a level lies in the set beneath.
ghost use Rattle.std.specs.Prelude.{◌≡◌, ◌+◌, ◌-◌, ◌^◌, min};
ghost use Rattle.layers.specs.Lifts.{lifted};

use super::level::Level;
use sets::Counting;

impl<S: Counting> Level<S> {
    // How many bays beneath come before the level.
    pub(crate) fn before(&self) -> u32
        ensures { result ≡ self.now.first - 1 }
    {
        self.first - 1
    }

    // Bay `i` of the level as a bay beneath; 0 is the one before the first.
    pub(crate) fn beneath(&self, i: u32) -> u32
        ensures { result ≡ min (self.now.first - 1 + i) (2 ^ 32 - 1) }
    {
        self.before().saturating_add(i)
    }

    // A bay beneath as a bay of the level; none where it lies outside.
    pub(crate) fn lift(&self, bay: Option<u32>) -> Option<u32>
        ensures { result ≡ lifted (self.now.first - 1) (self.now.last - self.now.first + 1) bay }
    {
        let before = self.before();
        bay.filter(|q| self.first <= *q && *q <= self.last)
            .map(|q| q - before)
    }
}
