// The n-th of the others, and how many members there are before it, by parting the list.
ghost use Rattle.std.specs.Prelude.{◌≡◌, ◌+◌, ◌≤◌, false, length};
ghost use Rattle.sets.specs.Search.{count_to};
ghost use Rattle.sets.specs.Sets.{select_of};
ghost use Rattle.sets.specs.declared.Sort.TheVariants.{Others};
ghost use Rattle.list.specs.Decoding.{is_among, set_of};

use super::index::List;
use super::quarters::parting;

impl<'a> List<'a> {
    // How many members lie before the `n`-th of the others, as if there were bays without end. The number at `place`, from 0,
    // has `numbers[place] - (place + 1)` of the others before it.
    pub(crate) fn members_before(&self, n: u32) -> u32
        ensures value { result ≡ count_to (is_among self.now.numbers.now) (n + result) }
        ensures other { is_among self.now.numbers.now (n + result) ≡ false }
        ensures bound { result ≤ length self.now.numbers.now }
    {
        parting(self.numbers.len(), |place| {
            self.numbers[place] as u32 - (place as u32 + 1) < n
        }) as u32
    }

    // The `n`-th of the others; none at 0 and beyond their number.
    pub(crate) fn nth_other(&self, n: u32) -> Option<u32>
        ensures { result ≡ select_of (set_of self.now.last self.now.numbers.now) Others n }
    {
        if n == 0 || n > self.last {
            return None;
        }
        let bay = n + self.members_before(n);
        (bay <= self.last).then_some(bay)
    }
}
