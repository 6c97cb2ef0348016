// How many members there are up to a bay, by parting the list.
ghost use Rattle.std.specs.Prelude.{◌≡◌, ◌≤◌, length};
ghost use Rattle.sets.specs.Search.{count_to};
ghost use Rattle.list.specs.Decoding.{is_among};
ghost use Rattle.list.specs.Places.{Cut};

use super::index::List;
use super::quarters::parting;

impl<'a> List<'a> {
    // How many of the bays 1 to `i` are members: so many numbers are at most `i`.
    pub(crate) fn members_to(&self, i: u32) -> u32
        ensures value { result ≡ count_to (is_among self.now.numbers.now) i }
        ensures bound { result ≤ length self.now.numbers.now }
        ensures cut { Cut self.now.numbers.now i result }
    {
        parting(self.numbers.len(), |place| self.numbers[place] as u32 <= i) as u32
    }
}
