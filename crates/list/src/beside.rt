// Whether a bay is a member, where it is known how many members lie up to it or before it.
ghost use Rattle.std.specs.Prelude.{◌≡◌, ◌+◌, ◌<◌};
ghost use Rattle.list.specs.Decoding.{is_among};
ghost use Rattle.list.specs.Places.{Cut};

use super::index::List;

impl<'a> List<'a> {
    // Whether bay `i` is a member, where so many numbers are at most `i`.
    pub(crate) fn ends(&self, members: u32, i: u32) -> bool
        requires { Cut self.now.numbers.now i members }
        ensures { result ≡ is_among self.now.numbers.now i }
    {
        members > 0 && self.numbers[members as usize - 1] as u32 == i
    }

    // Whether bay `i + 1` is a member, where so many numbers are at most `i`.
    pub(crate) fn goes_on(&self, members: u32, i: u32) -> bool
        requires cut { Cut self.now.numbers.now i members }
        requires small { i < 65536 }
        ensures { result ≡ is_among self.now.numbers.now (i + 1) }
    {
        let place = members as usize;
        place < self.numbers.len() && self.numbers[place] as u32 == i + 1
    }
}
