// What some bits of a row have.
ghost use Rattle.std.specs.Prelude.{◌≡◌, ◌+◌, ◌*◌, ◌<◌, ◌≤◌, Bool, not, ◌&&◌, length};
ghost use Rattle.bits.specs.Bits.{bit_at, is_bit};
ghost use Rattle.zombit.specs.Blocks.{blocks_of};
ghost use Rattle.zombit.specs.Filling.{has_member, has_other};
ghost use Rattle.zombit.specs.Looking.{set_in, RowOf};
ghost use Rattle.zombit.specs.Opening.{some_in};

use super::blocks::Blocks;
use sets::Sort;

// Whether there is a one, and a zero.
#[derive(Clone, Copy)]
pub(crate) struct Seen {
    pub(crate) one: bool,
    pub(crate) zero: bool,
}

impl Seen {
    // Whether there are both.
    pub(crate) fn is_mixed(self) -> bool
        ensures { result ≡ (self.one && self.zero) }
    {
        self.one && self.zero
    }
}

// Whether one of the `n` bits after the first `before` is of the sort, from word to word.
pub(crate) fn has(bits: &[u8], sort: Sort, before: u32, n: u32) -> bool
    requires within { before + n ≤ 8 * length bits.now }
    requires small { length bits.now ≤ 16384 }
    ensures { result ≡ some_in (is_bit bits.now sort) before n }
{
    bits::next(bits, sort, before + 1, before + n).is_some()
}

// What the `n` bits after the first `before` have, where they fit in a word.
fn look_in_word(bits: &[u8], before: u32, n: u32) -> Seen
    requires first { 1 ≤ n }
    requires few { n ≤ 64 }
    requires within { before + n ≤ 8 * length bits.now }
    requires small { length bits.now ≤ 16384 }
    ensures one { result.one ≡ some_in (bit_at bits.now) before n }
    ensures zero { result.zero ≡ some_in (λ i. not (bit_at bits.now i)) before n }
{
    let word = bits::row(bits, before);
    let first = u64::MAX >> (64 - n);
    Seen {
        one: word & first != 0,
        zero: !word & first != 0,
    }
}

// What the `n` bits after the first `before` have.
pub(crate) fn look(bits: &[u8], before: u32, n: u32) -> Seen
    requires first { 1 ≤ n }
    requires within { before + n ≤ 8 * length bits.now }
    requires small { length bits.now ≤ 16384 }
    ensures one { result.one ≡ some_in (bit_at bits.now) before n }
    ensures zero { result.zero ≡ some_in (λ i. not (bit_at bits.now i)) before n }
{
    if n <= 64 {
        look_in_word(bits, before, n)
    } else {
        Seen {
            one: has(bits, Sort::Members, before, n),
            zero: has(bits, Sort::Others, before, n),
        }
    }
}

impl Blocks {
    // What block `k` has of the set whose bays are the bits of the row.
    pub(crate) fn look(self, row: &[u8], k: u32) -> Seen
        requires row { RowOf self.last self.size row.now }
        requires block { k < blocks_of self.last self.size }
        ensures one { result.one ≡ has_member self.size (set_in self.last row.now) k }
        ensures zero { result.zero ≡ has_other self.size (set_in self.last row.now) k }
    {
        look(row, self.place(k, 0), self.size)
    }
}
