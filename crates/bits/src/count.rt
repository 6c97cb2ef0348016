// How many ones there are.
ghost use Rattle.std.specs.Prelude.{◌≡◌, ◌+◌, ◌*◌, ◌<◌, ◌≤◌, length};
ghost use Rattle.sets.specs.Search.{count_to};
ghost use Rattle.bits.specs.Bits.{bit_at};

use super::words::{whole_word, word};
use sets::Sort;

// How many of the bits of the words `from` to `to`, counted from 0, are 1, without the last.
pub(crate) fn ones_in_words(bytes: &[u8], from: u32, to: u32) -> u32
    requires order { from ≤ to }
    requires within { 8 * to ≤ length bytes.now }
    requires small { 64 * to < 4294967296 }
    ensures { count_to (bit_at bytes.now) (64 * to) ≡ count_to (bit_at bytes.now) (64 * from) + result }
{
    let mut n = 0;
    for w in from..to {
        n += whole_word(bytes, 8 * w as usize).count_ones();
    }
    n
}

/// How many of the bits 1 to `i` are 1.
pub fn ones(bytes: &[u8], i: u32) -> u32
    requires within { i ≤ 8 * length bytes.now }
    ensures value { result ≡ count_to (bit_at bytes.now) i }
    ensures bound { result ≤ i }
{
    let whole = i / 64;
    let tail = word(bytes, Sort::Members, 8 * whole as usize) & ((1u64 << (i % 64)) - 1);
    ones_in_words(bytes, 0, whole) + tail.count_ones()
}
