// The k-th bit of a sort: the stretch of 512 bits that it is in, its word there, and its place in the word.
ghost use Rattle.std.specs.Prelude.{◌≡◌, ◌+◌, ◌*◌, ◌/◌, ◌%◌, ◌^◌, ◌<◌, ◌≤◌, length};
ghost use Rattle.std.specs.Int.Count.{ones as ones_of};
ghost use Rattle.sets.specs.Search.{count_to, kth_to};
ghost use Rattle.bits.specs.Bits.{is_bit};

use super::count::ones_in_words;
use super::scan::at_most;
use super::words::{whole_word_of, word};
use sets::Sort;

// The place, from 0, of the `k`-th one of `w`: the lowest after the `k` - 1 lowest are gone.
pub(crate) fn place_in_word(w: u64, k: u32) -> u32
    requires first { 1 ≤ k }
    requires within { k ≤ ones_of w }
    ensures below { result < 64 }
    ensures hit { w / 2 ^ result % 2 ≡ 1 }
    ensures kth { ones_of (w % 2 ^ result) + 1 ≡ k }
{
    let mut left = w;
    for _ in 1..k {
        left &= left - 1;
    }
    left.trailing_zeros()
}

// Of stretches of 512 bits the one, from 0, with the `k`-th bit of the sort, and which of its bits it is; past the `n`-th where there is none.
fn stretch_with(bytes: &[u8], sort: Sort, k: u32, n: u32) -> (u32, u32)
    requires first { 1 ≤ k }
    requires within { 64 * n ≤ length bytes.now }
    requires small { 512 * n < 4294967296 }
    ensures upto { result.0 ≤ n }
    ensures some { 1 ≤ result.1 }
    ensures left { count_to (is_bit bytes.now sort) (512 * result.0) + result.1 ≡ k }
{
    let mut left = k;
    for s in 0..n {
        let here = sort.share(ones_in_words(bytes, 8 * s, 8 * s + 8), 512);
        if left <= here {
            return (s, left);
        }
        left -= here;
    }
    (n, left)
}

// Of the words `from` to `to`, counted from 0 and without the last, the one with the `k`-th bit of the sort behind the words before `from`, and
// which of its bits it is; past `to` where there is none.
fn word_with(bytes: &[u8], sort: Sort, from: u32, to: u32, k: u32) -> (u32, u32)
    requires order { from ≤ to }
    requires first { 1 ≤ k }
    requires within { 8 * to ≤ length bytes.now }
    ensures upto { result.0 ≤ to }
    ensures some { 1 ≤ result.1 }
    ensures left { count_to (is_bit bytes.now sort) (64 * result.0) + result.1 ≡ count_to (is_bit bytes.now sort) (64 * from) + k }
    ensures here { result.0 < to
        → count_to (is_bit bytes.now sort) (64 * result.0) + result.1 ≤ count_to (is_bit bytes.now sort) (64 * result.0 + 64) }
{
    let mut left = k;
    for w in from..to {
        let n = whole_word_of(bytes, sort, 8 * w as usize).count_ones();
        if left <= n {
            return (w, left);
        }
        left -= n;
    }
    (to, left)
}

/// The `k`-th bit of the sort from 1 to `last`; none at 0 and beyond their number.
pub fn kth(bytes: &[u8], sort: Sort, k: u32, last: u32) -> Option<u32>
    requires within { last ≤ 8 * length bytes.now }
    ensures { result ≡ kth_to (is_bit bytes.now sort) k last }
{
    if k == 0 {
        return None;
    }
    let (stretch, left) = stretch_with(bytes, sort, k, last / 512);
    let (w, left) = word_with(bytes, sort, 8 * stretch, last / 64, left);
    let v = word(bytes, sort, 8 * w as usize);
    if left > v.count_ones() {
        return None;
    }
    at_most(64 * w as u64 + 1 + place_in_word(v, left) as u64, last)
}
