// How many ones there are from any bit on, and the k-th bit of a sort.
ghost use Rattle.std.specs.Prelude.{◌≡◌, ◌+◌, ◌*◌, ◌≤◌, length};
ghost use Rattle.sets.specs.Search.{count_to, kth_to};
ghost use Rattle.bits.specs.Bits.{bit_at, is_bit};
ghost use Rattle.bits.specs.Words.{Holds};

use super::count::ones_in_words;
use super::scan::at_most;
use super::selecting::place_in_word;
use super::unaligned::row;
use super::words::word;
use sets::Sort;

/// How many of the bits after the first `from`, up to bit `to`, are 1.
pub fn ones_after(bytes: &[u8], from: u32, to: u32) -> u32
    requires order { from ≤ to }
    requires within { to ≤ 8 * length bytes.now }
    ensures { count_to (bit_at bytes.now) to ≡ count_to (bit_at bytes.now) from + result }
{
    let (first, past) = (from / 64, to / 64);
    let head = word(bytes, Sort::Members, 8 * first as usize) & ((1u64 << (from % 64)) - 1);
    let tail = word(bytes, Sort::Members, 8 * past as usize) & ((1u64 << (to % 64)) - 1);
    ones_in_words(bytes, first, past) + tail.count_ones() - head.count_ones()
}

// The 64 bits after the first `before`, each as 1 where it is of the sort, and as 0 where it is not.
fn row_of(bytes: &[u8], sort: Sort, before: u32) -> u64
    requires within { before ≤ 8 * length bytes.now }
    ensures { Holds (is_bit bytes.now sort) before 64 result }
{
    let w = row(bytes, before);
    match sort {
        Sort::Members => w,
        Sort::Others => !w,
    }
}

/// The `k`-th bit of the sort after the first `from` bits, up to `last`.
pub fn kth_after(bytes: &[u8], sort: Sort, from: u32, k: u32, last: u32) -> Option<u32>
    requires first { 1 ≤ k }
    requires order { from ≤ last }
    requires within { last ≤ 8 * length bytes.now }
    ensures { result ≡ kth_to (is_bit bytes.now sort) (count_to (is_bit bytes.now sort) from + k) last }
{
    let mut left = k;
    for w in 0..(last - from).div_ceil(64) {
        let before = from + 64 * w;
        let v = row_of(bytes, sort, before);
        let n = v.count_ones();
        if left <= n {
            return at_most(before as u64 + 1 + place_in_word(v, left) as u64, last);
        }
        left -= n;
    }
    None
}
