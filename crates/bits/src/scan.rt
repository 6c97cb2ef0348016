// The next and the previous bit of a sort.
ghost use Rattle.std.specs.Prelude.{◌≡◌, ℕ, suc, ◌+◌, ◌-◌, ◌*◌, ◌/◌, ◌<◌, ◌≤◌, false, length};
ghost use Rattle.sets.specs.Search.{first_from, last_to};
ghost use Rattle.bits.specs.Bits.{is_bit};
ghost use Rattle.bits.specs.Words.{at_most};

use super::words::{whole_word_of, word};
use sets::Sort;

// `i`, unless it lies beyond `last`.
pub(crate) fn at_most(i: u64, last: u32) -> Option<u32>
    ensures { result ≡ at_most last i }
{
    if i <= u64::from(last) {
        Some(i as u32)
    } else {
        None
    }
}

// The first bit of the sort from `from` to `last`, which lie in one word.
fn next_in_word(bytes: &[u8], sort: Sort, from: u32, last: u32) -> Option<u32>
    requires first { 1 ≤ from }
    requires near { last ≤ 64 * ((from - 1) / 64) + 64 }
    requires within { from ≤ 8 * length bytes.now + 1 }
    ensures { result ≡ first_from (is_bit bytes.now sort) from (suc last - from) }
{
    let p = from - 1;
    let v = word(bytes, sort, 8 * (p / 64) as usize) >> (p % 64);
    at_most(from as u64 + v.trailing_zeros() as u64, last)
}

// The same, where the word of `from` is that of `last`, or none of its bits from `from` on is of the sort.
#[inline(never)]
fn next_behind(bytes: &[u8], sort: Sort, from: u32, last: u32) -> Option<u32>
    requires first { 1 ≤ from }
    requires within { last ≤ 8 * length bytes.now }
    requires none { (from - 1) / 64 < last / 64
        → (i : ℕ) → from ≤ i → i ≤ 64 * ((from - 1) / 64) + 64 → is_bit bytes.now sort i ≡ false }
    ensures { result ≡ first_from (is_bit bytes.now sort) from (suc last - from) }
{
    let end = last / 64;
    for w in (from - 1) / 64 + 1..end {
        let x = whole_word_of(bytes, sort, 8 * w as usize);
        if x != 0 {
            return Some(64 * w + 1 + x.trailing_zeros());
        }
    }
    let start = from.max(64 * end + 1);
    if start > last {
        return None;
    }
    next_in_word(bytes, sort, start, last)
}

/// The first bit of the sort from `from` to `last`.
#[inline]
pub fn next(bytes: &[u8], sort: Sort, from: u32, last: u32) -> Option<u32>
    requires first { 1 ≤ from }
    requires within { last ≤ 8 * length bytes.now }
    ensures { result ≡ first_from (is_bit bytes.now sort) from (suc last - from) }
{
    let p = from - 1;
    if p / 64 < last / 64 {
        let v = whole_word_of(bytes, sort, 8 * (p / 64) as usize) >> (p % 64);
        if v != 0 {
            return Some(from + v.trailing_zeros());
        }
    }
    next_behind(bytes, sort, from, last)
}

// The last bit of the sort in the first `words` words.
#[inline(never)]
fn previous_in_words(bytes: &[u8], sort: Sort, words: u32) -> Option<u32>
    requires within { 8 * words ≤ length bytes.now }
    requires small { 64 * words < 4294967296 }
    ensures { result ≡ last_to (is_bit bytes.now sort) (64 * words) }
{
    for w in (0..words).rev() {
        let x = whole_word_of(bytes, sort, 8 * w as usize);
        if x != 0 {
            return Some(64 * w + (64 - x.leading_zeros()));
        }
    }
    None
}

/// The last bit of the sort from 1 to `from`.
#[inline]
pub fn previous(bytes: &[u8], sort: Sort, from: u32) -> Option<u32>
    requires within { from ≤ 8 * length bytes.now }
    ensures { result ≡ last_to (is_bit bytes.now sort) from }
{
    let p = from.checked_sub(1)?;
    let v = word(bytes, sort, 8 * (p / 64) as usize) & (u64::MAX >> (63 - p % 64));
    if v != 0 {
        return Some(64 * (p / 64) + (64 - v.leading_zeros()));
    }
    previous_in_words(bytes, sort, p / 64)
}
