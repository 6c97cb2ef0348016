// Bits of one memory added to those of another, at any place.
ghost use Rattle.std.specs.Prelude.{◌≡◌, ℕ, ◌+◌, ◌*◌, ◌%◌, ◌≤◌, ◌<◌, Bool, ◌||◌, List, length};
ghost use Rattle.sets.specs.Lists.{over};
ghost use Rattle.sets.specs.Packing.{bytes_for, pack};
ghost use Rattle.bits.specs.Bits.{bit_at};
ghost use Rattle.bits.specs.Rows.{moved};
ghost use Rattle.bits.specs.Words.{Adds};

use super::laying::{lay, lay_whole};
use super::unaligned::{across, after};

// Adds the ones among the `n` bits of `from` after its first `q` to the bits after the first `p`.
fn copy_few(bytes: &mut [u8], p: usize, from: &[u8], q: usize, n: usize)
    requires room { p + n ≤ 8 * length bytes.old }
    requires within { q + n ≤ 8 * length from.now }
    requires some { 1 ≤ n }
    requires few { p % 8 + n ≤ 64 }
    ensures ones { Adds (moved p n (bit_at from.now) q) bytes.old bytes.new }
    ensures long { length bytes.new ≡ length bytes.old }
{
    let x = after(from, q) & (u64::MAX >> (64 - n));
    lay(bytes, p / 8, x << (p % 8));
}

// Adds the ones among the 64 `words` bits of `from` after the first `s` of its byte `j` to the bits from byte `k` on.
fn copy_words(bytes: &mut [u8], k: usize, from: &[u8], j: usize, s: u32, words: usize)
    requires short { s < 8 }
    requires room { k + 8 * words ≤ length bytes.old }
    requires within { j + 8 * words < length from.now }
    ensures ones { Adds (moved (8 * k) (64 * words) (bit_at from.now) (8 * j + s)) bytes.old bytes.new }
    ensures long { length bytes.new ≡ length bytes.old }
{
    for w in 0..words {
        lay_whole(bytes, k + 8 * w, across(from, j + 8 * w, s));
    }
}

/// Adds the ones among the `count` bits of `from` after its first `before` to the bits after the first `at`, and keeps the other bits of the
/// bitvector at the front, and what lies behind it.
pub fn copy(bytes: &mut [u8], at: u32, from: &[u8], before: u32, count: u32)
    requires room { at + count ≤ 8 * length bytes.old }
    requires within { before + count ≤ 8 * length from.now }
    ensures bits { (n : ℕ) (f : ℕ → Bool) (old : List ℕ) → at + count ≤ n → bytes.old ≡ over (pack n f) old → bytes_for n ≤ length old
        → bytes.new ≡ over (pack n (λ j. moved at count (bit_at from.now) before j || f j)) old }
    ensures long { length bytes.new ≡ length bytes.old }
{
    if count == 0 {
        return;
    }
    let (p, q, n) = (at as usize, before as usize, count as usize);
    let head = n.min(64 - p % 8);
    copy_few(bytes, p, from, q, head);
    if head < n {
        let words = (n - head - 1) / 64;
        copy_words(
            bytes,
            (p + head) / 8,
            from,
            (q + head) / 8,
            ((q + head) % 8) as u32,
            words,
        );
        let done = head + 64 * words;
        copy_few(bytes, p + done, from, q + done, n - done);
    }
}
