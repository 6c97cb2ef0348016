// Single bits, and 64 bits at a time as a number.
ghost use Rattle.std.specs.Prelude.{◌≡◌, ℕ, ◌+◌, ◌*◌, ◌<◌, ◌≤◌, Bool, length};
ghost use Rattle.sets.specs.Made.{of_sort};
ghost use Rattle.bits.specs.Bits.{bit_at, is_bit};
ghost use Rattle.bits.specs.Words.{Holds};

use sets::Sort;

/// Bit `i`.
pub fn get(bytes: &[u8], i: u32) -> bool
    requires first { 1 ≤ i }
    requires within { i ≤ 8 * length bytes.now }
    ensures { result ≡ bit_at bytes.now i }
{
    let p = i - 1;
    (bytes[(p / 8) as usize] >> (p % 8)) % 2 == 1
}

/// The 64 bits from byte `j` on, the first of them as the lowest.
pub fn whole_word(bytes: &[u8], j: usize) -> u64
    requires within { j + 8 ≤ length bytes.now }
    ensures { Holds (bit_at bytes.now) (8 * j) 64 result }
{
    let (eights, _) = bytes[j..].as_chunks();
    u64::from_le_bytes(eights[0])
}

// The 64 bits from byte `j` on, where at most 8 bytes are left: the bits past the last byte are 0.
#[cold]
#[inline(never)]
pub(crate) fn last_word(bytes: &[u8], j: usize) -> u64
    requires within { j ≤ length bytes.now }
    requires short { length bytes.now ≤ j + 8 }
    ensures { Holds (bit_at bytes.now) (8 * j) 64 result }
{
    let mut w = 0;
    for k in (j..bytes.len()).rev() {
        w = 256 * w + u64::from(bytes[k]);
    }
    w
}

// The ones of `w`, or its zeros as ones.
fn of_sort(w: u64, sort: Sort) -> u64
    ensures { (f : ℕ → Bool) (p : ℕ) → Holds f p 64 w → Holds (of_sort sort f) p 64 result }
{
    match sort {
        Sort::Members => w,
        Sort::Others => !w,
    }
}

// The 64 bits from byte `j` on, each as 1 where it is of the sort, and as 0 where it is not.
pub(crate) fn whole_word_of(bytes: &[u8], sort: Sort, j: usize) -> u64
    requires within { j + 8 ≤ length bytes.now }
    ensures { Holds (is_bit bytes.now sort) (8 * j) 64 result }
{
    of_sort(whole_word(bytes, j), sort)
}

// The same, where fewer than 8 bytes may be left: the bits past the last byte are read as 0.
pub(crate) fn word(bytes: &[u8], sort: Sort, j: usize) -> u64
    requires within { j ≤ length bytes.now }
    ensures { Holds (is_bit bytes.now sort) (8 * j) 64 result }
{
    if bytes.len() - j >= 8 {
        whole_word_of(bytes, sort, j)
    } else {
        of_sort(last_word(bytes, j), sort)
    }
}
