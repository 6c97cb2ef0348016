// 64 bits from any bit on, as a number.
ghost use Rattle.std.specs.Prelude.{◌≡◌, ◌+◌, ◌*◌, ◌<◌, ◌≤◌, length};
ghost use Rattle.bits.specs.Bits.{bit_at};
ghost use Rattle.bits.specs.Words.{Holds};

use super::words::{last_word, whole_word};

// The 64 bits after the first `s` of byte `j`, the first of them as the lowest.
pub(crate) fn across(bytes: &[u8], j: usize, s: u32) -> u64
    requires short { s < 8 }
    requires within { j + 9 ≤ length bytes.now }
    ensures { Holds (bit_at bytes.now) (8 * j + s) 64 result }
{
    whole_word(bytes, j) >> s | (u64::from(bytes[j + 8]) << 1 << (63 - s))
}

// The 64 bits after the first `p`, the first of them as the lowest; those past the last byte are 0.
pub(crate) fn after(bytes: &[u8], p: usize) -> u64
    requires within { p ≤ 8 * length bytes.now }
    ensures { Holds (bit_at bytes.now) p 64 result }
{
    let (j, s) = (p / 8, (p % 8) as u32);
    if bytes.len() - j > 8 {
        across(bytes, j, s)
    } else {
        last_word(bytes, j) >> s
    }
}

/// The 64 bits after the first `before`, the first of them as the lowest; those past the last byte are 0.
pub fn row(bytes: &[u8], before: u32) -> u64
    requires within { before ≤ 8 * length bytes.now }
    ensures { Holds (bit_at bytes.now) before 64 result }
{
    after(bytes, before as usize)
}
