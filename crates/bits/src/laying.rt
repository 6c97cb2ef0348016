// The ones of a number added to 64 bits of a memory, and bytes filled with ones.
ghost use Rattle.std.specs.Prelude.{◌≡◌, ◌+◌, ◌≤◌, length};
ghost use Rattle.bits.specs.Words.{in_bytes, in_word, Adds};

use super::words::{last_word, whole_word};

// Adds the ones of `x` to the 64 bits from byte `k` on.
pub(crate) fn lay_whole(bytes: &mut [u8], k: usize, x: u64)
    requires { k + 8 ≤ length bytes.old }
    ensures ones { Adds (in_word k x) bytes.old bytes.new }
    ensures long { length bytes.new ≡ length bytes.old }
{
    let w = (whole_word(bytes, k) | x).to_le_bytes();
    bytes[k..k + 8].copy_from_slice(&w);
}

// Adds the ones of `x` to the 64 bits from byte `k` on; those past the last byte are dropped.
pub(crate) fn lay(bytes: &mut [u8], k: usize, x: u64)
    requires { k ≤ length bytes.old }
    ensures ones { Adds (in_word k x) bytes.old bytes.new }
    ensures long { length bytes.new ≡ length bytes.old }
{
    let n = bytes.len() - k;
    if n >= 8 {
        lay_whole(bytes, k, x);
    } else {
        let w = (last_word(bytes, k) | x).to_le_bytes();
        bytes[k..].copy_from_slice(&w[..n]);
    }
}

// Makes each bit of the bytes `a` to `b` 1, without the last.
pub(crate) fn fill(bytes: &mut [u8], a: usize, b: usize)
    requires order { a ≤ b }
    requires within { b ≤ length bytes.old }
    ensures ones { Adds (in_bytes a b) bytes.old bytes.new }
    ensures long { length bytes.new ≡ length bytes.old }
{
    bytes[a..b].fill(u8::MAX);
}
