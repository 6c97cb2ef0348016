// Whether bytes are a bitvector.
ghost use Rattle.std.specs.Prelude.{◌≡◌, ◌≤◌};
ghost use Rattle.bits.specs.Checks.{bits_check, CheckedIs};

use super::demands::{check_length, check_spare};
use faults::Flaw;

/// Checks that the bytes are a bitvector of `n` bits: exactly as many as those take, and each bit after the last is 0.
pub fn check(bytes: &[u8], n: u32) -> Result<(), Flaw>
    requires small { n ≤ 131072 }
    ensures answer { result ≡ bits_check n bytes.now }
    ensures law { CheckedIs n bytes.now result }
{
    check_length(bytes, n)?;
    check_spare(bytes, n)
}
