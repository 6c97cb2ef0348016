// The two demands on the bytes of a bitvector, each checked by itself.
ghost use Rattle.std.specs.Prelude.{◌≡◌, ◌≤◌, length};
ghost use Rattle.faults.specs.Checks.{CheckIs};
ghost use Rattle.bits.specs.Checks.{Whole, Clear, length_check, spare_check};

use super::scan::next;
use faults::Flaw;
use sets::Sort;

/// Checks that there are exactly as many bytes as `n` bits take.
pub fn check_length(bytes: &[u8], n: u32) -> Result<(), Flaw>
    ensures answer { result ≡ length_check n bytes.now }
    ensures law { CheckIs 2 (Whole n bytes.now) result }
{
    if bytes.len() == (n as usize).div_ceil(8) {
        Ok(())
    } else {
        Err(Flaw::Length)
    }
}

/// Checks that each bit after the `n`-th is 0.
pub fn check_spare(bytes: &[u8], n: u32) -> Result<(), Flaw>
    requires few { n ≤ 131072 }
    requires small { length bytes.now ≤ 16384 }
    ensures answer { result ≡ spare_check n bytes.now }
    ensures law { CheckIs 3 (Clear n bytes.now) result }
{
    match next(bytes, Sort::Members, n + 1, 8 * bytes.len() as u32) {
        Some(_) => Err(Flaw::Content),
        None => Ok(()),
    }
}
