// The check of the bays that a call on a set is asked about.
ghost use Rattle.std.specs.Prelude.{◌≡◌};
ghost use Rattle.faults.specs.Bays.{bays_check, BaysAre};

use super::fault::Refusal;

/// Checks that `a` to `b` are one bay or more, and none beyond `last`.
#[inline]
pub fn check_bays(a: u32, b: u32, last: u32) -> Result<(), Refusal>
    ensures answer { result ≡ bays_check a b last }
    ensures law { BaysAre a b last result }
{
    if a == 0 || a > b {
        Err(Refusal::NoBay)
    } else if b > last {
        Err(Refusal::Beyond)
    } else {
        Ok(())
    }
}
