// Checks that a number lies in a range.
ghost use Rattle.std.specs.Prelude.{◌≡◌, ◌≤◌};
ghost use Rattle.faults.specs.Checks.{CheckIs, LastIs, last_check, range_check};
ghost use Rattle.faults.specs.Numbers.{flaw_number};

use super::fault::Flaw;

/// Checks that a number lies from `low` to `high`; else it answers the flaw.
pub fn check_range(x: u32, low: u32, high: u32, flaw: Flaw) -> Result<(), Flaw>
    ensures answer { result ≡ range_check flaw low high x }
    ensures law { CheckIs (flaw_number flaw) ((low ≤ x) × (x ≤ high)) result }
{
    if low <= x && x <= high {
        Ok(())
    } else {
        Err(flaw)
    }
}

/// Checks that the last bay lies from 1 to 65,535.
pub fn check_last(last: u32) -> Result<(), Flaw>
    ensures answer { result ≡ last_check last }
    ensures law { LastIs last result }
{
    check_range(last, 1, 65535, Flaw::Numbers)
}
