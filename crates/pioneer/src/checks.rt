// Whether the rows make a pioneer index.
ghost use Rattle.std.specs.Prelude.{◌≡◌, ◌≤◌};
ghost use Rattle.bits.specs.Bits.{bit_at};
ghost use Rattle.bits.specs.Checks.{Whole, Clear};
ghost use Rattle.faults.specs.Checks.{CheckIs};
ghost use Rattle.pioneer.specs.Opening.{runs_check};
ghost use Rattle.pioneer.specs.Runs.{Lawful};

use super::ones::Ones;
use faults::Flaw;

// Checks run by run that the rows make an index.
pub(crate) fn check_runs(starts: &[u8], sums: &[u8], last: u32, count: u32) -> Result<(), Flaw>
    requires few { last ≤ 65535 }
    requires most { count ≤ last }
    requires firsts { Whole last starts.now }
    requires ends { Whole count sums.now }
    requires firsts_clear { Clear last starts.now }
    requires ends_clear { Clear count sums.now }
    ensures answer { result ≡ runs_check last count (bit_at starts.now) (bit_at sums.now) }
    ensures law { CheckIs 6 (Lawful last count (bit_at starts.now) (bit_at sums.now)) result }
{
    if count > 0 && !bits::get(sums, count) {
        return Err(Flaw::Unlawful);
    }
    let (mut firsts, mut ends) = (Ones::after(starts, 0), Ones::after(sums, 0));
    // How many members the runs so far have, and the first bay behind them.
    let (mut before, mut behind) = (0, 0);
    while let Some(start) = firsts.next() {
        let sum = ends.next().ok_or(Flaw::Unlawful)?;
        let to = start + (sum - before);
        if start <= behind || to > last + 1 {
            return Err(Flaw::Unlawful);
        }
        (before, behind) = (sum, to);
    }
    match ends.next() {
        Some(_) => Err(Flaw::Unlawful),
        None => Ok(()),
    }
}
