// How many free bays lie in many ranges.
ghost use Rattle.std.specs.Prelude.{◌≡◌};
ghost use Rattle.std.specs.List.{zip};
ghost use Rattle.batches.specs.Batches.{answered, unless_refused};
ghost use Rattle.batches.specs.Pairs.{count_number, pair_of};
ghost use Rattle.batches.specs.Records.{set_of};
ghost use Rattle.forms.specs.Meant.{meant_of};

use super::opened::open_both;
use super::records::Record;
use forms::Index;
use opening::PairFault;
use round::Round;
use sets::{Counting, Walking};

// How many free bays lie in each range, or 0.
fn write_counts<F: Counting, C: Walking>(
    free: &F,
    class: &C,
    firsts: &[u32],
    lasts: &[u32],
    counts: &mut [u32],
)
    ensures { counts.new
        ≡ answered (count_number (F.Walking.meant free.now) (C.Walking.meant class.now)) (zip firsts.now lasts.now) counts.old }
{
    let round = Round::new(free, class);
    for k in 0..firsts.len().min(lasts.len()).min(counts.len()) {
        counts[k] = round.count(firsts[k], lasts[k]).unwrap_or(0);
    }
    round.close();
}

/// Writes how many free bays lie from each first bay to its last one, from the front of the memory on, for as many as both lists have and
/// the memory has room for; what lies behind them is kept. 0 stands where they are no bays of both sets. Where opening the two records
/// is refused, the whole memory is as it was.
pub fn count(
    free: Record,
    class: Record,
    firsts: &[u32],
    lasts: &[u32],
    counts: &mut [u32],
) -> Result<(), PairFault>
    ensures answer { result ≡ pair_of free.entry class.entry }
    ensures writes { counts.new ≡ unless_refused result
        (answered (count_number (set_of free.entry) (set_of class.entry)) (zip firsts.now lasts.now) counts.old) counts.old }
{
    let (free, class) = open_both(free, class)?;
    match &free {
        Index::Plain(free) => write_counts(free, &class, firsts, lasts, counts),
        Index::List(free) => write_counts(free, &class, firsts, lasts, counts),
        Index::Zombit(free) => write_counts(free, &class, firsts, lasts, counts),
        Index::Pioneer(free) => write_counts(free, &class, firsts, lasts, counts),
    }
    Ok(())
}
