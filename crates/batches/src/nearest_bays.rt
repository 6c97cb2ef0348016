// The free bays nearest to many places.
ghost use Rattle.std.specs.Prelude.{◌≡◌};
ghost use Rattle.batches.specs.Batches.{answered, unless_refused};
ghost use Rattle.batches.specs.Pairs.{nearest_number, pair_of};
ghost use Rattle.batches.specs.Records.{set_of};
ghost use Rattle.forms.specs.Meant.{meant_of};

use super::opened::open_both;
use super::records::Record;
use forms::Index;
use opening::PairFault;
use round::Round;
use sets::{Counting, Walking};

// The free bay nearest to each place, or 0.
fn write_nearest<F: Counting, C: Walking>(free: &F, class: &C, places: &[u32], answers: &mut [u32])
    ensures { answers.new ≡ answered (nearest_number (F.Walking.meant free.now) (C.Walking.meant class.now)) places.now answers.old }
{
    let round = Round::new(free, class);
    for k in 0..places.len().min(answers.len()) {
        answers[k] = round.nearest(places[k]).unwrap_or(None).unwrap_or(0);
    }
    round.close();
}

/// Writes the free bay nearest to each place, from the front of the memory on, as many as it has room for; what lies behind them is kept.
/// 0 stands where there is none, or where the place is no bay of both sets. Where opening the two records is refused, the whole memory
/// is as it was.
pub fn nearest(
    free: Record,
    class: Record,
    places: &[u32],
    answers: &mut [u32],
) -> Result<(), PairFault>
    ensures answer { result ≡ pair_of free.entry class.entry }
    ensures writes { answers.new ≡ unless_refused result
        (answered (nearest_number (set_of free.entry) (set_of class.entry)) places.now answers.old) answers.old }
{
    let (free, class) = open_both(free, class)?;
    match &free {
        Index::Plain(free) => write_nearest(free, &class, places, answers),
        Index::List(free) => write_nearest(free, &class, places, answers),
        Index::Zombit(free) => write_nearest(free, &class, places, answers),
        Index::Pioneer(free) => write_nearest(free, &class, places, answers),
    }
    Ok(())
}
