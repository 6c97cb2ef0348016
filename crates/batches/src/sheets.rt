// A sheet of the round through two sets, from a place on. The two forms are chosen once.
ghost use Rattle.std.specs.Prelude.{◌≡◌, length, IfOk};
ghost use Rattle.batches.specs.Batches.{refusal_of, unless_refused};
ghost use Rattle.batches.specs.Pairs.{going, pair_of, report_at, sheet_at, sheeting};
ghost use Rattle.batches.specs.Records.{set_of};
ghost use Rattle.forms.specs.Meant.{meant_of};
ghost use Rattle.sets.specs.Lists.{over};

use super::opened::open_both;
use super::records::Record;
use super::refused::SheetFault;
use faults::Refusal;
use forms::Index;
use round::{Report, Round};
use sets::{Counting, Walking};

// The sheet of a fresh round that goes to the place, and what the round gives when it is closed.
fn write_sheet<F: Counting, C: Walking>(
    free: &F,
    class: &C,
    place: u32,
    out: &mut [u32],
) -> Result<Report, Refusal>
    ensures answer { refusal_of result ≡ going (F.Walking.meant free.now) (C.Walking.meant class.now) place }
    ensures report { IfOk result (λ r. r ≡ report_at (F.Walking.meant free.now) (C.Walking.meant class.now) place (length out.old)) }
    ensures writes { out.new ≡ unless_refused result
        (over (sheet_at (F.Walking.meant free.now) (C.Walking.meant class.now) place (length out.old)).bays out.old) out.old }
{
    let mut round = Round::new(free, class);
    let gone = round.go(place);
    if gone.is_ok() {
        round.sheet(out);
    }
    let report = round.close();
    gone.map(|()| report)
}

// The same, of a class in any form.
fn write_by_class<F: Counting>(
    free: &F,
    class: &Index,
    place: u32,
    out: &mut [u32],
) -> Result<Report, Refusal>
    ensures answer { refusal_of result ≡ going (F.Walking.meant free.now) (meant_of class.now) place }
    ensures report { IfOk result (λ r. r ≡ report_at (F.Walking.meant free.now) (meant_of class.now) place (length out.old)) }
    ensures writes { out.new ≡ unless_refused result
        (over (sheet_at (F.Walking.meant free.now) (meant_of class.now) place (length out.old)).bays out.old) out.old }
{
    match class {
        Index::Plain(class) => write_sheet(free, class, place, out),
        Index::List(class) => write_sheet(free, class, place, out),
        Index::Zombit(class) => write_sheet(free, class, place, out),
        Index::Pioneer(class) => write_sheet(free, class, place, out),
    }
}

// The same, of two sets in any forms.
fn write_by_forms(
    free: &Index,
    class: &Index,
    place: u32,
    out: &mut [u32],
) -> Result<Report, Refusal>
    ensures answer { refusal_of result ≡ going (meant_of free.now) (meant_of class.now) place }
    ensures report { IfOk result (λ r. r ≡ report_at (meant_of free.now) (meant_of class.now) place (length out.old)) }
    ensures writes { out.new ≡ unless_refused result
        (over (sheet_at (meant_of free.now) (meant_of class.now) place (length out.old)).bays out.old) out.old }
{
    match free {
        Index::Plain(free) => write_by_class(free, class, place, out),
        Index::List(free) => write_by_class(free, class, place, out),
        Index::Zombit(free) => write_by_class(free, class, place, out),
        Index::Pioneer(free) => write_by_class(free, class, place, out),
    }
}

/// Writes the sheet of a fresh round that goes to a place: the common bays from there on, as many as fit, from the front of `out` on; what
/// lies behind them is kept. The report is what the round gives when it is closed after it. Where opening the two records or going to
/// the place is refused, the whole memory is as it was.
pub fn sheet(free: Record, class: Record, place: u32, out: &mut [u32]) -> Result<Report, SheetFault>
    ensures answer { refusal_of result ≡ sheeting (pair_of free.entry class.entry) (going (set_of free.entry) (set_of class.entry) place) }
    ensures report { IfOk result (λ r. r ≡ report_at (set_of free.entry) (set_of class.entry) place (length out.old)) }
    ensures writes { out.new ≡ unless_refused result
        (over (sheet_at (set_of free.entry) (set_of class.entry) place (length out.old)).bays out.old) out.old }
{
    let (free, class) = open_both(free, class).map_err(SheetFault::Opening)?;
    write_by_forms(&free, &class, place, out).map_err(SheetFault::Place)
}
