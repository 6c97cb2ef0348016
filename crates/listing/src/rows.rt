// The rows of a round, as many as fit.
ghost use Rattle.std.specs.Prelude.{◌≡◌, length};
ghost use Rattle.sets.specs.Lists.{over};
ghost use Rattle.round.specs.States.{fresh};
ghost use Rattle.listing.specs.Listings.{CompleteIn, play, play_of, listed_of, written};

use super::list::Listed;
use round::{Round, Taken};
use sets::{Counting, Walking};

// Writes what each `next` gives, until one gives none or the memory is full, and says how many rows that were.
fn take_rows<F: Counting, C: Walking>(round: &mut Round<F, C>, rows: &mut [Taken]) -> usize
    ensures answer { result ≡ length (play_of round.old (length rows.old)).rows }
    ensures writes { rows.new ≡ over (play_of round.old (length rows.old)).rows rows.old }
    ensures state { round.new.state ≡ (play_of round.old (length rows.old)).report }
{
    for (n, row) in rows.iter_mut().enumerate() {
        *row = round.next();
        if row.bay.is_none() {
            return n + 1;
        }
    }
    rows.len()
}

/// Writes the rows of a fresh round over the two sets, from the front of `rows` on, and closes it. A row for each bay and one
/// more are room enough for the whole round.
pub fn list_round<F: Counting + Drop, C: Walking + Drop>(
    free: F,
    class: C,
    rows: &mut [Taken],
) -> Listed
    ensures answer { result ≡ listed_of (play (F.Walking.meant free) (C.Walking.meant class) (length rows.old) fresh) }
    ensures writes { rows.new ≡ over (play (F.Walking.meant free) (C.Walking.meant class) (length rows.old) fresh).rows rows.old }
    ensures all { CompleteIn (length rows.old) (F.Walking.meant free) (C.Walking.meant class) (written result rows.new) }
{
    let mut round = Round::new(free, class);
    let written = take_rows(&mut round, rows);
    Listed {
        rows: written,
        report: round.close(),
    }
}
