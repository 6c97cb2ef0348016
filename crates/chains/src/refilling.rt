// A set that is filled, opened and filled again, in one form after the other.
ghost use Rattle.std.specs.Prelude.{◌≡◌, ◌+◌, ◌≤◌, take, length};
ghost use Rattle.sets.specs.Lists.{Each};
ghost use Rattle.forms.specs.Choices.{SizeFits};
ghost use Rattle.forms.specs.Laying.{bytes_of, numbers_of};
ghost use Rattle.forms.specs.Telling.{told_of};
ghost use Rattle.chains.specs.Laid.{laid_bytes, laid_numbers, LastIs, LiesIn, over_at, place_behind};

use super::extent::Extent;
use super::place::Last;
use super::reopening::latest;
use forms::{Choice, fill};
use sets::Walking;

// The place behind the last index, or the place where the first step begins.
pub(crate) fn behind(last: Option<Last>, start: Extent) -> Extent
    requires bytes { (place_behind last start).bytes ≤ usize.MAX }
    requires numbers { (place_behind last start).numbers ≤ usize.MAX }
    ensures { result ≡ place_behind last start }
{
    match last {
        None => start,
        Some(last) => Extent {
            bytes: last.bytes_at + last.told.bytes(),
            numbers: last.numbers_at + last.told.numbers(),
        },
    }
}

// Opens what the last step filled, and fills it in the next form at a place behind it.
fn step<S: Walking>(
    set: &S,
    last: Option<Last>,
    at: Extent,
    choice: Choice,
    bytes: &mut [u8],
    numbers: &mut [u16],
) -> Last
    requires size { SizeFits choice }
    requires lies { LiesIn last (S.Walking.meant set.now) (take at.bytes bytes.old) (take at.numbers numbers.old) }
    requires bytes { at.bytes + length (bytes_of choice (S.Walking.meant set.now)) ≤ length bytes.old }
    requires numbers { at.numbers + length (numbers_of choice (S.Walking.meant set.now)) ≤ length numbers.old }
    ensures is { result ≡ record { told = told_of choice (S.Walking.meant set.now); bytes_at = at.bytes; numbers_at = at.numbers } }
    ensures bytes { bytes.new ≡ over_at at.bytes (bytes_of choice (S.Walking.meant set.now)) bytes.old }
    ensures numbers { numbers.new ≡ over_at at.numbers (numbers_of choice (S.Walking.meant set.now)) numbers.old }
{
    let (filled, room) = bytes.split_at_mut(at.bytes);
    let (numbers_filled, numbers_room) = numbers.split_at_mut(at.numbers);
    let source = latest(set, last, filled, numbers_filled);
    Last {
        told: fill(&source, choice, room, numbers_room).unwrap(),
        bytes_at: at.bytes,
        numbers_at: at.numbers,
    }
}

// Fills a set in one form after the other, from a place on: each step behind the one before it, and each time from what is opened
// there; and says where the last index lies.
pub(crate) fn refill<S: Walking>(
    set: &S,
    choices: &[Choice],
    start: Extent,
    bytes: &mut [u8],
    numbers: &mut [u16],
) -> Option<Last>
    requires sizes { Each SizeFits choices.now }
    requires bytes { start.bytes + length (laid_bytes choices.now (S.Walking.meant set.now)) ≤ length bytes.old }
    requires numbers { start.numbers + length (laid_numbers choices.now (S.Walking.meant set.now)) ≤ length numbers.old }
    ensures last { LastIs start choices.now (S.Walking.meant set.now) result }
    ensures lies { LiesIn result (S.Walking.meant set.now) bytes.new numbers.new }
    ensures bytes { bytes.new ≡ over_at start.bytes (laid_bytes choices.now (S.Walking.meant set.now)) bytes.old }
    ensures numbers { numbers.new ≡ over_at start.numbers (laid_numbers choices.now (S.Walking.meant set.now)) numbers.old }
{
    let mut last = None;
    for choice in choices {
        let at = behind(last, start);
        last = Some(step(set, last, at, *choice, bytes, numbers));
    }
    last
}
