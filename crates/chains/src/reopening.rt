// The set that is read after the last step of a chain.
ghost use Rattle.std.specs.Prelude.{◌≡◌, Bool, List, drop};
ghost use Rattle.sets.specs.Sets.{Sized};
ghost use Rattle.forms.specs.Meant.{meant_of, Holds};
ghost use Rattle.chains.specs.Laid.{IndexIn, LiesIn};
ghost use Rattle.chains.specs.Sources.{read_as, Latest};

use super::place::Last;
use super::source::Source;
use forms::{Index, open};
use sets::Walking;

// Opens the index of a set where it lies.
fn open_at<'a>(last: Last, bytes: &'a [u8], numbers: &'a [u16]) -> Index<'a>
    requires { (s : List Bool) × Sized s × IndexIn last s bytes.now numbers.now }
    ensures holds { Holds result last.told (drop last.bytes_at bytes.now) (drop last.numbers_at numbers.now) }
    ensures means { (s : List Bool) → Sized s → IndexIn last s bytes.now numbers.now → meant_of result ≡ s }
{
    let Last {
        told,
        bytes_at,
        numbers_at,
    } = last;
    open(told, &bytes[bytes_at..], &numbers[numbers_at..]).unwrap()
}

/// The set to be read next: what was filled last is opened where it lies, and where nothing was filled it is the first set.
pub fn latest<'a, S: Walking>(
    set: &'a S,
    last: Option<Last>,
    bytes: &'a [u8],
    numbers: &'a [u16],
) -> Source<'a, S>
    requires { LiesIn last (S.Walking.meant set.now) bytes.now numbers.now }
    ensures which { Latest last set.entry bytes.now numbers.now result }
    ensures means { read_as S.Walking.meant result ≡ S.Walking.meant set.now }
{
    match last {
        None => Source::First(set),
        Some(last) => Source::Filled(open_at(last, bytes, numbers)),
    }
}
