// What an index opens from, at the front of a memory; of a memory that is shorter than a part, what is left of it.
ghost use Rattle.std.specs.Prelude.{◌≡◌, [], ◌∷◌};
ghost use Rattle.faults.specs.Checks.{Verdict};
ghost use Rattle.forms.specs.Opening.{fronts_told, opening_told, OpeningIs, decoding_told};
ghost use Rattle.forms.specs.Sources.{choice_given, numbers_given, parts_given, opening_given, decoding_given, GivenIs};
ghost use Rattle.forms.specs.Telling.{choice_told, opening_numbers};

use super::source::Source;
use super::told::Told;
use list::{ListSource, ListTold};
use pioneer::{PioneerSource, PioneerTold};
use plain::{PlainSource, PlainTold};
use zombit::{ZombitSource, ZombitTold};

// The bits of the plain form.
fn plain_source<'a>(told: PlainTold, bytes: &'a [u8]) -> PlainSource<'a>
    ensures last { result.last ≡ told.last }
    ensures parts { result.bits.now ∷ [] ≡ fronts_told (Told.Plain told) bytes.now [] }
{
    PlainSource {
        last: told.last,
        bits: &bytes[..told.bits.min(bytes.len())],
    }
}

// The numbers of the list form.
fn list_source<'a>(told: ListTold, numbers: &'a [u16]) -> ListSource<'a>
    ensures last { result.last ≡ told.last }
    ensures parts { result.numbers.now ∷ [] ≡ fronts_told (Told.List told) [] numbers.now }
{
    ListSource {
        last: told.last,
        numbers: &numbers[..told.numbers.min(numbers.len())],
    }
}

// The three parts of the zombit form, one behind the other.
fn zombit_source<'a>(told: ZombitTold, bytes: &'a [u8]) -> ZombitSource<'a>
    ensures last { result.last ≡ told.last }
    ensures size { result.size ≡ told.size }
    ensures parts { result.uniform.now ∷ result.marked.now ∷ result.mixed.now ∷ [] ≡ fronts_told (Told.Zombit told) bytes.now [] }
{
    let (uniform, rest) = bytes.split_at(told.uniform.min(bytes.len()));
    let (marked, rest) = rest.split_at(told.marked.min(rest.len()));
    ZombitSource {
        last: told.last,
        size: told.size,
        uniform,
        marked,
        mixed: &rest[..told.mixed.min(rest.len())],
    }
}

// The two parts of the pioneer form, one behind the other.
fn pioneer_source<'a>(told: PioneerTold, bytes: &'a [u8]) -> PioneerSource<'a>
    ensures last { result.last ≡ told.last }
    ensures count { result.count ≡ told.count }
    ensures parts { result.starts.now ∷ result.sums.now ∷ [] ≡ fronts_told (Told.Pioneer told) bytes.now [] }
{
    let (starts, rest) = bytes.split_at(told.starts.min(bytes.len()));
    PioneerSource {
        last: told.last,
        count: told.count,
        starts,
        sums: &rest[..told.sums.min(rest.len())],
    }
}

impl<'a> Source<'a> {
    /// The source at the fronts of the two memories, at the lengths and with the numbers told. A part that is longer than what is left
    /// of its memory is what is left.
    pub fn told(told: Told, bytes: &'a [u8], numbers: &'a [u16]) -> Source<'a>
        ensures form { choice_given result ≡ choice_told told }
        ensures numbers { numbers_given result ≡ opening_numbers told }
        ensures parts { parts_given result ≡ fronts_told told bytes.now numbers.now }
        ensures answer { opening_given result ≡ opening_told told bytes.now numbers.now }
        ensures law { (v : Verdict) → GivenIs result v → OpeningIs told bytes.now numbers.now v }
        ensures means { decoding_given result ≡ decoding_told told bytes.now numbers.now }
    {
        match told {
            Told::Plain(told) => Source::Plain(plain_source(told, bytes)),
            Told::List(told) => Source::List(list_source(told, numbers)),
            Told::Zombit(told) => Source::Zombit(zombit_source(told, bytes)),
            Told::Pioneer(told) => Source::Pioneer(pioneer_source(told, bytes)),
        }
    }
}
