// Opening an index of any form, from a source or from the fronts of two memories.
ghost use Rattle.std.specs.Prelude.{◌≡◌, IfOk};
ghost use Rattle.forms.specs.Meant.{meant_of, Holds};
ghost use Rattle.forms.specs.Opening.{opening_told, OpeningIs, decoding_told};
ghost use Rattle.forms.specs.Sources.{opening_given, GivenIs, decoding_given, GivenDecodes, HoldsGiven};
ghost use Rattle.forms.specs.Verdicts.{verdict_of};

use super::index::Index;
use super::source::Source;
use super::told::Told;
use faults::Fault;
use list::List;
use opening::Opens;
use pioneer::Pioneer;
use plain::Plain;
use zombit::Zombit;

// The index of the source, put in the place of an open one.
fn opened<X: Opens>(index: X, source: X::Source) -> Result<X, Fault>
    ensures answer { verdict_of result ≡ X.Opens.verdict source }
    ensures law { X.Opens.due source (verdict_of result) }
    ensures decodes { X.Opens.decodes source (X.Opens.decoding source) }
    ensures holds { IfOk result (λ x. X.Opens.holding x source) }
    ensures means { IfOk result (λ x. X.Walking.meant x ≡ X.Opens.decoding source) }
{
    let mut index = index;
    index.open(source)?;
    Ok(index)
}

// The index of the source, of the form that the source has.
pub(crate) fn index_of<'a>(source: Source<'a>) -> Result<Index<'a>, Fault>
    ensures answer { verdict_of result ≡ opening_given source.entry }
    ensures law { GivenIs source.entry (verdict_of result) }
    ensures decodes { GivenDecodes source.entry (decoding_given source.entry) }
    ensures holds { IfOk result (λ index. HoldsGiven index source.entry) }
    ensures means { IfOk result (λ index. meant_of index ≡ decoding_given source.entry) }
{
    match source {
        Source::Plain(source) => Ok(Index::Plain(opened(Plain::empty(), source)?)),
        Source::List(source) => Ok(Index::List(opened(List::empty(), source)?)),
        Source::Zombit(source) => Ok(Index::Zombit(opened(Zombit::empty(), source)?)),
        Source::Pioneer(source) => Ok(Index::Pioneer(opened(Pioneer::empty(), source)?)),
    }
}

/// Opens the index whose parts stand at the fronts of the two memories, at the lengths and with the numbers told. A part that is
/// longer than what is left of its memory is what is left.
pub fn open<'a>(told: Told, bytes: &'a [u8], numbers: &'a [u16]) -> Result<Index<'a>, Fault>
    ensures answer { verdict_of result ≡ opening_told told bytes.now numbers.now }
    ensures law { OpeningIs told bytes.now numbers.now (verdict_of result) }
    ensures holds { IfOk result (λ index. Holds index told bytes.now numbers.now) }
    ensures means { IfOk result (λ index. meant_of index ≡ decoding_told told bytes.now numbers.now) }
{
    index_of(Source::told(told, bytes, numbers))
}
