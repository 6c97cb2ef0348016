// Opening what a record says, or both of two.
ghost use Rattle.std.specs.Prelude.{◌≡◌, IfOk};
ghost use Rattle.batches.specs.Batches.{refusal_of};
ghost use Rattle.batches.specs.Pairs.{pair_of};
ghost use Rattle.batches.specs.Records.{opening_of, set_of};
ghost use Rattle.forms.specs.Meant.{meant_of};
ghost use Rattle.forms.specs.Opening.{OpeningIs};

use super::records::Record;
use faults::Fault;
use forms::{Index, Source, open};
use opening::{PairFault, open_pair};

impl<'a> Record<'a> {
    // The index.
    pub(crate) fn open(self) -> Result<Index<'a>, Fault>
        ensures answer { refusal_of result ≡ opening_of self.entry }
        ensures law { OpeningIs self.entry.told self.entry.bytes.now self.entry.numbers.now (refusal_of result) }
        ensures means { IfOk result (λ index. meant_of index ≡ set_of self.entry) }
    {
        open(self.told, self.bytes, self.numbers)
    }
}

// The indexes of the free bays and of the bays of a class.
pub(crate) fn open_both<'a>(
    free: Record<'a>,
    class: Record<'a>,
) -> Result<(Index<'a>, Index<'a>), PairFault>
    ensures answer { refusal_of result ≡ pair_of free.entry class.entry }
    ensures mean { IfOk result (λ both. (meant_of both.0 ≡ set_of free.entry) × (meant_of both.1 ≡ set_of class.entry)) }
{
    let mut free_index = Index::empty();
    let mut class_index = Index::empty();
    open_pair(
        &mut free_index,
        &mut class_index,
        Source::told(free.told, free.bytes, free.numbers),
        Source::told(class.told, class.bytes, class.numbers),
    )?;
    Ok((free_index, class_index))
}

/// Checks whether the index is opened, or by which flaw it is refused.
pub fn check(from: Record) -> Result<(), Fault>
    ensures answer { result ≡ opening_of from.entry }
    ensures law { OpeningIs from.entry.told from.entry.bytes.now from.entry.numbers.now result }
{
    from.open().map(|_| ())
}
