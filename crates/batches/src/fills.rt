// Filling the set of a record in a form, and how much it takes there.
ghost use Rattle.std.specs.Prelude.{◌≡◌, IfOk};
ghost use Rattle.batches.specs.Batches.{refusal_of, unless_refused};
ghost use Rattle.batches.specs.Records.{filling_of, opening_of, set_of};
ghost use Rattle.forms.specs.Choices.{layout_of};
ghost use Rattle.forms.specs.Laying.{bytes_of, laying, numbers_of};
ghost use Rattle.forms.specs.Meant.{meant_of};
ghost use Rattle.forms.specs.Telling.{told_of};
ghost use Rattle.sets.specs.Lists.{over};

use super::records::Record;
use super::refused::FillFault;
use faults::Fault;
use forms::{Choice, Index, Told};

// What the set of an index takes in the form.
fn measure_index(index: &Index, choice: Choice) -> Result<Told, Fault>
    ensures answer { refusal_of result ≡ (layout_of choice).measuring }
    ensures told { IfOk result (λ told. told ≡ told_of choice (meant_of index.now)) }
{
    match index {
        Index::Plain(set) => Told::of(set, choice),
        Index::List(set) => Told::of(set, choice),
        Index::Zombit(set) => Told::of(set, choice),
        Index::Pioneer(set) => Told::of(set, choice),
    }
}

// Fills the set of an index.
fn fill_index(
    index: &Index,
    choice: Choice,
    bytes: &mut [u8],
    numbers: &mut [u16],
) -> Result<Told, Fault>
    ensures answer { refusal_of result ≡ laying choice (meant_of index.now) bytes.old numbers.old }
    ensures told { IfOk result (λ told. told ≡ told_of choice (meant_of index.now)) }
    ensures bytes { bytes.new ≡ unless_refused result (over (bytes_of choice (meant_of index.now)) bytes.old) bytes.old }
    ensures numbers { numbers.new ≡ unless_refused result (over (numbers_of choice (meant_of index.now)) numbers.old) numbers.old }
{
    match index {
        Index::Plain(set) => forms::fill(set, choice, bytes, numbers),
        Index::List(set) => forms::fill(set, choice, bytes, numbers),
        Index::Zombit(set) => forms::fill(set, choice, bytes, numbers),
        Index::Pioneer(set) => forms::fill(set, choice, bytes, numbers),
    }
}

/// What the set of a record takes in the form: the numbers and the lengths with which it is filled, and opened again.
pub fn measure(from: Record, choice: Choice) -> Result<Told, FillFault>
    ensures answer { refusal_of result ≡ filling_of (opening_of from.entry) (layout_of choice).measuring }
    ensures told { IfOk result (λ told. told ≡ told_of choice (set_of from.entry)) }
{
    let index = from.open().map_err(FillFault::Opening)?;
    measure_index(&index, choice).map_err(FillFault::Filling)
}

/// Fills the set of a record in the form: its parts go to the fronts of the two memories, one behind the other, and what was told comes
/// back. Where opening the record or filling is refused, both memories are as they were.
pub fn fill(
    from: Record,
    choice: Choice,
    bytes: &mut [u8],
    numbers: &mut [u16],
) -> Result<Told, FillFault>
    ensures answer { refusal_of result ≡ filling_of (opening_of from.entry) (laying choice (set_of from.entry) bytes.old numbers.old) }
    ensures told { IfOk result (λ told. told ≡ told_of choice (set_of from.entry)) }
    ensures bytes { bytes.new ≡ unless_refused result (over (bytes_of choice (set_of from.entry)) bytes.old) bytes.old }
    ensures numbers { numbers.new ≡ unless_refused result (over (numbers_of choice (set_of from.entry)) numbers.old) numbers.old }
{
    let index = from.open().map_err(FillFault::Opening)?;
    fill_index(&index, choice, bytes, numbers).map_err(FillFault::Filling)
}
