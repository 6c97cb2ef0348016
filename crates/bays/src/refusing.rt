// Why a call is refused, in numbers.
ghost use Rattle.std.specs.Prelude.{◌≡◌};
ghost use Rattle.bays.specs.Refusing.{fault_at, fill_fault, form_check, pair_fault, question_check, sheet_fault, sort_check, verdict_numbers};

use super::structs::BaysFault;
use batches::{FillFault, SheetFault};
use faults::Fault;
use opening::{PairFault, Side};

// A number that names nothing.
fn unnamed(number: u32, index: u32) -> Result<(), BaysFault>
    ensures { result ≡ Err (record { number = number; part = 0; index = index }) }
{
    Err(BaysFault {
        number,
        part: 0,
        index,
    })
}

// Checks that the form of an index has a name.
pub(crate) fn check_form(form: u32, index: u32) -> Result<(), BaysFault>
    ensures { result ≡ form_check form index }
{
    if form < 4 { Ok(()) } else { unnamed(12, index) }
}

// Checks that a question has a name.
pub(crate) fn check_question(question: u32) -> Result<(), BaysFault>
    ensures { result ≡ question_check question }
{
    if question < 5 { Ok(()) } else { unnamed(13, 0) }
}

// Checks that a sort has a name.
pub(crate) fn check_sort(sort: u32) -> Result<(), BaysFault>
    ensures { result ≡ sort_check sort }
{
    if sort < 2 { Ok(()) } else { unnamed(14, 0) }
}

// The fault of one of the indexes of a call.
pub(crate) fn fault_at(index: u32, fault: Fault) -> BaysFault
    ensures { result ≡ fault_at index fault }
{
    BaysFault {
        number: u32::from(fault.flaw.number()),
        part: u32::from(fault.part),
        index,
    }
}

// Of the index that is read, or of the one that is filled.
pub(crate) fn fill_fault(fault: FillFault) -> BaysFault
    ensures { result ≡ fill_fault fault }
{
    match fault {
        FillFault::Opening(fault) => fault_at(1, fault),
        FillFault::Filling(fault) => fault_at(2, fault),
    }
}

// Of the free bays, or of the class.
pub(crate) fn pair_fault(fault: PairFault) -> BaysFault
    ensures { result ≡ pair_fault fault }
{
    match fault.side {
        Side::F => fault_at(1, fault.fault),
        Side::C => fault_at(2, fault.fault),
    }
}

// Of one of the two, or of the place.
pub(crate) fn sheet_fault(fault: SheetFault) -> BaysFault
    ensures { result ≡ sheet_fault fault }
{
    match fault {
        SheetFault::Opening(fault) => pair_fault(fault),
        SheetFault::Place(refusal) => BaysFault {
            number: u32::from(refusal.number()),
            part: 0,
            index: 0,
        },
    }
}

// What C is answered.
pub(crate) fn verdict_numbers(verdict: Result<(), BaysFault>) -> BaysFault
    ensures { result ≡ verdict_numbers verdict }
{
    verdict.err().unwrap_or(BaysFault {
        number: 0,
        part: 0,
        index: 0,
    })
}
