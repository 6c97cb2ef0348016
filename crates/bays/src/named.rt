// What the numbers that C passes name. What is no name is checked beforehand, and read here as the last.
ghost use Rattle.std.specs.Prelude.{◌≡◌};
ghost use Rattle.bays.specs.Named.{choice_named, question_named, sort_named, told_named};

use super::structs::BaysTold;
use batches::{Question, Record};
use forms::{Choice, Told};
use list::ListTold;
use pioneer::PioneerTold;
use plain::PlainTold;
use sets::Sort;
use zombit::ZombitTold;

// What was told of an index.
fn told_named(told: &BaysTold) -> Told
    ensures { result ≡ told_named told.now }
{
    match told.form {
        0 => Told::Plain(PlainTold {
            last: told.last,
            bits: told.first,
        }),
        1 => Told::List(ListTold {
            last: told.last,
            numbers: told.first,
        }),
        2 => Told::Zombit(ZombitTold {
            last: told.last,
            size: told.number,
            uniform: told.first,
            marked: told.second,
            mixed: told.third,
        }),
        _ => Told::Pioneer(PioneerTold {
            last: told.last,
            count: told.number,
            starts: told.first,
            sums: told.second,
        }),
    }
}

// The record of an index in two memories.
pub(crate) fn record_named<'a>(told: &BaysTold, bytes: &'a [u8], numbers: &'a [u16]) -> Record<'a>
    ensures told { result.told ≡ told_named told.now }
    ensures bytes { result.bytes.now ≡ bytes.now }
    ensures numbers { result.numbers.now ≡ numbers.now }
{
    Record {
        told: told_named(told),
        bytes,
        numbers,
    }
}

// A form to fill into, with its block size if it has one.
pub(crate) fn choice_named(form: u32, size: u32) -> Choice
    ensures { result ≡ choice_named form size }
{
    match form {
        0 => Choice::Plain,
        1 => Choice::List,
        2 => Choice::Zombit { size },
        _ => Choice::Pioneer,
    }
}

// A question.
pub(crate) fn question_named(question: u32) -> Question
    ensures { result ≡ question_named question }
{
    match question {
        0 => Question::Holds,
        1 => Question::Next,
        2 => Question::Previous,
        3 => Question::Rank,
        _ => Question::Select,
    }
}

// A sort.
pub(crate) fn sort_named(sort: u32) -> Sort
    ensures { result ≡ sort_named sort }
{
    match sort {
        0 => Sort::Members,
        _ => Sort::Others,
    }
}
