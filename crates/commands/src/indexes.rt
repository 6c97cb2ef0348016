// An index in a line: its numbers, and then its parts.
ghost use Rattle.commands.specs.Reading.{Gives, GivesSeen};
ghost use Rattle.commands.specs.Said.{written};
ghost use Rattle.commands.specs.Sentences.{plain_index, list_index, zombit_index, pioneer_index, index_of, choice_of};

use super::expected::{Expected, Unread};
use super::taking::{take_bytes, take_number, take_numbers};
use drafts::Draft;
use faults::Form;
use forms::{Choice, Told};
use list::ListTold;
use notation::Words;
use pioneer::PioneerTold;
use plain::PlainTold;
use std::alloc::Global;
use zombit::ZombitTold;

#[tactic(auto, unfolding(crate::specs::Sentences::plain_index))]
fn take_plain(alloc: Global, words: &mut Words<'_>) -> Result<Draft, Unread>
    ensures { GivesSeen written result words.new (plain_index words.old) }
{
    let last = take_number(words)?;
    let bytes = take_bytes(alloc, words)?;
    let told = PlainTold {
        last,
        bits: bytes.len(),
    };
    Ok(Draft {
        told: Told::Plain(told),
        bytes,
        numbers: Vec::new(alloc),
    })
}

#[tactic(auto, unfolding(crate::specs::Sentences::list_index))]
fn take_list(alloc: Global, words: &mut Words<'_>) -> Result<Draft, Unread>
    ensures { GivesSeen written result words.new (list_index words.old) }
{
    let last = take_number(words)?;
    let numbers = take_numbers(alloc, words)?;
    let told = ListTold {
        last,
        numbers: numbers.len(),
    };
    Ok(Draft {
        told: Told::List(told),
        bytes: Vec::new(alloc),
        numbers,
    })
}

#[tactic(auto, unfolding(crate::specs::Sentences::zombit_index))]
fn take_zombit(alloc: Global, words: &mut Words<'_>) -> Result<Draft, Unread>
    ensures { GivesSeen written result words.new (zombit_index words.old) }
{
    let last = take_number(words)?;
    let size = take_number(words)?;
    let uniform = take_bytes(alloc, words)?;
    let marked = take_bytes(alloc, words)?;
    let mixed = take_bytes(alloc, words)?;
    let told = ZombitTold {
        last,
        size,
        uniform: uniform.len(),
        marked: marked.len(),
        mixed: mixed.len(),
    };
    let mut bytes = uniform;
    bytes.extend_from_slice(&marked)?;
    bytes.extend_from_slice(&mixed)?;
    Ok(Draft {
        told: Told::Zombit(told),
        bytes,
        numbers: Vec::new(alloc),
    })
}

#[tactic(auto, unfolding(crate::specs::Sentences::pioneer_index))]
fn take_pioneer(alloc: Global, words: &mut Words<'_>) -> Result<Draft, Unread>
    ensures { GivesSeen written result words.new (pioneer_index words.old) }
{
    let last = take_number(words)?;
    let count = take_number(words)?;
    let starts = take_bytes(alloc, words)?;
    let sums = take_bytes(alloc, words)?;
    let told = PioneerTold {
        last,
        count,
        starts: starts.len(),
        sums: sums.len(),
    };
    let mut bytes = starts;
    bytes.extend_from_slice(&sums)?;
    Ok(Draft {
        told: Told::Pioneer(told),
        bytes,
        numbers: Vec::new(alloc),
    })
}

#[tactic(auto, unfolding(crate::specs::Sentences::index_of))]
pub(crate) fn take_index(alloc: Global, form: Form, words: &mut Words<'_>) -> Result<Draft, Unread>
    ensures { GivesSeen written result words.new (index_of form words.old) }
{
    match form {
        Form::Plain => take_plain(alloc, words),
        Form::List => take_list(alloc, words),
        Form::Zombit => take_zombit(alloc, words),
        Form::Pioneer => take_pioneer(alloc, words),
    }
}

// The block size of a form to fill, if it has one.
#[tactic(auto, unfolding(crate::specs::Sentences::choice_of))]
pub(crate) fn take_choice(form: Form, words: &mut Words<'_>) -> Result<Choice, Expected>
    ensures { Gives result words.new (choice_of form words.old) }
{
    Ok(match form {
        Form::Plain => Choice::Plain,
        Form::List => Choice::List,
        Form::Zombit => Choice::Zombit {
            size: take_number(words)?,
        },
        Form::Pioneer => Choice::Pioneer,
    })
}
