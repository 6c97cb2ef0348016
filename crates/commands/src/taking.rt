// Taking the next word of a line, where a word of one kind is wanted.
ghost use Rattle.commands.specs.Reading.{Gives, GivesSeen};
ghost use Rattle.commands.specs.Kinds.{name, slot, form, asked, sort, number, sheet_number, bytes, numbers};

use super::command::Slot;
use super::expected::{Expected, Unread};
use super::names::{Asked, Name};
use super::naming::{command_named, form_named, question_named, slot_named, sort_named};
use faults::Form;
use notation::{Words, read_bytes, read_number, read_numbers};
use sets::Sort;
use std::alloc::Global;

/// The most bays of a sheet.
pub(crate) const SHEET_MOST: u32 = 65_536;

#[tactic(auto, unfolding(crate::specs::Kinds::name))]
pub(crate) fn take_name(words: &mut Words<'_>) -> Result<Name, Expected>
    ensures { Gives result words.new (name words.old) }
{
    words
        .next_word()
        .and_then(command_named)
        .ok_or(Expected::Command)
}

#[tactic(auto, unfolding(crate::specs::Kinds::slot))]
pub(crate) fn take_slot(words: &mut Words<'_>) -> Result<Slot, Expected>
    ensures { Gives result words.new (slot words.old) }
{
    words.next_word().and_then(slot_named).ok_or(Expected::Slot)
}

#[tactic(auto, unfolding(crate::specs::Kinds::form))]
pub(crate) fn take_form(words: &mut Words<'_>) -> Result<Form, Expected>
    ensures { Gives result words.new (form words.old) }
{
    words.next_word().and_then(form_named).ok_or(Expected::Form)
}

#[tactic(auto, unfolding(crate::specs::Kinds::asked))]
pub(crate) fn take_asked(words: &mut Words<'_>) -> Result<Asked, Expected>
    ensures { Gives result words.new (asked words.old) }
{
    words
        .next_word()
        .and_then(question_named)
        .ok_or(Expected::Question)
}

#[tactic(auto, unfolding(crate::specs::Kinds::sort))]
pub(crate) fn take_sort(words: &mut Words<'_>) -> Result<Sort, Expected>
    ensures { Gives result words.new (sort words.old) }
{
    words.next_word().and_then(sort_named).ok_or(Expected::Sort)
}

#[tactic(auto, unfolding(crate::specs::Kinds::number))]
pub(crate) fn take_number(words: &mut Words<'_>) -> Result<u32, Expected>
    ensures { Gives result words.new (number words.old) }
{
    words
        .next_word()
        .and_then(|word| read_number(word, u32::MAX))
        .ok_or(Expected::Number)
}

#[tactic(auto, unfolding(crate::specs::Kinds::sheet_number))]
pub(crate) fn take_sheet_number(words: &mut Words<'_>) -> Result<u32, Expected>
    ensures { Gives result words.new (sheet_number words.old) }
{
    words
        .next_word()
        .and_then(|word| read_number(word, SHEET_MOST))
        .ok_or(Expected::SheetNumber)
}

#[tactic(auto, unfolding(crate::specs::Kinds::bytes))]
pub(crate) fn take_bytes(alloc: Global, words: &mut Words<'_>) -> Result<Vec<u8>, Unread>
    ensures { GivesSeen (λ v. v.items) result words.new (bytes words.old) }
{
    let word = words.next_word().ok_or(Expected::Bytes)?;
    let bytes = read_bytes(alloc, word)?.ok_or(Expected::Bytes)?;
    Ok(bytes)
}

#[tactic(auto, unfolding(crate::specs::Kinds::numbers))]
pub(crate) fn take_numbers(alloc: Global, words: &mut Words<'_>) -> Result<Vec<u16>, Unread>
    ensures { GivesSeen (λ v. v.items) result words.new (numbers words.old) }
{
    let word = words.next_word().ok_or(Expected::Numbers)?;
    let numbers = read_numbers(alloc, word)?.ok_or(Expected::Numbers)?;
    Ok(numbers)
}
