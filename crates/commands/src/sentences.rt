// A whole command: its name, and what follows that.
ghost use Rattle.commands.specs.Reading.{GivesSeen, GivesWhole};
ghost use Rattle.commands.specs.Said.{said};
ghost use Rattle.commands.specs.Sentences.{sentence_of, reading};
ghost use Rattle.notation.specs.Words.{words_of};

use super::command::{Command, Slot};
use super::expected::{Expected, Unread};
use super::indexes::{take_choice, take_index};
use super::names::Name;
use super::questions::take_ask;
use super::taking::{take_form, take_name, take_number, take_sheet_number, take_slot};
use notation::Words;
use replay::Call;
use std::alloc::Global;

// The command of this name.
#[tactic(auto, unfolding(crate::specs::Sentences::sentence_of))]
fn take_sentence(alloc: Global, name: Name, words: &mut Words<'_>) -> Result<Command, Unread>
    ensures { GivesSeen said result words.new (sentence_of name words.old) }
{
    Ok(match name {
        Name::Open => {
            let slot = take_slot(words)?;
            let form = take_form(words)?;
            let draft = take_index(alloc, form, words)?;
            Command::Open { slot, draft }
        }
        Name::Pair => {
            let form = take_form(words)?;
            let free = take_index(alloc, form, words)?;
            let class = take_index(alloc, form, words)?;
            Command::Pair { free, class }
        }
        Name::Fill => {
            let slot = take_slot(words)?;
            let form = take_form(words)?;
            let choice = take_choice(form, words)?;
            Command::Fill { slot, choice }
        }
        Name::Turn => Command::Turn(take_slot(words)?),
        Name::Level => Command::Level {
            slot: take_slot(words)?,
            a: take_number(words)?,
            b: take_number(words)?,
        },
        Name::Free => take_ask(Slot::Free, words)?,
        Name::Class => take_ask(Slot::Class, words)?,
        Name::Round => Command::Round,
        Name::Next => Command::Call(Call::Next),
        Name::Sheet => Command::Call(Call::Sheet(take_sheet_number(words)?)),
        Name::Go => Command::Call(Call::Go(take_number(words)?)),
        Name::Count => Command::Call(Call::Count {
            a: take_number(words)?,
            b: take_number(words)?,
        }),
        Name::Nearest => Command::Call(Call::Nearest(take_number(words)?)),
        Name::Sign => Command::Call(Call::Sign(take_number(words)?)),
        Name::Pick => Command::Call(Call::Pick(take_number(words)?)),
        Name::Close => Command::Close,
    })
}

// Reads all of the words of a line.
#[tactic(auto, unfolding(crate::specs::Sentences::reading))]
pub(crate) fn read_words(alloc: Global, line: &[u8]) -> Result<Command, Unread>
    ensures { GivesWhole said result (reading (words_of line.now)) }
{
    let mut words = Words::of(line);
    let name = take_name(&mut words)?;
    let command = take_sentence(alloc, name, &mut words)?;
    match words.next_word() {
        None => Ok(command),
        Some(_) => Err(Unread::Expected(Expected::End)),
    }
}
