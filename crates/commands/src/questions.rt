// A question about the set of a slot.
ghost use Rattle.commands.specs.Reading.{Gives, GivesSeen};
ghost use Rattle.commands.specs.Said.{said};
ghost use Rattle.commands.specs.Sentences.{question_of, ask_of};

use super::command::{Command, Question, Slot};
use super::expected::{Expected, Unread};
use super::names::Asked;
use super::taking::{take_asked, take_number, take_sort};
use notation::Words;

// The question of this name.
#[tactic(auto, unfolding(crate::specs::Sentences::question_of))]
fn take_question(name: Asked, words: &mut Words<'_>) -> Result<Question, Expected>
    ensures { Gives result words.new (question_of name words.old) }
{
    Ok(match name {
        Asked::Last => Question::Last,
        Asked::Holds => Question::Holds(take_number(words)?),
        Asked::Next => Question::Next(take_sort(words)?, take_number(words)?),
        Asked::Previous => Question::Previous(take_sort(words)?, take_number(words)?),
        Asked::Rank => Question::Rank(take_sort(words)?, take_number(words)?),
        Asked::Select => Question::Select(take_sort(words)?, take_number(words)?),
    })
}

#[tactic(auto, unfolding(crate::specs::Sentences::ask_of))]
pub(crate) fn take_ask(slot: Slot, words: &mut Words<'_>) -> Result<Command, Unread>
    ensures { GivesSeen said result words.new (ask_of slot words.old) }
{
    let name = take_asked(words)?;
    let question = take_question(name, words)?;
    Ok(Command::Ask { slot, question })
}
