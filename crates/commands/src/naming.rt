// What the words of the tables mean.
ghost use Rattle.std.specs.Prelude.{◌≡◌};
ghost use Rattle.commands.specs.Kinds.{name_words, slot_words, form_words, asked_words, sort_words};
ghost use Rattle.commands.specs.Reading.{listed};

use super::command::Slot;
use super::names::{Asked, Name};
use faults::Form;
use sets::Sort;

pub(crate) fn command_named(word: &[u8]) -> Option<Name>
    ensures { result ≡ listed name_words word.now }
{
    match word {
        b"open" => Some(Name::Open),
        b"pair" => Some(Name::Pair),
        b"fill" => Some(Name::Fill),
        b"turn" => Some(Name::Turn),
        b"level" => Some(Name::Level),
        b"free" => Some(Name::Free),
        b"class" => Some(Name::Class),
        b"round" => Some(Name::Round),
        b"next" => Some(Name::Next),
        b"sheet" => Some(Name::Sheet),
        b"go" => Some(Name::Go),
        b"count" => Some(Name::Count),
        b"nearest" => Some(Name::Nearest),
        b"sign" => Some(Name::Sign),
        b"pick" => Some(Name::Pick),
        b"close" => Some(Name::Close),
        _ => None,
    }
}

pub(crate) fn slot_named(word: &[u8]) -> Option<Slot>
    ensures { result ≡ listed slot_words word.now }
{
    match word {
        b"free" => Some(Slot::Free),
        b"class" => Some(Slot::Class),
        _ => None,
    }
}

pub(crate) fn form_named(word: &[u8]) -> Option<Form>
    ensures { result ≡ listed form_words word.now }
{
    match word {
        b"plain" => Some(Form::Plain),
        b"list" => Some(Form::List),
        b"zombit" => Some(Form::Zombit),
        b"pioneer" => Some(Form::Pioneer),
        _ => None,
    }
}

pub(crate) fn question_named(word: &[u8]) -> Option<Asked>
    ensures { result ≡ listed asked_words word.now }
{
    match word {
        b"last" => Some(Asked::Last),
        b"holds" => Some(Asked::Holds),
        b"next" => Some(Asked::Next),
        b"previous" => Some(Asked::Previous),
        b"rank" => Some(Asked::Rank),
        b"select" => Some(Asked::Select),
        _ => None,
    }
}

pub(crate) fn sort_named(word: &[u8]) -> Option<Sort>
    ensures { result ≡ listed sort_words word.now }
{
    match word {
        b"member" => Some(Sort::Members),
        b"other" => Some(Sort::Others),
        _ => None,
    }
}
