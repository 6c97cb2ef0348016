// A line of the console's input.
ghost use Rattle.std.specs.Prelude.{◌≡◌};
ghost use Rattle.std.specs.List.{list_all};
ghost use Rattle.std.specs.Option.{option_map};
ghost use Rattle.std.specs.Str.{is_utf8};
ghost use Rattle.notation.specs.Words.{is_blank};
ghost use Rattle.commands.specs.Lines.{line_read};
ghost use Rattle.commands.specs.Reading.{GivesWhole};
ghost use Rattle.commands.specs.Said.{said};

use super::command::Command;
use super::expected::{Expected, Unread};
use super::sentences::read_words;
use std::alloc::Global;

/// The most bytes of a line that is read.
pub const LONGEST: usize = 800_000;

fn is_blank(line: &[u8]) -> bool
    ensures { result ≡ list_all is_blank line.now }
{
    line.iter().all(u8::is_ascii_whitespace)
}

fn is_text(line: &[u8]) -> bool
    ensures { result ≡ is_utf8 line.now }
{
    std::str::from_utf8(line).is_ok()
}

/// Reads a line without its newline, which it ended with or not. There is no command where the line is passed over.
#[tactic(auto, unfolding(crate::specs::Lines::line_read))]
pub fn read_line(alloc: Global, line: &[u8], ended: bool) -> Result<Option<Command>, Unread>
    ensures { GivesWhole (option_map said) result (line_read line.now ended) }
{
    if line.starts_with(b"#") {
        return Ok(None);
    }
    if line.len() > LONGEST {
        return Err(Unread::Expected(Expected::ShortLine));
    }
    if is_blank(line) {
        return Ok(None);
    }
    if !ended {
        return Err(Unread::Expected(Expected::Newline));
    }
    if !is_text(line) {
        return Err(Unread::Expected(Expected::Text));
    }
    let command = read_words(alloc, line)?;
    Ok(Some(command))
}
