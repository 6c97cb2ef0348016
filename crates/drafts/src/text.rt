// How a draft is written in a line: its numbers, and then its parts.
ghost use Rattle.std.specs.Prelude.{◌≡◌, ◌++◌, ◌∷◌, OnOk};
ghost use Rattle.std.specs.String.{string_bytes};
ghost use Rattle.notation.specs.Parts.{bytes_text};
ghost use Rattle.drafts.specs.Texts.{draft_text};

use super::draft::Draft;
use forms::Source;
use notation::{write_bytes, write_numbers};
use std::alloc::AllocError;
use std::fmt::Write;

// Writes a space and then a part of bytes.
fn write_part(text: &mut String, part: &[u8]) -> Result<(), AllocError>
    ensures { OnOk result (string_bytes text.new ≡ string_bytes text.old ++ (32 ∷ bytes_text part.now)) }
{
    text.push_str(" ")?;
    write_bytes(text, part)
}

/// Writes the numbers of a draft and then its parts behind a text, in the notation of lines.
pub fn write_draft(text: &mut String, draft: &Draft) -> Result<(), AllocError>
    ensures { OnOk result (string_bytes text.new ≡ string_bytes text.old ++ draft_text draft.now) }
{
    match draft.source() {
        Source::Plain(source) => {
            write!(text, "{}", source.last)?;
            write_part(text, source.bits)
        }
        Source::List(source) => {
            write!(text, "{} ", source.last)?;
            write_numbers(text, source.numbers)
        }
        Source::Zombit(source) => {
            write!(text, "{} {}", source.last, source.size)?;
            write_part(text, source.uniform)?;
            write_part(text, source.marked)?;
            write_part(text, source.mixed)
        }
        Source::Pioneer(source) => {
            write!(text, "{} {}", source.last, source.count)?;
            write_part(text, source.starts)?;
            write_part(text, source.sums)
        }
    }
}
