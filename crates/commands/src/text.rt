// How what was expected reads.
ghost use Rattle.std.specs.Prelude.{Some};
ghost use Rattle.commands.specs.Texts.{expected_text};

use super::expected::Expected;
use std::fmt;

impl fmt::Display for Expected {
    ghost output = { λ e. Some (expected_text e) };

    fn fmt<W: fmt::Write>(&self, f: &mut fmt::Formatter<W>) -> fmt::Result {
        f.write_str(match self {
            Expected::Command => {
                "a command: open, pair, fill, turn, level, free, class, round, next, sheet, go, count, nearest, sign, pick or close"
            }
            Expected::Slot => "a slot: free or class",
            Expected::Form => "a form: plain, list, zombit or pioneer",
            Expected::Question => "a question: last, holds, next, previous, rank or select",
            Expected::Sort => "a sort: member or other",
            Expected::Number => "a number from 0 to 4294967295",
            Expected::SheetNumber => "a number from 0 to 65536",
            Expected::Bytes => "a part in hex, two digits a byte, or -",
            Expected::Numbers => "a part of numbers from 0 to 65535 with commas, or -",
            Expected::End => "the end of the line",
            Expected::ShortLine => "a line of at most 800000 bytes",
            Expected::Newline => "a newline at the end of the line",
            Expected::Text => "a line of text",
        })
    }
}
