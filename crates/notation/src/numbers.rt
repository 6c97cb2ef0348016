// A list of numbers in a word.
ghost use Rattle.std.specs.Prelude.{◌≡◌, ◌++◌, IfOk, OnOk};
ghost use Rattle.std.specs.Option.{option_map};
ghost use Rattle.std.specs.String.{string_bytes};
ghost use Rattle.notation.specs.Numbers.{numbers_of, numbers_text};

use super::dash::is_dash;
use super::number::read_number;
use std::alloc::{AllocError, Global};
use std::fmt::Write;

/// Reads numbers of 16 bits with a comma between each two, or `-` for none.
pub fn read_numbers(alloc: Global, word: &[u8]) -> Result<Option<Vec<u16>>, AllocError>
    ensures { IfOk result (λ numbers. option_map (λ v. v.items) numbers ≡ numbers_of word.now) }
{
    let mut numbers = Vec::new(alloc);
    if is_dash(word) {
        return Ok(Some(numbers));
    }
    for piece in word.split(|c| *c == b',') {
        let Some(number) = read_number(piece, u32::from(u16::MAX)) else {
            return Ok(None);
        };
        numbers.push(number as u16)?;
    }
    Ok(Some(numbers))
}

/// Writes numbers behind a text, in decimal with a comma between each two, or `-` for none. What the text holds where there is no
/// memory is left open.
pub fn write_numbers(text: &mut String, numbers: &[u16]) -> Result<(), AllocError>
    ensures { OnOk result (string_bytes text.new ≡ string_bytes text.old ++ numbers_text numbers.now) }
{
    let Some((first, rest)) = numbers.split_first() else {
        return text.push_str("-");
    };
    write!(text, "{first}")?;
    for number in rest {
        write!(text, ",{number}")?;
    }
    Ok(())
}
