// A part of bytes in a word.
ghost use Rattle.std.specs.Prelude.{◌≡◌, ◌++◌, IfOk, OnOk};
ghost use Rattle.std.specs.Option.{option_map};
ghost use Rattle.std.specs.String.{string_bytes};
ghost use Rattle.notation.specs.Parts.{bytes_of, bytes_text};

use super::dash::is_dash;
use hex::FromHexError;
use std::alloc::{AllocError, Global};

/// Reads bytes of two hex digits each, in either case, or `-` for none.
pub fn read_bytes(alloc: Global, word: &[u8]) -> Result<Option<Vec<u8>>, AllocError>
    ensures { IfOk result (λ bytes. option_map (λ v. v.items) bytes ≡ bytes_of word.now) }
{
    if is_dash(word) {
        return Ok(Some(Vec::new(alloc)));
    }
    if word.is_empty() {
        return Ok(None);
    }
    match hex::decode(alloc, word) {
        Ok(bytes) => Ok(Some(bytes)),
        Err(error) => match error {
            FromHexError::OutOfMemory => Err(AllocError),
            _ => Ok(None),
        },
    }
}

/// Writes bytes behind a text, as two lower-case hex digits each, or `-` for none. What the text holds where there is no memory is left
/// open.
pub fn write_bytes(text: &mut String, bytes: &[u8]) -> Result<(), AllocError>
    ensures { OnOk result (string_bytes text.new ≡ string_bytes text.old ++ bytes_text bytes.now) }
{
    if bytes.is_empty() {
        return text.push_str("-");
    }
    let digits = hex::encode(text.allocator().clone()?, bytes)?;
    text.push_str(digits.as_str())
}
