// Why a line could not be read.
ghost use Rattle.std.specs.Prelude.{◌≡◌};
ghost use Rattle.commands.specs.declared.expected.Unread.TheVariants as unread;

use std::alloc::AllocError;

/// What is wanted where a line does not fit.
#[derive(Clone, Copy, PartialEq, Eq, Debug)]
pub enum Expected {
    Command,
    Slot,
    Form,
    Question,
    Sort,
    Number,
    /// A number of bays that a sheet has.
    SheetNumber,
    /// A part in hex.
    Bytes,
    /// A part in numbers.
    Numbers,
    /// No further word.
    End,
    /// A line that is not too long.
    ShortLine,
    /// A line that is not cut off.
    Newline,
    /// A line that is UTF-8.
    Text,
}

/// Why there is no command: another line was wanted, or memory ran out.
#[derive(Debug, Drop)]
pub enum Unread {
    Expected(Expected),
    Memory(AllocError),
}

impl From<Expected> for Unread {
    ghost from_gives = { λ wanted e. e ≡ unread.Expected wanted };

    fn from(expected: Expected) -> Unread {
        Unread::Expected(expected)
    }
}

impl From<AllocError> for Unread {
    ghost from_gives = { λ error e. e ≡ unread.Memory error };

    fn from(error: AllocError) -> Unread {
        Unread::Memory(error)
    }
}
