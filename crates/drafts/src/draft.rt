// An index in memory of its own, before it is opened.
ghost use Rattle.std.specs.Prelude.{◌≡◌};
ghost use Rattle.forms.specs.Sources.{choice_given, numbers_given, parts_given, opening_given, decoding_given};
ghost use Rattle.forms.specs.Telling.{opening_numbers};
ghost use Rattle.drafts.specs.Drafts.{choice_drafted, parts_drafted, opening_drafted, set_drafted};

use forms::{Choice, Source, Told};

/// An index that need not be lawful, in memory of its own: its numbers and how long each part is, and its parts, one behind the other,
/// in a memory of bytes or in one of 16-bit numbers.
#[derive(Clone, PartialEq, Eq, Debug, Drop)]
pub struct Draft {
    pub told: Told,
    pub bytes: Vec<u8>,
    pub numbers: Vec<u16>,
}

impl Draft {
    /// Its form, with its block size if it has one.
    pub fn choice(&self) -> Choice
        ensures { result ≡ choice_drafted self.now }
    {
        match self.told {
            Told::Plain(_) => Choice::Plain,
            Told::List(_) => Choice::List,
            Told::Zombit(told) => Choice::Zombit { size: told.size },
            Told::Pioneer(_) => Choice::Pioneer,
        }
    }

    /// What its index opens from: its numbers and its parts. A part that is longer than what is left of its memory is what is left.
    pub fn source(&self) -> Source<'_>
        ensures form { choice_given result ≡ choice_drafted self.now }
        ensures numbers { numbers_given result ≡ opening_numbers self.now.told }
        ensures parts { parts_given result ≡ parts_drafted self.now }
        ensures answer { opening_given result ≡ opening_drafted self.now }
        ensures means { decoding_given result ≡ set_drafted self.now }
    {
        Source::told(self.told, &self.bytes, &self.numbers)
    }
}
