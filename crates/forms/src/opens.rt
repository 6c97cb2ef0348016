// The built-in index, and opening one of any form in its place.
ghost use Rattle.std.specs.Prelude.{◌≡◌, false, [], ◌∷◌};
ghost use Rattle.forms.specs.Meant.{meant_of, choice_held, numbers_held, parts_held};
ghost use Rattle.forms.specs.Sources.{opening_given, GivenIs, decoding_given, GivenDecodes, HoldsGiven};

use super::choice::Choice;
use super::index::Index;
use super::opened::index_of;
use super::source::Source;
use faults::Fault;
use opening::Opens;
use plain::Plain;

impl<'a> Index<'a> {
    /// The built-in index, of the plain form, of one bay and no member.
    pub fn empty() -> Index<'a>
        ensures form { choice_held result ≡ Choice.Plain }
        ensures numbers { numbers_held result ≡ 1 ∷ [] }
        ensures parts { parts_held result ≡ (0 ∷ []) ∷ [] }
        ensures means { meant_of result ≡ false ∷ [] }
    {
        Index::Plain(Plain::empty())
    }
}

impl<'a> Opens for Index<'a> {
    type Source = Source<'a>;

    ghost verdict = { opening_given };

    ghost due = { GivenIs };

    ghost decoding = { decoding_given };

    ghost decodes = { GivenDecodes };

    ghost holding = { HoldsGiven };

    fn open(&mut self, source: Source<'a>) -> Result<(), Fault> {
        *self = index_of(source)?;
        Ok(())
    }
}
