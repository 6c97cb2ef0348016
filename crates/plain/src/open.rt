// The built-in plain index, and opening one from the caller's memory.
ghost use Rattle.std.specs.Prelude.{◌≡◌, false, [], ◌∷◌};
ghost use Rattle.plain.specs.Decoding.{set_of, Decodes};
ghost use Rattle.plain.specs.Opening.{opening, OpeningIs};

use super::index::Plain;
use super::source::PlainSource;
use bits::check;
use faults::{Fault, Form, Located, check_last};
use opening::Opens;

const NO_MEMBER: [u8; 1] = [0];

impl<'a> Plain<'a> {
    /// The built-in index of one bay and no member.
    pub fn empty() -> Plain<'a>
        ensures last { result.last ≡ 1 }
        ensures bits { result.bits.now ≡ 0 ∷ [] }
        ensures means { set_of result.last result.bits.now ≡ false ∷ [] }
    {
        Plain {
            last: 1,
            bits: &NO_MEMBER,
        }
    }
}

impl<'a> Opens for Plain<'a> {
    type Source = PlainSource<'a>;

    ghost verdict = { λ s. opening s.last s.bits.now };

    ghost due = { λ s. OpeningIs s.last s.bits.now };

    ghost decoding = { λ s. set_of s.last s.bits.now };

    ghost decodes = { λ s. Decodes s.last s.bits.now };

    ghost holding = { λ p s. (p.last ≡ s.last) × (p.bits.now ≡ s.bits.now) };

    fn open(&mut self, source: PlainSource<'a>) -> Result<(), Fault> {
        let PlainSource { last, bits } = source;
        check_last(last).at(Form::Plain, 0)?;
        check(bits, last).at(Form::Plain, 1)?;
        *self = Plain { last, bits };
        Ok(())
    }
}
