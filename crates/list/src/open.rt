// The built-in list index, and opening one from the caller's memory.
ghost use Rattle.std.specs.Prelude.{◌≡◌, false, [], ◌∷◌};
ghost use Rattle.list.specs.Decoding.{set_of, Decodes};
ghost use Rattle.list.specs.Opening.{opening, OpeningIs};

use super::check::check_rising;
use super::index::List;
use super::source::ListSource;
use faults::{Fault, Form, Located, check_last};
use opening::Opens;

const NO_MEMBER: [u16; 0] = [];

impl<'a> List<'a> {
    /// The built-in index of one bay and no member.
    pub fn empty() -> List<'a>
        ensures last { result.last ≡ 1 }
        ensures numbers { result.numbers.now ≡ [] }
        ensures means { set_of result.last result.numbers.now ≡ false ∷ [] }
    {
        List {
            last: 1,
            numbers: &NO_MEMBER,
        }
    }
}

impl<'a> Opens for List<'a> {
    type Source = ListSource<'a>;

    ghost verdict = { λ s. opening s.last s.numbers.now };

    ghost due = { λ s. OpeningIs s.last s.numbers.now };

    ghost decoding = { λ s. set_of s.last s.numbers.now };

    ghost decodes = { λ s. Decodes s.last s.numbers.now };

    ghost holding = { λ x s. (x.last ≡ s.last) × (x.numbers.now ≡ s.numbers.now) };

    fn open(&mut self, source: ListSource<'a>) -> Result<(), Fault> {
        let ListSource { last, numbers } = source;
        check_last(last).at(Form::List, 0)?;
        check_rising(numbers, last).at(Form::List, 1)?;
        *self = List { last, numbers };
        Ok(())
    }
}
