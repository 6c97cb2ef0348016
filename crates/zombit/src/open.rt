// The built-in zombit index, and opening one from the caller's memory.
ghost use Rattle.std.specs.Prelude.{◌≡◌, false, [], ◌∷◌};
ghost use Rattle.zombit.specs.Blocks.{set_of};
ghost use Rattle.zombit.specs.Decoding.{Decodes};
ghost use Rattle.zombit.specs.Opening.{opening, OpeningIs, Holds};
ghost use Rattle.zombit.specs.Meant.{meaning};

use super::blocks::Blocks;
use super::checks::{check_marks, check_mixes, check_size};
use super::index::Zombit;
use super::source::ZombitSource;
use bits::{check_length, check_spare};
use faults::{Fault, Form, Located, check_last};
use opening::Opens;

const UNIFORM_BLOCK: [u8; 1] = [1];

const NO_MEMBER: [u8; 1] = [0];

const NO_BAYS: [u8; 0] = [];

impl<'a> Zombit<'a> {
    /// The built-in index of one bay and no member, in blocks of two.
    pub fn empty() -> Zombit<'a>
        ensures last { result.blocks.last ≡ 1 }
        ensures size { result.blocks.size ≡ 2 }
        ensures uniform { result.uniform.now ≡ 1 ∷ [] }
        ensures marked { result.marked.now ≡ 0 ∷ [] }
        ensures mixed { result.mixed.now ≡ [] }
        ensures means { meaning result ≡ false ∷ [] }
    {
        Zombit {
            blocks: Blocks { last: 1, size: 2 },
            uniform: &UNIFORM_BLOCK,
            marked: &NO_MEMBER,
            mixed: &NO_BAYS,
        }
    }
}

// Checks the numbers and the three parts, in the order of the refusals.
fn check_all(source: &ZombitSource) -> Result<(), Fault>
    ensures { result ≡ opening source.now.last source.now.size source.now.uniform.now source.now.marked.now source.now.mixed.now }
{
    let ZombitSource {
        last,
        size,
        uniform,
        marked,
        mixed,
    } = *source;
    check_last(last).at(Form::Zombit, 0)?;
    check_size(size).at(Form::Zombit, 0)?;
    let blocks = Blocks { last, size };
    let count = blocks.count();
    check_length(uniform, count).at(Form::Zombit, 1)?;
    check_length(marked, count).at(Form::Zombit, 2)?;
    let mixed_bits = blocks.mixed_bits(uniform, count);
    check_length(mixed, mixed_bits).at(Form::Zombit, 3)?;
    check_spare(uniform, count).at(Form::Zombit, 1)?;
    check_spare(marked, count).at(Form::Zombit, 2)?;
    check_spare(mixed, mixed_bits).at(Form::Zombit, 3)?;
    check_marks(blocks, uniform, marked).at(Form::Zombit, 2)?;
    check_mixes(blocks, uniform, mixed).at(Form::Zombit, 3)
}

impl<'a> Opens for Zombit<'a> {
    type Source = ZombitSource<'a>;

    ghost verdict = { λ s. opening s.last s.size s.uniform.now s.marked.now s.mixed.now };

    ghost due = { λ s. OpeningIs s.last s.size s.uniform.now s.marked.now s.mixed.now };

    ghost decoding = { λ s. set_of s.last s.size s.uniform.now s.marked.now s.mixed.now };

    ghost decodes = { λ s. Decodes s.last s.size s.uniform.now s.marked.now s.mixed.now };

    ghost holding = { Holds };

    fn open(&mut self, source: ZombitSource<'a>) -> Result<(), Fault> {
        check_all(&source)?;
        let ZombitSource {
            last,
            size,
            uniform,
            marked,
            mixed,
        } = source;
        *self = Zombit {
            blocks: Blocks { last, size },
            uniform,
            marked,
            mixed,
        };
        Ok(())
    }
}
