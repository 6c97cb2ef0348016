// The built-in pioneer index, and opening one from the caller's memory.
ghost use Rattle.std.specs.Prelude.{◌≡◌, false, [], ◌∷◌};
ghost use Rattle.pioneer.specs.Decoding.{Decodes};
ghost use Rattle.pioneer.specs.Opening.{opening, OpeningIs};
ghost use Rattle.pioneer.specs.Runs.{set_of};

use super::checks::check_runs;
use super::index::Pioneer;
use super::source::PioneerSource;
use bits::{check_length, check_spare};
use faults::{Fault, Flaw, Form, Located, check_last, check_range};
use opening::Opens;

const NO_RUN: [u8; 1] = [0];

const NO_SUM: [u8; 0] = [];

impl<'a> Pioneer<'a> {
    /// The built-in index of one bay and no member.
    pub fn empty() -> Pioneer<'a>
        ensures last { result.last ≡ 1 }
        ensures count { result.count ≡ 0 }
        ensures starts { result.starts.now ≡ 0 ∷ [] }
        ensures sums { result.sums.now ≡ [] }
        ensures means { set_of result.last result.count result.starts.now result.sums.now ≡ false ∷ [] }
    {
        Pioneer {
            last: 1,
            count: 0,
            starts: &NO_RUN,
            sums: &NO_SUM,
        }
    }
}

// Checks the numbers and the parts, in the order of the refusals.
fn check_all(source: &PioneerSource) -> Result<(), Fault>
    ensures answer { result ≡ opening source.now.last source.now.count source.now.starts.now source.now.sums.now }
    ensures law { OpeningIs source.now.last source.now.count source.now.starts.now source.now.sums.now result }
{
    let PioneerSource {
        last,
        count,
        starts,
        sums,
    } = *source;
    check_last(last).at(Form::Pioneer, 0)?;
    check_range(count, 0, last, Flaw::Numbers).at(Form::Pioneer, 0)?;
    check_length(starts, last).at(Form::Pioneer, 1)?;
    check_length(sums, count).at(Form::Pioneer, 2)?;
    check_spare(starts, last).at(Form::Pioneer, 1)?;
    check_spare(sums, count).at(Form::Pioneer, 2)?;
    check_runs(starts, sums, last, count).at(Form::Pioneer, 2)
}

impl<'a> Opens for Pioneer<'a> {
    type Source = PioneerSource<'a>;

    ghost verdict = { λ s. opening s.last s.count s.starts.now s.sums.now };

    ghost due = { λ s. OpeningIs s.last s.count s.starts.now s.sums.now };

    ghost decoding = { λ s. set_of s.last s.count s.starts.now s.sums.now };

    ghost decodes = { λ s. Decodes s.last s.count s.starts.now s.sums.now };

    ghost holding = { λ p s. (p.last ≡ s.last) × (p.count ≡ s.count) × (p.starts.now ≡ s.starts.now) × (p.sums.now ≡ s.sums.now) };

    fn open(&mut self, source: PioneerSource<'a>) -> Result<(), Fault> {
        check_all(&source)?;
        let PioneerSource {
            last,
            count,
            starts,
            sums,
        } = source;
        *self = Pioneer {
            last,
            count,
            starts,
            sums,
        };
        Ok(())
    }
}
