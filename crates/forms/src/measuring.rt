// How much a set takes in a form.
ghost use Rattle.std.specs.Prelude.{◌≡◌, min, IfOk};
ghost use Rattle.forms.specs.Choices.{layout_of, MeasuringIs};
ghost use Rattle.forms.specs.Telling.{told_of, bytes_told, numbers_told};
ghost use Rattle.forms.specs.Verdicts.{verdict_of};

use super::choice::Choice;
use super::told::Told;
use faults::Fault;
use list::ListTold;
use pioneer::PioneerTold;
use plain::PlainTold;
use sets::Walking;
use zombit::ZombitTold;

impl Told {
    /// What the set takes in the form, unless that has no such block size.
    pub fn of<S: Walking>(set: &S, choice: Choice) -> Result<Told, Fault>
        ensures answer { verdict_of result ≡ (layout_of choice).measuring }
        ensures law { MeasuringIs choice (verdict_of result) }
        ensures told { IfOk result (λ told. told ≡ told_of choice (S.Walking.meant set.now)) }
    {
        Ok(match choice {
            Choice::Plain => Told::Plain(PlainTold::of(set)),
            Choice::List => Told::List(ListTold::of(set)),
            Choice::Zombit { size } => Told::Zombit(ZombitTold::of(set, size)?),
            Choice::Pioneer => Told::Pioneer(PioneerTold::of(set)),
        })
    }

    /// How many bytes the parts take together. It stops at the largest `usize`, which is the answer too where they take more.
    pub fn bytes(self) -> usize
        ensures { result ≡ min (bytes_told self) usize.MAX }
    {
        match self {
            Told::Plain(told) => told.bits,
            Told::List(_) => 0,
            Told::Zombit(told) => told
                .uniform
                .saturating_add(told.marked)
                .saturating_add(told.mixed),
            Told::Pioneer(told) => told.starts.saturating_add(told.sums),
        }
    }

    /// How many 16-bit numbers the parts take together.
    pub fn numbers(self) -> usize
        ensures { result ≡ numbers_told self }
    {
        match self {
            Told::List(told) => told.numbers,
            Told::Plain(_) | Told::Zombit(_) | Told::Pioneer(_) => 0,
        }
    }
}
