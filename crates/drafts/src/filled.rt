// A set, filled into memory of its own.
ghost use Rattle.std.specs.Prelude.{◌≡◌, false, [], ◌∷◌, IfOk, OnErr};
ghost use Rattle.forms.specs.Choices.{layout_of, SizeFits, MeasuringIs};
ghost use Rattle.forms.specs.Verdicts.{verdict_of};
ghost use Rattle.drafts.specs.Storing.{IsFilled};

use super::draft::Draft;
use super::stored::Stored;
use faults::Fault;
use forms::{Choice, Told, fill};
use plain::Plain;
use sets::Walking;
use std::alloc::{AllocError, Global};

impl Stored {
    /// The set, measured and filled in the form, in memory of its own; only measuring refuses.
    pub fn filled<S: Walking>(
        alloc: Global,
        set: &S,
        choice: Choice,
    ) -> Result<Result<Stored, Fault>, AllocError>
        ensures answer { IfOk result (λ made. verdict_of made ≡ (layout_of choice).measuring) }
        ensures law { IfOk result (λ made. MeasuringIs choice (verdict_of made)) }
        ensures memory { OnErr result ((layout_of choice).measuring ≡ Ok tt) }
        ensures filled { IfOk result (λ made. IfOk made (IsFilled choice (S.Walking.meant set.now))) }
    {
        let told = match Told::of(set, choice) {
            Ok(told) => told,
            Err(fault) => return Ok(Err(fault)),
        };
        let mut bytes = vec![in alloc; 0; told.bytes()]?;
        let mut numbers = vec![in alloc; 0; told.numbers()]?;
        fill(set, choice, &mut bytes, &mut numbers).unwrap();
        Ok(Ok(Stored {
            draft: Draft {
                told,
                bytes,
                numbers,
            },
        }))
    }

    // The index of the set in a form whose block size fits, so that nothing refuses.
    pub(crate) fn of<S: Walking>(
        alloc: Global,
        set: &S,
        choice: Choice,
    ) -> Result<Stored, AllocError>
        requires { SizeFits choice }
        ensures { IfOk result (IsFilled choice (S.Walking.meant set.now)) }
    {
        Ok(Stored::filled(alloc, set, choice)?.unwrap())
    }

    /// The built-in index: the plain one of one bay and no member.
    pub fn built_in(alloc: Global) -> Result<Stored, AllocError>
        ensures { IfOk result (IsFilled Choice.Plain (false ∷ [])) }
    {
        Stored::of(alloc, &Plain::empty(), Choice::Plain)
    }
}
