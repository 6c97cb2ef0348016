// A layer over the set of a stored index, filled into its form.
ghost use Rattle.std.specs.Prelude.{◌≡◌, length, IfOk, OnErr};
ghost use Rattle.faults.specs.Bays.{bays_check, BaysAre};
ghost use Rattle.layers.specs.Layers.{turned, level};
ghost use Rattle.drafts.specs.Drafts.{choice_drafted};
ghost use Rattle.drafts.specs.Refusing.{refusal_of};
ghost use Rattle.drafts.specs.Storing.{stored_set, IsFilled};

use super::stored::Stored;
use faults::Refusal;
use layers::{Level, Turned};
use std::alloc::{AllocError, Global};

impl Stored {
    /// The set with its members and non-members exchanged, filled into the form and the block size of this index.
    pub fn turned(&self, alloc: Global) -> Result<Stored, AllocError>
        ensures { IfOk result (IsFilled (choice_drafted self.now.draft) (turned (stored_set self.now))) }
    {
        Stored::of(alloc, &Turned::new(self.index()), self.choice())
    }

    /// The bays `a` to `b` of the set, the same.
    pub fn levelled(
        &self,
        alloc: Global,
        a: u32,
        b: u32,
    ) -> Result<Result<Stored, Refusal>, AllocError>
        ensures answer { IfOk result (λ made. refusal_of made ≡ bays_check a b (length (stored_set self.now))) }
        ensures law { IfOk result (λ made. BaysAre a b (length (stored_set self.now)) (refusal_of made)) }
        ensures memory { OnErr result (bays_check a b (length (stored_set self.now)) ≡ Ok tt) }
        ensures filled { IfOk result (λ made.
            IfOk made (IsFilled (choice_drafted self.now.draft) (level a b (stored_set self.now)))) }
    {
        match Level::new(self.index(), a, b) {
            Ok(level) => Ok(Ok(Stored::of(alloc, &level, self.choice())?)),
            Err((_, refusal)) => Ok(Err(refusal)),
        }
    }
}
