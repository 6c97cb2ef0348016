// Copying a stored index, by hand since a `Clone` that is no copy is not derived over a ghost field.
ghost use Rattle.std.specs.Prelude.{◌≡◌};
ghost use Rattle.drafts.specs.Drafts.{SameDraft};
ghost use Rattle.drafts.specs.Storing.{stored_set};

use super::stored::Stored;
use std::alloc::AllocError;

impl Clone for Stored {
    ghost is_clone = { λ x y. SameDraft x.draft y.draft × (stored_set y ≡ stored_set x) };

    fn clone(&self) -> Result<Stored, AllocError> {
        Ok(Stored {
            draft: self.draft.clone()?,
        })
    }
}
