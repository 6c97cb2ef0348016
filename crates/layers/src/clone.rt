// Cloning a level, by hand since a `Clone` that is no copy is not derived over a ghost field. A clone of the set beneath may have
// fewer bays, so the level's are cut to them.
ghost use Rattle.layers.specs.Layers.{IsCut};

use super::level::Level;
use sets::{Counting, Walking};
use std::alloc::AllocError;

impl<S: Counting + Clone> Clone for Level<S> {
    ghost is_clone = { λ x y. S.Clone.is_clone x.below y.below × IsCut x.first x.last (S.Walking.meant y.below) y.first y.last };

    ghost is_infallible = { λ x. S.Clone.is_infallible x.below };

    fn clone(&self) -> Result<Level<S>, AllocError> {
        let below = self.below.clone()?;
        let end = below.last();
        let first = self.first.min(end);
        let last = self.last.min(end);
        Ok(Level { below, first, last })
    }
}
