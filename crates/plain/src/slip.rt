// A set that was measured for the plain form.
ghost use Rattle.std.specs.Prelude.{◌≡◌};
ghost use Rattle.plain.specs.Filling.{told_of};

use super::told::PlainTold;
use sets::Walking;

/// A set, and what it takes in the plain form. A slip can be neither copied nor let go: `fill` alone spends it, and gives the set back.
pub struct PlainSlip<S: Walking> {
    pub(crate) set: S,
    pub(crate) told: PlainTold,
    ghost is: { told ≡ told_of (S.Walking.meant set) },
}
