// A set that was measured for the pioneer form.
ghost use Rattle.std.specs.Prelude.{◌≡◌};
ghost use Rattle.pioneer.specs.Filling.{told_of};

use super::told::PioneerTold;
use sets::Walking;

/// A set, and what it takes in the pioneer form. A slip can be neither copied nor let go: `fill` alone spends it, and gives the set back.
pub struct PioneerSlip<S: Walking> {
    pub(crate) set: S,
    pub(crate) told: PioneerTold,
    ghost is: { told ≡ told_of (S.Walking.meant set) },
}
