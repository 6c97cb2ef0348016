// A set that was measured for the zombit form.
ghost use Rattle.std.specs.Prelude.{◌≡◌};
ghost use Rattle.zombit.specs.Filling.{told_of};
ghost use Rattle.zombit.specs.Lawful.{BlockSize};

use super::told::ZombitTold;
use sets::Walking;

/// A set, and what it takes in the zombit form. A slip can be neither copied nor let go: `fill` alone spends it, and gives the set back.
pub struct ZombitSlip<S: Walking> {
    pub(crate) set: S,
    pub(crate) told: ZombitTold,
    ghost blocked: { BlockSize told.size },
    ghost is: { told ≡ told_of told.size (S.Walking.meant set) },
}
