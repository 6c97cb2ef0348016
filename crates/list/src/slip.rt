// A set that was measured for the list form.
ghost use Rattle.std.specs.Prelude.{◌≡◌};
ghost use Rattle.list.specs.Filling.{told_of};

use super::told::ListTold;
use sets::Walking;

/// A set, and what it takes in the list form. A slip can be neither copied nor let go: `fill` alone spends it, and gives the set back.
pub struct ListSlip<S: Walking> {
    pub(crate) set: S,
    pub(crate) told: ListTold,
    ghost is: { told ≡ told_of (S.Walking.meant set) },
}
