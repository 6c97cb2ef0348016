// The bays of a set as a row of bits.
ghost use Rattle.std.specs.Prelude.{◌≡◌, ℕ, ◌≤◌};
ghost use Rattle.bits.specs.Bits.{bit_at};
ghost use Rattle.sets.specs.Sets.{is_member};

use sets::Walking;

// A bit for each bay that any set has, 1 exactly for a member of this one.
pub(crate) fn row_of<S: Walking>(set: &S) -> [u8; 8192]
    ensures { (i : ℕ) → 1 ≤ i → bit_at result i ≡ is_member (S.Walking.meant set.now) i }
{
    let mut row = [0; 8192];
    set.bits(0, &mut row);
    row
}
