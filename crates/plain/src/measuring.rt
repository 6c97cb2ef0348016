// What a set takes in the plain form, measured.
ghost use Rattle.std.specs.Prelude.{◌≡◌};
ghost use Rattle.plain.specs.Filling.{told_of};

use super::slip::PlainSlip;
use super::told::PlainTold;
use sets::Walking;

impl PlainTold {
    /// What the set takes.
    pub fn of<S: Walking>(set: &S) -> PlainTold
        ensures { result ≡ told_of (S.Walking.meant set.now) }
    {
        let last = set.last();
        PlainTold {
            last,
            bits: (last as usize).div_ceil(8),
        }
    }
}

/// Measures a set: the slip holds it, and tells what it takes.
pub fn measure<S: Walking>(set: S) -> PlainSlip<S>
    ensures set { result.set ≡ set }
    ensures told { result.told ≡ told_of (S.Walking.meant set) }
{
    let told = PlainTold::of(&set);
    PlainSlip { set, told }
}
