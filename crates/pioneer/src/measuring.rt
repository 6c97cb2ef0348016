// What a set takes in the pioneer form, measured.
ghost use Rattle.std.specs.Prelude.{◌≡◌};
ghost use Rattle.pioneer.specs.Filling.{count_of, told_of};

use super::slip::PioneerSlip;
use super::told::PioneerTold;
use sets::Walking;

// How many members the set has.
fn count_members<S: Walking>(set: &S) -> u32
    ensures { result ≡ count_of (S.Walking.meant set.now) }
{
    let last = set.last();
    let mut memory = [0; 8192];
    let row = &mut memory[..(last as usize).div_ceil(8)];
    set.bits(0, row);
    bits::ones(row, last)
}

impl PioneerTold {
    /// What the set takes.
    pub fn of<S: Walking>(set: &S) -> PioneerTold
        ensures { result ≡ told_of (S.Walking.meant set.now) }
    {
        let last = set.last();
        let count = count_members(set);
        PioneerTold {
            last,
            count,
            starts: (last as usize).div_ceil(8),
            sums: (count as usize).div_ceil(8),
        }
    }
}

/// Measures a set: the slip holds it, and tells what it takes.
pub fn measure<S: Walking>(set: S) -> PioneerSlip<S>
    ensures set { result.set ≡ set }
    ensures told { result.told ≡ told_of (S.Walking.meant set) }
{
    let told = PioneerTold::of(&set);
    PioneerSlip { set, told }
}
