// What lies before a bit of the two rows, and how 64 bits change it.
ghost use Rattle.std.specs.Prelude.{◌≡◌, ℕ, ◌<◌};
ghost use Rattle.bits.specs.Words.{digit, Holds};
ghost use Rattle.strides.specs.Strides.{row_of, last_alone, begins, after};

use super::standing::Stance;

// At each bit whether the last bit before it that is in either row is in the first row alone, and the same behind the last bit. A sum
// carries a one of the first row over the bits that are in neither, as far as the next bit of the second.
fn carried(own: u64, other: u64, was: bool) -> (u64, bool)
    ensures bits { (s : ℕ) → s < 64 → digit result.0 s ≡ last_alone (row_of own) (row_of other) was s }
    ensures past { result.1 ≡ last_alone (row_of own) (row_of other) was 64 }
{
    let (sum, past) = (!other).carrying_add(own & !other, was);
    (sum ^ !(own | other), past)
}

// The bits of 64 at which a stretch begins, and the stance behind them.
pub(crate) fn pass(stance: Stance, free: u64, class: u64) -> (u64, Stance)
    ensures starts { Holds (begins (row_of free) (row_of class) stance) 0 64 result.0 }
    ensures stance { result.1 ≡ after (row_of free) (row_of class) stance 64 }
{
    let (after_free, in_free) = carried(free, class, stance.in_free);
    let (after_class, in_class) = carried(class, free, stance.in_class);
    let common = free & class;
    let fresh = (common << 1) | u64::from(stance.fresh);
    let starts = fresh | common | (free & after_class) | (class & after_free);
    let behind = Stance {
        fresh: common >> 63 == 1,
        in_free,
        in_class,
    };
    (starts, behind)
}
