// Making a level, and taking it away again.
ghost use Rattle.std.specs.Prelude.{◌≡◌, length};
ghost use Rattle.layers.specs.Levelling.{in_parts, levelling, LevellingIs};

use super::level::Level;
use faults::{Refusal, check_bays};
use sets::{Counting, Walking};

impl<S: Counting> Level<S> {
    /// The layer of the bays `a` to `b` of a set; a refusal gives the set back.
    pub fn new(below: S, a: u32, b: u32) -> Result<Level<S>, (S, Refusal)>
        ensures answer { in_parts result ≡ levelling below (length (S.Walking.meant below)) a b }
        ensures law { LevellingIs S.Walking.meant below a b result }
    {
        match check_bays(a, b, below.last()) {
            Ok(()) => Ok(Level {
                below,
                first: a,
                last: b,
            }),
            Err(refusal) => Err((below, refusal)),
        }
    }

    /// The set beneath.
    pub fn into_below(self) -> S
        ensures { result ≡ self.below }
    {
        self.below
    }
}
