// What a set takes in the list form, measured.
ghost use Rattle.std.specs.Prelude.{◌≡◌};
ghost use Rattle.list.specs.Filling.{told_of};

use super::row::row_of;
use super::slip::ListSlip;
use super::told::ListTold;
use sets::Walking;

impl ListTold {
    /// What the set takes.
    pub fn of<S: Walking>(set: &S) -> ListTold
        ensures { result ≡ told_of (S.Walking.meant set.now) }
    {
        let last = set.last();
        ListTold {
            last,
            numbers: bits::ones(&row_of(set), last) as usize,
        }
    }
}

/// Measures a set: the slip holds it, and tells what it takes.
pub fn measure<S: Walking>(set: S) -> ListSlip<S>
    ensures set { result.set ≡ set }
    ensures told { result.told ≡ told_of (S.Walking.meant set) }
{
    let told = ListTold::of(&set);
    ListSlip { set, told }
}
