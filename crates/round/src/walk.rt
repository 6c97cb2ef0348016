// The stretches from a round's place on, until a common bay.
ghost use Rattle.std.specs.Prelude.{◌≡◌, suc, ◌+◌, ◌≤◌};
ghost use Rattle.round.specs.Handed.{HandedIs};
ghost use Rattle.round.specs.Machine.{stop, larger};
ghost use Rattle.round.specs.Rounds.{free_of, class_of, last_bay, walk_of, Passed};
ghost use Rattle.round.specs.States.{handed_by};
ghost use Rattle.round.specs.Stretches.{Fewest};
ghost use Rattle.sets.specs.Sets.{next_of};
ghost use Rattle.sets.specs.declared.Sort.TheVariants.{Members};

use super::state::{Round, Taken};
use sets::{Counting, Sort, Walking};

/// A walk's end: what it took, and the place behind it.
#[derive(Clone, Copy)]
pub struct Walked {
    pub taken: Taken,
    pub place: u32,
}

// The next member of a set at `p` in a round that ends at `w`; none, or one beyond `w`, is read as w + 1.
pub(crate) fn next_within<S: Walking>(set: &S, w: u32, p: u32) -> u32
    requires { w ≤ 65535 }
    ensures { result ≡ stop w (next_of (S.meant set.now) Members p) }
{
    set.next(Sort::Members, p).unwrap_or(w + 1).min(w + 1)
}

impl<F: Counting, C: Walking> Round<F, C> {
    // The smaller of the two last bays.
    pub(crate) fn last_bay(&self) -> u32
        ensures { result ≡ last_bay self.now }
    {
        self.free.last().min(self.class.last())
    }

    // The larger of the next members at `p` in a round that ends at `w`, which a walk asks once. Where the free set has none, it is
    // w + 1, and the class is not asked.
    pub(crate) fn stretch_end(&self, w: u32, p: u32) -> u32
        requires { w ≡ last_bay self.now }
        ensures { result ≡ larger (free_of self.now) (class_of self.now) p }
    {
        let in_free = next_within(&self.free, w, p);
        if in_free > w {
            return in_free;
        }
        let in_class = next_within(&self.class, w, p);
        in_free.max(in_class)
    }

    // Takes stretches from the round's place on, until one is a common bay or the round is at its end.
    pub(crate) fn walk(&self) -> Walked
        ensures is { result ≡ walk_of self.now }
        ensures first { HandedIs (free_of self.now) (class_of self.now) self.now.state.place result.taken.bay result.place }
        ensures fewest { Fewest (free_of self.now) (class_of self.now) (Passed self.now result.place) result.taken.stretches }
        ensures bays { result.taken.stretches + self.now.state.place ≤ result.place }
        ensures handed { handed_by result.taken.bay ≤ result.taken.stretches }
        ensures within { result.place ≤ suc (last_bay self.now) }
    {
        let w = self.last_bay();
        let mut p = self.state.place;
        let mut n = 0;
        while p <= w {
            let m = self.stretch_end(w, p);
            n += 1;
            if m == p {
                return Walked {
                    taken: Taken {
                        bay: Some(p),
                        stretches: n,
                    },
                    place: p + 1,
                };
            }
            p = m;
        }
        Walked {
            taken: Taken {
                bay: None,
                stretches: n,
            },
            place: p,
        }
    }
}
