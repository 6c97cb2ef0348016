// A set whose members are the non-members of the set beneath.
#![tactic(auto, using(crate::proofs::Turns::turning))]

ghost use Rattle.std.specs.Prelude.{◌≡◌};
ghost use Rattle.layers.specs.Layers.{other, turned, turned_sized, TurnedIs};

use sets::{Counting, Sort, Walking};

/// The bays of a set, with members and non-members exchanged.
#[derive(Drop, Clone, Copy)]
pub struct Turned<S: Counting> {
    below: S,
}

impl<S: Counting> Turned<S> {
    /// The layer over a set.
    pub fn new(below: S) -> Turned<S>
        ensures below { result.below ≡ below }
        ensures means { TurnedIs (S.Walking.meant below) (turned (S.Walking.meant result.below)) }
    {
        Turned { below }
    }

    /// The set beneath. Written here and at `Level`: a trait for both would still hold two bodies.
    pub fn into_below(self) -> S
        ensures { result ≡ self.below }
    {
        self.below
    }
}

// The other sort; an `impl Not` would have to stand beside `Sort`, for these layers alone.
fn turn(sort: Sort) -> Sort
    ensures { result ≡ other sort }
{
    match sort {
        Sort::Members => Sort::Others,
        Sort::Others => Sort::Members,
    }
}

impl<S: Counting> Walking for Turned<S> {
    ghost meant = { λ t. turned (S.Walking.meant t.below) };

    ghost sized = { λ t. turned_sized (S.Walking.meant t.below) (S.Walking.sized t.below) };

    fn last(&self) -> u32 {
        self.below.last()
    }

    fn holds(&self, i: u32) -> bool {
        i > 0 && i <= self.below.last() && !self.below.holds(i)
    }

    fn next(&self, sort: Sort, i: u32) -> Option<u32> {
        self.below.next(turn(sort), i)
    }

    fn previous(&self, sort: Sort, i: u32) -> Option<u32> {
        self.below.previous(turn(sort), i)
    }

    fn bits(&self, before: u32, out: &mut [u8]) {
        self.below.bits(before, out);
        bits::turn(out);
        bits::cut(out, self.last().saturating_sub(before));
    }
}

impl<S: Counting> Counting for Turned<S> {
    fn rank(&self, sort: Sort, i: u32) -> u32 {
        self.below.rank(turn(sort), i)
    }

    fn select(&self, sort: Sort, n: u32) -> Option<u32> {
        self.below.select(turn(sort), n)
    }
}
