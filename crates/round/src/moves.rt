// The calls that open a round, move it and close it.
ghost use Rattle.std.specs.Prelude.{◌≡◌, length, take, Ok, Err};
ghost use Rattle.round.specs.Answers.{GoIs};
ghost use Rattle.round.specs.Calls.{go_to};
ghost use Rattle.round.specs.Handed.{HandedIs};
ghost use Rattle.round.specs.Rounds.{free_of, class_of, last_bay, walk_of, page_of, Sheeted, SameSets, Passed};
ghost use Rattle.round.specs.Sheets.{written_of};
ghost use Rattle.round.specs.States.{fresh, after_next, after_sheet, after_go};
ghost use Rattle.round.specs.Stretches.{Fewest};
ghost use Rattle.sets.specs.Lists.{over};

use super::state::{Report, Round, Taken, Written};
use super::walk::Walked;
use faults::Refusal;
use sets::{Counting, Walking};

impl<F: Counting, C: Walking> Round<F, C> {
    /// A fresh round.
    pub fn new(free: F, class: C) -> Round<F, C>
        ensures sets { (result.free ≡ free) × (result.class ≡ class) }
        ensures state { result.state ≡ fresh }
    {
        let state = Report {
            handed: 0,
            stretches: 0,
            place: 1,
        };
        Round { free, class, state }
    }

    /// Takes stretches until one is a common bay, or the round is at its end.
    pub fn next(&mut self) -> Taken
        ensures step { result ≡ (walk_of self.old).taken }
        ensures first { HandedIs (free_of self.old) (class_of self.old) self.old.state.place result.bay self.new.state.place }
        ensures fewest { Fewest (free_of self.old) (class_of self.old) (Passed self.old self.new.state.place) result.stretches }
        ensures state { self.new.state ≡ after_next (free_of self.old) (class_of self.old) self.old.state }
        ensures sets { SameSets self.old self.new }
    {
        let Walked { taken, place } = self.walk();
        self.state = Report {
            handed: self.state.handed + u32::from(taken.bay.is_some()),
            stretches: self.state.stretches + taken.stretches,
            place,
        };
        taken
    }

    /// Writes bays as `next` gives them, from the front of `out` on, until it is full or no bay is left.
    pub fn sheet(&mut self, out: &mut [u32]) -> Written
        ensures answer { result ≡ written_of (page_of self.old (length out.old)) }
        ensures writes { out.new ≡ over (page_of self.old (length out.old)).bays out.old }
        ensures first { Sheeted self.old (length out.old) (take result.bays out.new) self.new }
        ensures fewest { Fewest (free_of self.old) (class_of self.old) (Passed self.old self.new.state.place) result.stretches }
        ensures state { self.new.state ≡ after_sheet self.old.state (page_of self.old (length out.old)) }
        ensures sets { SameSets self.old self.new }
    {
        let before = self.state;
        let written = self.stride(out);
        self.fill(&mut out[written..]);
        Written {
            bays: self.state.handed - before.handed,
            stretches: self.state.stretches - before.stretches,
        }
    }

    /// Goes on to the place `q`, without passing the bays between.
    pub fn go(&mut self, q: u32) -> Result<(), Refusal>
        ensures answer { result ≡ go_to (last_bay self.old) self.old.state.place q }
        ensures law { GoIs (last_bay self.old) self.old.state.place q result }
        ensures state { self.new.state ≡ after_go result self.old.state q }
        ensures refused { elim result [ Ok _ ↦ Unit {0} | Err _ ↦ self.new ≡ self.old ] }
        ensures sets { SameSets self.old self.new }
    {
        if q == 0 {
            return Err(Refusal::NoBay);
        }
        if q > self.last_bay() + 1 {
            return Err(Refusal::Beyond);
        }
        if q < self.state.place {
            return Err(Refusal::Behind);
        }
        self.state.place = q;
        Ok(())
    }
}

impl<F: Counting + Drop, C: Walking + Drop> Round<F, C> {
    /// Spends the round.
    pub fn close(self) -> Report
        ensures { result ≡ self.state }
    {
        let Round {
            free: _,
            class: _,
            state,
        } = self;
        state
    }
}
