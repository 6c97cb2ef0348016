// The bays of a sheet: a block of bays of both sets at a time as bits while many fit into the memory, and the last ones one by one.
ghost use Rattle.std.specs.Prelude.{◌≡◌, ℕ, suc, ◌+◌, ◌-◌, ◌%◌, ◌<◌, ◌≤◌, min, length};
ghost use Rattle.round.specs.Rounds.{free_of, class_of, last_bay, page_of, SameSets};
ghost use Rattle.round.specs.States.{after_sheet};
ghost use Rattle.round.specs.Strides.{block_of, ends_at, Going, Paced};
ghost use Rattle.sets.specs.Lists.{over};
ghost use Rattle.strides.specs.Passage.{Passage};

use super::pace::Pace;
use super::state::{Report, Round};
use super::walk::next_within;
use sets::{Counting, Walking};
use strides::{Passed, Stance, pass_rows};

// How many bytes of bits are asked for at a time.
const BLOCK: usize = 1024;

impl<F: Counting, C: Walking> Round<F, C> {
    // Passes a block of bays from bay `first` on, in a round that ends at `w`.
    fn pass_block(&self, stance: Stance, w: u32, first: u32, out: &mut [u32]) -> Passed
        requires last { w ≡ last_bay self.now }
        requires first { 1 ≤ first }
        requires within { first ≤ w }
        ensures passage { Passage (block_of (free_of self.now) first) (block_of (class_of self.now) first) stance first (min (suc w - first) 8192) out.old result out.new }
        ensures some { 64 ≤ length out.old → 64 ≤ result.bits }
    {
        let mut free = [0; BLOCK];
        let mut class = [0; BLOCK];
        self.free.bits(first - 1, &mut free);
        self.class.bits(first - 1, &mut class);
        let left = (w + 1 - first).min(8 * BLOCK as u32);
        pass_rows(stance, &free, &class, first, left, out)
    }

    // Passes blocks from the round's place on, while 64 numbers fit into the memory.
    fn pass_blocks(&self, w: u32, out: &mut [u32]) -> Pace
        requires last { w ≡ last_bay self.now }
        ensures { Paced (free_of self.now) (class_of self.now) self.now.state.place out.old result.bay result.written result.stretches result.stance out.new }
    {
        let mut pace = Pace {
            bay: self.state.place,
            written: 0,
            stretches: 0,
            stance: Stance {
                fresh: true,
                in_free: false,
                in_class: false,
            },
        };
        while pace.bay <= w && out.len() - pace.written as usize >= 64 {
            let passed = self.pass_block(
                pace.stance,
                w,
                pace.bay,
                &mut out[pace.written as usize..],
            );
            pace = Pace {
                bay: pace.bay + passed.bits,
                written: pace.written + passed.written,
                stretches: pace.stretches + passed.starts,
                stance: passed.stance,
            };
        }
        pace
    }

    // Where the stretch that is under way at `bay` ends, and the bay itself where one begins there.
    fn under_way(&self, stance: Stance, w: u32, bay: u32) -> u32
        requires last { w ≡ last_bay self.now }
        ensures { result ≡ ends_at (free_of self.now) (class_of self.now) stance bay }
    {
        if stance.fresh {
            bay.min(w + 1)
        } else if stance.in_free {
            next_within(&self.class, w, bay)
        } else if stance.in_class {
            next_within(&self.free, w, bay)
        } else {
            self.stretch_end(w, bay)
        }
    }

    // Writes bays while 64 numbers fit into the memory, and gives how many it wrote.
    pub(crate) fn stride(&mut self, out: &mut [u32]) -> usize
        ensures going { Going (free_of self.old) (class_of self.old) self.old.state out.old result self.new.state out.new }
        ensures sets { SameSets self.old self.new }
    {
        let w = self.last_bay();
        let pace = self.pass_blocks(w, out);
        let place = self.under_way(pace.stance, w, pace.bay);
        self.state = Report {
            handed: self.state.handed + pace.written,
            stretches: self.state.stretches + pace.stretches,
            place,
        };
        pace.written as usize
    }

    // Writes bays one by one, until the memory is full or no bay is left.
    pub(crate) fn fill(&mut self, out: &mut [u32])
        ensures writes { out.new ≡ over (page_of self.old (length out.old)).bays out.old }
        ensures state { self.new.state ≡ after_sheet self.old.state (page_of self.old (length out.old)) }
        ensures sets { SameSets self.old self.new }
    {
        for slot in out.iter_mut() {
            let Some(bay) = self.next().bay else {
                break;
            };
            *slot = bay;
        }
    }
}
