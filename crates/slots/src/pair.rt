// The indexes of the two slots.
ghost use Rattle.std.specs.Prelude.{◌≡◌, IfOk};
ghost use Rattle.commands.specs.Said.{written};
ghost use Rattle.drafts.specs.Storing.{stored_set};
ghost use Rattle.slots.specs.Held.{at_start, held, held_in, put, set_in};

use commands::Slot;
use drafts::Stored;
use std::alloc::{AllocError, Global};

/// The indexes of the two slots.
#[derive(Drop)]
pub struct Slots {
    pub free: Stored,
    pub class: Stored,
}

impl Slots {
    /// Each slot has the built-in index.
    pub fn new(alloc: Global) -> Result<Slots, AllocError>
        ensures { IfOk result (λ slots. held slots ≡ at_start) }
    {
        Ok(Slots {
            free: Stored::built_in(alloc)?,
            class: Stored::built_in(alloc)?,
        })
    }

    /// The index of a slot.
    pub fn of(&self, slot: Slot) -> &Stored
        ensures is { written result.now.draft ≡ held_in slot (held self.now) }
        ensures set { stored_set result.now ≡ set_in slot (held self.now) }
    {
        match slot {
            Slot::Free => &self.free,
            Slot::Class => &self.class,
        }
    }

    // Puts an index in the place of a slot's.
    pub(crate) fn put(&mut self, slot: Slot, stored: Stored)
        ensures is { held self.new ≡ put slot (written stored.draft) (held self.old) }
        ensures set { set_in slot (held self.new) ≡ stored_set stored }
    {
        match slot {
            Slot::Free => self.free = stored,
            Slot::Class => self.class = stored,
        }
    }
}
