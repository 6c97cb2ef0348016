// The commands that change what a slot holds.
ghost use Rattle.std.specs.Prelude.{◌≡◌, length, IfOk, OnErr};
ghost use Rattle.commands.specs.Said.{written};
ghost use Rattle.faults.specs.Bays.{bays_check};
ghost use Rattle.forms.specs.Choices.{layout_of};
ghost use Rattle.slots.specs.Changes.{opened, both_opened, refilled, turned_over, levelled};
ghost use Rattle.layers.specs.Layers.{turned, level};
ghost use Rattle.slots.specs.Held.{held, set_in};

use super::pair::Slots;
use commands::Slot;
use drafts::{Draft, Stored, open_both};
use forms::Choice;
use replies::Reply;
use std::alloc::{AllocError, Global};

impl Slots {
    /// Opens a draft in the place of a slot's index.
    pub fn open(&mut self, slot: Slot, draft: Draft) -> Reply
        ensures { record { reply = result; held = held self.new } ≡ opened slot (written draft) (held self.old) }
    {
        match Stored::open(draft) {
            Ok(stored) => {
                self.put(slot, stored);
                Reply::Done
            }
            Err(fault) => Reply::Faulty(fault),
        }
    }

    /// Opens two drafts in the places of both indexes, or neither.
    pub fn open_pair(&mut self, free: Draft, class: Draft) -> Reply
        ensures { record { reply = result; held = held self.new } ≡ both_opened (written free) (written class) (held self.old) }
    {
        match open_both(free, class) {
            Ok((free, class)) => {
                *self = Slots { free, class };
                Reply::Done
            }
            Err(fault) => Reply::FaultyPair(fault),
        }
    }

    /// Fills a slot's set in a form, and opens it there.
    pub fn fill(&mut self, alloc: Global, slot: Slot, choice: Choice) -> Result<Reply, AllocError>
        ensures answer { IfOk result (λ reply. record { reply = reply; held = held self.new } ≡ refilled slot choice (held self.old)) }
        ensures set { IfOk result (λ _. set_in slot (held self.new) ≡ set_in slot (held self.old)) }
        ensures memory { OnErr result (self.new ≡ self.old) }
        ensures unrefused { OnErr result ((layout_of choice).measuring ≡ Ok tt) }
    {
        Ok(
            match Stored::filled(alloc, &self.of(slot).index(), choice)? {
                Ok(stored) => {
                    self.put(slot, stored);
                    Reply::Done
                }
                Err(fault) => Reply::Faulty(fault),
            },
        )
    }

    /// Exchanges the members and the non-members of a slot's set.
    pub fn turn(&mut self, alloc: Global, slot: Slot) -> Result<Reply, AllocError>
        ensures answer { IfOk result (λ reply. record { reply = reply; held = held self.new } ≡ turned_over slot (held self.old)) }
        ensures set { IfOk result (λ _. set_in slot (held self.new) ≡ turned (set_in slot (held self.old))) }
        ensures memory { OnErr result (self.new ≡ self.old) }
    {
        let turned = self.of(slot).turned(alloc)?;
        self.put(slot, turned);
        Ok(Reply::Done)
    }

    /// Keeps the bays `a` to `b` of a slot's set, counted from 1.
    pub fn level(&mut self, alloc: Global, slot: Slot, a: u32, b: u32) -> Result<Reply, AllocError>
        ensures answer { IfOk result (λ reply. record { reply = reply; held = held self.new } ≡ levelled slot a b (held self.old)) }
        ensures set { IfOk result (λ reply. reply ≡ Reply.Done → set_in slot (held self.new) ≡ level a b (set_in slot (held self.old))) }
        ensures memory { OnErr result (self.new ≡ self.old) }
        ensures unrefused { OnErr result (bays_check a b (length (set_in slot (held self.old))) ≡ Ok tt) }
    {
        Ok(match self.of(slot).levelled(alloc, a, b)? {
            Ok(stored) => {
                self.put(slot, stored);
                Reply::Done
            }
            Err(refusal) => Reply::Refused(refusal),
        })
    }
}
