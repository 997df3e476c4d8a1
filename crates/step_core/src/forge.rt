//! The controller forges a completion.

ghost use Rattle.std.specs.Prelude.{◌≡◌};
ghost use Rattle.machine_model.specs.Events as events;
ghost use Rattle.machine_model.specs.Step.{Step};
ghost use Rattle.step_core.specs.Replies.{ring_reply};
ghost use Rattle.step_core.specs.Touching.{Touches};

use crate::world::World;
use machine_model::words::Refusal;
use page_memory::{Dma, TouchRecord};
use std::alloc::Allocator;

impl<A: Allocator + Copy> World<A> {
    /// Puts any 16 bytes into a completion slot, as a controller at fault might. From then on, until a [`World::reset`], the world is not trusted:
    /// the controller may do anything with its own part and with the bytes of the pages that are in, and what the host keeps still holds.
    ///
    /// # Errors
    ///
    /// 1. `NoQueue` where there is no such queue, or its completion half was given back and the queue is not made again.
    /// 2. `NoSlot` where the ring has no such slot.
    pub fn forge(&mut self, q: u16, slot: u16, bytes: [u8; 16]) -> Result<(), Refusal>
        ensures step { Step self.old.state (events.Forge q slot bytes) (ring_reply result) self.new.state }
        ensures touches { Touches self.old.state.entries self.old.touches (events.Forge q slot bytes) (ring_reply result) self.new.touches }
    {
        let Some(base) = self.host.completion_base(q) else {
            return Err(Refusal::NoQueue);
        };
        if slot >= self.host.entries() {
            return Err(Refusal::NoSlot);
        }
        self.store.clear();
        self.store
            .write(base + 16 * u64::from(slot), &bytes)
            .unwrap();
        prove!(self.store.pages() <= 65_536);
        self.trusted = false;
        Ok(())
    }
}
