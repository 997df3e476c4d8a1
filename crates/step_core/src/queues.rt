//! Queues: ringing, reaping, deleting and retiring them, and aborting their commands.

ghost use Rattle.std.specs.Prelude.{◌≡◌};
ghost use Rattle.machine_model.specs.Events as events;
ghost use Rattle.machine_model.specs.Step.{Step};
ghost use Rattle.step_core.specs.Replies.{ring_reply, reap_reply, send_reply};
ghost use Rattle.step_core.specs.Touching.{Touches};

use crate::world::World;
use machine_model::words::{Reaped, Refusal};
use std::alloc::Allocator;

impl<A: Allocator + Copy> World<A> {
    /// Rings the tail doorbell of a queue (NVM Express over PCIe Transport Specification 1.0, "Doorbell registers", section 3.1.2): the
    /// controller may fetch all that was submitted to it.
    ///
    /// # Errors
    ///
    /// `NoQueue` where there is no such queue, or its submission half was given back and is not made again.
    pub fn ring(&mut self, q: u16) -> Result<(), Refusal>
        ensures step { Step self.old.state (events.Ring q) (ring_reply result) self.new.state }
        ensures touches { Touches self.old.state.entries self.old.touches (events.Ring q) (ring_reply result) self.new.touches }
    {
        let tail = self.host.ring(q)?;
        self.controller.tail_doorbell(q, tail);
        Ok(())
    }

    /// Looks at the head of a queue's completion ring, and takes the completion there, if there is a new one (NVM Express Base
    /// Specification 2.0, "Common Completion Queue Entry", section 3.3.3.2).
    ///
    /// The answer is `Empty` where there is none. A completion that names another queue, a submission head outside the range from the known head to
    /// the tail, or no submitted command is `Rejected`: it is taken, the head doorbell is rung, and nothing else changes. Any other ends its command:
    /// `Done` gives the identifier of an I/O command and how it ended, and its pages stay its own; `AdminDone` gives the same for a command of queue
    /// 0, with its Dword 0, and that command is over: a queue that it deletes or makes takes the state that this end means; the completion half
    /// of a deleted completion queue that was its only half, and the half of a failed creation, are given back. The submission head that it gives is
    /// known from then on, for an I/O command too.
    ///
    /// # Errors
    ///
    /// `NoQueue` where there is no such queue, or its completion half was given back and the queue is not made again. Then nothing changed.
    pub fn reap(&mut self, q: u16) -> Result<Reaped, Refusal>
        ensures step { Step self.old.state (events.Reap q) (reap_reply result) self.new.state }
        ensures touches { Touches self.old.state.entries self.old.touches (events.Reap q) (reap_reply result) self.new.touches }
    {
        let reap = self.host.reap(&mut self.store, q)?;
        match reap.head {
            Some(head) => self.controller.head_doorbell(q, head),
            None => {}
        }
        Ok(reap.found)
    }

    /// Sends an Abort of a submitted command (NVM Express Base Specification 2.0, "Abort command", section 5.1). It is appended at the tail of queue
    /// 0 under the identifier that is answered.
    ///
    /// # Errors
    ///
    /// Nothing changed. 1. `NoQueue` for queue 0, an unknown queue, and one whose submission half was given back and is not made again.
    /// 2. `WrongState` where it is being deleted. 3. `NoSuchCommand` where the queue has no submitted command of this identifier.
    /// 4. `NoIdentifier` where each identifier of queue 0 is outstanding. 5. `QueueFull` where the submission ring of queue 0 is full.
    pub fn abort(&mut self, q: u16, cid: u16) -> Result<u16, Refusal>
        ensures step { Step self.old.state (events.Abort q cid) (send_reply result) self.new.state }
        ensures touches { Touches self.old.state.entries self.old.touches (events.Abort q cid) (send_reply result) self.new.touches }
    {
        self.host.abort(&mut self.store, q, cid)
    }

    /// Sends the deletion of a submission queue, which takes no more commands (NVM Express Base Specification 2.0, "Delete I/O
    /// Submission Queue command", section 5.7). It is appended at the tail of queue 0 under the identifier that is answered.
    ///
    /// # Errors
    ///
    /// Nothing changed. 1. `NoQueue` for queue 0, an unknown queue, and one whose submission half was given back and is not made again.
    /// 2. `WrongState` where it is being deleted. 3. `NoIdentifier` where each identifier of queue 0 is outstanding. 4. `QueueFull` where the
    /// submission ring of queue 0 is full.
    pub fn delete_sq(&mut self, q: u16) -> Result<u16, Refusal>
        ensures step { Step self.old.state (events.DeleteSq q) (send_reply result) self.new.state }
        ensures touches { Touches self.old.state.entries self.old.touches (events.DeleteSq q) (send_reply result) self.new.touches }
    {
        self.host.delete_sq(&mut self.store, q)
    }

    /// Sends the deletion of a completion queue (NVM Express Base Specification 2.0, "Delete I/O Completion Queue command", section 5.6).
    /// It is appended at the tail of queue 0 under the identifier that is answered.
    ///
    /// # Errors
    ///
    /// Nothing changed. 1. `NoQueue` for queue 0, an unknown queue, and one that is gone. 2. `WrongState` where its submission side is being deleted
    /// or a half of it is being made, or it has only its completion half and a deletion of that is outstanding. 3. `NoIdentifier` where each
    /// identifier of queue 0 is outstanding. 4. `QueueFull` where the submission ring of queue 0 is full.
    pub fn delete_cq(&mut self, q: u16) -> Result<u16, Refusal>
        ensures step { Step self.old.state (events.DeleteCq q) (send_reply result) self.new.state }
        ensures touches { Touches self.old.state.entries self.old.touches (events.DeleteCq q) (send_reply result) self.new.touches }
    {
        self.host.delete_cq(&mut self.store, q)
    }

    /// Makes the completion queue of a queue that is gone (NVM Express Base Specification 2.0, "Create I/O Completion Queue command", section 5.4):
    /// its half is granted, in and zero, and the command that creates it is appended at the tail of queue 0 under the identifier that is answered.
    /// The command tells the device the vector of its interrupts, or that it is polled; this controller raises none.
    ///
    /// # Errors
    ///
    /// Nothing changed. 1. `NoQueue` for queue 0 and an unknown queue. 2. `WrongState` where the queue is not gone. 3. `Outstanding` where a command
    /// of the queue is outstanding. 4. `NoIdentifier` where each identifier of queue 0 is outstanding. 5. `NoRun` where no run of that many
    /// consecutive pages is free. 6. `QueueFull` where the submission ring of queue 0 is full.
    pub fn create_cq(&mut self, q: u16, vector: Option<u16>) -> Result<u16, Refusal>
        ensures step { Step self.old.state (events.CreateCq q vector) (send_reply result) self.new.state }
        ensures touches { Touches self.old.state.entries self.old.touches (events.CreateCq q vector) (send_reply result) self.new.touches }
    {
        self.host.create_cq(&mut self.store, q, vector)
    }

    /// Makes the submission queue of a queue that is half made (NVM Express Base Specification 2.0,
    /// "Create I/O Submission Queue command", section 5.5): its half is granted, in and zero, and the
    /// command that creates it is appended at the tail of queue 0 under the identifier that is answered.
    ///
    /// # Errors
    ///
    /// Nothing changed. 1. `NoQueue` for queue 0 and an unknown queue. 2. `WrongState` where the queue is not half made, or the deletion of its
    /// completion queue is outstanding. 3. `NoIdentifier` where each identifier of queue 0 is outstanding. 4. `NoRun` where no run of that many
    /// consecutive pages is free. 5. `QueueFull` where the submission ring of queue 0 is full.
    pub fn create_sq(&mut self, q: u16) -> Result<u16, Refusal>
        ensures step { Step self.old.state (events.CreateSq q) (send_reply result) self.new.state }
        ensures touches { Touches self.old.state.entries self.old.touches (events.CreateSq q) (send_reply result) self.new.touches }
    {
        self.host.create_sq(&mut self.store, q)
    }

    /// Gives back the submission half of a deleted queue, and ends its submitted commands.
    ///
    /// Each of those is held with the status "Command Aborted due to SQ Deletion", as if its completion had been reaped; its pages
    /// stay its own until it is collected and released. The pages of the submission half are free, and the queue is retired.
    ///
    /// # Errors
    ///
    /// Nothing changed. 1. `NotDeleted` where there is no such queue, or the success of its deletion was not reaped, or it was retired or
    /// reset since. 2. `NotDrained` where a new completion is at the head of its completion ring.
    pub fn retire(&mut self, q: u16) -> Result<(), Refusal>
        ensures step { Step self.old.state (events.Retire q) (ring_reply result) self.new.state }
        ensures touches { Touches self.old.state.entries self.old.touches (events.Retire q) (ring_reply result) self.new.touches }
    {
        self.host.retire(&mut self.store, q)
    }
}
