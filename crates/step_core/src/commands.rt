//! I/O commands: a request becomes a draft, a ticket and a finished command.

ghost use Rattle.std.specs.Prelude.{◌≡◌, IfOk, IfErr};
ghost use Rattle.host_core.specs.Alone.{HasPlacedPages, IsLowest};
ghost use Rattle.machine_model.specs.Events as events;
ghost use Rattle.machine_model.specs.Step.{Step};
ghost use Rattle.step_core.specs.Replies.{reserve_reply, accept_reply, collect_reply};
ghost use Rattle.step_core.specs.Touching.{Touches};

use crate::world::World;
use host_core::Refused;
use io_commands::{Draft, Finished, Request, Ticket};
use std::alloc::Allocator;

impl<A: Allocator + Copy> World<A> {
    /// Reserves for a request an identifier of the queue, the lowest that no outstanding command has, and free pages: one for each data piece,
    /// and those of its chain, each in the lowest run of consecutive free pages where there is one, else in the lowest free pages. They are
    /// out of the store, and hold zeros.
    ///
    /// # Errors
    ///
    /// The request is handed back, and nothing changed. 1. `NoQueue` for queue 0, an unknown queue, and one whose
    /// submission half was given back and is not made again, and for an admin command. 2. `Deleting` where it is being deleted.
    /// 3. `Bad` for the first fault of the request. 4. `OtherBlocks` where the host takes no blocks of the request's size.
    /// 5. `NoIdentifier` where each identifier of the queue is outstanding. 6. `NoPages` where too few pages are free. 7. `Memory`
    /// where memory is refused.
    pub fn reserve(&mut self, q: u16, request: Request<A>) -> Result<Draft<A>, Refused<Request<A>>>
        ensures step { Step self.old.state (events.Reserve q request) (reserve_reply result) self.new.state }
        ensures touches { Touches self.old.state.entries self.old.touches (events.Reserve q request) (reserve_reply result) self.new.touches }
        ensures identifier { IfOk result (λ draft. IsLowest self.old.state.host q draft.cid) }
        ensures pages { IfOk result (λ draft. HasPlacedPages self.old.state.host draft) }
        ensures back { IfErr result (λ r. r.value ≡ request) }
    {
        self.host.reserve(&mut self.store, q, request)
    }

    /// Submits a built draft: its pages come in with their bytes, and its entry is appended at the tail
    /// of its queue (NVM Express Base Specification 2.0, "Memory-based transport queue model", section
    /// 3.3.1). The controller may fetch it once the queue's doorbell is rung. The ticket is the draft's.
    ///
    /// # Errors
    ///
    /// The draft is handed back, and nothing changed. 1. `Stranger` exactly where no drafted command of this world has its queue,
    /// identifier, request and pages. 2. `NotBuilt` where it has no entry. 3. `QueueGone` where its queue is not live.
    /// 4. `QueueFull` where the submission ring of its queue is full.
    pub fn submit(&mut self, draft: Draft<A>) -> Result<Ticket, Refused<Draft<A>>>
        ensures step { Step self.old.state (events.Submit draft) (accept_reply result) self.new.state }
        ensures touches { Touches self.old.state.entries self.old.touches (events.Submit draft) (accept_reply result) self.new.touches }
        ensures back { IfErr result (λ r. r.value ≡ draft) }
        ensures ticket { IfOk result (λ ticket. ticket ≡ record { q = draft.q; cid = draft.cid }) }
    {
        self.host.submit(&mut self.store, draft)
    }

    /// Cancels a draft: its pages come in with their bytes, and are free, and so is its identifier.
    ///
    /// # Errors
    ///
    /// `Stranger` exactly where no drafted command of this world has its queue, identifier, request and pages. Then the
    /// draft is handed back, and nothing changed.
    pub fn cancel(&mut self, draft: Draft<A>) -> Result<(), Refused<Draft<A>>>
        ensures step { Step self.old.state (events.Cancel draft) (accept_reply result) self.new.state }
        ensures touches { Touches self.old.state.entries self.old.touches (events.Cancel draft) (accept_reply result) self.new.touches }
        ensures back { IfErr result (λ r. r.value ≡ draft) }
    {
        self.host.cancel(&mut self.store, draft)
    }

    /// Collects a command that has ended: its pages are taken out, with their bytes.
    ///
    /// # Errors
    ///
    /// The ticket is handed back, and nothing changed. 1. `Stranger` where no submitted or held command has its queue and
    /// identifier. 2. `NotYet` where it has not ended. 3. `Memory` where memory is refused.
    pub fn collect(&mut self, ticket: Ticket) -> Result<Finished<A>, Refused<Ticket>>
        ensures step { Step self.old.state (events.Collect ticket.q ticket.cid) (collect_reply result) self.new.state }
        ensures touches { Touches self.old.state.entries self.old.touches (events.Collect ticket.q ticket.cid) (collect_reply result) self.new.touches }
        ensures back { IfErr result (λ r. r.value ≡ ticket) }
    {
        self.host.collect(&mut self.store, ticket)
    }

    /// Releases a finished command: its pages come in with their bytes, and are free, and so is its identifier.
    ///
    /// # Errors
    ///
    /// `Stranger` exactly where no collected command of this world has its queue, identifier, request and pages. Then the
    /// finished command is handed back, and nothing changed.
    pub fn release(&mut self, finished: Finished<A>) -> Result<(), Refused<Finished<A>>>
        ensures step { Step self.old.state (events.Release finished) (accept_reply result) self.new.state }
        ensures touches { Touches self.old.state.entries self.old.touches (events.Release finished) (accept_reply result) self.new.touches }
        ensures back { IfErr result (λ r. r.value ≡ finished) }
    {
        self.host.release(&mut self.store, finished)
    }
}
