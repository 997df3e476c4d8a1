//! The host's steps for jobs that need no seat, each written down unless it answers `Memory`: then only the spare room of the book's log may differ.

ghost use Rattle.std.specs.Prelude.{◌≡◌, ◌⊎◌, None, IfErr, IfOk};
ghost use Rattle.host_core.specs.Alone.{HasPlacedPages, IsLowest};
ghost use Rattle.machine_model.specs.Events as events;
ghost use Rattle.step_core.specs.Replies.{reserve_reply, accept_reply, collect_reply, ring_reply, reap_reply};
ghost use Rattle.driver_book.specs.Calls.{Does, WantsMemoryFor, IsLogFull, LacksRoomToReserve, MayWorldWant, most_pages};
ghost use Rattle.step_core.specs.Touching.{Touches};

use crate::book::{Book, LogBrand};
use crate::note::{collected, done, ended, note, note_reservation, reaped};
use io_commands::{Draft, Finished, Request, Ticket};
use machine_model::words::{Reaped, Refusal};
use std::alloc::Allocator;
use step_core::{Refused, Step, World};

/// A value that is handed back, as the log did not grow.
pub(crate) fn unlogged<T>(value: T) -> Refused<T>
    ensures value { result.value ≡ value }
    ensures why { result.why ≡ Refusal.Memory }
{
    Refused {
        value,
        why: Refusal::Memory,
    }
}

/// How many page numbers the log may have to take for a reservation: none where the world refuses it, otherwise one for each data piece, and for the
/// chain no more than there are pieces.
fn pages_to_log<A: Allocator + Copy>(world: &World<A>, q: u16, request: &Request<A>) -> usize
    ensures { result ≡ most_pages world.now.state q request.now }
{
    match world.reserve_refusal(q, request) {
        None => request.data_pages() + request.pieces().len(),
        Some(_) => 0,
    }
}

impl<L: LogBrand, A: Allocator + Copy> Book<L, A> {
    /// [`step_core::World::reserve`].
    ///
    /// # Errors
    ///
    /// As there, and `Memory` where the log cannot grow: for an entry, the request's pieces, and, where the world does not refuse it, its
    /// page numbers. The request is handed back.
    pub fn reserve(&mut self, q: u16, request: Request<A>) -> Result<Draft<A>, Refused<Request<A>>>
        ensures step { Does self.old None (events.Reserve q request) (reserve_reply result) self.new }
        ensures touches { Touches self.old.world.entries self.old.touches (events.Reserve q request) (reserve_reply result) self.new.touches }
        ensures identifier { IfOk result (λ draft. IsLowest self.old.world.host q draft.cid) }
        ensures pages { IfOk result (λ draft. HasPlacedPages self.old.world.host draft) }
        ensures back { IfErr result (λ r. r.value ≡ request) }
        ensures memory { WantsMemoryFor (LacksRoomToReserve self.old q request ⊎ MayWorldWant self.old (events.Reserve q request)) (reserve_reply result) }
    {
        let pieces = request.pieces().len();
        let pages = pages_to_log(&self.world, q, &request);
        let Ok(()) = self.log.make_room(pieces, pages) else {
            return Err(unlogged(request));
        };
        let answer = self.world.reserve(q, request);
        note_reservation(&mut self.log, q, &answer);
        answer
    }

    /// [`step_core::World::cancel`].
    ///
    /// # Errors
    ///
    /// As there, and `Memory` where the log cannot grow. The draft is handed back.
    pub fn cancel(&mut self, draft: Draft<A>) -> Result<(), Refused<Draft<A>>>
        ensures step { Does self.old None (events.Cancel draft) (accept_reply result) self.new }
        ensures touches { Touches self.old.world.entries self.old.touches (events.Cancel draft) (accept_reply result) self.new.touches }
        ensures back { IfErr result (λ r. r.value ≡ draft) }
        ensures memory { WantsMemoryFor (IsLogFull self.old) (accept_reply result) }
    {
        let Ok(()) = self.log.make_room(0, 0) else {
            return Err(unlogged(draft));
        };
        let step = Step::Cancel {
            q: draft.q(),
            cid: draft.cid(),
        };
        let answer = self.world.cancel(draft);
        note(&mut self.log, None, step, ended(&answer));
        answer
    }

    /// [`step_core::World::ring`].
    ///
    /// # Errors
    ///
    /// As there, and `Memory` where the log cannot grow.
    pub fn ring(&mut self, q: u16) -> Result<(), Refusal>
        ensures step { Does self.old None (events.Ring q) (ring_reply result) self.new }
        ensures touches { Touches self.old.world.entries self.old.touches (events.Ring q) (ring_reply result) self.new.touches }
        ensures memory { WantsMemoryFor (IsLogFull self.old) (ring_reply result) }
    {
        let Ok(()) = self.log.make_room(0, 0) else {
            return Err(Refusal::Memory);
        };
        let answer = self.world.ring(q);
        note(&mut self.log, None, Step::Ring { q }, done(&answer));
        answer
    }

    /// [`step_core::World::reap`].
    ///
    /// # Errors
    ///
    /// As there, and `Memory` where the log cannot grow.
    pub fn reap(&mut self, q: u16) -> Result<Reaped, Refusal>
        ensures step { Does self.old None (events.Reap q) (reap_reply result) self.new }
        ensures touches { Touches self.old.world.entries self.old.touches (events.Reap q) (reap_reply result) self.new.touches }
        ensures memory { WantsMemoryFor (IsLogFull self.old) (reap_reply result) }
    {
        let Ok(()) = self.log.make_room(0, 0) else {
            return Err(Refusal::Memory);
        };
        let answer = self.world.reap(q);
        note(&mut self.log, None, Step::Reap { q }, reaped(&answer));
        answer
    }

    /// [`step_core::World::collect`].
    ///
    /// # Errors
    ///
    /// As there, and `Memory` where the log cannot grow. The ticket is handed back.
    pub fn collect(&mut self, ticket: Ticket) -> Result<Finished<A>, Refused<Ticket>>
        ensures step { Does self.old None (events.Collect ticket.q ticket.cid) (collect_reply result) self.new }
        ensures touches { Touches self.old.world.entries self.old.touches (events.Collect ticket.q ticket.cid) (collect_reply result) self.new.touches }
        ensures back { IfErr result (λ r. r.value ≡ ticket) }
        ensures memory { WantsMemoryFor (IsLogFull self.old ⊎ MayWorldWant self.old (events.Collect ticket.q ticket.cid)) (collect_reply result) }
    {
        let Ok(()) = self.log.make_room(0, 0) else {
            return Err(unlogged(ticket));
        };
        let step = Step::Collect {
            q: ticket.q(),
            cid: ticket.cid(),
        };
        let answer = self.world.collect(ticket);
        note(&mut self.log, None, step, collected(&answer));
        answer
    }
}
