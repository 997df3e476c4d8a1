//! The host's steps of a shared book for jobs.

ghost use Rattle.std.specs.Prelude.{◌≡◌, true, None, IfErr, IfOk};
ghost use Rattle.std.specs.List.{list_any};
ghost use Rattle.driver_book.specs.Calls.{is_open_for};
ghost use Rattle.driver_threads.specs.Sharing.{Made, Submitted, Released};
ghost use Rattle.machine_model.specs.Events as events;
ghost use Rattle.step_core.specs.Replies.{reserve_reply, accept_reply, collect_reply, ring_reply, reap_reply};

use crate::book_lock::Shared;
use driver_book::{LogBrand, Seat};
use io_commands::{Draft, Finished, Request, Ticket};
use shared::Changes;
use std::alloc::Allocator;
use std::sync::Wait;
use step_core::{Reaped, Refusal, Refused};

impl<L: LogBrand, A: Allocator + Copy> Shared<L, A> {
    /// [`driver_book::Book::reserve`].
    ///
    /// # Errors
    ///
    /// As there; the request is handed back.
    pub fn reserve<R: Wait>(
        &self,
        rt: &R,
        q: u16,
        request: Request<A>,
    ) -> Result<Draft<A>, Refused<Request<A>>>
        ensures step { Made L.opening None (events.Reserve q request) (reserve_reply result) }
        ensures back { IfErr result (λ r. r.value ≡ request) }
    {
        self.lock.lock(rt).machine.reserve(q, request)
    }

    /// [`driver_book::Book::submit`]. The seat's receipt for the command has no status yet, which is what [`Shared::release`] owes.
    ///
    /// # Errors
    ///
    /// As there; the draft is handed back, and of the seat only the spare room of its receipts may differ.
    pub fn submit<R: Wait>(
        &self,
        rt: &R,
        seat: &mut Seat<L, A>,
        draft: Draft<A>,
    ) -> Result<Ticket, Refused<Draft<A>>>
        ensures step { Submitted L.opening seat.old draft result seat.new }
        ensures back { IfErr result (λ r. r.value ≡ draft) }
        ensures ticket { IfOk result (λ ticket. ticket ≡ record { q = draft.q; cid = draft.cid }) }
        ensures awaits { IfOk result (λ ticket. list_any (is_open_for ticket.q ticket.cid) seat.new.receipts ≡ true) }
    {
        self.lock.lock(rt).machine.submit(seat, draft)
    }

    /// [`driver_book::Book::cancel`].
    ///
    /// # Errors
    ///
    /// As there; the draft is handed back.
    pub fn cancel<R: Wait>(&self, rt: &R, draft: Draft<A>) -> Result<(), Refused<Draft<A>>>
        ensures step { Made L.opening None (events.Cancel draft) (accept_reply result) }
        ensures back { IfErr result (λ r. r.value ≡ draft) }
    {
        self.lock
            .with(rt, Changes::ROOM, draft, |book, draft| book.cancel(draft))
    }

    /// [`driver_book::Book::ring`].
    ///
    /// # Errors
    ///
    /// As there.
    pub fn ring<R: Wait>(&self, rt: &R, q: u16) -> Result<(), Refusal>
        ensures { Made L.opening None (events.Ring q) (ring_reply result) }
    {
        self.lock.with(rt, Changes::NONE, q, |book, q| book.ring(q))
    }

    /// [`driver_book::Book::reap`].
    ///
    /// # Errors
    ///
    /// As there.
    pub fn reap<R: Wait>(&self, rt: &R, q: u16) -> Result<Reaped, Refusal>
        ensures { Made L.opening None (events.Reap q) (reap_reply result) }
    {
        let mut locked = self.lock.lock(rt);
        let answer = locked.machine.reap(q);
        self.lock.leave(locked, Changes::of_reap(q, &answer));
        answer
    }

    /// [`driver_book::Book::collect`]. It does not wait.
    ///
    /// # Errors
    ///
    /// As there; the ticket is handed back.
    pub fn collect<R: Wait>(&self, rt: &R, ticket: Ticket) -> Result<Finished<A>, Refused<Ticket>>
        ensures step { Made L.opening None (events.Collect ticket.q ticket.cid) (collect_reply result) }
        ensures back { IfErr result (λ r. r.value ≡ ticket) }
        ensures command { IfOk result (λ finished. (finished.q ≡ ticket.q) × (finished.cid ≡ ticket.cid)) }
    {
        self.lock.lock(rt).machine.collect(ticket)
    }

    /// [`driver_book::Book::release`].
    ///
    /// # Errors
    ///
    /// As there; the command is handed back, and the seat is as it was.
    pub fn release<R: Wait>(
        &self,
        rt: &R,
        seat: &mut Seat<L, A>,
        finished: Finished<A>,
    ) -> Result<(), Refused<Finished<A>>>
        requires { list_any (is_open_for finished.q finished.cid) seat.old.receipts ≡ true }
        ensures step { Released L.opening seat.old finished result seat.new }
        ensures back { IfErr result (λ r. r.value ≡ finished) }
    {
        let mut locked = self.lock.lock(rt);
        let answer = locked.machine.release(seat, finished);
        self.lock.leave(locked, Changes::ROOM);
        answer
    }
}
