//! Seats: whoever submits has one, with a receipt for each accepted submission.

ghost use Rattle.std.specs.Prelude.{◌≡◌, ◌⊎◌, ◌≤◌, ◌<◌, ◌+◌, [], true, Some, None, position, length, vec_len, vec_capacity, IfOk, IfErr, OnOk};
ghost use Rattle.std.specs.List.{list_any};
ghost use Rattle.machine_model.specs.Events as events;
ghost use Rattle.step_core.specs.Replies.{accept_reply};
ghost use Rattle.driver_book.specs.Calls.{Does, Receives, Settles, WantsMemoryFor, IsLogFull, LacksRoomToSubmit, AreReceiptsFull, HasNoTable, Learns, is_open_for as is_open_receipt, settled as settled_receipts};
ghost use Rattle.step_core.specs.Touching.{Touches};
ghost use Rattle.driver_book.specs.Seats.{AreSettled, is_without_status};

use crate::book::{Book, LogBrand};
use crate::host::unlogged;
use crate::note::{ended, note, note_refused};
use crate::report::{Asked, Receipt};
use crate::submissions::Known;
use entry_codec::Status;
use io_commands::{Draft, Finished, Ticket};
use std::alloc::{Allocator, Global};
use std::marker::Model;
use std::snapshot::Snapshot;
use std::sync::ledger::Share;
use step_core::{Refused, Step};

/// A seat at a book, with its receipts. It may be dropped, which [`Book::close`] finds out.
#[derive(Drop)]
pub struct Seat<L: LogBrand, A: Allocator = Global> {
    pub(crate) number: u16,
    pub(crate) share: Share<L>,
    pub(crate) receipts: Vec<Receipt, A>,
    /// How many receipts at the head of the list have a status: a search begins after them.
    pub(crate) settled: usize,
    /// The submissions of the book up to its own last one, or as it was made.
    pub(crate) known: Known<L, A>,
}

impl<L: LogBrand, A: Allocator> Model for Seat<L, A> {
    ghost use Rattle.std.specs.Prelude.{◌≡◌, ◌-◌, length, vec_len, vec_capacity};
    ghost use Rattle.driver_book.specs.State.{SeatContents};
    ghost use Rattle.driver_book.specs.Seats.{AreSettled};

    ghost Value = { SeatContents };

    ghost view = { λ s. record { number = s.number; receipts = s.receipts.items; spare = vec_capacity s.receipts - vec_len s.receipts; known = s.known } };

    ghost invariant = { λ s. (s.share.parts ≡ 1) × (s.share.amount ≡ length s.receipts.items) × AreSettled s.settled s.receipts.items };
}

impl<L: LogBrand, A: Allocator> Seat<L, A> {
    /// A seat without receipts.
    pub(crate) fn new(alloc: A, number: u16, share: Share<L>, known: Known<L, A>) -> Self
        requires parts { share.parts ≡ 1 }
        requires amount { share.amount ≡ 0 }
        ensures { result ≡ record { number = number; receipts = []; spare = 0; known = known } }
    {
        Seat {
            number,
            share,
            receipts: Vec::new(alloc),
            settled: 0,
            known,
        }
    }

    /// Its number: seats are numbered from 0, as they are made.
    pub fn number(&self) -> u16
        ensures { result ≡ self.now.number }
    {
        self.number
    }

    /// Its receipts, one for each accepted submission, in their order. It takes no memory.
    pub fn receipts(&self) -> &[Receipt]
        ensures { result.now ≡ self.now.receipts }
    {
        self.receipts.as_slice()
    }

    /// Whether it has a receipt for this command without a status: the command was submitted for this seat, and is not released. That is
    /// what [`Book::release`] owes.
    pub fn awaits(&self, q: u16, cid: u16) -> bool
        ensures { result ≡ list_any (is_open_receipt q cid) self.now.receipts }
    {
        is_awaited(&self.receipts, self.settled, q, cid)
    }
}

/// Whether a receipt is for this command, and has no status yet.
fn is_open_for(receipt: &Receipt, q: u16, cid: u16) -> bool
    ensures { result ≡ is_open_receipt q cid receipt.now }
{
    receipt.q == q && receipt.cid == cid && receipt.status.is_none()
}

/// The index of the first receipt for this command without a status.
fn first_open(receipts: &[Receipt], q: u16, cid: u16) -> Option<usize>
    ensures { result ≡ position (is_open_receipt q cid) receipts.now }
{
    receipts.iter().position(|r| is_open_for(r, q, cid))
}

/// Whether a receipt is for this command, and has no status yet; the first `settled` receipts have one.
#[tactic(auto, using(crate::proofs::StandsInReceipts::settled_length))]
fn is_awaited(receipts: &[Receipt], settled: usize, q: u16, cid: u16) -> bool
    requires { AreSettled settled receipts.now }
    ensures { result ≡ list_any (is_open_receipt q cid) receipts.now }
{
    first_open(&receipts[settled..], q, cid).is_some()
}

/// The index of the first receipt without a status.
fn first_without_status(receipts: &[Receipt]) -> Option<usize>
    ensures { result ≡ position is_without_status receipts.now }
{
    receipts.iter().position(|r| r.status.is_none())
}

/// How many receipts at the head of a list have a status.
#[tactic(auto, using(crate::proofs::StandsInReceipts::settled_until, crate::proofs::StandsInReceipts::all_settled))]
fn settled_head(receipts: &[Receipt]) -> usize
    ensures settled { AreSettled result receipts.now }
    ensures within { result ≤ length receipts.now }
{
    match first_without_status(receipts) {
        Some(i) => i,
        None => receipts.len(),
    }
}

/// Gives the first receipt for this command without a status the status that the command has. It takes and answers how many receipts at
/// the head of the list have a status.
#[tactic(auto, using(crate::proofs::StandsInReceipts::settled_length))]
fn settle(
    receipts: &mut [Receipt],
    settled: usize,
    q: u16,
    cid: u16,
    status: Option<Status>,
) -> usize
    requires { AreSettled settled receipts.old }
    ensures receipts { receipts.new ≡ settled_receipts q cid status receipts.old }
    ensures settled { AreSettled result receipts.new }
{
    let Some(i) = first_open(&receipts[settled..], q, cid) else {
        return settled;
    };
    receipts[settled + i].status = status;
    settled + settled_head(&receipts[settled..])
}

impl<L: LogBrand, A: Allocator + Copy> Book<L, A> {
    /// [`step_core::World::submit`], for a seat, which gets a receipt where the submission is accepted.
    ///
    /// # Errors
    ///
    /// As there; the draft is handed back. `Memory` where the log cannot grow, for an entry with the draft's pieces and page numbers, the seat's
    /// receipts cannot, or the book has no table of its submissions yet and cannot make it: then only the spare room of these lists, and the table,
    /// may differ in book and seat.
    pub fn submit(
        &mut self,
        seat: &mut Seat<L, A>,
        draft: Draft<A>,
    ) -> Result<Ticket, Refused<Draft<A>>>
        ensures step { Does self.old (Some seat.old.number) (events.Submit draft) (accept_reply result) self.new }
        ensures touches { Touches self.old.world.entries self.old.touches (events.Submit draft) (accept_reply result) self.new.touches }
        ensures receipt { Receives self.old.log seat.old draft result seat.new }
        ensures known { Learns self.old.log seat.old draft result seat.new }
        ensures back { IfErr result (λ r. r.value ≡ draft) }
        ensures ticket { IfOk result (λ ticket. ticket ≡ record { q = draft.q; cid = draft.cid }) }
        ensures memory { WantsMemoryFor (LacksRoomToSubmit self.old draft ⊎ AreReceiptsFull seat.old ⊎ HasNoTable self.old) (accept_reply result) }
    {
        let pieces = draft.request().pieces().len();
        let Ok(()) = self.log.make_room(pieces, draft.pages().len()) else {
            return Err(unlogged(draft));
        };
        let Ok(()) = seat.receipts.reserve(1) else {
            return Err(unlogged(draft));
        };
        let (queues, entries) = (self.world.queue_count(), self.world.entries());
        let Ok(()) = self.submissions.make_table(self.alloc, queues, entries) else {
            return Err(unlogged(draft));
        };
        self.submissions.begin_with(&seat.known);
        let (q, cid) = (draft.q(), draft.cid());
        let submitted = Snapshot::of(&draft);
        let asked = Asked::of(draft.request());
        self.log.push_submission(Some(seat.number), &draft);
        let answer = self.world.submit(draft);
        note_refused(&mut self.log, &answer);
        if answer.is_err() {
            return answer;
        }
        self.tally.add(&mut seat.share, 1);
        seat.receipts.push_reserved(Receipt {
            number: self.submissions.len(),
            q,
            cid,
            asked,
            status: None,
        });
        self.submissions.push(q, cid, &submitted);
        seat.known = self.submissions.known();
        answer
    }

    /// [`step_core::World::release`], for the seat that submitted the command: its receipt gets the status that the world kept, whatever
    /// the finished command says.
    ///
    /// # Errors
    ///
    /// As there; the command is handed back. `Memory` where the log cannot grow: then only the spare room of the book's log may differ.
    pub fn release(
        &mut self,
        seat: &mut Seat<L, A>,
        finished: Finished<A>,
    ) -> Result<(), Refused<Finished<A>>>
        requires { list_any (is_open_receipt finished.q finished.cid) seat.old.receipts ≡ true }
        ensures step { Does self.old (Some seat.old.number) (events.Release finished) (accept_reply result) self.new }
        ensures touches { Touches self.old.world.entries self.old.touches (events.Release finished) (accept_reply result) self.new.touches }
        ensures receipt { Settles self.old.world seat.old finished result seat.new }
        ensures back { IfErr result (λ r. r.value ≡ finished) }
        ensures memory { WantsMemoryFor (IsLogFull self.old) (accept_reply result) }
    {
        let Ok(()) = self.log.make_room(0, 0) else {
            return Err(unlogged(finished));
        };
        let (q, cid) = (finished.q(), finished.cid());
        let status = self.world.status_of(q, cid);
        let answer = self.world.release(finished);
        note(
            &mut self.log,
            Some(seat.number),
            Step::Release { q, cid },
            ended(&answer),
        );
        if answer.is_ok() {
            seat.settled = settle(seat.receipts.as_mut_slice(), seat.settled, q, cid, status);
        }
        answer
    }
}
