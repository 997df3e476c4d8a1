//! How a book is closed: its log is compared with the receipts of its seats.

ghost use Rattle.std.specs.Prelude.{◌≡◌, ℕ, ◌+◌, ◌<◌, ◌≤◌, ◌&&◌, length, map, take, drop, Some, is_none, MatchOption, IfSome, IfNone, slice_get, vec_len, vec_capacity, IfOk, IfErr, OnOk, OnErr};
ghost use Rattle.std.specs.List.{list_any};
ghost use Rattle.machine_model.specs.Claims.{IsSound};
ghost use Rattle.machine_model.specs.Status.{same_status as same_statuses};
ghost use Rattle.driver_book.specs.History.{LeadsTo, accepted, is_accepted, is_submission as is_step_of_submission};
ghost use Rattle.driver_book.specs.State.{AreSeated};
ghost use Rattle.driver_book.specs.Close.{status_by, held, same_seat, accepted_of, fits_status, same_asked, fits_asked, queue_in, identifier_in, is_receipt_of, has, stands, AllStand, IsMissing, receipts_of, has_open, IsDone, RefusesClose, Reports};
ghost use Rattle.driver_book.specs.Passes.{is_known, StandOf, AreKnown, IsMissingAt};
ghost use Rattle.driver_book.specs.declared.report.Receipt.{Receipt as AReceipt};

use crate::book::{Book, LogBrand};
use crate::entry::asked_in;
use crate::report::{Asked, CloseFault, Receipt, Receipts, Report, ReportIn};
use crate::seat::Seat;
use crate::two_passes::first_missing;
use crate::{Log, NoBytes, ShownEntry, ShownStep};
use entry_codec::Status;
use machine_model::words::Reaped;
use std::alloc::{Allocator, Global};
use std::sync::ledger::Share;
use step_core::{Reply, Step};

/// A book that was not closed: why, and the seats that were handed in. Nothing changed.
#[derive(Drop)]
pub struct CloseRefused<L: LogBrand, A: Allocator = Global> {
    /// Why.
    pub why: CloseFault,
    /// The seats, as they were handed in.
    pub seats: Vec<Seat<L, A>, A>,
}

/// Whether a step is a submission that was accepted.
fn is_accepted_step(step: &ShownStep<'_>, answer: &Reply<NoBytes>) -> bool
    ensures { result ≡ is_step_of_submission step.now answer.now }
{
    match step {
        Step::Submit { .. } => matches!(answer, Reply::Accepted),
        _ => false,
    }
}

/// Whether an entry is a submission that was accepted.
fn is_submission(entry: &ShownEntry<'_>) -> bool
    ensures { result ≡ is_accepted entry.now }
{
    is_accepted_step(&entry.step, &entry.answer)
}

/// Whether two seats, or none, are the same.
fn is_same_seat(a: Option<u16>, b: Option<u16>) -> bool
    ensures { result ≡ same_seat a b }
{
    match (a, b) {
        (None, None) => true,
        (Some(a), Some(b)) => a == b,
        _ => false,
    }
}

/// How many submissions were accepted before an index of a log.
fn accepted_before<A: Allocator>(log: &Log<A>, end: usize) -> u64
    requires { end ≤ length log.now.entries }
    ensures { result ≡ accepted (take end log.now.entries) }
{
    let mut number = 0;
    for p in 0..end {
        if is_submission(&log.at(p)) {
            number += 1;
        }
    }
    number
}

/// The status with which a step ended a submitted command.
fn status_of_step(q: u16, cid: u16, step: &ShownStep<'_>, answer: &Reply<NoBytes>) -> Option<Status>
    ensures { result ≡ status_by q cid step.now answer.now }
{
    match step {
        Step::Reap { q: of } => match answer {
            Reply::Reaps(Reaped::Done { cid: ended, status }) if *of == q && *ended == cid => {
                Some(*status)
            }
            _ => None,
        },
        Step::Retire { q: of } => match answer {
            Reply::Accepted if *of == q => Some(Status::ABORTED_SQ_DELETION),
            _ => None,
        },
        Step::Reset => match answer {
            Reply::Accepted => Some(Status::ABORTED_SQ_DELETION),
            _ => None,
        },
        _ => None,
    }
}

/// The first status that a log gives a submitted command after an index.
fn status_behind<A: Allocator>(q: u16, cid: u16, log: &Log<A>, index: usize) -> Option<Status>
    requires { index < length log.now.entries }
    ensures { result ≡ held q cid (drop (index + 1) log.now.entries) }
{
    let end = log.len();
    for i in index + 1..end {
        let Some(entry) = log.ending_at(i) else {
            continue;
        };
        match status_of_step(q, cid, &entry.step, &entry.answer) {
            Some(status) => return Some(status),
            None => {}
        }
    }
    None
}

/// Whether two statuses are the same.
fn is_same_status(a: Status, b: Status) -> bool
    ensures { result ≡ same_statuses a b }
{
    a.sct == b.sct && a.sc == b.sc
}

/// Whether a receipt has no status, or the one that the log gives.
fn fits(status: Option<Status>, told: Option<Status>) -> bool
    ensures { result ≡ fits_status status told }
{
    match (status, told) {
        (None, _) => true,
        (Some(a), Some(b)) => is_same_status(a, b),
        _ => false,
    }
}

/// Whether two commands ask for the same, apart from their pieces.
fn is_same_asked(a: Asked, b: Asked) -> bool
    ensures { result ≡ same_asked a b }
{
    a.kind.is_same(b.kind)
        && a.nsid == b.nsid
        && a.flags.is_same(b.flags)
        && a.slba == b.slba
        && a.block_size.bytes() == b.block_size.bytes()
        && a.blocks == b.blocks
}

/// Whether this is what the draft of an entry asks for.
fn is_asked(asked: Asked, logged: Option<Asked>) -> bool
    ensures { result ≡ fits_asked asked logged }
{
    match logged {
        Some(logged) => is_same_asked(asked, logged),
        None => false,
    }
}

/// The queue of a submission.
fn queue_of_step(step: &ShownStep<'_>) -> u16
    ensures { result ≡ queue_in step.now }
{
    match step {
        Step::Submit { q, .. } => *q,
        _ => 0,
    }
}

/// The identifier of a submission.
fn identifier_of_step(step: &ShownStep<'_>) -> u16
    ensures { result ≡ identifier_in step.now }
{
    match step {
        Step::Submit { cid, .. } => *cid,
        _ => 0,
    }
}

/// What the receipt of a submission says, as the log has it.
#[derive(Clone, Copy)]
pub(crate) struct Wanted {
    /// The submission's number.
    pub(crate) number: u64,
    /// Its queue.
    pub(crate) q: u16,
    /// Its identifier.
    pub(crate) cid: u16,
    /// What its draft asks for, where its entry has one.
    pub(crate) asked: Option<Asked>,
    /// How it ended, where it did.
    pub(crate) status: Option<Status>,
}

/// Whether a receipt is the one that is wanted, with its status or none yet.
fn is_wanted(receipt: Option<Receipt>, wanted: Wanted) -> bool
    ensures { result ≡ is_receipt_of wanted.number wanted.q wanted.cid wanted.asked wanted.status receipt }
{
    match receipt {
        Some(r) => {
            r.number == wanted.number
                && r.q == wanted.q
                && r.cid == wanted.cid
                && is_asked(r.asked, wanted.asked)
                && fits(r.status, wanted.status)
        }
        None => false,
    }
}

/// Whether a seat has this number, and at this index the receipt that is wanted.
fn has_receipt<L: LogBrand, A: Allocator>(
    holder: &Seat<L, A>,
    seat: Option<u16>,
    place: usize,
    wanted: Wanted,
) -> bool
    ensures { result ≡ has seat place wanted.number wanted.q wanted.cid wanted.asked wanted.status holder.now }
{
    is_same_seat(Some(holder.number), seat)
        && is_wanted(holder.receipts.get(place).copied(), wanted)
}

/// Whether some seat has this number, and at this index the receipt that is wanted.
pub(crate) fn any_has<L: LogBrand, A: Allocator>(
    seats: &[Seat<L, A>],
    seat: Option<u16>,
    place: usize,
    wanted: Wanted,
) -> bool
    ensures { result ≡ list_any (has seat place wanted.number wanted.q wanted.cid wanted.asked wanted.status) seats.now }
{
    seats.iter().any(|s| has_receipt(s, seat, place, wanted))
}

/// Whether the submission at `index` of the log, which is the one with this number, and the one at this index of its seat, stands in the receipts.
fn does_stand<L: LogBrand, A: Allocator>(
    log: &Log<A>,
    seats: &[Seat<L, A>],
    index: usize,
    number: u64,
    place: usize,
    entry: &ShownEntry<'_>,
) -> bool
    requires within { index < length log.now.entries }
    requires number { number ≡ accepted (take index log.now.entries) }
    requires place { place ≡ accepted_of entry.now.seat (take index log.now.entries) }
    ensures { result ≡ stands log.now.entries seats.now index entry.now }
{
    let q = queue_of_step(&entry.step);
    let cid = identifier_of_step(&entry.step);
    let asked = asked_in(&entry.draft);
    let status = status_behind(q, cid, log, index);
    let wanted = Wanted {
        number,
        q,
        cid,
        asked,
        status,
    };
    any_has(seats, entry.seat, place, wanted)
}

/// Goes through the first entries of a log, with the position of one seat: where its first submission is that stands in no receipt.
fn missing_of<L: LogBrand, A: Allocator>(
    log: &Log<A>,
    seats: &[Seat<L, A>],
    seat: u16,
    end: usize,
) -> Option<usize>
    requires { end ≤ length log.now.entries }
    ensures none { IfNone result (StandOf (Some seat) log.now.entries seats.now end) }
    ensures within { IfSome result (λ p. p < end) }
    ensures before { IfSome result (λ p. StandOf (Some seat) log.now.entries seats.now p) }
    ensures missing { IfSome result (λ p. IsMissingAt log.now.entries seats.now p) }
{
    let mut number = 0;
    let mut place = 0;
    for p in 0..end {
        let entry = log.at(p);
        if is_submission(&entry) {
            if is_same_seat(entry.seat, Some(seat)) {
                if !does_stand(log, seats, p, number, place, &entry) {
                    return Some(p);
                }
                place += 1;
            }
            number += 1;
        }
    }
    None
}

/// Whether a seat of this number was handed in.
fn has_seat<L: LogBrand, A: Allocator>(seats: &[Seat<L, A>], seat: Option<u16>) -> bool
    ensures { result ≡ is_known seats.now seat }
{
    seats.iter().any(|s| is_same_seat(Some(s.number), seat))
}

/// How far into a log the accepted submissions are of seats that were handed in.
fn known_until<L: LogBrand, A: Allocator>(log: &Log<A>, seats: &[Seat<L, A>]) -> usize
    ensures within { result ≤ length log.now.entries }
    ensures known { AreKnown log.now.entries seats.now result }
    ensures missing { result < length log.now.entries → IsMissingAt log.now.entries seats.now result }
{
    for p in 0..log.len() {
        let entry = log.at(p);
        if is_submission(&entry) {
            if !has_seat(seats, entry.seat) {
                return p;
            }
        }
    }
    log.len()
}

/// The first accepted submission that stands in no receipt: its seat and its number. Apart from the search for statuses, the log is gone
/// through once for the seats' numbers, and then once for each seat, up to the first that is missing so far. It takes no memory.
pub(crate) fn missing<L: LogBrand, A: Allocator>(
    log: &Log<A>,
    seats: &[Seat<L, A>],
) -> Option<(u16, u64)>
    requires { AreSeated log.now.entries }
    ensures { MatchOption result (AllStand log.now.entries seats.now) (λ m. IsMissing log.now.entries seats.now m.0 m.1) }
{
    let mut end = known_until(log, seats);
    for i in 0..seats.len() {
        let holder = &seats[i];
        match missing_of(log, seats, holder.number, end) {
            Some(p) => end = p,
            None => {}
        }
    }
    if end == log.len() {
        return None;
    }
    let number = accepted_before(log, end);
    Some((log.at(end).seat.unwrap_or(0), number))
}

/// Whether a receipt of a seat has no status.
fn has_open_receipt<L: LogBrand, A: Allocator>(seat: &Seat<L, A>) -> bool
    ensures { result ≡ list_any (λ (r : AReceipt). is_none r.status) seat.now.receipts }
{
    seat.receipts.iter().any(|r| r.status.is_none())
}

/// Whether some receipt has no status.
fn any_open<L: LogBrand, A: Allocator>(seats: &[Seat<L, A>]) -> bool
    ensures { result ≡ has_open seats.now }
{
    seats.iter().any(|s| has_open_receipt(s))
}

/// Takes the shares of seats, and their receipts.
fn take_in<L: LogBrand, A: Allocator>(
    rest: &mut Share<L>,
    seats: Vec<Seat<L, A>, A>,
    lists: &mut Vec<Vec<Receipt, A>, A>,
)
    requires empty { vec_len lists.old ≡ 0 }
    requires room { vec_len seats ≤ vec_capacity lists.old }
    ensures parts { rest.new.parts ≡ rest.old.parts + vec_len seats }
    ensures amount { rest.new.amount ≡ rest.old.amount + receipts_of seats.items }
    ensures lists { map (λ list. list.items) lists.new.items ≡ map (λ s. s.receipts) seats.items }
    ensures bound { 0 < vec_len seats → rest.new.parts ≤ L.parts }
{
    for seat in seats {
        let Seat {
            number: _,
            share,
            receipts,
            settled: _,
            known: _,
        } = seat;
        rest.merge(share);
        lists.push_reserved(receipts);
    }
}

impl<L: LogBrand, A: Allocator + Copy> Book<L, A> {
    /// Compares the log with the receipts of the seats, and takes the seats. It goes through the log twice, and once for each seat where there
    /// is no memory for tables. `Ok` says that each accepted submission of the log
    /// stands in the receipts, as the j-th of its seat in that seat's j-th receipt, with its number, queue and identifier, what it
    /// asks for (all but its pieces) and the status that the log gave it; that there is no further receipt; that
    /// each seat out was handed in; and that no receipt is without a status and no command outstanding. Whatever is answered, the log
    /// tells of a run of the machine that leads from the opening to the world, which is sound.
    ///
    /// # Errors
    ///
    /// In this order:
    ///
    /// 1. `Missing` names the first accepted submission that stands in no receipt handed in.
    /// 2. `SeatOut` where fewer seats were handed in than were made and no earlier close took.
    /// 3. `StillOut` where a receipt has no status, or a command is outstanding.
    /// 4. `Memory` where memory is refused.
    ///
    /// The seats are handed back, and the book is as it was.
    pub fn close(&mut self, seats: Vec<Seat<L, A>, A>) -> Result<ReportIn<A>, CloseRefused<L, A>>
        ensures opening { self.old.opening ≡ L.opening }
        ensures legal { LeadsTo self.old.opening self.old.log self.old.world }
        ensures sound { IsSound self.old.world }
        ensures stand { OnOk result (AllStand self.old.log seats.items) }
        ensures no_more { OnOk result (receipts_of seats.items ≡ accepted self.old.log) }
        ensures all_seats { OnOk result (self.old.out ≤ length seats.items) }
        ensures done { OnOk result (IsDone self.old seats.items) }
        ensures report { IfOk result (λ report. Reports report self.old seats.items) }
        ensures book { OnOk result (self.new ≡ record self.old { out = 0; taken = accepted self.old.log }) }
        ensures cause { IfErr result (λ refused. RefusesClose refused.why self.old seats.items) }
        ensures back { IfErr result (λ refused. refused.seats.items ≡ seats.items) }
        ensures same { OnErr result (self.new ≡ self.old) }
    {
        if let Some((seat, number)) = first_missing(self.alloc, &self.log, seats.as_slice()) {
            let why = CloseFault::Missing { seat, number };
            return Err(CloseRefused { why, seats });
        }
        if seats.len() < usize::from(self.out) {
            let why = CloseFault::SeatOut;
            return Err(CloseRefused { why, seats });
        }
        if any_open(seats.as_slice()) {
            let why = CloseFault::StillOut;
            return Err(CloseRefused { why, seats });
        }
        if !self.world.is_idle() {
            let why = CloseFault::StillOut;
            return Err(CloseRefused { why, seats });
        }
        let Ok(mut lists) = Vec::with_capacity(self.alloc, seats.len()) else {
            let why = CloseFault::Memory;
            return Err(CloseRefused { why, seats });
        };
        take_in(&mut self.rest, seats, &mut lists);
        self.tally.audit(&mut self.rest);
        self.out = 0;
        Ok(Report {
            submissions: self.submissions.len(),
            counts: self.world.counts(),
            receipts: Receipts::of(lists),
        })
    }
}
