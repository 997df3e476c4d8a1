//! What a submitter does for one job.

ghost use Rattle.std.specs.Prelude.{◌≡◌, true, false, Ok, IfOk, IfErr, OnOk};
ghost use Rattle.std.specs.List.{list_any};
ghost use Rattle.driver_book.specs.Calls.{is_open_for};
ghost use Rattle.driver_threads.specs.Ends.{status_of as spec_status_of, Awaits, EndsWith, refuses};
ghost use Rattle.driver_threads.specs.JobSteps.{GivesUp, IsEndOf, IsRefusal, IsTooLong, Refusing, TakesItNoMore, TakesNoMore, number_of as spec_number_of};
ghost use Rattle.driver_threads.specs.Jobs.{prepared as spec_prepared};
ghost use Rattle.driver_threads.specs.Sharing.{Released, Submitted};

use crate::book_lock::Shared;
use crate::data::{Data, Unfilled};
use crate::gate::{Gate, Point};
use crate::jobs::{JobEnd, JobRefusal};
use crate::waits::Halt;
use driver_book::{LogBrand, Receipt, Seat};
use entry_codec::Status;
use io_commands::{Draft, Finished, Ticket};
use std::alloc::Allocator;
use std::sync::Wait;
use step_core::Refusal;

/// A submitter's gate, and whether it was closed once.
#[derive(Drop)]
pub(crate) struct Watch<'a, G> {
    gate: &'a G,
    worker: u16,
    closed: bool,
}

impl<'a, G: Gate> Watch<'a, G> {
    /// The gate of this worker, which was not closed yet.
    pub(crate) fn new(gate: &'a G, worker: u16) -> Self {
        Watch {
            gate,
            worker,
            closed: false,
        }
    }

    /// Whether the gate was closed once.
    pub(crate) fn was_closed(&self) -> bool {
        self.closed
    }

    /// The submitter is at this point of a job.
    pub(crate) fn pass(&mut self, point: Point) {
        if self.gate.at(self.worker, point).is_err() {
            self.closed = true;
        }
    }
}

/// Fills a draft with the data of its job, where it is a source, and builds it. No lock is held.
fn prepare<A: Allocator + Copy, K, D: Data<K, A>>(
    alloc: A,
    draft: &mut Draft<A>,
    given: &D,
) -> Result<(), Halt>
    ensures prepared { OnOk result (draft.new ≡ spec_prepared (D.bytes given.now) draft.old) }
    ensures refused { IfErr result (Refusing (IsTooLong (D.bytes given.now) draft.old.request)) }
{
    match given.fill(alloc, draft) {
        Ok(()) => {}
        Err(Unfilled::WrongLength) => return Err(Halt::Refused(JobRefusal::WrongLength)),
        Err(Unfilled::Memory) => return Err(Halt::Memory),
    }
    match draft.build(alloc) {
        Ok(()) => Ok(()),
        Err(_) => Err(Halt::Memory),
    }
}

/// Gives a draft up: a refused job leaves nothing, and whoever stops spends what they hold.
fn give_up<L: LogBrand, A: Allocator + Copy, R: Wait>(
    rt: &R,
    shared: &Shared<L, A>,
    draft: Draft<A>,
    halt: Halt,
) -> Halt
    ensures { Refusing (IsRefusal halt) result }
{
    match halt {
        Halt::Refused(_) => match shared.cancel(rt, draft) {
            Ok(()) => halt,
            Err(refused) => {
                drop(refused.value.apart());
                Halt::Memory
            }
        },
        Halt::Stopped | Halt::Memory => {
            drop(draft.apart());
            halt
        }
    }
}

/// Fills a draft and builds it, or gives it up. No lock is held.
pub(crate) fn prepared<L: LogBrand, A: Allocator + Copy, K, D: Data<K, A>, R: Wait>(
    rt: &R,
    alloc: A,
    shared: &Shared<L, A>,
    draft: Draft<A>,
    given: &D,
) -> Result<Draft<A>, Halt>
    ensures prepared { IfOk result (λ ready. ready ≡ spec_prepared (D.bytes given.now) draft) }
    ensures refused { IfErr result (Refusing (IsTooLong (D.bytes given.now) draft.request)) }
{
    let mut draft = draft;
    match prepare(alloc, &mut draft, given) {
        Ok(()) => Ok(draft),
        Err(halt) => Err(give_up(rt, shared, draft, halt)),
    }
}

/// Why a submission was refused: a queue that takes no more commands refuses the job. There is no more to be done about a draft that somebody else
/// has submitted or given up.
fn halt_of(why: Refusal) -> Halt
    ensures { Refusing (TakesNoMore why) result }
{
    match why {
        Refusal::QueueGone | Refusal::QueueFull => Halt::Refused(JobRefusal::QueueGone),
        Refusal::Memory => Halt::Memory,
        _ => Halt::Stopped,
    }
}

/// Submits a draft for a seat and rings its queue, while the lock is held once. Where submitters that ring serve, it does so in the same hold.
pub(crate) fn submitted<L: LogBrand, A: Allocator + Copy, R: Wait>(
    rt: &R,
    shared: &Shared<L, A>,
    seat: &mut Seat<L, A>,
    draft: Draft<A>,
) -> Result<Ticket, Halt>
    ensures receipt { IfOk result (λ ticket. Awaits seat.old.receipts ticket seat.new.receipts) }
    ensures refused { IfErr result (λ halt. refuses halt ≡ true → seat.new.receipts ≡ seat.old.receipts) }
    ensures known { IfErr result (λ halt. refuses halt ≡ true → seat.new.known ≡ seat.old.known) }
    ensures submitted { IfOk result (λ ticket. Submitted L.opening seat.old draft (Ok ticket) seat.new) }
    ensures ticket { IfOk result (λ ticket. ticket ≡ record { q = draft.q; cid = draft.cid }) }
    ensures cause { IfErr result (Refusing (TakesItNoMore L.opening draft)) }
    ensures seat { seat.new.number ≡ seat.old.number }
{
    let q = draft.q();
    let mut locked = shared.lock.lock(rt);
    let ticket = match locked.machine.submit(seat, draft) {
        Ok(ticket) => ticket,
        Err(refused) => {
            drop(locked);
            return Err(give_up(rt, shared, refused.value, halt_of(refused.why)));
        }
    };
    if matches!(locked.machine.ring(q), Err(Refusal::Memory)) {
        drop(locked);
        drop(ticket.apart());
        return Err(Halt::Memory);
    }
    if shared.leave_rung(locked).is_err() {
        drop(ticket.apart());
        return Err(Halt::Memory);
    }
    Ok(ticket)
}

/// The number of the receipt at an index.
fn number_of(receipts: &[Receipt], place: usize) -> u64
    ensures { result ≡ spec_number_of receipts.now place }
{
    match receipts.get(place) {
        Some(receipt) => receipt.number,
        None => 0,
    }
}

/// The status of the receipt at an index.
fn status_of(receipts: &[Receipt], place: usize) -> Option<Status>
    ensures { result ≡ spec_status_of receipts.now place }
{
    receipts.get(place).and_then(|receipt| receipt.status)
}

/// Keeps what the data of a job want of its finished command, and releases it. No lock is held while they look at it. The command ended as the seat's
/// receipt at this index says.
fn released<L: LogBrand, A: Allocator + Copy, K: Drop, D: Data<K, A>, R: Wait>(
    rt: &R,
    alloc: A,
    shared: &Shared<L, A>,
    seat: &mut Seat<L, A>,
    finished: Finished<A>,
    given: D,
    place: usize,
) -> Result<JobEnd<K>, Halt>
    requires { list_any (is_open_for finished.q finished.cid) seat.old.receipts ≡ true }
    ensures settled { IfOk result (λ end. EndsWith seat.old.receipts finished.q finished.cid place end seat.new.receipts) }
    ensures released { OnOk result (Released L.opening seat.old finished {A = Unit {0}} (Ok tt) seat.new) }
    ensures end { IfOk result (IsEndOf D.keeps given finished seat.new.receipts place) }
    ensures halted { IfErr result (λ halt. refuses halt ≡ false) }
{
    let Ok(kept) = given.keep(alloc, &finished) else {
        drop(finished.apart());
        return Err(Halt::Memory);
    };
    if let Err(refused) = shared.release(rt, seat, finished) {
        drop(refused.value.apart());
        return Err(Halt::Memory);
    }
    match status_of(seat.receipts(), place) {
        Some(status) => Ok(JobEnd::Done {
            status,
            bytes: kept,
        }),
        None => Err(Halt::Stopped),
    }
}

/// Finishes a command: waits for its end, collects, keeps what its job's data want of it, releases. It ended as the seat's receipt at this index
/// says.
///
/// # Errors
///
/// Where the workers are told to stop, the ticket is not that of the receipt, somebody else has collected the command, or memory is refused. The
/// ticket is spent.
pub(crate) fn finished<L: LogBrand, A: Allocator + Copy, K: Drop, D: Data<K, A> + Drop, R: Wait>(
    rt: &R,
    alloc: A,
    shared: &Shared<L, A>,
    seat: &mut Seat<L, A>,
    ticket: Ticket,
    given: D,
    place: usize,
) -> Result<JobEnd<K>, Halt>
    requires { list_any (is_open_for ticket.q ticket.cid) seat.old.receipts ≡ true }
    ensures settled { IfOk result (λ end. EndsWith seat.old.receipts ticket.q ticket.cid place end seat.new.receipts) }
    ensures gives_up { IfOk result (λ end. GivesUp D.keeps L.opening seat.old ticket.q ticket.cid given place end seat.new) }
    ensures halted { IfErr result (λ halt. refuses halt ≡ false) }
{
    let number = number_of(seat.receipts(), place);
    let command = shared.collect_when_ended(rt, seat, number, ticket)?;
    released(rt, alloc, shared, seat, command, given, place)
}
