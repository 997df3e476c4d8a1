//! Calls that wait. Whoever waits looks at the book before it sleeps and each time that it is woken, and makes its step once the answer is different:
//! a wait makes no step, and writes nothing down.

ghost use Rattle.std.specs.Prelude.{◌≡◌, true, false, None, IfOk, IfErr};
ghost use Rattle.driver_threads.specs.Ends.{refuses};
ghost use Rattle.driver_threads.specs.JobSteps.{IsReservation, Refusing};
ghost use Rattle.driver_threads.specs.Jobs.{RefusesRequest};
ghost use Rattle.driver_threads.specs.Sharing.{Collected, Made};
ghost use Rattle.machine_model.specs.Events as events;

use crate::book_lock::Shared;
use crate::jobs::JobRefusal;
use crate::serving::{MOST_OF_A_WORKER, reap_some, serve_some};
use driver_book::{Book, LogBrand, Seat};
use io_commands::{Draft, Finished, Request, Ticket};
use shared::Change;
use std::alloc::{AllocError, Allocator};
use std::sync::Wait;
use step_core::Refusal;

/// Why a submitter does not go on with a job.
#[derive(Clone, Copy, Debug, PartialEq, Eq)]
pub(crate) enum Halt {
    /// The job is refused.
    Refused(JobRefusal),
    /// The workers are told to stop.
    Stopped,
    /// Memory was refused.
    Memory,
}

/// What a request on a queue is answered now, where it is not refused.
#[derive(Clone, Copy)]
enum Turn {
    /// It would be reserved.
    Free,
    /// It has to wait, for an identifier or for pages.
    Later,
}

/// What became of a request on a queue.
pub(crate) enum Reservation<A: Allocator> {
    /// It was reserved.
    Now(Draft<A>),
    /// It has to wait, for an identifier or for pages.
    Later(Request<A>),
}

/// What a request on a queue is answered now. It waits for pages only where those that no queue owns are at least as many as the
/// fewest that the request could take.
///
/// # Errors
///
/// Where the request is refused, or the workers are told to stop.
fn turn_of<L: LogBrand, A: Allocator + Copy>(
    book: &Book<L, A>,
    q: u16,
    request: &Request<A>,
) -> Result<Turn, Halt>
    ensures refused { IfErr result (Refusing (RefusesRequest L.opening q request.now)) }
{
    prove!({
        book.check();
        true
    });
    if book.stopping() {
        return Err(Halt::Stopped);
    }
    let refusal = match book.reserve_refusal(q, request) {
        None => return Ok(Turn::Free),
        Some(Refusal::NoIdentifier) => return Ok(Turn::Later),
        Some(Refusal::NoPages { .. }) => match book.least_pages(request) {
            Ok(need) => {
                let pool = book.pages() - book.counts().queue_pages;
                if need <= pool {
                    return Ok(Turn::Later);
                }
                JobRefusal::NoPages { need, pool }
            }
            Err(fault) => JobRefusal::Bad(fault),
        },
        Some(Refusal::NoQueue) => JobRefusal::NoQueue,
        Some(Refusal::Bad(fault)) => JobRefusal::Bad(fault),
        Some(Refusal::OtherBlocks) => JobRefusal::OtherBlocks,
        Some(Refusal::Deleting) => JobRefusal::QueueGone,
        Some(_) => return Err(Halt::Stopped),
    };
    Err(Halt::Refused(refusal))
}

/// Reserves what would be reserved.
///
/// # Errors
///
/// Where memory is refused. The request is dropped.
fn reserved<L: LogBrand, A: Allocator + Copy>(
    book: &mut Book<L, A>,
    q: u16,
    request: Request<A>,
) -> Result<Draft<A>, Halt>
    ensures made { IfOk result (λ draft. Made L.opening None (events.Reserve q request) (events.Reserved draft)) }
    ensures halted { IfErr result (λ halt. refuses halt ≡ false) }
{
    prove!({
        book.check();
        true
    });
    match book.reserve(q, request) {
        Ok(draft) => Ok(draft),
        Err(_) => Err(Halt::Memory),
    }
}

/// Collects a command that has ended, that of a seat's submission of this number.
///
/// # Errors
///
/// Where the ticket is that of another submission, somebody else has collected the command, or memory is refused. The ticket is spent.
#[tactic(auto, using(crate::proofs::UnderWay::collects_command))]
fn collected<L: LogBrand, A: Allocator + Copy>(
    book: &mut Book<L, A>,
    seat: &Seat<L, A>,
    number: u64,
    ticket: Ticket,
) -> Result<Finished<A>, Halt>
    ensures command { IfOk result (λ finished. (finished.q ≡ ticket.q) × (finished.cid ≡ ticket.cid)) }
    ensures made { IfOk result (λ finished. Collected L.opening seat.now number ticket.q ticket.cid finished) }
    ensures halted { IfErr result (λ halt. refuses halt ≡ false) }
{
    prove!({
        book.check();
        true
    });
    book.knows(seat);
    if !book.is_latest(ticket.q(), ticket.cid(), number) {
        drop(ticket.apart());
        return Err(Halt::Stopped);
    }
    match book.collect(ticket) {
        Ok(finished) => Ok(finished),
        Err(refused) => {
            drop(refused.value.apart());
            match refused.why {
                Refusal::Memory => Err(Halt::Memory),
                _ => Err(Halt::Stopped),
            }
        }
    }
}

impl<L: LogBrand, A: Allocator + Copy> Shared<L, A> {
    /// Reserves for a request where that need not wait, and hands it back where it has to.
    ///
    /// # Errors
    ///
    /// Where the request is refused, the workers are told to stop, or memory is refused. The request is dropped.
    pub(crate) fn reserve_now<R: Wait>(
        &self,
        rt: &R,
        q: u16,
        request: Request<A>,
    ) -> Result<Reservation<A>, Halt>
        ensures reservation { IfOk result (IsReservation L.opening q request) }
        ensures refused { IfErr result (Refusing (RefusesRequest L.opening q request)) }
    {
        let mut locked = self.lock.lock(rt);
        match turn_of(&locked.machine, q, &request)? {
            Turn::Free => Ok(Reservation::Now(reserved(&mut locked.machine, q, request)?)),
            Turn::Later => Ok(Reservation::Later(request)),
        }
    }

    /// Reserves for a request, and waits as long as identifiers or pages that others hold are missing.
    ///
    /// # Errors
    ///
    /// Where the request is refused, the workers are told to stop, or memory is refused. The request is dropped.
    pub(crate) fn reserve_when_free<R: Wait>(
        &self,
        rt: &R,
        q: u16,
        request: Request<A>,
    ) -> Result<Draft<A>, Halt>
        ensures made { IfOk result (λ draft. Made L.opening None (events.Reserve q request) (events.Reserved draft)) }
        ensures refused { IfErr result (Refusing (RefusesRequest L.opening q request)) }
    {
        let mut locked = self.lock.lock(rt);
        for _ in rt.forever() {
            match turn_of(&locked.machine, q, &request)? {
                Turn::Free => break,
                Turn::Later => locked = self.lock.wait(rt, locked, Change::Room),
            }
        }
        reserved(&mut locked.machine, q, request)
    }

    /// Waits until the command of a seat's submission of this number has ended, and collects it.
    ///
    /// # Errors
    ///
    /// Where the workers are told to stop, the ticket is that of another submission, somebody else has collected the command, or memory is
    /// refused. The ticket is spent.
    pub(crate) fn collect_when_ended<R: Wait>(
        &self,
        rt: &R,
        seat: &Seat<L, A>,
        number: u64,
        ticket: Ticket,
    ) -> Result<Finished<A>, Halt>
        ensures command { IfOk result (λ finished. (finished.q ≡ ticket.q) × (finished.cid ≡ ticket.cid)) }
        ensures made { IfOk result (λ finished. Collected L.opening seat.now number ticket.q ticket.cid finished) }
        ensures halted { IfErr result (λ halt. refuses halt ≡ false) }
    {
        let (q, cid) = (ticket.q(), ticket.cid());
        let mut locked = self.lock.lock(rt);
        for _ in rt.forever() {
            if locked.machine.stopping() {
                drop(locked);
                drop(ticket.apart());
                return Err(Halt::Stopped);
            }
            match locked.machine.collect_refusal(q, cid) {
                Some(Refusal::NotYet) => {
                    locked = self.lock.wait(rt, locked, Change::end_of(q, cid));
                }
                _ => break,
            }
        }
        collected(&mut locked.machine, seat, number, ticket)
    }

    /// Waits until queues have completions, and reaps them. False once the workers are told to stop.
    ///
    /// # Errors
    ///
    /// Where memory is refused.
    pub(crate) fn reap_next<R: Wait>(&self, rt: &R) -> Result<bool, AllocError> {
        let mut locked = self.lock.lock(rt);
        for _ in rt.forever() {
            if locked.machine.stopping() {
                break;
            }
            let steps = reap_some(&mut locked.machine, MOST_OF_A_WORKER);
            if steps.any {
                self.leave_behind(locked, steps)?;
                return Ok(true);
            }
            locked = self.lock.wait(rt, locked, Change::Posted);
        }
        Ok(false)
    }

    /// Waits until the controller can do something, and does it. False once the workers are told to stop.
    ///
    /// # Errors
    ///
    /// Where memory is refused.
    pub(crate) fn serve_next<R: Wait>(&self, rt: &R) -> Result<bool, AllocError> {
        let mut locked = self.lock.lock(rt);
        for _ in rt.forever() {
            if locked.machine.stopping() {
                break;
            }
            let steps = serve_some(&mut locked.machine, MOST_OF_A_WORKER);
            if steps.any {
                self.leave_behind(locked, steps)?;
                return Ok(true);
            }
            locked = self.lock.wait(rt, locked, Change::Rung);
        }
        Ok(false)
    }
}
