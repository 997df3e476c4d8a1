//! Commands in flight: a submitter has submitted and announced them, and not collected them yet.

ghost use Rattle.std.specs.Prelude.{◌≡◌, ◌+◌, ◌-◌, ◌<◌, ◌≤◌, [], None, true, false, vec_len, IfOk, IfErr, OnOk, OnErr};
ghost use Rattle.std.specs.VecDeque.{deque_len, deque_capacity};
ghost use Rattle.driver_threads.specs.Ends.{Agree, IsUnderWay, refuses};
ghost use Rattle.driver_threads.specs.JobSteps.{Carries, CarriesAlso, CarriesOn, CarriesRefused, Refusing};
ghost use Rattle.driver_threads.specs.Jobs.{RefusesJob, RefusesRequest, WentBy};
ghost use Rattle.driver_threads.specs.Sharing.{Made};
ghost use Rattle.machine_model.specs.Events as events;

use crate::book_lock::Shared;
use crate::carry::{Watch, finished, prepared, submitted};
use crate::data::Data;
use crate::gate::{Gate, Point};
use crate::jobs::{Job, JobEnd, JobRefusal};
use crate::waits::{Halt, Reservation};
use driver_book::{LogBrand, Seat};
use io_commands::{Draft, Request, Ticket};
use std::alloc::Allocator;
use std::collections::VecDeque;
use std::sync::Wait;

/// A command in flight: its ticket, and the data of its job.
pub(crate) struct Flying<D> {
    pub(crate) ticket: Ticket,
    pub(crate) given: D,
}

/// A submitter's seat, the commands that it has in flight, and how its jobs ended so far.
pub(crate) struct Flight<L: LogBrand, A: Allocator, D, K> {
    pub(crate) seat: Seat<L, A>,
    /// The commands in flight, the oldest first. There is a slot for each command that may be in flight.
    pub(crate) flying: VecDeque<Flying<D>, A>,
    /// How its jobs ended, in their order.
    pub(crate) ends: Vec<JobEnd<K>, A>,
}

impl<L: LogBrand, A: Allocator + Copy, K: Drop, D: Data<K, A> + Drop> Flight<L, A, D, K> {
    /// Finishes the oldest command in flight, where there is one, and notes how its job ended.
    ///
    /// # Errors
    ///
    /// Where the workers are told to stop, somebody else has collected the command, or memory is refused. Its job has no end then.
    fn finish_oldest<G: Gate, R: Wait>(
        &mut self,
        rt: &R,
        alloc: A,
        shared: &Shared<L, A>,
        watch: &mut Watch<G>,
    ) -> Result<(), Halt>
        requires { IsUnderWay self.old.seat.receipts self.old.ends.items self.old.flying.items }
        ensures under_way { OnOk result (IsUnderWay self.new.seat.receipts self.new.ends.items self.new.flying.items) }
        ensures carries { OnOk result (CarriesOn D.bytes D.keeps L.opening self.old.seat self.old.ends.items self.old.flying.items self.new.seat self.new.ends.items self.new.flying.items) }
        ensures all { OnOk result (vec_len self.new.ends + deque_len self.new.flying ≡ vec_len self.old.ends + deque_len self.old.flying) }
        ensures one { OnOk result (deque_len self.new.flying ≡ deque_len self.old.flying - 1) }
        ensures fewer { OnErr result (vec_len self.new.ends < vec_len self.old.ends + deque_len self.old.flying) }
        ensures halted { IfErr result (λ halt. refuses halt ≡ false) }
        ensures places { deque_capacity self.new.flying ≡ deque_capacity self.old.flying }
    {
        let place = self.seat.receipts().len() - self.flying.len();
        let Some(oldest) = self.flying.pop_front() else {
            return Ok(());
        };
        let Flying { ticket, given } = oldest;
        if self.ends.reserve(1).is_err() {
            drop(ticket.apart());
            return Err(Halt::Memory);
        }
        let end = finished(rt, alloc, shared, &mut self.seat, ticket, given, place)?;
        self.ends.push_reserved(end);
        watch.pass(Point::Released);
        Ok(())
    }

    /// Finishes all commands in flight.
    ///
    /// # Errors
    ///
    /// As [`Flight::finish_oldest`].
    fn finish_all<G: Gate, R: Wait>(
        &mut self,
        rt: &R,
        alloc: A,
        shared: &Shared<L, A>,
        watch: &mut Watch<G>,
    ) -> Result<(), Halt>
        requires { IsUnderWay self.old.seat.receipts self.old.ends.items self.old.flying.items }
        ensures under_way { OnOk result (IsUnderWay self.new.seat.receipts self.new.ends.items self.new.flying.items) }
        ensures carries { OnOk result (CarriesOn D.bytes D.keeps L.opening self.old.seat self.old.ends.items self.old.flying.items self.new.seat self.new.ends.items self.new.flying.items) }
        ensures all { OnOk result (vec_len self.new.ends ≡ vec_len self.old.ends + deque_len self.old.flying) }
        ensures none { OnOk result (deque_len self.new.flying ≡ 0) }
        ensures agree { OnOk result (Agree self.new.seat.receipts self.new.ends.items) }
        ensures fewer { OnErr result (vec_len self.new.ends < vec_len self.old.ends + deque_len self.old.flying) }
        ensures places { deque_capacity self.new.flying ≡ deque_capacity self.old.flying }
    {
        while !self.flying.is_empty() {
            self.finish_oldest(rt, alloc, shared, watch)?;
        }
        Ok(())
    }

    /// Finishes the oldest command in flight where each slot is taken.
    ///
    /// # Errors
    ///
    /// As [`Flight::finish_oldest`].
    fn make_place<G: Gate, R: Wait>(
        &mut self,
        rt: &R,
        alloc: A,
        shared: &Shared<L, A>,
        watch: &mut Watch<G>,
    ) -> Result<(), Halt>
        requires under_way { IsUnderWay self.old.seat.receipts self.old.ends.items self.old.flying.items }
        requires places { 0 < deque_capacity self.old.flying }
        ensures under_way { OnOk result (IsUnderWay self.new.seat.receipts self.new.ends.items self.new.flying.items) }
        ensures carries { OnOk result (CarriesOn D.bytes D.keeps L.opening self.old.seat self.old.ends.items self.old.flying.items self.new.seat self.new.ends.items self.new.flying.items) }
        ensures all { OnOk result (vec_len self.new.ends + deque_len self.new.flying ≡ vec_len self.old.ends + deque_len self.old.flying) }
        ensures place { OnOk result (deque_len self.new.flying < deque_capacity self.new.flying) }
        ensures fewer { OnErr result (vec_len self.new.ends < vec_len self.old.ends + deque_len self.old.flying) }
        ensures places { deque_capacity self.new.flying ≡ deque_capacity self.old.flying }
    {
        if self.flying.len() < self.flying.capacity() {
            return Ok(());
        }
        self.finish_oldest(rt, alloc, shared, watch)
    }

    /// Reserves for a request. While it has to wait, it finishes the oldest command in flight; it waits once nothing is in flight.
    ///
    /// # Errors
    ///
    /// Where the request is refused, and as [`Flight::finish_oldest`]. The request is dropped.
    fn reserve<G: Gate, R: Wait>(
        &mut self,
        rt: &R,
        alloc: A,
        shared: &Shared<L, A>,
        watch: &mut Watch<G>,
        q: u16,
        request: Request<A>,
    ) -> Result<Draft<A>, Halt>
        requires { IsUnderWay self.old.seat.receipts self.old.ends.items self.old.flying.items }
        ensures under_way { OnOk result (IsUnderWay self.new.seat.receipts self.new.ends.items self.new.flying.items) }
        ensures carries { OnOk result (CarriesOn D.bytes D.keeps L.opening self.old.seat self.old.ends.items self.old.flying.items self.new.seat self.new.ends.items self.new.flying.items) }
        ensures made { IfOk result (λ draft. Made L.opening None (events.Reserve q request) (events.Reserved draft)) }
        ensures carries_refused { IfErr result (λ halt. refuses halt ≡ true → CarriesOn D.bytes D.keeps L.opening self.old.seat self.old.ends.items self.old.flying.items self.new.seat self.new.ends.items self.new.flying.items) }
        ensures cause { IfErr result (Refusing (RefusesRequest L.opening q request)) }
        ensures all { OnOk result (vec_len self.new.ends + deque_len self.new.flying ≡ vec_len self.old.ends + deque_len self.old.flying) }
        ensures refused { IfErr result (λ halt. refuses halt ≡ true → IsUnderWay self.new.seat.receipts self.new.ends.items self.new.flying.items) }
        ensures all_refused { IfErr result (λ halt. refuses halt ≡ true → vec_len self.new.ends + deque_len self.new.flying ≡ vec_len self.old.ends + deque_len self.old.flying) }
        ensures most { vec_len self.new.ends ≤ vec_len self.old.ends + deque_len self.old.flying }
        ensures fewer { OnOk result (deque_len self.new.flying ≤ deque_len self.old.flying) }
        ensures places { deque_capacity self.new.flying ≡ deque_capacity self.old.flying }
    {
        let mut request = request;
        while !self.flying.is_empty() {
            match shared.reserve_now(rt, q, request)? {
                Reservation::Now(draft) => return Ok(draft),
                Reservation::Later(later) => request = later,
            }
            self.finish_oldest(rt, alloc, shared, watch)?;
        }
        shared.reserve_when_free(rt, q, request)
    }

    /// Reserves for a job, fills, builds, submits and rings: it is in flight then.
    ///
    /// # Errors
    ///
    /// Where the job is refused, and as [`Flight::finish_oldest`].
    fn launch<G: Gate, R: Wait>(
        &mut self,
        rt: &R,
        alloc: A,
        shared: &Shared<L, A>,
        watch: &mut Watch<G>,
        job: Job<Request<A>, D>,
    ) -> Result<(), Halt>
        requires under_way { IsUnderWay self.old.seat.receipts self.old.ends.items self.old.flying.items }
        requires place { deque_len self.old.flying < deque_capacity self.old.flying }
        ensures under_way { OnOk result (IsUnderWay self.new.seat.receipts self.new.ends.items self.new.flying.items) }
        ensures carries { OnOk result (CarriesAlso D.bytes D.keeps L.opening self.old.seat self.old.ends.items self.old.flying.items job self.new.seat self.new.ends.items self.new.flying.items) }
        ensures carries_refused { IfErr result (λ halt. refuses halt ≡ true → CarriesOn D.bytes D.keeps L.opening self.old.seat self.old.ends.items self.old.flying.items self.new.seat self.new.ends.items self.new.flying.items) }
        ensures cause { IfErr result (Refusing (RefusesJob D.bytes L.opening job)) }
        ensures all { OnOk result (vec_len self.new.ends + deque_len self.new.flying ≡ vec_len self.old.ends + deque_len self.old.flying + 1) }
        ensures refused { IfErr result (λ halt. refuses halt ≡ true → IsUnderWay self.new.seat.receipts self.new.ends.items self.new.flying.items) }
        ensures all_refused { IfErr result (λ halt. refuses halt ≡ true → vec_len self.new.ends + deque_len self.new.flying ≡ vec_len self.old.ends + deque_len self.old.flying) }
        ensures most { vec_len self.new.ends ≤ vec_len self.old.ends + deque_len self.old.flying }
        ensures places { deque_capacity self.new.flying ≡ deque_capacity self.old.flying }
    {
        let Job { q, request, bytes } = job;
        let draft = self.reserve(rt, alloc, shared, watch, q, request)?;
        watch.pass(Point::Reserved);
        let draft = prepared(rt, alloc, shared, draft, &bytes)?;
        let ticket = submitted(rt, shared, &mut self.seat, draft)?;
        self.flying.push_back_reserved(Flying {
            ticket,
            given: bytes,
        });
        watch.pass(Point::Submitted);
        Ok(())
    }

    /// Finishes all commands in flight, and notes that the job after them is refused.
    ///
    /// # Errors
    ///
    /// As [`Flight::finish_oldest`].
    fn refuse<G: Gate, R: Wait>(
        &mut self,
        rt: &R,
        alloc: A,
        shared: &Shared<L, A>,
        watch: &mut Watch<G>,
        why: JobRefusal,
    ) -> Result<(), Halt>
        requires { IsUnderWay self.old.seat.receipts self.old.ends.items self.old.flying.items }
        ensures under_way { OnOk result (IsUnderWay self.new.seat.receipts self.new.ends.items self.new.flying.items) }
        ensures carries { OnOk result (CarriesRefused D.bytes D.keeps L.opening self.old.seat self.old.ends.items self.old.flying.items why self.new.seat self.new.ends.items self.new.flying.items) }
        ensures all { OnOk result (vec_len self.new.ends + deque_len self.new.flying ≡ vec_len self.old.ends + deque_len self.old.flying + 1) }
        ensures fewer { OnErr result (vec_len self.new.ends ≤ vec_len self.old.ends + deque_len self.old.flying) }
        ensures places { deque_capacity self.new.flying ≡ deque_capacity self.old.flying }
    {
        self.finish_all(rt, alloc, shared, watch)?;
        if self.ends.reserve(1).is_err() {
            return Err(Halt::Memory);
        }
        self.ends.push_reserved(JobEnd::Refused(why));
        Ok(())
    }

    /// Takes a job into flight, or notes that it is refused.
    ///
    /// # Errors
    ///
    /// As [`Flight::finish_oldest`]. The job and those in flight have no end then.
    fn carry<G: Gate, R: Wait>(
        &mut self,
        rt: &R,
        alloc: A,
        shared: &Shared<L, A>,
        watch: &mut Watch<G>,
        job: Job<Request<A>, D>,
    ) -> Result<(), Halt>
        requires under_way { IsUnderWay self.old.seat.receipts self.old.ends.items self.old.flying.items }
        requires places { 0 < deque_capacity self.old.flying }
        ensures under_way { OnOk result (IsUnderWay self.new.seat.receipts self.new.ends.items self.new.flying.items) }
        ensures carries { OnOk result (CarriesAlso D.bytes D.keeps L.opening self.old.seat self.old.ends.items self.old.flying.items job self.new.seat self.new.ends.items self.new.flying.items) }
        ensures all { OnOk result (vec_len self.new.ends + deque_len self.new.flying ≡ vec_len self.old.ends + deque_len self.old.flying + 1) }
        ensures fewer { OnErr result (vec_len self.new.ends ≤ vec_len self.old.ends + deque_len self.old.flying) }
        ensures places { deque_capacity self.new.flying ≡ deque_capacity self.old.flying }
    {
        self.make_place(rt, alloc, shared, watch)?;
        match self.launch(rt, alloc, shared, watch, job) {
            Ok(()) => Ok(()),
            Err(Halt::Refused(why)) => self.refuse(rt, alloc, shared, watch, why),
            Err(halt) => Err(halt),
        }
    }

    /// Carries jobs through, as many of them in flight at a time as there are slots, and notes how each ended.
    ///
    /// # Errors
    ///
    /// As [`Flight::finish_oldest`]. The first job that is cut off and those after it have no end then.
    pub(crate) fn carry_all<G: Gate, R: Wait>(
        &mut self,
        rt: &R,
        alloc: A,
        shared: &Shared<L, A>,
        watch: &mut Watch<G>,
        jobs: Vec<Job<Request<A>, D>, A>,
    ) -> Result<(), Halt>
        requires under_way { IsUnderWay self.old.seat.receipts self.old.ends.items self.old.flying.items }
        requires none { deque_len self.old.flying ≡ 0 }
        requires places { 0 < deque_capacity self.old.flying }
        ensures all { OnOk result (vec_len self.new.ends ≡ vec_len self.old.ends + vec_len jobs) }
        ensures fewer { OnErr result (vec_len self.new.ends < vec_len self.old.ends + vec_len jobs) }
        ensures most { vec_len self.new.ends ≤ vec_len self.old.ends + vec_len jobs }
        ensures agree { OnOk result (Agree self.new.seat.receipts self.new.ends.items) }
        ensures went { OnOk result (Carries D.bytes D.keeps L.opening self.old.seat self.old.ends.items self.old.flying.items [] → WentBy D.bytes D.keeps L.opening self.new.seat.number jobs.items self.new.seat.receipts self.new.ends.items) }
    {
        for job in jobs {
            self.carry(rt, alloc, shared, watch, job)?;
        }
        self.finish_all(rt, alloc, shared, watch)
    }

    /// The seat, and how the jobs ended. What is still in flight is given up.
    pub(crate) fn land(self) -> (Seat<L, A>, Vec<JobEnd<K>, A>)
        ensures seat { result.0 ≡ self.seat }
        ensures ends { result.1 ≡ self.ends }
    {
        let Flight {
            seat,
            mut flying,
            ends,
        } = self;
        while let Some(left) = flying.pop_front() {
            let Flying { ticket, given: _ } = left;
            drop(ticket.apart());
        }
        flying.destroy_empty();
        (seat, ends)
    }
}
