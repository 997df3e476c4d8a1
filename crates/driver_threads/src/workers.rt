//! What the threads do: submitters carry jobs through, a poller takes completions, a controller serves.

ghost use Rattle.std.specs.Prelude.{◌≡◌, ◌≤◌, vec_len, IfSome};
ghost use Rattle.driver_threads.specs.Ends.{Agree};
ghost use Rattle.driver_threads.specs.Jobs.{WentBy};

use crate::book_lock::Shared;
use crate::carry::Watch;
use crate::data::Data;
use crate::flight::Flight;
use crate::gate::Gate;
use crate::jobs::{Job, JobEnd};
use crate::waits::Halt;
use driver_book::{LogBrand, Seat};
use io_commands::Request;
use std::alloc::{AllocError, Allocator, Global};
use std::collections::VecDeque;
use std::sync::Wait;
use step_core::Bytes;

/// What a submitter gives back.
#[derive(Drop)]
pub struct Worked<L: LogBrand, A: Allocator = Global, K = Bytes<A>> {
    /// Its seat; none where there were no more seats.
    pub seat: Option<Seat<L, A>>,
    /// How its jobs ended, in their order. It has fewer than there were jobs only where the workers were told to stop, somebody else collected
    /// one of its commands, or it got no seat.
    pub ends: Vec<JobEnd<K>, A>,
    /// Whether a gate was closed to it.
    pub closed: bool,
    /// Whether memory was refused to it.
    pub short: bool,
}

/// Takes a seat, and carries jobs through, at most `depth` of them, 1 to 256, in flight at a time. It waits for identifiers and pages that others
/// hold while it has nothing in flight, and for the end of its oldest command. Where memory is refused to it, all workers are told to stop; what
/// it holds is spent. Where each job has its end, the ends of its commands are those that its receipts say, in their order, and there is no
/// further receipt.
///
/// Each job that is not refused was reserved with its own request on its own queue. Its draft was submitted from this seat with the job's bytes in
/// the data pieces, and zeros after them; a Read's was submitted as it was reserved. The receipt has the number of that submission. The command of
/// that receipt was collected and released, and the job's end has what its data keep of it: for bytes, those that were gathered from it. A job is
/// refused only for what the book answered to its request or its draft, or where it has more bytes than its data pieces take.
#[tactic(auto, using(crate::proofs::UnderWay::begins))]
pub fn submitter<L: LogBrand, A: Allocator + Copy, G: Gate, R: Wait, K: Drop, D: Data<K, A> + Drop>(
    rt: &R,
    alloc: A,
    shared: &Shared<L, A>,
    gate: &G,
    worker: u16,
    jobs: Vec<Job<Request<A>, D>, A>,
    depth: usize,
) -> Worked<L, A, K>
    requires at_least_one { 1 ≤ depth }
    requires at_most { depth ≤ 256 }
    ensures most { vec_len result.ends ≤ vec_len jobs }
    ensures agree { vec_len result.ends ≡ vec_len jobs → IfSome result.seat (λ seat. Agree seat.receipts result.ends.items) }
    ensures went { vec_len result.ends ≡ vec_len jobs → IfSome result.seat (λ seat. WentBy D.bytes D.keeps L.opening seat.number jobs.items seat.receipts result.ends.items) }
{
    let ends = Vec::new(alloc);
    let Ok(seat) = shared.seat(rt) else {
        return Worked {
            seat: None,
            ends,
            closed: false,
            short: false,
        };
    };
    let Ok(flying) = VecDeque::with_capacity(alloc, depth) else {
        shared.stop(rt);
        return Worked {
            seat: Some(seat),
            ends,
            closed: false,
            short: true,
        };
    };
    let mut watch = Watch::new(gate, worker);
    let mut flight = Flight { seat, flying, ends };
    let carried = flight.carry_all(rt, alloc, shared, &mut watch, jobs);
    let short = carried == Err(Halt::Memory);
    if short {
        shared.stop(rt);
    }
    let (seat, ends) = flight.land();
    Worked {
        seat: Some(seat),
        ends,
        closed: watch.was_closed(),
        short,
    }
}

/// Takes completions from the queues as they come, until the workers are told to stop.
///
/// # Errors
///
/// Where memory is refused to it. All workers are told to stop then.
pub fn poller<L: LogBrand, A: Allocator + Copy, R: Wait>(
    rt: &R,
    shared: &Shared<L, A>,
) -> Result<(), AllocError> {
    for _ in rt.forever() {
        match shared.reap_next(rt) {
            Ok(true) => {}
            Ok(false) => break,
            Err(refused) => {
                shared.stop(rt);
                return Err(refused);
            }
        }
    }
    Ok(())
}

/// Serves as the controller, a step at a time, until the workers are told to stop.
///
/// # Errors
///
/// Where memory is refused to it. All workers are told to stop then.
pub fn controller<L: LogBrand, A: Allocator + Copy, R: Wait>(
    rt: &R,
    shared: &Shared<L, A>,
) -> Result<(), AllocError> {
    for _ in rt.forever() {
        match shared.serve_next(rt) {
            Ok(true) => {}
            Ok(false) => break,
            Err(refused) => {
                shared.stop(rt);
                return Err(refused);
            }
        }
    }
    Ok(())
}
