//! The queues of a host, by their numbers.

ghost use Rattle.std.specs.Prelude.{◌≡◌, ◌<◌, not, position, length, slice_get, Some};
ghost use Rattle.machine_model.specs.After.{change};
ghost use Rattle.machine_model.specs.Refusals.{in_service, has_cq_alone as spec_has_cq_alone, is_changing as spec_is_changing, is_deleted as spec_is_deleted, is_deleting as spec_is_deleting, is_live as spec_is_live, is_reaped as spec_is_reaped};
ghost use Rattle.host_core.specs.Commands.{ClaimsNext, passes, state_at, takes_no_io as spec_takes_no_io, with_claim};
ghost use Rattle.host_core.specs.Reaping.{lacks_completion, with_state};
ghost use Rattle.host_core.specs.Ringing.{lacks_submission};
ghost use Rattle.host_core.specs.Rows.{Queue as QueueValue};

use crate::queue::Queue;
use machine_model::words::HostState;
use queue_pair::HostPair;
use std::alloc::Allocator;

/// The host's state of a queue.
pub(crate) fn host_state<A: Allocator>(queues: &[Queue<HostPair<A>>], q: u16) -> Option<HostState>
    ensures { result ≡ state_at queues.now q }
{
    match queues.get(usize::from(q)) {
        Some(queue) => Some(queue.state),
        None => None,
    }
}

/// Whether a queue in this state is in service.
fn is_in_service(state: Option<HostState>) -> bool
    ensures { result ≡ passes in_service state }
{
    match state {
        Some(HostState::Live | HostState::Deleting { .. }) => true,
        _ => false,
    }
}

/// Whether completions of a queue in this state are reaped.
fn is_reaped(state: Option<HostState>) -> bool
    ensures { result ≡ passes spec_is_reaped state }
{
    match state {
        Some(HostState::Live | HostState::Deleting { .. } | HostState::Retired) => true,
        _ => false,
    }
}

/// Whether no I/O queue of this number, in this state, is in service.
pub(crate) fn takes_no_io(q: u16, state: Option<HostState>) -> bool
    ensures { result ≡ spec_takes_no_io q state }
{
    q == 0 || !is_in_service(state)
}

/// Whether a queue in this state is being deleted.
pub(crate) fn is_deleting(state: Option<HostState>) -> bool
    ensures { result ≡ passes spec_is_deleting state }
{
    match state {
        Some(HostState::Deleting { .. }) => true,
        _ => false,
    }
}

/// Whether a queue in this state is being deleted, or a half of it is being made.
pub(crate) fn is_changing(state: Option<HostState>) -> bool
    ensures { result ≡ passes spec_is_changing state }
{
    match state {
        Some(HostState::Deleting { .. } | HostState::MakingCq | HostState::MakingSq) => true,
        _ => false,
    }
}

/// Whether the deletion of a queue's submission side was reaped with success, and since then neither was the queue retired nor the
/// host reset.
pub(crate) fn is_deleted(state: Option<HostState>) -> bool
    ensures { result ≡ passes spec_is_deleted state }
{
    match state {
        Some(HostState::Deleting { noted }) => noted,
        _ => false,
    }
}

/// Whether a queue of this number is live.
pub(crate) fn is_live<A: Allocator>(queues: &[Queue<HostPair<A>>], q: u16) -> bool
    ensures { result ≡ passes spec_is_live (state_at queues.now q) }
{
    match host_state(queues, q) {
        Some(HostState::Live) => true,
        _ => false,
    }
}

/// Whether a queue in this state has its completion half alone, and no half of it is being made.
pub(crate) fn has_cq_alone(state: Option<HostState>) -> bool
    ensures { result ≡ passes spec_has_cq_alone state }
{
    match state {
        Some(HostState::Retired | HostState::HalfMade) => true,
        _ => false,
    }
}

/// Whether no queue of a number is in service.
pub(crate) fn has_no_submission<A: Allocator>(queues: &[Queue<HostPair<A>>], q: u16) -> bool
    ensures { result ≡ lacks_submission (slice_get queues.now q) }
{
    !is_in_service(host_state(queues, q))
}

/// Whether no queue of a number has completions that are reaped.
pub(crate) fn has_no_completion<A: Allocator>(queues: &[Queue<HostPair<A>>], q: u16) -> bool
    ensures { result ≡ lacks_completion (slice_get queues.now q) }
{
    !is_reaped(host_state(queues, q))
}

/// The identifier that a queue would claim next.
pub(crate) fn next_identifier<A: Allocator>(queues: &[Queue<HostPair<A>>], q: u16) -> Option<u16>
    requires { q < length queues.now }
    ensures { (queue : QueueValue) → slice_get queues.now q ≡ Some queue → result ≡ position not queue.host.claimed }
{
    queues[usize::from(q)].host.unclaimed()
}

/// Claims the identifier that is next.
fn claim_next<A: Allocator>(queue: &mut Queue<HostPair<A>>, cid: u16)
    requires { position not queue.old.host.claimed ≡ Some cid }
    ensures { queue.new ≡ with_claim cid queue.old }
{
    queue.host.claim().unwrap();
}

/// Claims the next identifier of a queue.
pub(crate) fn claim<A: Allocator>(queues: &mut Vec<Queue<HostPair<A>>, A>, q: u16, cid: u16)
    requires there { q < length queues.old.items }
    requires next { ClaimsNext queues.old.items q cid }
    ensures { queues.new.items ≡ change q (with_claim cid) queues.old.items }
{
    claim_next(&mut queues[usize::from(q)], cid);
}

/// Notes the state of a queue, where there is such a queue.
pub(crate) fn note<A: Allocator>(queues: &mut [Queue<HostPair<A>>], q: u16, state: HostState)
    ensures { queues.new ≡ change q (with_state state) queues.old }
{
    if usize::from(q) < queues.len() {
        queues[usize::from(q)].state = state;
    }
}
