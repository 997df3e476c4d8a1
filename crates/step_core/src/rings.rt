//! Where both sides stand in the rings of a queue: a look that changes nothing.

ghost use Rattle.std.specs.Prelude.{◌≡◌, IfSome, length, slice_get};
ghost use Rattle.std.specs.Bool.{OnTrue};
ghost use Rattle.std.specs.Option.{option_map};
ghost use Rattle.machine_model.specs.State.{outstanding_on};
ghost use Rattle.queue_pair.specs.Positions.{host_positions};
ghost use Rattle.step_core.specs.Rings.{fetching_of, posting_of, ShowsHalves, TellsRung, TellsFetching, TellsPosting};

use crate::world::World;
use admin_commands::SqState;
use controller_core::ControllerQueue;
use machine_model::words::HostState;
use queue_pair::HostPositions;
use std::alloc::Allocator;

/// Where the controller stands in a submission ring.
#[derive(Clone, Copy, Debug, PartialEq, Eq)]
pub struct FetchPositions {
    /// The submission head: the slot of the next entry to fetch.
    pub head: u16,
    /// The submission tail last written to the doorbell.
    pub tail_doorbell: u16,
}

/// Where the controller stands in a completion ring.
#[derive(Clone, Copy, Debug, PartialEq, Eq)]
pub struct PostPositions {
    /// The completion tail: the slot that the next completion goes to.
    pub tail: u16,
    /// The phase tag that it gets there.
    pub phase: bool,
    /// The completion head last written to the doorbell.
    pub head_doorbell: u16,
}

/// Where both sides stand in the rings of a queue.
#[derive(Clone, Copy, Debug, PartialEq, Eq)]
pub struct Rings {
    /// What the host knows of the queue.
    pub state: HostState,
    /// How many of its commands are outstanding.
    pub outstanding: usize,
    /// Where the host stands.
    pub host: HostPositions,
    /// Where the controller stands in the submission ring, if it has the submission queue.
    pub submission: Option<FetchPositions>,
    /// Where it stands in the completion ring, if it has the completion queue.
    pub completion: Option<PostPositions>,
}

/// Where the controller stands in the submission ring of a queue, if it has that.
fn fetching(queue: &ControllerQueue) -> Option<FetchPositions>
    ensures { result ≡ fetching_of queue.now }
{
    match queue.state {
        SqState::Absent => None,
        SqState::Live | SqState::Stopping => {
            let at = queue.controller.positions();
            Some(FetchPositions {
                head: at.submission_head,
                tail_doorbell: at.tail_doorbell,
            })
        }
    }
}

/// Where it stands in the completion ring of a queue, if it has that.
fn posting(queue: &ControllerQueue) -> Option<PostPositions>
    ensures { result ≡ posting_of queue.now }
{
    if !queue.cq_there {
        return None;
    }
    let at = queue.controller.positions();
    Some(PostPositions {
        tail: at.completion_tail,
        phase: at.phase,
        head_doorbell: at.head_doorbell,
    })
}

impl<A: Allocator> World<A> {
    /// Where both sides stand in the rings of a queue, if there is one of this number. Nothing is touched; it looks at each command that is
    /// outstanding. What the machine's state says of the controller's positions is reported exactly: which halves it has, and how much was announced
    /// and not fetched; where nothing was forged, each of its positions.
    pub fn rings(&self, q: u16) -> Option<Rings>
        ensures state { option_map (λ rings. rings.state) result ≡ option_map (λ queue. queue.state) (slice_get self.now.state.host.queues q) }
        ensures host { option_map (λ rings. rings.host) result ≡ option_map (λ queue. host_positions queue.ring) (slice_get self.now.state.host.queues q) }
        ensures outstanding { IfSome result (λ rings. rings.outstanding ≡ length (outstanding_on self.now.state.host q)) }
        ensures halves { IfSome result (λ rings. ShowsHalves self.now.state q rings) }
        ensures rung { IfSome result (λ rings. TellsRung self.now.state q rings) }
        ensures fetching { IfSome result (λ rings. OnTrue self.now.state.trusted (TellsFetching self.now.state q rings)) }
        ensures posting { IfSome result (λ rings. OnTrue self.now.state.trusted (TellsPosting self.now.state q rings)) }
    {
        let state = self.host.queue_state(q)?;
        let host = self.host.positions(q)?;
        let queue = self.controller.queues().get(usize::from(q))?;
        Some(Rings {
            state,
            outstanding: self.host.outstanding(q),
            host,
            submission: fetching(queue),
            completion: posting(queue),
        })
    }
}
