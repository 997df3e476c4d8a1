//! A queue at the controller.

ghost use Rattle.std.specs.Prelude.{◌≡◌, ◌<◌, ◌*◌, ◌/◌, ◌^◌};
ghost use Rattle.controller_core.specs.Doorbells.{with_tail, with_head};
ghost use Rattle.controller_core.specs.Managing.{with_completion, with_submission};

use admin_commands::SqState;
use page_memory::{Half, PageNo};
use queue_pair::DevicePair;

/// Where the two halves of a queue begin.
#[derive(Clone, Copy, Debug, Default, PartialEq, Eq)]
pub struct QueuePages {
    /// The first page of its submission queue.
    pub sq: PageNo,
    /// The first page of its completion queue.
    pub cq: PageNo,
}

/// What the controller keeps of a queue.
#[derive(Drop)]
pub struct ControllerQueue {
    /// The state of the submission queue.
    pub state: SqState,
    /// Whether the completion queue is there.
    pub cq_there: bool,
    /// The controller's side of the two rings.
    pub controller: DevicePair,
}

/// The page of an address that a creation names.
fn page_at(base: u64) -> PageNo
    requires { base < 4096 * 2 ^ 32 }
    ensures { result ≡ base / 4096 }
{
    PageNo((base / 4096) as u32)
}

impl ControllerQueue {
    /// Takes a tail, where it is a slot of the ring.
    pub(crate) fn hear_tail(&mut self, value: u16)
        ensures { self.new ≡ with_tail value self.old }
    {
        match self.controller.tail_bell(value) {
            Ok(()) => {}
            Err(_) => {}
        }
    }

    /// Takes a head, where it lies from the head that was taken last to the tail.
    pub(crate) fn hear_head(&mut self, value: u16)
        ensures { self.new ≡ with_head value self.old }
    {
        match self.controller.head_bell(value) {
            Ok(()) => {}
            Err(_) => {}
        }
    }

    /// Makes the completion side anew: its ring begins at an address, and both rings are empty.
    pub(crate) fn renew_completion(&mut self, base: u64)
        requires { base < 4096 * 2 ^ 32 }
        ensures { self.new ≡ with_completion base self.old }
    {
        let sq = self.controller.first_page(Half::Submission);
        self.controller.renew(sq, page_at(base));
        self.cq_there = true;
    }

    /// Makes the submission side anew: its ring begins at an address, and both rings are empty.
    pub(crate) fn renew_submission(&mut self, base: u64)
        requires { base < 4096 * 2 ^ 32 }
        ensures { self.new ≡ with_submission base self.old }
    {
        let cq = self.controller.first_page(Half::Completion);
        self.controller.renew(page_at(base), cq);
        self.state = SqState::Live;
    }
}
