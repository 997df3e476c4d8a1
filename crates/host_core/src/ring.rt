//! The host rings a queue's tail.

ghost use Rattle.std.specs.Prelude.{◌≡◌, Some, IfOk};
ghost use Rattle.machine_model.specs.Events as events;
ghost use Rattle.page_memory.specs.Pages.{Pages};
ghost use Rattle.host_core.specs.Alone.{HostStep};
ghost use Rattle.host_core.specs.Replies.{ring_reply};
ghost use Rattle.host_core.specs.Ringing.{tail_of};

use crate::host::Host;
use crate::queues::has_no_submission;
use machine_model::words::Refusal;
use std::alloc::Allocator;

impl<A: Allocator> Host<A> {
    /// The value for a queue's submission tail doorbell (NVM Express over PCIe Transport Specification 1.0, "Doorbell registers",
    /// section 3.1.2): then the controller may fetch all that was submitted to it. The host stays as it is.
    ///
    /// # Errors
    ///
    /// `NoQueue` where there is no such queue, or its submission half was given back and is not made again.
    pub fn ring(&self, q: u16) -> Result<u16, Refusal>
        ensures step { (pages : Pages) → HostStep self.now pages (events.Ring q) (ring_reply result) self.now pages }
        ensures tail { IfOk result (λ tail. tail_of self.now q ≡ Some tail) }
    {
        if has_no_submission(&self.parts.queues, q) {
            return Err(Refusal::NoQueue);
        }
        Ok(self.parts.queues[usize::from(q)].host.ring_value())
    }
}
