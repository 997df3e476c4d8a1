//! The controller reset.

ghost use Rattle.std.specs.Prelude.{◌≡◌};
ghost use Rattle.controller_core.specs.Resetting.{queue_reset, queues_reset, reset};

use crate::controller::Controller;
use crate::queue::ControllerQueue;
use admin_commands::SqState;
use block_image::Blocks;
use page_memory::Half;
use std::alloc::Allocator;

impl ControllerQueue {
    /// Leaves the queue of this number as a reset does.
    fn reset(&mut self, q: usize)
        ensures { self.new ≡ queue_reset q self.old }
    {
        let sq = self.controller.first_page(Half::Submission);
        let cq = self.controller.first_page(Half::Completion);
        self.controller.renew(sq, cq);
        self.state = if q == 0 {
            SqState::Live
        } else {
            SqState::Absent
        };
        self.cq_there = q == 0;
    }
}

/// Leaves each queue as a reset does.
fn reset_queues(queues: &mut [ControllerQueue])
    ensures { queues.new ≡ queues_reset 0 queues.old }
{
    for (q, queue) in queues.iter_mut().enumerate() {
        queue.reset(q);
    }
}

impl<A: Allocator, I: Blocks> Controller<A, I> {
    /// A Controller Level Reset (NVM Express Base Specification 2.0, "Controller Level Reset", section 3.7.2). Each command ends at
    /// once, without a completion, and changes nothing of the image. The I/O queues are gone until they are created, and the admin
    /// queue stays. All rings are as they were opened, over the halves that they have now.
    pub fn reset(&mut self)
        ensures { self.new ≡ reset self.old }
    {
        self.commands.clear();
        reset_queues(&mut self.queues);
    }
}
