//! What a device in the controller's place may do with which page now.

ghost use Rattle.std.specs.Prelude.{◌≡◌};
ghost use Rattle.host_core.specs.Rights.{queue_memory_at, right_at, runs_of_command};

use crate::world::World;
use host_core::{QueueMemory, Right, Runs};
use page_memory::PageNo;
use std::alloc::Allocator;

impl<A: Allocator> World<A> {
    /// What a device in the controller's place may do with a page now, as [`host_core::Host::may`] says it.
    pub fn may(&self, p: PageNo) -> Right
        ensures { result ≡ right_at self.now.state.host p }
    {
        self.host.may(p)
    }

    /// The pages of a command as runs, with what a device may do with them now; none where no such command is outstanding.
    pub fn runs(&self, q: u16, cid: u16) -> Runs<'_>
        ensures { result ≡ runs_of_command self.now.state.host q cid }
    {
        self.host.runs(q, cid)
    }

    /// The memory of a queue's rings, if there is a queue of this number.
    pub fn queue_memory(&self, q: u16) -> Option<QueueMemory>
        ensures { result ≡ queue_memory_at self.now.state.host q }
    {
        self.host.queue_memory(q)
    }
}
