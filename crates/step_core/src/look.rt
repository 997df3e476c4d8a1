//! What would be answered: looks that change nothing but the count of touches, for callers that wait until the answer changes.

ghost use Rattle.std.specs.Prelude.{◌≡◌, ◌+◌, ◌*◌, ◌<◌, ◌≤◌, ℕ, true, false, Some, None, OnOk, OnErr, IfOk, IfSome, IfNone, IsTrue, length, option_and_then};
ghost use Rattle.std.specs.Result.{result_err};
ghost use Rattle.io_commands.specs.Least.{least_pages as spec_least_pages};
ghost use Rattle.io_commands.specs.Requests.{fault_of};
ghost use Rattle.machine_model.specs.Events as events;
ghost use Rattle.machine_model.specs.Refusals.{refusal_of};
ghost use Rattle.machine_model.specs.State.{record_at};
ghost use Rattle.page_memory.specs.Memory.{bytes_at};
ghost use Rattle.page_memory.specs.Pages.{byte_at};

use crate::world::World;
use controller_core::ControllerStep;
use entry_codec::Status;
use io_commands::{Request, RequestFault};
use machine_model::words::Refusal;
use page_memory::{Dma, TouchRecord, Unreadable};
use std::alloc::Allocator;

impl<A: Allocator + Copy> World<A> {
    ghost use Rattle.step_core.specs.Looks.{has_completion as spec_has_completion, event_of, IsAtRest};
    ghost use Rattle.step_core.specs.Touching.{LooksAtMost};

    /// What [`World::reserve`] would be refused for, lack of memory aside. It makes no step.
    pub fn reserve_refusal(&self, q: u16, request: &Request<A>) -> Option<Refusal>
        ensures { result ≡ refusal_of self.now.state (events.Reserve q request.now) }
    {
        self.host.reserve_refusal(q, request)
    }

    /// The fewest pages that a request takes here, wherever it is placed. It makes no step and allocates no memory.
    ///
    /// # Errors
    ///
    /// The first fault of the request.
    pub fn least_pages<B: Allocator>(&self, request: &Request<B>) -> Result<u32, RequestFault>
        ensures least { IfOk result (λ pages. pages ≡ spec_least_pages request.now.pieces self.now.state.segment) }
        ensures fault { result_err result ≡ fault_of request.now.kind request.now.block_size request.now.blocks request.now.pieces }
    {
        self.host.least_pages(request)
    }

    /// What [`World::collect`] of this command's ticket would be refused for, lack of memory aside. It makes no step.
    pub fn collect_refusal(&self, q: u16, cid: u16) -> Option<Refusal>
        ensures { result ≡ refusal_of self.now.state (events.Collect q cid) }
    {
        self.host.collect_refusal(q, cid)
    }

    /// How an outstanding command ended: the status that its record has. None where it has none, or no command is outstanding under this
    /// identifier.
    pub fn status_of(&self, q: u16, cid: u16) -> Option<Status>
        ensures { result ≡ option_and_then (λ r. r.status) (record_at self.now.state.host q cid) }
    {
        self.host.status_of(q, cid)
    }

    /// Whether [`World::reap`] would take a completion from the queue. It makes no step, and touches one page at most.
    pub fn has_completion(&mut self, q: u16) -> bool
        ensures answer { result ≡ spec_has_completion self.old.state q }
        ensures same { self.new.state ≡ self.old.state }
        ensures looks { LooksAtMost 1 self.old.touches self.new.touches }
    {
        self.host.completion_waits(&mut self.store, q)
    }

    /// The first queue from which [`World::reap`] would take a completion. It makes no step, and touches one page of each queue at most.
    pub fn next_completion(&mut self) -> Option<u16>
        ensures some { IfSome result (λ q. spec_has_completion self.old.state q ≡ true) }
        ensures first { IfSome result (λ q. (p : ℕ) → p < q → spec_has_completion self.old.state p ≡ false) }
        ensures none { IfNone result ((q : ℕ) → spec_has_completion self.old.state q ≡ false) }
        ensures same { self.new.state ≡ self.old.state }
        ensures looks { LooksAtMost (length self.old.state.host.queues) self.old.touches self.new.touches }
    {
        let count = self.queue_count();
        for q in 0..count {
            if self.has_completion(q) {
                return Some(q);
            }
        }
        None
    }

    /// Fills the buffer, of 1 to 4,096 bytes, with the bytes of the pool starting at an address, as someone inspecting a driver reads them. It makes
    /// no step; the one or two pages in which the bytes lie are touched.
    ///
    /// # Errors
    ///
    /// `Unreadable` exactly where a byte is missing: outside of the pool, or on
    /// a page that a drafted or collected command has. The buffer is unchanged.
    pub fn read(&mut self, addr: u64, into: &mut [u8]) -> Result<(), Unreadable>
        requires some { 0 < length into.old }
        requires few { length into.old ≤ 4096 }
        ensures read { OnOk result (bytes_at (byte_at self.old.state.memory) addr (length into.old) ≡ Some into.new) }
        ensures missing { OnErr result (bytes_at (byte_at self.old.state.memory) addr (length into.old) ≡ None) }
        ensures kept { OnErr result (into.new ≡ into.old) }
        ensures same { self.new.state ≡ self.old.state }
        ensures looks { LooksAtMost 2 self.old.touches self.new.touches }
    {
        self.store.clear();
        let answer = self.store.read(addr, into);
        prove!(self.store.pages() <= 65_536);
        answer
    }

    /// A step that the controller can do, if there is one. It makes no step. Where the world is trusted, the
    /// answer is exact: what is answered is not refused, except for lack of memory, and `None` says that
    /// each step of the controller is. It touches two pages of each queue at most, and one of a completion.
    pub fn next_step(&mut self) -> Option<ControllerStep>
        ensures possible { IfSome result (λ step. IsTrue self.old.state.trusted → refusal_of self.old.state (event_of step) ≡ None) }
        ensures rest { IfNone result (IsTrue self.old.state.trusted → IsAtRest self.old.state) }
        ensures same { self.new.state ≡ self.old.state }
        ensures looks { LooksAtMost (2 * length self.old.state.host.queues + 1) self.old.touches self.new.touches }
    {
        prove!(self.host.queue_count() <= u16::MAX);
        let step = self.controller.next_step(&mut self.store);
        prove!(self.store.pages() <= 65_536);
        step
    }
}
