//! Looks at a book: what would be answered. They make no step, and nothing is written down.

ghost use Rattle.std.specs.Prelude.{◌≡◌, ℕ, ◌+◌, ◌*◌, ◌<◌, true, false, None, IfOk, IfSome, IfNone, IsTrue, length};
ghost use Rattle.std.specs.Result.{result_err};
ghost use Rattle.io_commands.specs.Least.{least_pages as spec_least_pages};
ghost use Rattle.io_commands.specs.Requests.{fault_of};
ghost use Rattle.machine_model.specs.Events as events;
ghost use Rattle.machine_model.specs.Refusals.{refusal_of};
ghost use Rattle.step_core.specs.Looks.{has_completion, event_of, IsAtRest};
ghost use Rattle.step_core.specs.Touching.{LooksAtMost};

use crate::book::{Book, LogBrand};
use io_commands::{Request, RequestFault};
use machine_model::words::Refusal;
use std::alloc::Allocator;
use step_core::ControllerStep;

impl<L: LogBrand, A: Allocator + Copy> Book<L, A> {
    /// [`step_core::World::reserve_refusal`].
    pub fn reserve_refusal(&self, q: u16, request: &Request<A>) -> Option<Refusal>
        ensures { result ≡ refusal_of self.now.world (events.Reserve q request.now) }
    {
        self.world.reserve_refusal(q, request)
    }

    /// [`step_core::World::least_pages`].
    pub fn least_pages<B: Allocator>(&self, request: &Request<B>) -> Result<u32, RequestFault>
        ensures least { IfOk result (λ pages. pages ≡ spec_least_pages request.now.pieces self.now.world.segment) }
        ensures fault { result_err result ≡ fault_of request.now.kind request.now.block_size request.now.blocks request.now.pieces }
    {
        self.world.least_pages(request)
    }

    /// [`step_core::World::collect_refusal`].
    pub fn collect_refusal(&self, q: u16, cid: u16) -> Option<Refusal>
        ensures { result ≡ refusal_of self.now.world (events.Collect q cid) }
    {
        self.world.collect_refusal(q, cid)
    }

    /// [`step_core::World::next_completion`].
    pub fn next_completion(&mut self) -> Option<u16>
        ensures some { IfSome result (λ q. has_completion self.old.world q ≡ true) }
        ensures first { IfSome result (λ q. (p : ℕ) → p < q → has_completion self.old.world p ≡ false) }
        ensures none { IfNone result ((q : ℕ) → has_completion self.old.world q ≡ false) }
        ensures same { self.new ≡ record self.old { touches = self.new.touches } }
        ensures looks { LooksAtMost (length self.old.world.host.queues) self.old.touches self.new.touches }
    {
        self.world.next_completion()
    }

    /// [`step_core::World::next_step`].
    pub fn next_step(&mut self) -> Option<ControllerStep>
        ensures possible { IfSome result (λ step. IsTrue self.old.world.trusted → refusal_of self.old.world (event_of step) ≡ None) }
        ensures rest { IfNone result (IsTrue self.old.world.trusted → IsAtRest self.old.world) }
        ensures same { self.new ≡ record self.old { touches = self.new.touches } }
        ensures looks { LooksAtMost (2 * length self.old.world.host.queues + 1) self.old.touches self.new.touches }
    {
        self.world.next_step()
    }
}
