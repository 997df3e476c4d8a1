//! The world: a host and a controller over one pool of pages.

use controller_core::Controller;
use host_core::Host;
use page_memory::Store;
use std::alloc::{Allocator, Global};
use std::marker::Model;

/// A driver and its controller, over one pool of pages. Contracts see the machine's state, and how many pages were touched so far.
pub struct World<A: Allocator = Global> {
    /// The driver's side.
    pub(crate) host: Host<A>,
    /// The controller's side.
    pub(crate) controller: Controller<A>,
    /// The pages of the pool that are in.
    pub(crate) store: Store<A>,
    /// Whether nothing was forged since the opening or the last reset.
    pub(crate) trusted: bool,
}

impl<A: Allocator> Drop for World<A> {
    fn drop(self) {
        let Self {
            host: _,
            controller: _,
            store: _,
            trusted: _,
        } = self;
    }
}

impl<A: Allocator> Model for World<A> {
    ghost use Rattle.std.specs.Prelude.{length};
    ghost use Rattle.page_memory.specs.Memory.{counted};
    ghost use Rattle.two_sides.specs.Ties.{IsWorld};
    ghost use Rattle.step_core.specs.World.{WorldContents, sides_of};
    ghost use Rattle.two_sides.specs.Sides.{state_of};

    ghost Value = { WorldContents };

    ghost view = { λ w. record { state = state_of (sides_of w.host w.controller w.store.pages w.trusted); touches = counted w.store.unlisted (length w.store.touched) } };

    ghost invariant = { λ w. IsWorld (sides_of w.host w.controller w.store.pages w.trusted) };
}
