//! The end of a world.

use crate::world::World;
use io_commands::{Draft, Finished, Ticket};
use std::alloc::Allocator;

/// A world that has ended. It is shown to spend the values that are still around; [`World::end`] alone makes one.
#[derive(Debug, Drop)]
pub struct Ended {
    spent: (),
}

/// A value that must be spent, and that a world left over at its end.
pub trait Leftover {
    /// Spends the value. It changes nothing.
    fn after(self, ended: &Ended);
}

impl<A: Allocator> World<A> {
    /// Ends the world, with all that it holds. It allocates no memory.
    pub fn end(self) -> Ended {
        Ended { spent: () }
    }
}

impl<A: Allocator> Leftover for Draft<A> {
    fn after(self, _ended: &Ended) {
        drop(self.apart());
    }
}

impl Leftover for Ticket {
    fn after(self, _ended: &Ended) {
        drop(self.apart());
    }
}

impl<A: Allocator> Leftover for Finished<A> {
    fn after(self, _ended: &Ended) {
        drop(self.apart());
    }
}
