//! The controller is reset.

ghost use Rattle.machine_model.specs.Agreeing.{SidesAgree};
ghost use Rattle.machine_model.specs.Events as events;
ghost use Rattle.machine_model.specs.Step.{Step};
ghost use Rattle.step_core.specs.Touching.{Touches};

use crate::world::World;
use std::alloc::Allocator;

impl<A: Allocator + Copy> World<A> {
    /// Resets the controller (NVM Express Base Specification 2.0, "Controller Level Reset", section 3.7.2). It allocates no memory.
    ///
    /// Each command that was fetched and not completed ends with no effect on the image, and nothing is left at the controller but the image
    /// and queue 0, which is as it opened: the same pages, all zero, and both rings empty. Every I/O queue is gone, and its
    /// halves are free, until it is made again ([`World::create_cq`], [`World::create_sq`]). A submitted I/O command is held with the status "Command Aborted due to SQ Deletion";
    /// one that is drafted, held or collected stays as it is. The admin commands are over.
    ///
    /// Whatever was forged before, both sides agree afterwards: the world is trusted until an entry is forged again.
    pub fn reset(&mut self)
        ensures step { Step self.old.state events.Reset events.Accepted self.new.state }
        ensures touches { Touches self.old.state.entries self.old.touches events.Reset events.Accepted self.new.touches }
        ensures recovers { SidesAgree self.new.state }
    {
        self.host.reset(&mut self.store);
        self.controller.reset();
        self.trusted = true;
    }
}
