//! The two doorbells.

ghost use Rattle.std.specs.Prelude.{◌≡◌};
ghost use Rattle.controller_core.specs.Contents.{change};
ghost use Rattle.controller_core.specs.Doorbells.{with_tail, with_head, tail_rung, head_rung};

use crate::controller::Controller;
use crate::queue::ControllerQueue;
use block_image::Blocks;
use std::alloc::Allocator;

/// Takes the tail of a queue, if there is such a queue.
#[tactic(auto, using(crate::proofs::Lists::change_at, crate::proofs::Lists::change_past))]
fn hear_tail_of<A: Allocator>(queues: &mut Vec<ControllerQueue, A>, q: u16, value: u16)
    ensures { queues.new.items ≡ change q (with_tail value) queues.old.items }
{
    if usize::from(q) < queues.len() {
        queues[usize::from(q)].hear_tail(value);
    }
}

/// Takes the head of a queue, if there is such a queue.
#[tactic(auto, using(crate::proofs::Lists::change_at, crate::proofs::Lists::change_past))]
fn hear_head_of<A: Allocator>(queues: &mut Vec<ControllerQueue, A>, q: u16, value: u16)
    ensures { queues.new.items ≡ change q (with_head value) queues.old.items }
{
    if usize::from(q) < queues.len() {
        queues[usize::from(q)].hear_head(value);
    }
}

impl<A: Allocator, I: Blocks> Controller<A, I> {
    /// A value is written to the tail doorbell of submission queue `q` (NVM Express over PCIe Transport Specification 1.0, "Submission
    /// Queue y Tail Doorbell"). One that is no slot of the ring is ignored, as is one of a queue number above those that the
    /// controller has (own).
    pub fn tail_doorbell(&mut self, q: u16, value: u16)
        ensures { self.new ≡ tail_rung q value self.old }
    {
        hear_tail_of(&mut self.queues, q, value);
    }

    /// A value is written to the head doorbell of completion queue `q` (NVM Express over PCIe Transport Specification 1.0, "Completion
    /// Queue y Head Doorbell"). One outside the head that was taken last to the tail is ignored, as is one of a queue number above those
    /// that the controller has (own).
    pub fn head_doorbell(&mut self, q: u16, value: u16)
        ensures { self.new ≡ head_rung q value self.old }
    {
        hear_head_of(&mut self.queues, q, value);
    }
}
