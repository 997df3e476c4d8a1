//! A poller and a controller over a shared world: each waits until there is something to do, and does one step. A wait makes no step.

ghost use Rattle.std.specs.Prelude.{◌≡◌, IfSome};
ghost use Rattle.machine_model.specs.Step.{Step};
ghost use Rattle.step_core.specs.Looks.{event_of as event_of_step};
ghost use Rattle.step_core.specs.Touching.{StaysAllowed};
ghost use Rattle.step_core.specs.Replies.{reap_reply};
ghost use Rattle.shared.specs.Sharing.{event_of, reply_of, ReapedNext, ServedNext};

use crate::changes::{Change, Changes};
use crate::lock::Shared;
use std::alloc::Allocator;
use std::sync::Wait;
use step_core::{Completed, ControllerStep, Fetched, Reaped, Refusal, StepRefused, Walked, World};

/// A step of the controller, with what it answered.
#[derive(Debug, Drop)]
pub enum ServedStep {
    /// It fetched an entry.
    Fetch {
        /// The queue.
        q: u16,
        /// What it answered.
        answer: Result<Fetched, StepRefused>,
    },
    /// It did a unit of a command's list.
    Walk {
        /// The command's queue.
        q: u16,
        /// Its identifier.
        cid: u16,
        /// What it answered.
        answer: Result<Walked, StepRefused>,
    },
    /// It completed a command.
    Complete {
        /// The command's queue.
        q: u16,
        /// Its identifier.
        cid: u16,
        /// What it answered.
        answer: Result<Completed, StepRefused>,
    },
}

/// Does a step of the controller.
fn serve<A: Allocator + Copy>(world: &mut World<A>, step: ControllerStep) -> ServedStep
    ensures event { event_of result ≡ event_of_step step }
    ensures step { Step world.old.state (event_of result) (reply_of result) world.new.state }
    ensures allowed { StaysAllowed world.old.state (event_of result) (reply_of result) }
{
    match step {
        ControllerStep::Fetch { q } => {
            let answer = world.fetch(q);
            ServedStep::Fetch { q, answer }
        }
        ControllerStep::Walk { q, cid } => {
            let answer = world.walk(q, cid);
            ServedStep::Walk { q, cid, answer }
        }
        ControllerStep::Complete { q, cid } => {
            let answer = world.complete(q, cid);
            ServedStep::Complete { q, cid, answer }
        }
    }
}

impl<A: Allocator + Copy> Shared<World<A>> {
    /// Waits until a queue has a completion, and reaps the first such queue ([`World::reap`]). It answers which one that was; `None` once the
    /// workers are told to stop.
    pub fn reap_next<R: Wait>(&self, rt: &R) -> Option<(u16, Result<Reaped, Refusal>)>
        ensures { IfSome result (λ reap. ReapedNext reap.0 (reap_reply reap.1)) }
    {
        let mut locked = self.lock(rt);
        for _ in rt.forever() {
            if locked.stopping {
                break;
            }
            prove!({
                locked.machine.check();
                true
            });
            if let Some(q) = locked.machine.next_completion() {
                let answer = locked.machine.reap(q);
                self.leave(locked, Changes::of_reap(q, &answer));
                return Some((q, answer));
            }
            locked = self.wait(rt, locked, Change::Posted);
        }
        None
    }

    /// Waits until the controller can do something, and does it: one step. `None` once the workers are told to stop.
    pub fn serve_next<R: Wait>(&self, rt: &R) -> Option<ServedStep>
        ensures { IfSome result (λ served. ServedNext (event_of served) (reply_of served)) }
    {
        let mut locked = self.lock(rt);
        for _ in rt.forever() {
            if locked.stopping {
                break;
            }
            prove!({
                locked.machine.check();
                true
            });
            if let Some(step) = locked.machine.next_step() {
                let served = serve(&mut locked.machine, step);
                self.leave(locked, Changes::NONE);
                return Some(served);
            }
            locked = self.wait(rt, locked, Change::Rung);
        }
        None
    }
}
