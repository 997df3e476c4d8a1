//! All that the controller can do, in one call.

ghost use Rattle.std.specs.Prelude.{◌≡◌, IfNone, IsTrue};
ghost use Rattle.nvmesgl_c.specs.MachineKept.{kept_in};
ghost use Rattle.nvmesgl_c.specs.MachineServing as serving;
ghost use Rattle.nvmesgl_c.specs.MachineServing.{Serves, ServesKept};
ghost use Rattle.step_core.specs.Looks.{IsAtRest};

use crate::machine::desk::Desk;
use crate::machine::handle::Handle;
use crate::words::code::{DONE, code_of_refusal};
use crate::words::{Answer, nothing, or_code};
use machine_model::words::Refusal;
use std::alloc::Global;
use step_core::{ControllerStep, Reply, Step, WalkState};

/// The most steps of one call.
const MOST_STEPS: u32 = 65_536;

/// How a call that serves ended.
#[derive(Clone, Copy)]
pub enum ServeEnd {
    /// The controller is at rest.
    Rest,
    /// There is more to do: as many steps were made as one call makes.
    More,
    /// A step was refused.
    Refused(Refusal),
}

/// What a call that serves did.
#[derive(Clone, Copy)]
pub struct Served {
    /// How many commands it completed.
    pub completed: u32,
    /// How it ended.
    pub end: ServeEnd,
}

/// The step that the controller can do.
fn step_of(step: ControllerStep) -> Step
    ensures { serving.IsOwn result }
{
    match step {
        ControllerStep::Fetch { q } => Step::Fetch { q },
        ControllerStep::Walk { q, cid } => Step::Walk { q, cid },
        ControllerStep::Complete { q, cid } => Step::Complete { q, cid },
    }
}

/// Whether a step completed a command.
fn is_completed(reply: &Reply) -> bool
    ensures { result ≡ serving.is_completed reply.now }
{
    matches!(reply, Reply::Completed { .. })
}

/// Why a step was refused, if it was.
fn refusal_in(reply: &Reply) -> Option<Refusal>
    ensures { result ≡ serving.refusal_in reply.now }
{
    match reply {
        Reply::Refused { why, .. } => Some(*why),
        _ => None,
    }
}

/// The next unit of a list, after a unit that was not its last.
fn next_unit(step: ControllerStep, reply: &Reply) -> Option<ControllerStep> {
    match reply {
        Reply::Walked {
            state: WalkState::More,
            ..
        } => Some(step),
        _ => None,
    }
}

/// The step to make: the next unit of a list, where there is one, and else a step that the controller can do.
fn next(desk: &mut Desk, unit: Option<ControllerStep>) -> Option<ControllerStep>
    ensures rest { IfNone result (IsTrue desk.old.world.trusted → IsAtRest desk.old.world) }
    ensures same { desk.new ≡ desk.old }
{
    match unit {
        Some(step) => Some(step),
        None => desk.next_step(),
    }
}

/// Does what the controller can do, step by step, until it is at rest, a step is refused, or as many steps were made as one call makes. A list
/// is walked to its end without a look in between.
pub(crate) fn serve(desk: &mut Desk) -> Served
    ensures { Serves desk.old result desk.new }
{
    let mut completed = 0;
    let mut unit = None;
    for made in 0..MOST_STEPS {
        let Some(step) = next(desk, unit) else {
            let end = ServeEnd::Rest;
            return Served { completed, end };
        };
        let reply = desk.step(step_of(step));
        unit = next_unit(step, &reply);
        if let Some(why) = refusal_in(&reply) {
            let end = ServeEnd::Refused(why);
            return Served { completed, end };
        }
        if is_completed(&reply) {
            completed += 1;
        }
    }
    let end = ServeEnd::More;
    Served { completed, end }
}

/// The code of how serving ended.
fn code_of_end(end: ServeEnd) -> u32
    ensures { result ≡ serving.code_of_end end }
{
    match end {
        ServeEnd::Rest | ServeEnd::More => DONE,
        ServeEnd::Refused(why) => code_of_refusal(why),
    }
}

/// What C is told of it.
fn told_serving(served: Served) -> Answer
    ensures { result ≡ serving.told_serving served }
{
    let state = match served.end {
        ServeEnd::More => 10,
        ServeEnd::Rest | ServeEnd::Refused(_) => 0,
    };
    Answer {
        state,
        count: served.completed,
        ..nothing()
    }
}

/// The controller does all that it can, of every queue. How many commands it completed is told, and whether there is more to do.
#[unsafe(no_mangle)]
pub extern "C" fn nvmesgl_serve(alloc: Global, handle: &mut Handle, answer: &mut Answer) -> u32
    ensures { ServesKept (kept_in handle.old) result answer.new (kept_in handle.new) }
{
    *answer = nothing();
    let mut desk = or_code!(handle.take(alloc));
    let served = serve(&mut desk);
    handle.put(desk);
    *answer = told_serving(served);
    code_of_end(served.end)
}
