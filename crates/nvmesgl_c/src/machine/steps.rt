//! Steps of the bench that a handle keeps.

ghost use Rattle.std.specs.Prelude.{◌≡◌};
ghost use Rattle.nvmesgl_c.specs.MachineKept.{kept_in};
ghost use Rattle.nvmesgl_c.specs.MachineCalls.{DoesKept, Says, Refuses};

use crate::machine::answer::told;
use crate::machine::code::code_of_reply;
use crate::machine::handle::Handle;
use crate::words::{Answer, nothing, or_code};
use std::alloc::Global;
use step_core::{Reply, Step};

/// Does a step of the bench that is kept.
///
/// # Errors
///
/// The code, where none is kept.
pub(crate) fn do_step(alloc: Global, handle: &mut Handle, what: Step) -> Result<Reply, u32>
    ensures { DoesKept (kept_in handle.old) what result (kept_in handle.new) }
{
    let mut desk = handle.take(alloc)?;
    let answer = desk.step(what);
    handle.put(desk);
    Ok(answer)
}

/// Does a step, and tells what it answered.
pub(crate) fn say(alloc: Global, handle: &mut Handle, what: Step, answer: &mut Answer) -> u32
    ensures { Says (kept_in handle.old) what result answer.new (kept_in handle.new) }
{
    let reply = do_step(alloc, handle, what);
    *answer = told(&reply);
    code_of_reply(&reply)
}

/// Does no step, for a cause; a handle that keeps no bench is told first.
pub(crate) fn refuse(alloc: Global, handle: &mut Handle, code: u32, answer: &mut Answer) -> u32
    ensures { Refuses (kept_in handle.old) code result answer.new (kept_in handle.new) }
{
    *answer = nothing();
    let desk = or_code!(handle.take(alloc));
    handle.put(desk);
    code
}
