//! The controller's calls.

ghost use Rattle.nvmesgl_c.specs.MachineKept.{kept_in};
ghost use Rattle.nvmesgl_c.specs.MachineCalls.{Says};
ghost use Rattle.step_core.specs.declared.step.Step.TheVariants as step;

use crate::machine::handle::Handle;
use crate::machine::steps::say;
use crate::words::Answer;
use std::alloc::Global;
use step_core::Step;

/// The controller fetches an entry. Its identifier is told.
#[unsafe(no_mangle)]
pub extern "C" fn nvmesgl_fetch(
    alloc: Global,
    handle: &mut Handle,
    q: u16,
    answer: &mut Answer,
) -> u32
    ensures { Says (kept_in handle.old) (step.Fetch q) result answer.new (kept_in handle.new) }
{
    say(alloc, handle, Step::Fetch { q }, answer)
}

/// The controller does a unit of a command's list. How the list stands is told.
#[unsafe(no_mangle)]
pub extern "C" fn nvmesgl_walk(
    alloc: Global,
    handle: &mut Handle,
    q: u16,
    cid: u16,
    answer: &mut Answer,
) -> u32
    ensures { Says (kept_in handle.old) (step.Walk q cid) result answer.new (kept_in handle.new) }
{
    say(alloc, handle, Step::Walk { q, cid }, answer)
}

/// The controller completes a command.
#[unsafe(no_mangle)]
pub extern "C" fn nvmesgl_complete(
    alloc: Global,
    handle: &mut Handle,
    q: u16,
    cid: u16,
    answer: &mut Answer,
) -> u32
    ensures { Says (kept_in handle.old) (step.Complete q cid) result answer.new (kept_in handle.new) }
{
    say(alloc, handle, Step::Complete { q, cid }, answer)
}

/// Resets the controller.
#[unsafe(no_mangle)]
pub extern "C" fn nvmesgl_reset(alloc: Global, handle: &mut Handle, answer: &mut Answer) -> u32
    ensures { Says (kept_in handle.old) step.Reset result answer.new (kept_in handle.new) }
{
    say(alloc, handle, Step::Reset, answer)
}
