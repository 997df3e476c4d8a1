//! The driver's calls of a queue.

ghost use Rattle.nvmesgl_c.specs.MachineKept.{kept_in};
ghost use Rattle.nvmesgl_c.specs.MachineCalls.{Says};
ghost use Rattle.step_core.specs.declared.step.Step.TheVariants as step;

use crate::machine::handle::Handle;
use crate::machine::steps::say;
use crate::words::Answer;
use std::alloc::Global;
use step_core::Step;

/// Rings the tail doorbell of a queue.
#[unsafe(no_mangle)]
pub extern "C" fn nvmesgl_ring(
    alloc: Global,
    handle: &mut Handle,
    q: u16,
    answer: &mut Answer,
) -> u32
    ensures { Says (kept_in handle.old) (step.Ring q) result answer.new (kept_in handle.new) }
{
    say(alloc, handle, Step::Ring { q }, answer)
}

/// Takes a completion from a queue. What was found is told.
#[unsafe(no_mangle)]
pub extern "C" fn nvmesgl_reap(
    alloc: Global,
    handle: &mut Handle,
    q: u16,
    answer: &mut Answer,
) -> u32
    ensures { Says (kept_in handle.old) (step.Reap q) result answer.new (kept_in handle.new) }
{
    say(alloc, handle, Step::Reap { q }, answer)
}

/// Sends the deletion of a submission queue. The identifier on queue 0 is told.
#[unsafe(no_mangle)]
pub extern "C" fn nvmesgl_delete_sq(
    alloc: Global,
    handle: &mut Handle,
    q: u16,
    answer: &mut Answer,
) -> u32
    ensures { Says (kept_in handle.old) (step.DeleteSq q) result answer.new (kept_in handle.new) }
{
    say(alloc, handle, Step::DeleteSq { q }, answer)
}

/// Sends the deletion of a completion queue. The identifier on queue 0 is told.
#[unsafe(no_mangle)]
pub extern "C" fn nvmesgl_delete_cq(
    alloc: Global,
    handle: &mut Handle,
    q: u16,
    answer: &mut Answer,
) -> u32
    ensures { Says (kept_in handle.old) (step.DeleteCq q) result answer.new (kept_in handle.new) }
{
    say(alloc, handle, Step::DeleteCq { q }, answer)
}

/// Sends the creation of a completion queue that is polled. The identifier on queue 0 is told.
#[unsafe(no_mangle)]
pub extern "C" fn nvmesgl_create_cq(
    alloc: Global,
    handle: &mut Handle,
    q: u16,
    answer: &mut Answer,
) -> u32
    ensures { Says (kept_in handle.old) (step.CreateCq q None) result answer.new (kept_in handle.new) }
{
    say(alloc, handle, Step::CreateCq { q, vector: None }, answer)
}

/// Sends the creation of a submission queue. The identifier on queue 0 is told.
#[unsafe(no_mangle)]
pub extern "C" fn nvmesgl_create_sq(
    alloc: Global,
    handle: &mut Handle,
    q: u16,
    answer: &mut Answer,
) -> u32
    ensures { Says (kept_in handle.old) (step.CreateSq q) result answer.new (kept_in handle.new) }
{
    say(alloc, handle, Step::CreateSq { q }, answer)
}

/// Retires a queue whose submission queue is deleted.
#[unsafe(no_mangle)]
pub extern "C" fn nvmesgl_retire(
    alloc: Global,
    handle: &mut Handle,
    q: u16,
    answer: &mut Answer,
) -> u32
    ensures { Says (kept_in handle.old) (step.Retire q) result answer.new (kept_in handle.new) }
{
    say(alloc, handle, Step::Retire { q }, answer)
}

/// Overwrites a completion slot, as no controller may.
#[unsafe(no_mangle)]
pub extern "C" fn nvmesgl_forge(
    alloc: Global,
    handle: &mut Handle,
    q: u16,
    slot: u16,
    bytes: &[u8; 16],
    answer: &mut Answer,
) -> u32
    ensures { Says (kept_in handle.old) (step.Forge q slot bytes.now) result answer.new (kept_in handle.new) }
{
    say(
        alloc,
        handle,
        Step::Forge {
            q,
            slot,
            bytes: *bytes,
        },
        answer,
    )
}
