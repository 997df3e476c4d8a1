//! The calls of a queue.

ghost use Rattle.std.specs.Prelude.{None, Some};
ghost use Rattle.nvmesgl_c.specs.HostKept.{kept_in};
ghost use Rattle.nvmesgl_c.specs.HostCalls.{Says, SaysBell};
ghost use Rattle.host_bench.specs.declared.call.Call.TheVariants as call;

use crate::host::answer::{CDoorbell, bell_of, told};
use crate::host::calls::{make, say};
use crate::host::code::code_of_reply;
use crate::host::handle::Handle;
use crate::words::Answer;
use host_bench::Call;
use std::alloc::Global;

/// Tells the value for the tail doorbell of a queue.
#[unsafe(no_mangle)]
pub extern "C" fn nvmehost_ring(
    alloc: Global,
    handle: &mut Handle,
    q: u16,
    bell: &mut CDoorbell,
    answer: &mut Answer,
) -> u32
    ensures { SaysBell (kept_in handle.old) (call.Ring q) result bell.new answer.new (kept_in handle.new) }
{
    let reply = make(alloc, handle, Call::Ring { q });
    *bell = bell_of(&reply);
    *answer = told(&reply);
    code_of_reply(&reply)
}

/// Sends the deletion of a submission queue. The identifier on queue 0 is told.
#[unsafe(no_mangle)]
pub extern "C" fn nvmehost_delete_sq(
    alloc: Global,
    handle: &mut Handle,
    q: u16,
    answer: &mut Answer,
) -> u32
    ensures { Says (kept_in handle.old) (call.DeleteSq q) result answer.new (kept_in handle.new) }
{
    say(alloc, handle, Call::DeleteSq { q }, answer)
}

/// Sends the deletion of a completion queue. The identifier on queue 0 is told.
#[unsafe(no_mangle)]
pub extern "C" fn nvmehost_delete_cq(
    alloc: Global,
    handle: &mut Handle,
    q: u16,
    answer: &mut Answer,
) -> u32
    ensures { Says (kept_in handle.old) (call.DeleteCq q) result answer.new (kept_in handle.new) }
{
    say(alloc, handle, Call::DeleteCq { q }, answer)
}

/// Sends the creation of a completion queue that is polled. The identifier on queue 0 is told.
#[unsafe(no_mangle)]
pub extern "C" fn nvmehost_create_cq(
    alloc: Global,
    handle: &mut Handle,
    q: u16,
    answer: &mut Answer,
) -> u32
    ensures { Says (kept_in handle.old) (call.CreateCq q None) result answer.new (kept_in handle.new) }
{
    say(alloc, handle, Call::CreateCq { q, vector: None }, answer)
}

/// Sends the creation of a completion queue with interrupts on a vector. The identifier on queue 0 is told.
#[unsafe(no_mangle)]
pub extern "C" fn nvmehost_create_cq_vector(
    alloc: Global,
    handle: &mut Handle,
    q: u16,
    vector: u16,
    answer: &mut Answer,
) -> u32
    ensures { Says (kept_in handle.old) (call.CreateCq q (Some vector)) result answer.new (kept_in handle.new) }
{
    let vector = Some(vector);
    say(alloc, handle, Call::CreateCq { q, vector }, answer)
}

/// Sends the creation of a submission queue. The identifier on queue 0 is told.
#[unsafe(no_mangle)]
pub extern "C" fn nvmehost_create_sq(
    alloc: Global,
    handle: &mut Handle,
    q: u16,
    answer: &mut Answer,
) -> u32
    ensures { Says (kept_in handle.old) (call.CreateSq q) result answer.new (kept_in handle.new) }
{
    say(alloc, handle, Call::CreateSq { q }, answer)
}

/// Retires a queue whose submission queue is deleted.
#[unsafe(no_mangle)]
pub extern "C" fn nvmehost_retire(
    alloc: Global,
    handle: &mut Handle,
    q: u16,
    answer: &mut Answer,
) -> u32
    ensures { Says (kept_in handle.old) (call.Retire q) result answer.new (kept_in handle.new) }
{
    say(alloc, handle, Call::Retire { q }, answer)
}

/// Begins again, where the controller is reset.
#[unsafe(no_mangle)]
pub extern "C" fn nvmehost_reset(alloc: Global, handle: &mut Handle, answer: &mut Answer) -> u32
    ensures { Says (kept_in handle.old) call.Reset result answer.new (kept_in handle.new) }
{
    say(alloc, handle, Call::Reset, answer)
}
