//! The two doorbells of a queue.

ghost use Rattle.std.specs.Prelude.{◌≡◌};
ghost use Rattle.nvmesgl_c.specs.ControllerKept.{kept_in, lends_in};
ghost use Rattle.nvmesgl_c.specs.ControllerCalls.{tail_code, head_code, RingsTail, RingsHead};

use crate::controller::code::{BAD_DOORBELL, NO_QUEUE};
use crate::controller::handle::Handle;
use crate::words::code::DONE;
use crate::words::or_code;
use controller_core::ControllerQueue;
use std::alloc::Global;

/// The code of a tail.
fn code_of_tail(queues: &[ControllerQueue], q: u16, value: u16) -> u32
    ensures { result ≡ tail_code queues.now q value }
{
    let Some(queue) = queues.get(usize::from(q)) else {
        return NO_QUEUE;
    };
    if value < queue.controller.entries() {
        DONE
    } else {
        BAD_DOORBELL
    }
}

/// The code of a head.
fn code_of_head(queues: &[ControllerQueue], q: u16, value: u16) -> u32
    ensures { result ≡ head_code queues.now q value }
{
    let Some(queue) = queues.get(usize::from(q)) else {
        return NO_QUEUE;
    };
    let mut controller = queue.controller;
    match controller.head_bell(value) {
        Ok(()) => DONE,
        Err(_) => BAD_DOORBELL,
    }
}

/// A value is written to the tail doorbell of a submission queue.
#[unsafe(no_mangle)]
pub extern "C" fn nvmectl_tail(alloc: Global, handle: &mut Handle, q: u16, value: u16) -> u32
    ensures rings { RingsTail (kept_in handle.old) q value result (kept_in handle.new) }
    ensures kind { lends_in handle.new ≡ lends_in handle.old }
{
    let mut controller = or_code!(handle.take(alloc));
    let code = code_of_tail(controller.queues(), q, value);
    if code == DONE {
        controller.tail_doorbell(q, value);
    }
    handle.put(controller);
    code
}

/// A value is written to the head doorbell of a completion queue.
#[unsafe(no_mangle)]
pub extern "C" fn nvmectl_head(alloc: Global, handle: &mut Handle, q: u16, value: u16) -> u32
    ensures rings { RingsHead (kept_in handle.old) q value result (kept_in handle.new) }
    ensures kind { lends_in handle.new ≡ lends_in handle.old }
{
    let mut controller = or_code!(handle.take(alloc));
    let code = code_of_head(controller.queues(), q, value);
    if code == DONE {
        controller.head_doorbell(q, value);
    }
    handle.put(controller);
    code
}
