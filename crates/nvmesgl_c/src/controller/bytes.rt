//! The bytes of a command that was fetched.

ghost use Rattle.std.specs.Prelude.{◌≡◌};
ghost use Rattle.nvmesgl_c.specs.ControllerKept.{kept_in, lends_in};
ghost use Rattle.nvmesgl_c.specs.ControllerLent.{LaysBytes, TellsBytes, bytes_of_work};

use crate::controller::code::NO_JOB;
use crate::controller::handle::Handle;
use crate::words::code::{DONE, TOO_SHORT};
use crate::words::{Answer, lay_in, nothing, or_code};
use controller_core::{FetchedCommand, FetchedWork};
use std::alloc::Global;

/// The bytes of a command.
fn bytes_of(command: &FetchedCommand) -> &[u8]
    ensures { result.now ≡ bytes_of_work command.now.work }
{
    match &command.work {
        FetchedWork::Io(job) => job.bytes(),
        FetchedWork::Admin { .. } => &[],
    }
}

/// Lays bytes at the start of a buffer, where there is room for all, and tells how many they are.
fn lay_bytes(bytes: &[u8], buffer: &mut [u8], answer: &mut Answer) -> u32
    ensures { LaysBytes bytes.now buffer.old result buffer.new answer.new }
{
    *answer = Answer {
        bytes: bytes.len(),
        ..nothing()
    };
    if lay_in(bytes, buffer) {
        DONE
    } else {
        TOO_SHORT
    }
}

/// Copies the bytes of a command that was fetched and not completed to the start of a buffer: those of a Read's blocks, and what a Write or a
/// Compare fetched. How many they are is told.
#[unsafe(no_mangle)]
pub extern "C" fn nvmectl_bytes(
    alloc: Global,
    handle: &mut Handle,
    q: u16,
    cid: u16,
    buffer: &mut [u8],
    answer: &mut Answer,
) -> u32
    ensures tells { TellsBytes (kept_in handle.old) q cid buffer.old result buffer.new answer.new (kept_in handle.new) }
    ensures kind { lends_in handle.new ≡ lends_in handle.old }
{
    *answer = nothing();
    let controller = or_code!(handle.take(alloc));
    let code = match controller.command(q, cid) {
        Some(command) => lay_bytes(bytes_of(command), buffer, answer),
        None => NO_JOB,
    };
    handle.put(controller);
    code
}
