//! Whole commands of bytes that lie in several buffers, each in one call.

ghost use Rattle.std.specs.Prelude.{◌≡◌, ◌⊎◌, length};
ghost use Rattle.io_commands.specs.declared.request.Kind.TheVariants as kind;
ghost use Rattle.nvmesgl_c.specs.Buffers.{joined, joined_buffers, lengths_of, places_of};
ghost use Rattle.nvmesgl_c.specs.MachineKept.{kept_in};
ghost use Rattle.nvmesgl_c.specs.MachineCarried.{LaysOn};
ghost use Rattle.nvmesgl_c.specs.MachineWhole.{Brings, IsTurnedAway, IsTurnedAwayFrom, Sends};

use crate::machine::carrying::Carried;
use crate::machine::handle::Handle;
use crate::machine::steps::refuse;
use crate::machine::whole::{carry_kept, code_of, listed, nvmesgl_read, send, told_of_kept};
use crate::words::code::{BAD_COUNT, MEMORY, TOO_SHORT};
use crate::words::{Answer, CBuffer, CBytes, lay, request_for, room_of};
use std::alloc::Global;
use step_core::Kind;

/// Lays what a Read brought as a list into buffers, one after the other. The code of the command; or that there is too little room.
fn lay_read(carried: &Result<Carried, u32>, buffers: &mut [CBuffer<'_>]) -> u32
    ensures laid { LaysOn carried.now result (joined_buffers buffers.old) (joined_buffers buffers.new) }
    ensures lengths { lengths_of buffers.new ≡ lengths_of buffers.old }
    ensures places { places_of buffers.new ≡ places_of buffers.old }
{
    if let Some(bytes) = listed(carried) {
        if !lay(bytes, buffers) {
            return TOO_SHORT;
        }
    }
    code_of(carried)
}

/// Carries a Read into several buffers. Its bytes are gathered as a list first.
fn read_parts(
    alloc: Global,
    handle: &mut Handle,
    q: u16,
    slba: u64,
    buffers: &mut [CBuffer<'_>],
    answer: &mut Answer,
) -> u32
    ensures does { Brings (kept_in handle.old) q slba (joined_buffers buffers.old) (joined_buffers buffers.new) result answer.new (kept_in handle.new) ⊎ IsTurnedAwayFrom (joined_buffers buffers.old) (joined_buffers buffers.new) (kept_in handle.old) result answer.new (kept_in handle.new) }
    ensures lengths { lengths_of buffers.new ≡ lengths_of buffers.old }
    ensures places { places_of buffers.new ≡ places_of buffers.old }
{
    let Some(room) = room_of(buffers) else {
        return refuse(alloc, handle, BAD_COUNT, answer);
    };
    let Ok(request) = request_for(alloc, Kind::Read, slba, room) else {
        return refuse(alloc, handle, MEMORY, answer);
    };
    let carried = carry_kept(alloc, handle, q, request, None, &mut []);
    *answer = told_of_kept(&carried);
    lay_read(&carried, buffers)
}

/// Carries a Read from its reservation to its release: its bytes are in the buffers, one after the other, and its status is told. Into one
/// buffer they are gathered with no list between.
#[unsafe(no_mangle)]
pub extern "C" fn nvmesgl_readv(
    alloc: Global,
    handle: &mut Handle,
    q: u16,
    slba: u64,
    buffers: &mut [CBuffer<'_>],
    answer: &mut Answer,
) -> u32
    ensures does { Brings (kept_in handle.old) q slba (joined_buffers buffers.old) (joined_buffers buffers.new) result answer.new (kept_in handle.new) ⊎ IsTurnedAwayFrom (joined_buffers buffers.old) (joined_buffers buffers.new) (kept_in handle.old) result answer.new (kept_in handle.new) }
    ensures lengths { lengths_of buffers.new ≡ lengths_of buffers.old }
    ensures places { places_of buffers.new ≡ places_of buffers.old }
{
    if buffers.len() == 1 {
        return nvmesgl_read(alloc, handle, q, slba, buffers[0].bytes, answer);
    }
    read_parts(alloc, handle, q, slba, buffers, answer)
}

/// Carries a Write of the bytes in the buffers, one after the other, from its reservation to its release. Its status is told.
#[unsafe(no_mangle)]
pub extern "C" fn nvmesgl_writev(
    alloc: Global,
    handle: &mut Handle,
    q: u16,
    slba: u64,
    sources: &[CBytes<'_>],
    answer: &mut Answer,
) -> u32
    ensures { Sends (kept_in handle.old) q kind.Write slba (joined sources.now) result answer.new (kept_in handle.new) ⊎ IsTurnedAway (kept_in handle.old) (length (joined sources.now)) result answer.new (kept_in handle.new) }
{
    send(alloc, handle, q, Kind::Write, slba, sources, answer)
}

/// Carries a Compare with the bytes in the buffers, one after the other, from its reservation to its release. Its status is told.
#[unsafe(no_mangle)]
pub extern "C" fn nvmesgl_comparev(
    alloc: Global,
    handle: &mut Handle,
    q: u16,
    slba: u64,
    sources: &[CBytes<'_>],
    answer: &mut Answer,
) -> u32
    ensures { Sends (kept_in handle.old) q kind.Compare slba (joined sources.now) result answer.new (kept_in handle.new) ⊎ IsTurnedAway (kept_in handle.old) (length (joined sources.now)) result answer.new (kept_in handle.new) }
{
    send(alloc, handle, q, Kind::Compare, slba, sources, answer)
}
