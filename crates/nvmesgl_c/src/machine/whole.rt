//! Whole commands, each in one call.

ghost use Rattle.std.specs.Prelude.{◌≡◌, ◌⊎◌, length};
ghost use Rattle.std.specs.Option.{option_copied};
ghost use Rattle.io_commands.specs.declared.request.Kind.TheVariants as kind;
ghost use Rattle.nvmesgl_c.specs.Buffers.{joined};
ghost use Rattle.nvmesgl_c.specs.MachineKept.{kept_in};
ghost use Rattle.nvmesgl_c.specs.MachineCarried as parts;
ghost use Rattle.nvmesgl_c.specs.MachineCarried.{IsCarriedKept, LaysOn, outcome_kept};
ghost use Rattle.nvmesgl_c.specs.MachineWhole.{Brings, CarriesKept, IsTurnedAway, IsTurnedAwayFrom, Sends};

use crate::machine::answer::told_of;
use crate::machine::carrying::{Brought, Carried, carry};
use crate::machine::code::code_of_answer;
use crate::machine::handle::Handle;
use crate::machine::steps::refuse;
use crate::words::code::{BAD_COUNT, DONE, MEMORY, TOO_SHORT};
use crate::words::{
    Answer, CBytes, MOST_MOVED, collected, copy_of, count_of, lay_in, nothing, request_for,
};
use std::alloc::Global;
use step_core::{Bytes, Kind, Request};

/// Carries a command of the bench that a handle keeps. What a Read brought is laid at the start of the buffer, where it fits.
///
/// # Errors
///
/// The code, where none is kept.
pub(crate) fn carry_kept(
    alloc: Global,
    handle: &mut Handle,
    q: u16,
    request: Request,
    bytes: Option<Bytes>,
    buffer: &mut [u8],
) -> Result<Carried, u32>
    ensures carries { CarriesKept (kept_in handle.old) q request bytes (outcome_kept result buffer.new) (kept_in handle.new) }
    ensures laid { IsCarriedKept result buffer.old buffer.new }
{
    let mut desk = handle.take(alloc)?;
    let carried = carry(&mut desk, q, request, bytes, buffer);
    handle.put(desk);
    Ok(carried)
}

/// How many bytes a Read brought.
fn count_of_brought(brought: &Brought) -> usize
    ensures { result ≡ parts.count_of brought.now }
{
    match brought {
        Brought::Laid(count) => *count,
        Brought::Listed(bytes) => bytes.as_slice().len(),
    }
}

/// What a whole command tells.
fn told_carried(carried: &Carried) -> Answer
    ensures { result ≡ parts.told_carried carried.now }
{
    match carried {
        Carried::Ended {
            status,
            hints,
            brought,
        } => Answer {
            bytes: count_of_brought(brought),
            ..collected(*status, *hints)
        },
        Carried::NotReserved(why) | Carried::GivenUp(why) => told_of(why),
        Carried::Left { cid, .. } => Answer {
            state: 11,
            cid: *cid,
            ..nothing()
        },
    }
}

/// The code of a whole command.
fn code_of_carried(carried: &Carried) -> u32
    ensures { result ≡ parts.code_of_carried carried.now }
{
    match carried {
        Carried::Ended { .. } => DONE,
        Carried::NotReserved(why) | Carried::GivenUp(why) | Carried::Left { why, .. } =>
            code_of_answer(why),
    }
}

/// What a whole command of a handle tells, which was open or not.
pub(crate) fn told_of_kept(carried: &Result<Carried, u32>) -> Answer
    ensures { result ≡ parts.told_of_kept carried.now }
{
    match carried {
        Ok(carried) => told_carried(carried),
        Err(_) => nothing(),
    }
}

/// The code of a whole command, or of the handle that it was made on.
pub(crate) fn code_of(carried: &Result<Carried, u32>) -> u32
    ensures { result ≡ parts.code_of carried.now }
{
    match carried {
        Ok(carried) => code_of_carried(carried),
        Err(code) => *code,
    }
}

/// Carries a Write or a Compare of the bytes in these buffers.
pub(crate) fn send(
    alloc: Global,
    handle: &mut Handle,
    q: u16,
    kind: Kind,
    slba: u64,
    sources: &[CBytes<'_>],
    answer: &mut Answer,
) -> u32
    ensures { Sends (kept_in handle.old) q kind slba (joined sources.now) result answer.new (kept_in handle.new) ⊎ IsTurnedAway (kept_in handle.old) (length (joined sources.now)) result answer.new (kept_in handle.new) }
{
    let Some(count) = count_of(sources) else {
        return refuse(alloc, handle, BAD_COUNT, answer);
    };
    let Ok(request) = request_for(alloc, kind, slba, count) else {
        return refuse(alloc, handle, MEMORY, answer);
    };
    let Ok(copied) = copy_of(alloc, sources, count) else {
        drop(request);
        return refuse(alloc, handle, MEMORY, answer);
    };
    let bytes = Some(Bytes::from_vec(copied));
    let carried = carry_kept(alloc, handle, q, request, bytes, &mut []);
    *answer = told_of_kept(&carried);
    code_of(&carried)
}

/// The bytes that a Read brought, where they are a list.
pub(crate) fn listed(carried: &Result<Carried, u32>) -> Option<&[u8]>
    ensures { option_copied result ≡ parts.listed_in carried.now }
{
    match carried {
        Ok(
            Carried::Ended {
                status: _,
                hints: _,
                brought: Brought::Listed(bytes),
            },
        ) => Some(bytes.as_slice()),
        _ => None,
    }
}

/// Lays what a Read brought as a list at the start of a buffer. The code of the command; or that the buffer is too short.
fn lay(carried: &Result<Carried, u32>, buffer: &mut [u8]) -> u32
    ensures { LaysOn carried.now result buffer.old buffer.new }
{
    if let Some(bytes) = listed(carried) {
        if !lay_in(bytes, buffer) {
            return TOO_SHORT;
        }
    }
    code_of(carried)
}

/// Carries a Read from its reservation to its release: its bytes are in the buffer, and its status is told.
#[unsafe(no_mangle)]
pub extern "C" fn nvmesgl_read(
    alloc: Global,
    handle: &mut Handle,
    q: u16,
    slba: u64,
    buffer: &mut [u8],
    answer: &mut Answer,
) -> u32
    ensures { Brings (kept_in handle.old) q slba buffer.old buffer.new result answer.new (kept_in handle.new) ⊎ IsTurnedAwayFrom buffer.old buffer.new (kept_in handle.old) result answer.new (kept_in handle.new) }
{
    if buffer.len() > MOST_MOVED {
        return refuse(alloc, handle, BAD_COUNT, answer);
    }
    let Ok(request) = request_for(alloc, Kind::Read, slba, buffer.len()) else {
        return refuse(alloc, handle, MEMORY, answer);
    };
    let carried = carry_kept(alloc, handle, q, request, None, buffer);
    *answer = told_of_kept(&carried);
    lay(&carried, buffer)
}

/// Carries a Write from its reservation to its release. Its status is told.
#[unsafe(no_mangle)]
pub extern "C" fn nvmesgl_write(
    alloc: Global,
    handle: &mut Handle,
    q: u16,
    slba: u64,
    bytes: &[u8],
    answer: &mut Answer,
) -> u32
    ensures { Sends (kept_in handle.old) q kind.Write slba bytes.now result answer.new (kept_in handle.new) ⊎ IsTurnedAway (kept_in handle.old) (length bytes.now) result answer.new (kept_in handle.new) }
{
    let sources = [CBytes { bytes }];
    send(alloc, handle, q, Kind::Write, slba, &sources, answer)
}

/// Carries a Compare from its reservation to its release. Its status is told.
#[unsafe(no_mangle)]
pub extern "C" fn nvmesgl_compare(
    alloc: Global,
    handle: &mut Handle,
    q: u16,
    slba: u64,
    bytes: &[u8],
    answer: &mut Answer,
) -> u32
    ensures { Sends (kept_in handle.old) q kind.Compare slba bytes.now result answer.new (kept_in handle.new) ⊎ IsTurnedAway (kept_in handle.old) (length bytes.now) result answer.new (kept_in handle.new) }
{
    let sources = [CBytes { bytes }];
    send(alloc, handle, q, Kind::Compare, slba, &sources, answer)
}
