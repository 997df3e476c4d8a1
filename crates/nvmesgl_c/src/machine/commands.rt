//! The driver's calls of a command, named by its queue and identifier.

ghost use Rattle.std.specs.Prelude.{◌≡◌, IfNone, IfSome, length};
ghost use Rattle.nvmesgl_c.specs.MachineKept.{kept_in};
ghost use Rattle.nvmesgl_c.specs.MachineCalls.{Says, SaysOrWants, Reserves, Gathers, IsGatheredOf, IsUngatheredOf, looked_at};
ghost use Rattle.nvmesgl_c.specs.Requests as requests;
ghost use Rattle.step_core.specs.declared.step.Step.TheVariants as step;

use crate::machine::answer::told;
use crate::machine::code::code_of_reply;
use crate::machine::handle::Handle;
use crate::machine::steps::{do_step, refuse, say};
use crate::words::code::{DONE, MEMORY, TOO_SHORT};
use crate::words::{Answer, CPiece, CRequest, asked_of, lay_in, nothing, plain};
use std::alloc::Global;
use step_core::{Bytes, Reply, Step};

/// Reserves a command, as C asks for it. Its identifier and how many pages it has are told.
#[unsafe(no_mangle)]
pub extern "C" fn nvmesgl_reserve_request(
    alloc: Global,
    handle: &mut Handle,
    q: u16,
    asked: &CRequest,
    pieces: &[CPiece],
    answer: &mut Answer,
) -> u32
    ensures { Reserves (kept_in handle.old) q asked.now pieces.now result answer.new (kept_in handle.new) }
{
    match asked_of(alloc, asked, pieces) {
        Ok(request) => say(alloc, handle, Step::Reserve { q, request }, answer),
        Err(code) => refuse(alloc, handle, code, answer),
    }
}

/// Reserves a command of namespace 1, with no flag. Its identifier and how many pages it has are told.
#[unsafe(no_mangle)]
pub extern "C" fn nvmesgl_reserve(
    alloc: Global,
    handle: &mut Handle,
    q: u16,
    kind: u32,
    slba: u64,
    blocks: u32,
    pieces: &[CPiece],
    answer: &mut Answer,
) -> u32
    ensures { Reserves (kept_in handle.old) q (requests.plain kind slba blocks) pieces.now result answer.new (kept_in handle.new) }
{
    nvmesgl_reserve_request(alloc, handle, q, &plain(kind, slba, blocks), pieces, answer)
}

/// The most bytes that are read: one more than a command moves.
const MOST_SEEN: usize = 1_048_577;

/// The bytes that are read.
fn seen(bytes: &[u8]) -> &[u8]
    ensures { result.now ≡ looked_at bytes.now }
{
    if bytes.len() > MOST_SEEN {
        &bytes[..MOST_SEEN]
    } else {
        bytes
    }
}

/// Fills a draft with the bytes, padded with zeros to its Data length. Of more bytes than a command moves, one more than that is read.
#[unsafe(no_mangle)]
pub extern "C" fn nvmesgl_fill(
    alloc: Global,
    handle: &mut Handle,
    q: u16,
    cid: u16,
    bytes: &[u8],
    answer: &mut Answer,
) -> u32
    ensures { SaysOrWants (kept_in handle.old) (step.Fill q cid (looked_at bytes.now)) result answer.new (kept_in handle.new) }
{
    let Ok(copied) = Vec::from_slice(alloc, seen(bytes)) else {
        return refuse(alloc, handle, MEMORY, answer);
    };
    let bytes = Bytes::from_vec(copied);
    say(alloc, handle, Step::Fill { q, cid, bytes }, answer)
}

/// Gathers a Read's bytes to the start of a buffer, with no list between: how many they are. None, and nothing is written, where no such
/// command is collected, the buffer is too short, or no bench is kept.
fn gather_from(
    alloc: Global,
    handle: &mut Handle,
    q: u16,
    cid: u16,
    buffer: &mut [u8],
) -> Option<usize>
    ensures laid { IfSome result (λ count. IsGatheredOf (kept_in handle.old) q cid count buffer.old buffer.new) }
    ensures same { kept_in handle.new ≡ kept_in handle.old }
    ensures kept { IfNone result (buffer.new ≡ buffer.old) }
    ensures unlaid { IfNone result (IsUngatheredOf (kept_in handle.old) q cid (length buffer.old)) }
{
    let Ok(desk) = handle.take(alloc) else {
        return None;
    };
    let count = desk.gather_into(q, cid, buffer);
    handle.put(desk);
    count
}

/// Gathers a Read's bytes as a list, and lays them at the start of a buffer where they fit.
fn gather_listed(
    alloc: Global,
    handle: &mut Handle,
    q: u16,
    cid: u16,
    buffer: &mut [u8],
    answer: &mut Answer,
) -> u32
    ensures { Gathers (kept_in handle.old) q cid result buffer.old buffer.new answer.new (kept_in handle.new) }
{
    let reply = do_step(alloc, handle, Step::Gather { q, cid });
    *answer = told(&reply);
    if let Ok(Reply::Gathered(bytes)) = &reply {
        if !lay_in(bytes.as_slice(), buffer) {
            return TOO_SHORT;
        }
    }
    code_of_reply(&reply)
}

/// Gathers a Read's bytes into the start of a buffer. A list is made only where they were not laid: it says why, or how many they are.
#[unsafe(no_mangle)]
pub extern "C" fn nvmesgl_gather(
    alloc: Global,
    handle: &mut Handle,
    q: u16,
    cid: u16,
    buffer: &mut [u8],
    answer: &mut Answer,
) -> u32
    ensures { Gathers (kept_in handle.old) q cid result buffer.old buffer.new answer.new (kept_in handle.new) }
{
    match gather_from(alloc, handle, q, cid, buffer) {
        Some(bytes) => {
            *answer = Answer { bytes, ..nothing() };
            DONE
        }
        None => gather_listed(alloc, handle, q, cid, buffer, answer),
    }
}

/// Lays a draft's chain.
#[unsafe(no_mangle)]
pub extern "C" fn nvmesgl_build(
    alloc: Global,
    handle: &mut Handle,
    q: u16,
    cid: u16,
    answer: &mut Answer,
) -> u32
    ensures { Says (kept_in handle.old) (step.Build q cid) result answer.new (kept_in handle.new) }
{
    say(alloc, handle, Step::Build { q, cid }, answer)
}

/// Submits a draft.
#[unsafe(no_mangle)]
pub extern "C" fn nvmesgl_submit(
    alloc: Global,
    handle: &mut Handle,
    q: u16,
    cid: u16,
    answer: &mut Answer,
) -> u32
    ensures { Says (kept_in handle.old) (step.Submit q cid) result answer.new (kept_in handle.new) }
{
    say(alloc, handle, Step::Submit { q, cid }, answer)
}

/// Cancels a draft.
#[unsafe(no_mangle)]
pub extern "C" fn nvmesgl_cancel(
    alloc: Global,
    handle: &mut Handle,
    q: u16,
    cid: u16,
    answer: &mut Answer,
) -> u32
    ensures { Says (kept_in handle.old) (step.Cancel q cid) result answer.new (kept_in handle.new) }
{
    say(alloc, handle, Step::Cancel { q, cid }, answer)
}

/// Collects a command that has ended. Its status is told.
#[unsafe(no_mangle)]
pub extern "C" fn nvmesgl_collect(
    alloc: Global,
    handle: &mut Handle,
    q: u16,
    cid: u16,
    answer: &mut Answer,
) -> u32
    ensures { Says (kept_in handle.old) (step.Collect q cid) result answer.new (kept_in handle.new) }
{
    say(alloc, handle, Step::Collect { q, cid }, answer)
}

/// Releases a finished command.
#[unsafe(no_mangle)]
pub extern "C" fn nvmesgl_release(
    alloc: Global,
    handle: &mut Handle,
    q: u16,
    cid: u16,
    answer: &mut Answer,
) -> u32
    ensures { Says (kept_in handle.old) (step.Release q cid) result answer.new (kept_in handle.new) }
{
    say(alloc, handle, Step::Release { q, cid }, answer)
}

/// Sends an Abort of a command. The identifier on queue 0 is told.
#[unsafe(no_mangle)]
pub extern "C" fn nvmesgl_abort(
    alloc: Global,
    handle: &mut Handle,
    q: u16,
    cid: u16,
    answer: &mut Answer,
) -> u32
    ensures { Says (kept_in handle.old) (step.Abort q cid) result answer.new (kept_in handle.new) }
{
    say(alloc, handle, Step::Abort { q, cid }, answer)
}
