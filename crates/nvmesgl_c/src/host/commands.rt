//! The calls of a command, named by its queue and identifier.

ghost use Rattle.std.specs.Prelude.{◌≡◌, IfNone, IfSome, length};
ghost use Rattle.nvmesgl_c.specs.HostKept.{kept_in};
ghost use Rattle.nvmesgl_c.specs.HostCalls.{DoesKept, Says, Gathers, IsGatheredOf, IsUngatheredOf};
ghost use Rattle.host_bench.specs.declared.call.Call.TheVariants as call;

use crate::host::answer::told;
use crate::host::calls::{make, say};
use crate::host::code::code_of_reply;
use crate::host::handle::Handle;
use crate::words::code::{DONE, TOO_SHORT};
use crate::words::{Answer, gather_into, lay_in, nothing};
use host_bench::{Call, Reply};
use std::alloc::Global;

/// Fills a draft of the host that is kept with bytes that are lent.
///
/// # Errors
///
/// The code, where none is kept.
fn fill(alloc: Global, handle: &mut Handle, q: u16, cid: u16, bytes: &[u8]) -> Result<Reply, u32>
    ensures { DoesKept (kept_in handle.old) (call.Fill q cid bytes.now) result (kept_in handle.new) }
{
    let mut kept = handle.take(alloc)?;
    let answer = kept.bench.fill(q, cid, bytes);
    handle.put(kept);
    Ok(answer)
}

/// Fills a draft with the bytes, padded with zeros to its Data length.
#[unsafe(no_mangle)]
pub extern "C" fn nvmehost_fill(
    alloc: Global,
    handle: &mut Handle,
    q: u16,
    cid: u16,
    bytes: &[u8],
    answer: &mut Answer,
) -> u32
    ensures { Says (kept_in handle.old) (call.Fill q cid bytes.now) result answer.new (kept_in handle.new) }
{
    let reply = fill(alloc, handle, q, cid, bytes);
    *answer = told(&reply);
    code_of_reply(&reply)
}

/// Gathers a Read's bytes to the start of a buffer, with no list between: how many they are. None, and nothing is written, where no such
/// command is collected, the buffer is too short, or no host is kept.
fn gather_from(
    alloc: Global,
    handle: &mut Handle,
    q: u16,
    cid: u16,
    buffer: &mut [u8],
) -> Option<usize>
    ensures laid { IfSome result (λ count. IsGatheredOf (kept_in handle.old) q cid count buffer.old buffer.new) }
    ensures same { kept_in handle.new ≡ kept_in handle.old }
    ensures kept { IfNone result (buffer.new ≡ buffer.old) }
    ensures unlaid { IfNone result (IsUngatheredOf (kept_in handle.old) q cid (length buffer.old)) }
{
    let Ok(kept) = handle.take(alloc) else {
        return None;
    };
    let count = gather_into(kept.bench.finished(q, cid), buffer);
    handle.put(kept);
    count
}

/// Gathers a Read's bytes as a list, and lays them at the start of a buffer where they fit.
fn gather_listed(
    alloc: Global,
    handle: &mut Handle,
    q: u16,
    cid: u16,
    buffer: &mut [u8],
    answer: &mut Answer,
) -> u32
    ensures { Gathers (kept_in handle.old) q cid result buffer.old buffer.new answer.new (kept_in handle.new) }
{
    let reply = make(alloc, handle, Call::Gather { q, cid });
    *answer = told(&reply);
    if let Ok(Reply::Gathered(bytes)) = &reply {
        if !lay_in(bytes.as_slice(), buffer) {
            return TOO_SHORT;
        }
    }
    code_of_reply(&reply)
}

/// Gathers a Read's bytes into the start of a buffer. A list is made only where they were not laid: it says why, or how many they are.
#[unsafe(no_mangle)]
pub extern "C" fn nvmehost_gather(
    alloc: Global,
    handle: &mut Handle,
    q: u16,
    cid: u16,
    buffer: &mut [u8],
    answer: &mut Answer,
) -> u32
    ensures { Gathers (kept_in handle.old) q cid result buffer.old buffer.new answer.new (kept_in handle.new) }
{
    match gather_from(alloc, handle, q, cid, buffer) {
        Some(bytes) => {
            *answer = Answer { bytes, ..nothing() };
            DONE
        }
        None => gather_listed(alloc, handle, q, cid, buffer, answer),
    }
}

/// Lays a draft's chain.
#[unsafe(no_mangle)]
pub extern "C" fn nvmehost_build(
    alloc: Global,
    handle: &mut Handle,
    q: u16,
    cid: u16,
    answer: &mut Answer,
) -> u32
    ensures { Says (kept_in handle.old) (call.Build q cid) result answer.new (kept_in handle.new) }
{
    say(alloc, handle, Call::Build { q, cid }, answer)
}

/// Submits a draft.
#[unsafe(no_mangle)]
pub extern "C" fn nvmehost_submit(
    alloc: Global,
    handle: &mut Handle,
    q: u16,
    cid: u16,
    answer: &mut Answer,
) -> u32
    ensures { Says (kept_in handle.old) (call.Submit q cid) result answer.new (kept_in handle.new) }
{
    say(alloc, handle, Call::Submit { q, cid }, answer)
}

/// Cancels a draft.
#[unsafe(no_mangle)]
pub extern "C" fn nvmehost_cancel(
    alloc: Global,
    handle: &mut Handle,
    q: u16,
    cid: u16,
    answer: &mut Answer,
) -> u32
    ensures { Says (kept_in handle.old) (call.Cancel q cid) result answer.new (kept_in handle.new) }
{
    say(alloc, handle, Call::Cancel { q, cid }, answer)
}

/// Releases a finished command.
#[unsafe(no_mangle)]
pub extern "C" fn nvmehost_release(
    alloc: Global,
    handle: &mut Handle,
    q: u16,
    cid: u16,
    answer: &mut Answer,
) -> u32
    ensures { Says (kept_in handle.old) (call.Release q cid) result answer.new (kept_in handle.new) }
{
    say(alloc, handle, Call::Release { q, cid }, answer)
}

/// Sends an Abort of a command. The identifier on queue 0 is told.
#[unsafe(no_mangle)]
pub extern "C" fn nvmehost_abort(
    alloc: Global,
    handle: &mut Handle,
    q: u16,
    cid: u16,
    answer: &mut Answer,
) -> u32
    ensures { Says (kept_in handle.old) (call.Abort q cid) result answer.new (kept_in handle.new) }
{
    say(alloc, handle, Call::Abort { q, cid }, answer)
}
