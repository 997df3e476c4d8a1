//! A command that is sent in one call, and its bytes in several buffers.

ghost use Rattle.std.specs.Prelude.{◌≡◌, ◌⊎◌, ◌≤◌, IfNone, IfOk, IfSome, length};
ghost use Rattle.nvmesgl_c.specs.Buffers.{joined, joined_buffers, lengths_of, places_of};
ghost use Rattle.nvmesgl_c.specs.HostCalls.{Gathers};
ghost use Rattle.nvmesgl_c.specs.HostKept.{kept_in};
ghost use Rattle.nvmesgl_c.specs.HostSending as sending;
ghost use Rattle.nvmesgl_c.specs.HostSending.{AllAccepted, FirstFails, Sends, SendsKept, SendsOne, send_calls, submit_calls};

use crate::host::answer::told;
use crate::host::calls::{make, refuse};
use crate::host::code::code_of_reply;
use crate::host::handle::Handle;
use crate::host::reserving::{named, reserve};
use crate::host::tagged::Tagged;
use crate::words::code::{BAD_COUNT, MEMORY, NO_KIND, TOO_SHORT};
use crate::words::{Answer, CBuffer, CBytes, copy_of, count_of, kind_of, lay, request_for};
use host_bench::{Bytes, Call, HostBench, Kind, Reply, Request};
use std::alloc::{AllocError, Global};

/// Whether a call was accepted.
fn is_accepted(reply: &Reply) -> bool
    ensures { result ≡ sending.is_accepted reply.now }
{
    matches!(reply, Reply::Accepted)
}

/// Builds a draft and submits it. What was answered by the call that was not accepted, if one was not.
fn submit(bench: &mut HostBench, q: u16, cid: u16) -> Option<Reply>
    ensures done { IfNone result (AllAccepted bench.old (submit_calls q cid) bench.new) }
    ensures failed { IfSome result (λ why. FirstFails bench.old (submit_calls q cid) why bench.new) }
{
    let built = bench.call(Call::Build { q, cid });
    if !is_accepted(&built) {
        return Some(built);
    }
    let submitted = bench.call(Call::Submit { q, cid });
    if !is_accepted(&submitted) {
        return Some(submitted);
    }
    None
}

/// Fills a draft, where there are bytes, builds it and submits it. What was answered by the call that was not accepted, if one was not.
fn send_draft(bench: &mut HostBench, q: u16, cid: u16, bytes: Option<Bytes>) -> Option<Reply>
    ensures done { IfNone result (AllAccepted bench.old (send_calls q cid bytes) bench.new) }
    ensures failed { IfSome result (λ why. FirstFails bench.old (send_calls q cid bytes) why bench.new) }
{
    match bytes {
        Some(bytes) => {
            let filled = bench.call(Call::Fill { q, cid, bytes });
            if !is_accepted(&filled) {
                return Some(filled);
            }
            submit(bench, q, cid)
        }
        None => submit(bench, q, cid),
    }
}

/// Fills a draft that has its tag, builds it and submits it; one that cannot be submitted is cancelled. What was answered that prevented it, if
/// anything did.
fn send_reserved(bench: &mut HostBench, q: u16, cid: u16, bytes: Option<Bytes>) -> Option<Reply>
    ensures done { IfNone result (AllAccepted bench.old (send_calls q cid bytes) bench.new) }
    ensures given_up { IfSome result (λ why. sending.GivesUp bench.old q cid bytes why bench.new) }
{
    let why = send_draft(bench, q, cid, bytes)?;
    drop(bench.call(Call::Cancel { q, cid }));
    Some(why)
}

/// Reserves a command, which gets its tag, and submits it; one that cannot be submitted is cancelled. What is told: the reservation, or what was
/// answered that prevented it.
fn send(kept: &mut Tagged, q: u16, request: Request, bytes: Option<Bytes>, tag: u64) -> Reply
    ensures { SendsOne kept.old q request bytes tag result kept.new }
{
    let reserved = reserve(kept, q, request, tag);
    let Some(cid) = named(&reserved) else {
        drop(bytes);
        return reserved;
    };
    match send_reserved(&mut kept.bench, q, cid, bytes) {
        None => reserved,
        Some(why) => why,
    }
}

/// Sends a command of the host that a handle keeps.
///
/// # Errors
///
/// The code, where none is kept.
fn send_kept(
    alloc: Global,
    handle: &mut Handle,
    q: u16,
    request: Request,
    bytes: Option<Bytes>,
    tag: u64,
) -> Result<Reply, u32>
    ensures { SendsKept (kept_in handle.old) q request bytes tag result (kept_in handle.new) }
{
    let mut kept = handle.take(alloc)?;
    let told = send(&mut kept, q, request, bytes, tag);
    handle.put(kept);
    Ok(told)
}

/// The bytes that a command takes along: those of a Write or a Compare.
///
/// # Errors
///
/// Where memory is refused.
fn taken_along(
    alloc: Global,
    kind: Kind,
    sources: &[CBytes<'_>],
    count: usize,
) -> Result<Option<Bytes>, AllocError>
    ensures { IfOk result (λ bytes. bytes ≡ sending.bytes_for kind (joined sources.now)) }
{
    match kind {
        Kind::Write | Kind::Compare => {
            Ok(Some(Bytes::from_vec(copy_of(alloc, sources, count)?)))
        }
        _ => Ok(None),
    }
}

/// Reserves a command of the bytes in the buffers, one after the other, fills it, builds it and submits it. Its identifier and how many pages it has are told.
#[unsafe(no_mangle)]
pub extern "C" fn nvmehost_submit_iov(
    alloc: Global,
    handle: &mut Handle,
    q: u16,
    kind: u32,
    slba: u64,
    sources: &[CBytes<'_>],
    tag: u64,
    answer: &mut Answer,
) -> u32
    ensures { Sends (kept_in handle.old) q kind slba (joined sources.now) tag result answer.new (kept_in handle.new) }
{
    let Some(kind) = kind_of(kind) else {
        return refuse(alloc, handle, NO_KIND, answer);
    };
    let Some(count) = count_of(sources) else {
        return refuse(alloc, handle, BAD_COUNT, answer);
    };
    let Ok(request) = request_for(alloc, kind, slba, count) else {
        return refuse(alloc, handle, MEMORY, answer);
    };
    let Ok(bytes) = taken_along(alloc, kind, sources, count) else {
        drop(request);
        return refuse(alloc, handle, MEMORY, answer);
    };
    let reply = send_kept(alloc, handle, q, request, bytes, tag);
    *answer = told(&reply);
    code_of_reply(&reply)
}

/// Gathers a Read's bytes into the buffers, one after the other.
#[unsafe(no_mangle)]
pub extern "C" fn nvmehost_gather_iov(
    alloc: Global,
    handle: &mut Handle,
    q: u16,
    cid: u16,
    buffers: &mut [CBuffer<'_>],
    answer: &mut Answer,
) -> u32
    ensures gathers { Gathers (kept_in handle.old) q cid result (joined_buffers buffers.old) (joined_buffers buffers.new) answer.new (kept_in handle.new) }
    ensures lengths { lengths_of buffers.new ≡ lengths_of buffers.old }
    ensures places { places_of buffers.new ≡ places_of buffers.old }
{
    let reply = make(alloc, handle, Call::Gather { q, cid });
    *answer = told(&reply);
    if let Ok(Reply::Gathered(bytes)) = &reply {
        if !lay(bytes.as_slice(), buffers) {
            return TOO_SHORT;
        }
    }
    code_of_reply(&reply)
}
