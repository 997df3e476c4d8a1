//! Reservations of commands, each with its tag.

ghost use Rattle.std.specs.Prelude.{◌≡◌};
ghost use Rattle.nvmesgl_c.specs.HostKept.{kept_in};
ghost use Rattle.nvmesgl_c.specs.HostReserving as reserving;
ghost use Rattle.nvmesgl_c.specs.HostReserving.{Reserves, ReservesAdmin, ReservesKept, ReservesOne};
ghost use Rattle.nvmesgl_c.specs.Requests as requests;

use crate::host::answer::told;
use crate::host::calls::refuse;
use crate::host::code::code_of_reply;
use crate::host::handle::Handle;
use crate::host::tagged::{Tagged, give};
use crate::words::{Answer, CAdmin, CPiece, CRequest, admin_of, asked_of, plain};
use host_bench::{Call, Refusal, Reply, Request};
use std::alloc::Global;

/// The identifier of a command that was reserved.
pub(crate) fn named(reply: &Reply) -> Option<u16>
    ensures { result ≡ reserving.named reply.now }
{
    match reply {
        Reply::Reserved { cid, .. } => Some(*cid),
        _ => None,
    }
}

/// Reserves a command, which gets its tag; where memory is refused for that, it is cancelled. What is told: the reservation, or what prevented it.
pub(crate) fn reserve(kept: &mut Tagged, q: u16, request: Request, tag: u64) -> Reply
    ensures { ReservesOne kept.old q request tag result kept.new }
{
    let reserved = kept.bench.call(Call::Reserve { q, request });
    let Some(cid) = named(&reserved) else {
        return reserved;
    };
    if give(&mut kept.tags, q, cid, tag) {
        return reserved;
    }
    drop(kept.bench.call(Call::Cancel { q, cid }));
    Reply::Refused(Refusal::Memory)
}

/// Reserves a command of the host that a handle keeps.
///
/// # Errors
///
/// The code, where none is kept.
fn reserve_kept(
    alloc: Global,
    handle: &mut Handle,
    q: u16,
    request: Request,
    tag: u64,
) -> Result<Reply, u32>
    ensures { ReservesKept (kept_in handle.old) q request tag result (kept_in handle.new) }
{
    let mut kept = handle.take(alloc)?;
    let reply = reserve(&mut kept, q, request, tag);
    handle.put(kept);
    Ok(reply)
}

/// Reserves a command, as C asks for it, which gets a tag of the caller's. Its identifier and how many pages it has are told.
#[unsafe(no_mangle)]
pub extern "C" fn nvmehost_reserve_request(
    alloc: Global,
    handle: &mut Handle,
    q: u16,
    asked: &CRequest,
    pieces: &[CPiece],
    tag: u64,
    answer: &mut Answer,
) -> u32
    ensures { Reserves (kept_in handle.old) q asked.now pieces.now tag result answer.new (kept_in handle.new) }
{
    let request = match asked_of(alloc, asked, pieces) {
        Ok(request) => request,
        Err(code) => return refuse(alloc, handle, code, answer),
    };
    let reply = reserve_kept(alloc, handle, q, request, tag);
    *answer = told(&reply);
    code_of_reply(&reply)
}

/// Reserves an admin command of queue 0, as C asks for it, which gets a tag of the caller's. Its identifier and how many pages it has are told.
#[unsafe(no_mangle)]
pub extern "C" fn nvmehost_reserve_admin(
    alloc: Global,
    handle: &mut Handle,
    asked: &CAdmin,
    tag: u64,
    answer: &mut Answer,
) -> u32
    ensures { ReservesAdmin (kept_in handle.old) asked.now tag result answer.new (kept_in handle.new) }
{
    let request = match admin_of(alloc, asked) {
        Ok(request) => request,
        Err(code) => return refuse(alloc, handle, code, answer),
    };
    let reply = reserve_kept(alloc, handle, 0, request, tag);
    *answer = told(&reply);
    code_of_reply(&reply)
}

/// Reserves a command of namespace 1, with no flag, which gets a tag of the caller's. Its identifier and how many pages it has are told.
#[unsafe(no_mangle)]
pub extern "C" fn nvmehost_reserve_tagged(
    alloc: Global,
    handle: &mut Handle,
    q: u16,
    kind: u32,
    slba: u64,
    blocks: u32,
    pieces: &[CPiece],
    tag: u64,
    answer: &mut Answer,
) -> u32
    ensures { Reserves (kept_in handle.old) q (requests.plain kind slba blocks) pieces.now tag result answer.new (kept_in handle.new) }
{
    nvmehost_reserve_request(
        alloc,
        handle,
        q,
        &plain(kind, slba, blocks),
        pieces,
        tag,
        answer,
    )
}

/// Reserves a command of namespace 1, with no flag, which has the tag 0. Its identifier and how many pages it has are told.
#[unsafe(no_mangle)]
pub extern "C" fn nvmehost_reserve(
    alloc: Global,
    handle: &mut Handle,
    q: u16,
    kind: u32,
    slba: u64,
    blocks: u32,
    pieces: &[CPiece],
    answer: &mut Answer,
) -> u32
    ensures { Reserves (kept_in handle.old) q (requests.plain kind slba blocks) pieces.now 0 result answer.new (kept_in handle.new) }
{
    nvmehost_reserve_tagged(alloc, handle, q, kind, slba, blocks, pieces, 0, answer)
}
