//! The calls that are lent a pool.

ghost use Rattle.std.specs.Prelude.{◌≡◌, ◌<◌, ◌≤◌, ◌↔◌, false, IfOk, IfErr, IsTrue, OnOk, OnErr, Ok, length};
ghost use Rattle.nvmesgl_c.specs.ControllerKept.{kept_in, lends_in, own_in};
ghost use Rattle.nvmesgl_c.specs.ControllerCalls.{FetchesBy, WalksBy, CompletesBy, Lent, LendsNone};

use crate::controller::any_controller::AnyController;
use crate::controller::code::POOL_TOO_LONG;
use crate::controller::handle::Handle;
use crate::controller::over::{complete, fetch, walk};
use crate::words::{Answer, LentMemory, MOST_BYTES, nothing, or_code};
use arrayvec::ArrayVec;
use std::alloc::Global;

/// Whether a pool has more bytes than can be lent.
fn is_too_long(len: usize) -> bool
    ensures { IsTrue result ↔ (268435456 < len) }
{
    len > MOST_BYTES
}

/// The controller that is kept, of whichever kind, taken out for a call that is lent this many bytes.
///
/// # Errors
///
/// The code, where none is kept or the bytes are too many. Then nothing is taken out.
pub(crate) fn take_for(
    alloc: Global,
    handle: &mut Handle,
    len: usize,
) -> Result<Box<AnyController, Global>, u32>
    ensures taken { IfOk result (λ controller. kept_in handle.old ≡ Ok controller.value.contents) }
    ensures kind { IfOk result (λ controller. lends_in handle.old ≡ controller.value.lends) }
    ensures fits { OnOk result (len ≤ 268435456) }
    ensures refused { IfErr result (λ code. LendsNone (kept_in handle.old) len code (kept_in handle.new)) }
    ensures as_it_was { OnErr result (lends_in handle.new ≡ lends_in handle.old) }
{
    let controller = handle.take(alloc)?;
    if is_too_long(len) {
        handle.put(controller);
        return Err(POOL_TOO_LONG);
    }
    Ok(controller)
}

/// The controller that is kept and holds an image, taken out for a call that is lent this many bytes.
///
/// # Errors
///
/// The code, where none is kept or the bytes are too many. Then nothing is taken out.
fn take_own_for(
    alloc: Global,
    handle: &mut Handle,
    len: usize,
) -> Result<Box<AnyController, Global>, u32>
    ensures taken { IfOk result (λ controller. own_in handle.old ≡ Ok controller.value.contents) }
    ensures kind { IfOk result (λ controller. controller.value.lends ≡ false) }
    ensures fits { OnOk result (len ≤ 268435456) }
    ensures refused { IfErr result (λ code. LendsNone (own_in handle.old) len code (own_in handle.new)) }
{
    let controller = handle.take_own(alloc)?;
    if is_too_long(len) {
        handle.put(controller);
        return Err(POOL_TOO_LONG);
    }
    Ok(controller)
}

/// The controller fetches an entry. Its identifier is told.
#[unsafe(no_mangle)]
pub extern "C" fn nvmectl_fetch(
    alloc: Global,
    handle: &mut Handle,
    q: u16,
    pool: &mut [u8],
    answer: &mut Answer,
) -> u32
    ensures { Lent (FetchesBy q) (own_in handle.old) pool.old result answer.new (own_in handle.new) pool.new }
{
    *answer = nothing();
    let mut controller = or_code!(take_own_for(alloc, handle, pool.len()));
    let mut memory = LentMemory {
        bytes: pool,
        touched: ArrayVec::new(),
    };
    let code = fetch(&mut controller, q, &mut memory, answer);
    handle.put(controller);
    code
}

/// The controller does a unit of a command's list. How the list stands is told.
#[unsafe(no_mangle)]
pub extern "C" fn nvmectl_walk(
    alloc: Global,
    handle: &mut Handle,
    q: u16,
    cid: u16,
    pool: &mut [u8],
    answer: &mut Answer,
) -> u32
    ensures calls { Lent (WalksBy q cid) (kept_in handle.old) pool.old result answer.new (kept_in handle.new) pool.new }
    ensures kind { lends_in handle.new ≡ lends_in handle.old }
{
    *answer = nothing();
    let mut controller = or_code!(take_for(alloc, handle, pool.len()));
    let mut memory = LentMemory {
        bytes: pool,
        touched: ArrayVec::new(),
    };
    let code = walk(&mut controller, q, cid, &mut memory, answer);
    handle.put(controller);
    code
}

/// The controller completes a command.
#[unsafe(no_mangle)]
pub extern "C" fn nvmectl_complete(
    alloc: Global,
    handle: &mut Handle,
    q: u16,
    cid: u16,
    pool: &mut [u8],
    answer: &mut Answer,
) -> u32
    ensures { Lent (CompletesBy q cid) (own_in handle.old) pool.old result answer.new (own_in handle.new) pool.new }
{
    *answer = nothing();
    let mut controller = or_code!(take_own_for(alloc, handle, pool.len()));
    let mut memory = LentMemory {
        bytes: pool,
        touched: ArrayVec::new(),
    };
    let code = complete(&mut controller, q, cid, &mut memory, answer);
    handle.put(controller);
    code
}
