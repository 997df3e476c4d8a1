//! The steps that commands make by themselves, without a book.

use crate::desk::answers::{DeskAnswer, kept, refused};
use crate::desk::values::{Value, draft_of, finished_of};
use std::alloc::{AllocError, Allocator};
use step_core::{Bytes, Refusal, Reply};

/// Fills a draft with the bytes, and with zeros after them.
///
/// # Errors
///
/// Where memory is refused for the list of the commands.
pub fn fill<A: Allocator>(
    values: &mut Vec<Value<A>>,
    q: u16,
    cid: u16,
    bytes: &[u8],
) -> DeskAnswer<A> {
    let Some(mut draft) = draft_of(values, q, cid) else {
        return Ok(Reply::NoValue);
    };
    let reply = match draft.fill_padded(bytes) {
        Ok(()) => Reply::Accepted,
        Err(fault) => Reply::NotFilled(fault),
    };
    kept(values, Value::Draft(draft), reply)
}

/// Builds a draft.
///
/// # Errors
///
/// Where memory is refused for the list of the commands.
pub fn build<A: Allocator + Copy>(
    heap: A,
    values: &mut Vec<Value<A>>,
    q: u16,
    cid: u16,
) -> DeskAnswer<A> {
    let Some(mut draft) = draft_of(values, q, cid) else {
        return Ok(Reply::NoValue);
    };
    let reply = match draft.build(heap) {
        Ok(()) => Reply::Accepted,
        Err(AllocError) => refused(Refusal::Memory),
    };
    kept(values, Value::Draft(draft), reply)
}

/// Gathers the bytes of a finished command.
///
/// # Errors
///
/// Where memory is refused for the list of the commands.
pub fn gather<A: Allocator + Copy>(
    heap: A,
    values: &mut Vec<Value<A>>,
    q: u16,
    cid: u16,
) -> DeskAnswer<A> {
    let Some(finished) = finished_of(values, q, cid) else {
        return Ok(Reply::NoValue);
    };
    let reply = match finished.gather(heap) {
        Ok(bytes) => Reply::Gathered(Bytes::from_vec(bytes)),
        Err(AllocError) => refused(Refusal::Memory),
    };
    kept(values, Value::Finished(finished), reply)
}
