//! What calls of a book answer, as replies of a bench.

use crate::desk::values::Value;
use std::alloc::{AllocError, Allocator};
use step_core::{Refusal, Reply, ReplyIn, Touched};

/// A reply, or want of memory for the list of the commands that the desk keeps.
pub type DeskAnswer<A> = Result<ReplyIn<A>, AllocError>;

/// What a refused call of the host answers.
pub fn refused<A: Allocator>(why: Refusal) -> ReplyIn<A> {
    Reply::Refused {
        why,
        touched: Touched::none(),
    }
}

/// What a call answers that says no more than that it was done.
pub fn done<A: Allocator>(answer: Result<(), Refusal>) -> ReplyIn<A> {
    match answer {
        Ok(()) => Reply::Accepted,
        Err(why) => refused(why),
    }
}

/// What a call answers that sends an admin command.
pub fn sent<A: Allocator>(answer: Result<u16, Refusal>) -> ReplyIn<A> {
    match answer {
        Ok(cid) => Reply::Sent { cid },
        Err(why) => refused(why),
    }
}

/// What a call answers, once the command that comes of it, or comes back from it, is put after the others.
///
/// # Errors
///
/// Where memory is refused for the list of the commands.
pub fn kept<A: Allocator>(
    values: &mut Vec<Value<A>>,
    value: Value<A>,
    reply: ReplyIn<A>,
) -> DeskAnswer<A> {
    values.push(value)?;
    Ok(reply)
}
