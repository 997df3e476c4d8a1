//! Steps and replies whose values lie in another heap.

ghost use Rattle.std.specs.Prelude.{◌≡◌, IfOk};

use std::alloc::{AllocError, Allocator};
use step_core::{Bytes, Reply, ReplyIn, Step, StepIn};

/// A copy of the bytes, in a heap.
fn bytes_in<A: Allocator, B: Allocator>(heap: A, bytes: &Bytes<B>) -> Result<Bytes<A>, AllocError>
    ensures { IfOk result (λ made. made ≡ bytes.now) }
{
    Ok(Bytes::from_vec(Vec::from_slice(heap, bytes.as_slice())?))
}

/// A copy of the step, in a heap.
///
/// # Errors
///
/// Where memory is refused.
pub fn step_in<A: Allocator + Copy>(heap: A, step: &Step) -> Result<StepIn<A>, AllocError>
    ensures { IfOk result (λ made. made ≡ step.now) }
{
    Ok(match step {
        Step::Reserve { q, request } => Step::Reserve {
            q: *q,
            request: request.copied(heap)?,
        },
        Step::Fill { q, cid, bytes } => Step::Fill {
            q: *q,
            cid: *cid,
            bytes: bytes_in(heap, bytes)?,
        },
        Step::Forge { q, slot, bytes } => Step::Forge {
            q: *q,
            slot: *slot,
            bytes: *bytes,
        },
        Step::Build { q, cid } => Step::Build { q: *q, cid: *cid },
        Step::Submit { q, cid } => Step::Submit { q: *q, cid: *cid },
        Step::Cancel { q, cid } => Step::Cancel { q: *q, cid: *cid },
        Step::Collect { q, cid } => Step::Collect { q: *q, cid: *cid },
        Step::Gather { q, cid } => Step::Gather { q: *q, cid: *cid },
        Step::Release { q, cid } => Step::Release { q: *q, cid: *cid },
        Step::Walk { q, cid } => Step::Walk { q: *q, cid: *cid },
        Step::Complete { q, cid } => Step::Complete { q: *q, cid: *cid },
        Step::Abort { q, cid } => Step::Abort { q: *q, cid: *cid },
        Step::Ring { q } => Step::Ring { q: *q },
        Step::Fetch { q } => Step::Fetch { q: *q },
        Step::Reap { q } => Step::Reap { q: *q },
        Step::DeleteSq { q } => Step::DeleteSq { q: *q },
        Step::DeleteCq { q } => Step::DeleteCq { q: *q },
        Step::CreateCq { q, vector } => Step::CreateCq {
            q: *q,
            vector: *vector,
        },
        Step::CreateSq { q } => Step::CreateSq { q: *q },
        Step::Retire { q } => Step::Retire { q: *q },
        Step::Reset => Step::Reset,
    })
}

/// A copy of the reply, in a heap.
///
/// # Errors
///
/// Where memory is refused.
pub fn reply_in<A: Allocator, B: Allocator>(
    heap: A,
    reply: ReplyIn<B>,
) -> Result<ReplyIn<A>, AllocError>
    ensures { IfOk result (λ made. made ≡ reply) }
{
    Ok(match reply {
        Reply::Gathered(bytes) => Reply::Gathered(bytes_in(heap, &bytes)?),
        Reply::Reserved {
            q,
            cid,
            data,
            chain,
        } => Reply::Reserved {
            q,
            cid,
            data,
            chain,
        },
        Reply::Accepted => Reply::Accepted,
        Reply::Fetched { cid, touched } => Reply::Fetched { cid, touched },
        Reply::Walked { state, touched } => Reply::Walked { state, touched },
        Reply::Completed { touched } => Reply::Completed { touched },
        Reply::Reaps(what) => Reply::Reaps(what),
        Reply::Collected { status, hints } => Reply::Collected { status, hints },
        Reply::Sent { cid } => Reply::Sent { cid },
        Reply::NoValue => Reply::NoValue,
        Reply::NotFilled(why) => Reply::NotFilled(why),
        Reply::Refused { why, touched } => Reply::Refused { why, touched },
    })
}
