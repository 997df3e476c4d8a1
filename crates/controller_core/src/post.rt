//! A completion is posted.

ghost use Rattle.std.specs.Prelude.{◌≡◌, ◌<◌, ◌≤◌, ◌++◌, ◌∷◌, [], OnOk, OnErr, length};
ghost use Rattle.std.specs.Result.{result_err};
ghost use Rattle.entry_codec.specs.Completion.{IsComEntry};
ghost use Rattle.queue_pair.specs.Rings.{completion_posted};
ghost use Rattle.controller_core.specs.Posting.{post_refusal_at, post_refusal, completion_by, memory_posted, page_posted, Posts};

use crate::queue::ControllerQueue;
use crate::refusal::ControllerRefusal;
use entry_codec::{ComEntry, Hints, Status};
use page_memory::Dma;
use queue_pair::{DevicePair, PostFault};
use std::alloc::Allocator;

/// Posts the completion of a command of queue `q`, with the submission head of this moment. It hints at nothing.
///
/// # Errors
///
/// 1. `Full`: its ring is full. 2. `SlotOut`: a byte of its slot is missing. Then nothing changed.
pub(crate) fn post_completion<D: Dma>(
    pair: &mut DevicePair,
    q: u16,
    cid: u16,
    status: Status,
    dw0: u32,
    dma: &mut D,
) -> Result<(), ControllerRefusal>
    requires fits { status.sct < 8 }
    requires room { length (D.reached dma.old) ≤ 2 }
    ensures refusal { result_err result ≡ post_refusal (D.memory dma.old) pair.old }
    ensures pair { OnOk result (pair.new ≡ record pair.old { ring = completion_posted pair.old.entries pair.old.ring }) }
    ensures typed { OnOk result (IsComEntry (completion_by q cid status dw0 pair.old)) }
    ensures written { OnOk result (D.memory dma.new ≡ memory_posted (D.memory dma.old) pair.old (completion_by q cid status dw0 pair.old)) }
    ensures touched { OnOk result (D.reached dma.new ≡ D.reached dma.old ++ page_posted pair.old ∷ []) }
    ensures refused { OnErr result ((pair.new ≡ pair.old) × (D.memory dma.new ≡ D.memory dma.old) × (D.reached dma.new ≡ D.reached dma.old)) }
    ensures unlisted { D.unlisted dma.new ≡ D.unlisted dma.old }
    ensures pool { D.page_count dma.new ≡ D.page_count dma.old }
{
    let completion = ComEntry {
        dw0,
        sqhd: pair.head(),
        sqid: q,
        cid,
        phase: false,
        status,
        hints: Hints::NONE,
    };
    match pair.post(dma, completion) {
        Ok(()) => Ok(()),
        Err(PostFault::Full) => Err(ControllerRefusal::Full),
        Err(PostFault::SlotOut) => Err(ControllerRefusal::SlotOut),
    }
}

/// Posts the completion of a command of a queue. Where that is refused nothing changed.
pub(crate) fn post_at<A: Allocator, D: Dma>(
    queues: &mut Vec<ControllerQueue, A>,
    q: u16,
    cid: u16,
    status: Status,
    dw0: u32,
    dma: &mut D,
) -> Result<(), ControllerRefusal>
    requires there { q < length queues.old.items }
    requires fits { status.sct < 8 }
    requires room { length (D.reached dma.old) ≤ 2 }
    ensures refusal { result_err result ≡ post_refusal_at queues.old.items (D.memory dma.old) q }
    ensures posts { OnOk result (Posts queues.old.items q cid status dw0 (D.memory dma.old) (D.reached dma.old) queues.new.items (D.memory dma.new) (D.reached dma.new)) }
    ensures refused { OnErr result ((queues.new.items ≡ queues.old.items) × (D.memory dma.new ≡ D.memory dma.old) × (D.reached dma.new ≡ D.reached dma.old)) }
    ensures unlisted { D.unlisted dma.new ≡ D.unlisted dma.old }
    ensures pool { D.page_count dma.new ≡ D.page_count dma.old }
{
    post_completion(
        &mut queues[usize::from(q)].controller,
        q,
        cid,
        status,
        dw0,
        dma,
    )
}
