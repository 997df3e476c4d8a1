//! Reads that are all outstanding at once.

ghost use Rattle.std.specs.Prelude.{◌≡◌, IfOk};

use crate::fault::TrialFault;
use crate::heap::Used;
use crate::stage::STAGES;
use io_commands::{BlockSize, Flags, Kind, Piece, Pieces, RequestOf};
use linked_list_allocator::LocalHeap;
use std::alloc::AllocError;
use step_core::{Reply, Step, StepIn};
use world_bench::Bench;

/// Reserves a Read of one block.
fn reserve<'a>(heap: &'a LocalHeap, block: u16) -> Result<StepIn<&'a LocalHeap>, AllocError> {
    let mut pieces = Pieces::new(heap);
    pieces.push(Piece::Data {
        offset: 0,
        len: 512,
    })?;
    Ok(Step::Reserve {
        q: 1,
        request: RequestOf {
            kind: Kind::Read,
            nsid: 1,
            flags: Flags::NONE,
            block_size: BlockSize::Bytes512,
            slba: u64::from(block),
            blocks: 1,
            pieces,
        },
    })
}

/// Does a step, and notes how much of the heap is used.
fn did<'a>(
    heap: &'a LocalHeap,
    bench: &mut Bench<&'a LocalHeap>,
    step: StepIn<&'a LocalHeap>,
    used: &mut Used,
) -> Result<(), TrialFault> {
    let reply = bench.step(step);
    used.note(heap.used());
    match reply {
        Reply::Refused { .. } | Reply::NoValue | Reply::NotFilled(_) => Err(TrialFault::Refused),
        Reply::Reserved { .. }
        | Reply::Accepted
        | Reply::Fetched { .. }
        | Reply::Walked { .. }
        | Reply::Completed { .. }
        | Reply::Reaps(_)
        | Reply::Collected { .. }
        | Reply::Gathered(_)
        | Reply::Sent { .. } => Ok(()),
    }
}

/// Carries so many Reads through, each stage for all of them before the next one.
///
/// # Errors
///
/// `Memory` where the heap is too small outside a step, and `Refused` where a step is refused.
pub fn carry<'a>(
    heap: &'a LocalHeap,
    bench: &mut Bench<&'a LocalHeap>,
    commands: u16,
    used: &mut Used,
) -> Result<(), TrialFault> {
    for block in 0..commands {
        did(heap, bench, reserve(heap, block)?, used)?;
    }
    for stage in STAGES {
        for cid in 0..commands {
            did(heap, bench, stage.step(cid), used)?;
        }
    }
    Ok(())
}
