//! The commands of a round.

ghost use Rattle.std.specs.Prelude.{◌≡◌, ◌≤◌, ◌<◌, ◌+◌, ◌*◌, All, IfOk, IfSome, length, map, vec_len};
ghost use Rattle.load.specs.Planning.{IsInside, IsPlanOf, job_for, pieces_of, planned_at};
ghost use Rattle.load.specs.Rounds.{reads_from};

use crate::content::Content;
use crate::layout::Layout;
use crate::picks::Picks;
use crate::task::{Task, TaskJob};
use driver_threads::Job;
use io_commands::{BlockSize, Flags, Kind, Piece, Pieces, Request};
use std::alloc::{AllocError, Global};

/// A command of a round.
#[derive(Clone, Copy)]
pub(crate) struct Planned {
    /// The slot that it reads or writes.
    pub(crate) slot: usize,
    pub(crate) kind: Kind,
    /// How often the slot was written once it has ended.
    pub(crate) generation: u32,
}

/// A command for a slot.
#[tactic(auto, unfolding(crate::specs::Planning::generation_after))]
pub(crate) fn plan_one(generations: &[u32], slot: usize, kind: Kind) -> Planned
    requires { slot < length generations.now }
    ensures { result ≡ planned_at generations.now slot kind }
{
    let before = generations[slot];
    let generation = match kind {
        Kind::Write => before.saturating_add(1),
        _ => before,
    };
    Planned {
        slot,
        kind,
        generation,
    }
}

/// The next commands of a submitter, this many at most, each for a slot of its own.
pub(crate) fn plan_some(
    alloc: Global,
    layout: Layout,
    submitter: u16,
    picks: &mut Picks,
    generations: &[u32],
    most: usize,
) -> Result<Vec<Planned>, AllocError>
    requires submitter { submitter < layout.submitters }
    requires slots { length generations.now ≡ layout.submitters * layout.slots }
    ensures planned { IfOk result (λ plan. IsPlanOf layout generations.now submitter most plan.items) }
    ensures inside { IfOk result (λ plan. All (IsInside layout) plan.items) }
{
    let first = layout.first_slot(submitter);
    let picked = picks.slots(alloc, layout.slots, most)?;
    let mut plan = Vec::with_capacity(alloc, picked.len())?;
    for slot in &picked {
        let kind = picks.kind();
        plan.push(plan_one(generations, first + slot, kind))?;
    }
    Ok(plan)
}

/// Reads of those that were written, of this many slots starting at one.
pub(crate) fn reads_of(
    alloc: Global,
    layout: Layout,
    generations: &[u32],
    first: usize,
    many: usize,
) -> Result<Vec<Planned>, AllocError>
    requires slots { length generations.now ≡ layout.submitters * layout.slots }
    requires inside { first + many ≤ layout.submitters * layout.slots }
    ensures reads { IfOk result (λ plan. plan.items ≡ reads_from generations.now first many) }
    ensures inside { IfOk result (λ plan. All (IsInside layout) plan.items) }
{
    let mut plan = Vec::new(alloc);
    for slot in first..first + many {
        if generations[slot] > 0 {
            plan.push(plan_one(generations, slot, Kind::Read))?;
        }
    }
    Ok(plan)
}

/// The pieces of a command, whose pages are full but for the last.
fn pieces_of(alloc: Global, blocks: u32) -> Result<Pieces, AllocError>
    requires { blocks ≤ 256 }
    ensures { IfOk result (λ pieces. pieces ≡ pieces_of blocks) }
{
    let mut pieces = Pieces::new(alloc);
    let mut rest = blocks;
    while rest > 8 {
        pieces.push(Piece::Data {
            offset: 0,
            len: 4096,
        })?;
        rest -= 8;
    }
    pieces.push(Piece::Data {
        offset: 0,
        len: 512 * rest,
    })?;
    Ok(pieces)
}

/// The job of a command.
fn job_of<'a>(
    alloc: Global,
    layout: Layout,
    seed: u32,
    content: &'a Option<Content>,
    q: u16,
    planned: Planned,
) -> Result<TaskJob<'a>, AllocError>
    requires inside { IsInside layout planned }
    requires whole { IfSome content.now (λ c. vec_len c.first ≡ 512 * layout.blocks) }
    ensures { IfOk result (λ job. job ≡ job_for layout seed content.now q planned) }
{
    Ok(Job {
        q,
        request: Request {
            kind: planned.kind,
            nsid: 1,
            flags: Flags::NONE,
            block_size: BlockSize::Bytes512,
            slba: u64::from(layout.first_block(planned.slot)),
            blocks: layout.slot_blocks,
            pieces: pieces_of(alloc, layout.slot_blocks)?,
        },
        bytes: Task::new(layout, seed, content, planned),
    })
}

/// The jobs of a submitter's commands.
pub(crate) fn jobs_of<'a>(
    alloc: Global,
    layout: Layout,
    seed: u32,
    content: &'a Option<Content>,
    q: u16,
    plan: &[Planned],
) -> Result<Vec<TaskJob<'a>>, AllocError>
    requires inside { All (IsInside layout) plan.now }
    requires whole { IfSome content.now (λ c. vec_len c.first ≡ 512 * layout.blocks) }
    ensures { IfOk result (λ jobs. jobs.items ≡ map (job_for layout seed content.now q) plan.now) }
{
    let mut jobs = Vec::with_capacity(alloc, plan.len())?;
    for planned in plan {
        jobs.push(job_of(alloc, layout, seed, content, q, *planned)?)?;
    }
    Ok(jobs)
}
