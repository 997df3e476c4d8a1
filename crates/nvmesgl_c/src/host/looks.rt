//! What a handle shows of its host.

ghost use Rattle.std.specs.Prelude.{◌≡◌, slice_get};
ghost use Rattle.nvmesgl_c.specs.HostKept.{kept_in};
ghost use Rattle.nvmesgl_c.specs.HostLooks as looks;
ghost use Rattle.nvmesgl_c.specs.HostLooks.{FindsOwner, FindsQueue, TellsCounts, TellsOwner, TellsQueue};

use crate::host::code::NO_QUEUE;
use crate::host::handle::Handle;
use crate::words::code::{DONE, NO_PAGE};
use crate::words::{COwner, or_code, owner_of};
use host_bench::{HostBench, HostPositions, HostState, Owner, PageNo, QueueMemory, Run};
use std::alloc::Global;

/// How many pages a pool has and each class of them.
#[repr(C)]
#[derive(Clone, Copy)]
pub struct CPages {
    /// All pages.
    pub pages: u32,
    /// The pages that nobody owns.
    pub free_pages: u32,
    /// The pages of queues.
    pub queue_pages: u32,
    /// The pages that hold segments of commands' lists.
    pub chain_pages: u32,
    /// The pages that hold commands' data.
    pub data_pages: u32,
    /// Zeros.
    pub reserved: [u32; 4],
}

/// What a host knows of a queue, and where it stands in its rings.
#[repr(C)]
#[derive(Clone, Copy)]
pub struct CHostQueue {
    /// 0 live, 1 its submission queue is being deleted, 2 it is deleted, 3 it is retired, 4 it is gone, 5 its completion queue is being made, 6 it has that
    /// alone, 7 its submission queue is being made.
    pub state: u32,
    /// The slot that the next entry goes to.
    pub submission_tail: u16,
    /// The controller's submission head, as a completion told it last.
    pub submission_head: u16,
    /// The slot where the next completion is looked for.
    pub completion_head: u16,
    /// The phase tag that a new completion has there.
    pub phase: bool,
    /// The first page of its submission ring, and 0 where the host has none.
    pub submission_page: u32,
    /// The first page of its completion ring, and 0 where the host has none.
    pub completion_page: u32,
    /// How many pages its submission ring has.
    pub submission_pages: usize,
    /// How many pages its completion ring has.
    pub completion_pages: usize,
    /// Zeros.
    pub reserved: [u32; 4],
}

/// The number of a queue's state.
fn number_of(state: HostState) -> u32
    ensures { result ≡ looks.number_of state }
{
    match state {
        HostState::Live => 0,
        HostState::Deleting { noted: false } => 1,
        HostState::Deleting { noted: true } => 2,
        HostState::Retired => 3,
        HostState::Gone => 4,
        HostState::MakingCq => 5,
        HostState::HalfMade => 6,
        HostState::MakingSq => 7,
    }
}

/// The first page of a ring, and how many there are.
fn ring_of(ring: Option<Run>) -> (u32, usize)
    ensures { result ≡ looks.ring_of ring }
{
    match ring {
        Some(run) => (run.first.0, run.count),
        None => (0, 0),
    }
}

/// A queue, as C sees it.
fn queue_of(state: HostState, at: HostPositions, memory: QueueMemory) -> CHostQueue
    ensures { result ≡ looks.queue_of state at memory }
{
    let (submission_page, submission_pages) = ring_of(memory.submission);
    let (completion_page, completion_pages) = ring_of(memory.completion);
    CHostQueue {
        state: number_of(state),
        submission_tail: at.submission_tail,
        submission_head: at.submission_head,
        completion_head: at.completion_head,
        phase: at.phase,
        submission_page,
        completion_page,
        submission_pages,
        completion_pages,
        reserved: [0; 4],
    }
}

/// A queue of a host, if there is one of this number.
fn find_queue(bench: &HostBench, q: u16) -> Option<CHostQueue>
    ensures { FindsQueue bench.now q result }
{
    let state = bench.queue_state(q)?;
    let at = bench.positions(q)?;
    match bench.queue_memory(q) {
        Some(memory) => Some(queue_of(state, at, memory)),
        None => None,
    }
}

/// The owner of a page of a host; none where the pool has no such page.
fn find_owner(bench: &HostBench, page: u32) -> Option<Owner>
    ensures { FindsOwner bench.now page result }
{
    if page < bench.pages() {
        Some(bench.owner(PageNo(page)))
    } else {
        None
    }
}

/// What a host counts.
fn pages_of(bench: &HostBench) -> CPages
    ensures { result ≡ looks.pages_of bench.now }
{
    let counts = bench.counts();
    CPages {
        pages: bench.pages(),
        free_pages: counts.free_pages,
        queue_pages: counts.queue_pages,
        chain_pages: counts.chain_pages,
        data_pages: counts.data_pages,
        reserved: [0; 4],
    }
}

/// Tells how many pages the pool has and each class of them.
#[unsafe(no_mangle)]
pub extern "C" fn nvmehost_counts(alloc: Global, handle: &mut Handle, pages: &mut CPages) -> u32
    ensures { TellsCounts (kept_in handle.old) result pages.old pages.new (kept_in handle.new) }
{
    let kept = or_code!(handle.take(alloc));
    *pages = pages_of(&kept.bench);
    handle.put(kept);
    DONE
}

/// Tells who owns a page.
#[unsafe(no_mangle)]
pub extern "C" fn nvmehost_owner(
    alloc: Global,
    handle: &mut Handle,
    page: u32,
    owner: &mut COwner,
) -> u32
    ensures { TellsOwner (kept_in handle.old) page result owner.old owner.new (kept_in handle.new) }
{
    let kept = or_code!(handle.take(alloc));
    let found = find_owner(&kept.bench, page);
    handle.put(kept);
    let Some(found) = found else {
        return NO_PAGE;
    };
    *owner = owner_of(found);
    DONE
}

/// Tells what the host knows of a queue, and where it stands in its rings.
#[unsafe(no_mangle)]
pub extern "C" fn nvmehost_look(
    alloc: Global,
    handle: &mut Handle,
    q: u16,
    queue: &mut CHostQueue,
) -> u32
    ensures { TellsQueue (kept_in handle.old) q result queue.old queue.new (kept_in handle.new) }
{
    let kept = or_code!(handle.take(alloc));
    let found = find_queue(&kept.bench, q);
    handle.put(kept);
    let Some(found) = found else {
        return NO_QUEUE;
    };
    *queue = found;
    DONE
}
