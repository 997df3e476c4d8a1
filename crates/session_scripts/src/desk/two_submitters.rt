//! Two submitters that write and read: their jobs, and what these must leave, whatever the schedule.

ghost use Rattle.std.specs.Prelude.{◌≡◌, vec_len, IfOk};

use crate::desk::runs::{RunEnd, is_done, job};
use driver_threads::{JobEndIn, JobIn};
use entry_codec::Status;
use io_commands::Kind;
use page_ledger::{Counts, Owner};
use page_memory::Half;
use std::alloc::{AllocError, Allocator};

/// The jobs of a submitter: what each does, and which of its three blocks it is of.
const JOBS: [(Kind, u8); 6] = [
    (Kind::Write, 0),
    (Kind::Write, 1),
    (Kind::Write, 2),
    (Kind::Read, 0),
    (Kind::Read, 1),
    (Kind::Read, 2),
];

/// Three Writes of a block starting at `first`, of this byte and the two that follow it, and the Reads of these blocks.
pub fn writes_and_reads<A: Allocator + Copy>(
    alloc: A,
    q: u16,
    first: u64,
    byte: u8,
) -> Result<Vec<JobIn<A>, A>, AllocError> {
    let mut jobs = Vec::new(alloc);
    for (kind, place) in JOBS {
        let slba = first.wrapping_add(u64::from(place));
        let bytes = [byte.wrapping_add(place)];
        let bytes: &[u8] = if kind == Kind::Write { &bytes } else { &[] };
        jobs.push(job(alloc, q, kind, slba, 1, bytes)?)?;
    }
    Ok(jobs)
}

/// Two submitters' jobs on one queue: that queue, the first block, and the byte with which that begins.
pub const ON_ONE_QUEUE: [(u16, u64, u8); 2] = [(1, 0, 0xA0), (1, 8, 0xB0)];

/// The jobs of two submitters: on which queue, starting at which block, and of which bytes.
pub fn two_lists<A: Allocator + Copy>(
    alloc: A,
    asked: [(u16, u64, u8); 2],
) -> Result<Vec<Vec<JobIn<A>, A>, A>, AllocError>
    ensures { IfOk result (λ lists. vec_len lists ≡ 2) }
{
    let [first, second] = asked;
    let mut lists = Vec::new(alloc);
    lists.push(writes_and_reads(alloc, first.0, first.1, first.2)?)?;
    lists.push(writes_and_reads(alloc, second.0, second.1, second.2)?)?;
    Ok(lists)
}

/// Whether these are the ends of three such Writes and Reads.
fn are_written_and_read<A: Allocator>(ends: &[JobEndIn<A>], byte: u8) -> bool {
    let mut ended = 0;
    for end in ends {
        let mut block = [0; 512];
        block[0] = byte.wrapping_add(ended % 3);
        let bytes: &[u8] = if ended < 3 { &[] } else { &block };
        if !is_done(end, Status::SUCCESS, bytes) {
            return false;
        }
        ended = ended.saturating_add(1u8);
    }
    ended == 6
}

/// Who has each page: the first four are those of the queues.
const OWNERS: [Owner; 16] = [
    Owner::Queue {
        q: 0,
        half: Half::Submission,
    },
    Owner::Queue {
        q: 0,
        half: Half::Completion,
    },
    Owner::Queue {
        q: 1,
        half: Half::Submission,
    },
    Owner::Queue {
        q: 1,
        half: Half::Completion,
    },
    Owner::Free,
    Owner::Free,
    Owner::Free,
    Owner::Free,
    Owner::Free,
    Owner::Free,
    Owner::Free,
    Owner::Free,
    Owner::Free,
    Owner::Free,
    Owner::Free,
    Owner::Free,
];

/// Pages of the queues alone.
const COUNTS: Counts = Counts {
    free_pages: 12,
    queue_pages: 4,
    chain_pages: 0,
    data_pages: 0,
};

/// Whether two submitters on one queue left what they must. Their jobs came to their ends, and nothing was refused: the log has ten entries for each,
/// one reserve, submit, ring, fetch, complete, reap, collect and release, and two steps of its walk. No command has a page, and the report counts twelve
/// submissions, six for each of two seats.
pub fn is_as_wanted<A: Allocator>(outcome: &RunEnd<A>) -> bool {
    let [first, second] = outcome.jobs.as_slice() else {
        return false;
    };
    let report = &outcome.report;
    for receipts in report.receipts.as_slice() {
        if receipts.len() != 6 {
            return false;
        }
    }
    are_written_and_read(first, 0xA0)
        && are_written_and_read(second, 0xB0)
        && outcome.refusals == 0
        && outcome.entries == 12 * 10
        && outcome.owners.as_slice() == OWNERS.as_slice()
        && report.counts == COUNTS
        && report.submissions == 12
}
