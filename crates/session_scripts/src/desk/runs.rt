//! Runs of threads, and what they leave.

ghost use Rattle.std.specs.Prelude.{◌≡◌, ◌≤◌, vec_len};
ghost use Rattle.step_core.specs.Opening.{opening_of};

use block_image::Image;
use driver_book::{BlankBook, Book, LogBrand, ReportIn};
use driver_threads::{
    Gate, Job, JobEnd, JobEndIn, JobEnds, JobIn, Ran, RunFault, Server, run_threads,
};
use entry_codec::Status;
use io_commands::{BlockSize, Flags, Kind, Piece, Pieces, Request};
use page_ledger::Owner;
use page_memory::PageNo;
use std::alloc::{AllocError, Allocator, Global};
use std::marker::Brand;
use std::sync::Wait;
use std::thread::Threads;
use step_core::{Bytes, Config, Reply};

/// What a run leaves.
#[derive(Drop)]
pub struct RunEnd<A: Allocator = Global> {
    /// The report of its book.
    pub report: ReportIn<A>,
    /// How its jobs ended.
    pub jobs: JobEnds<A>,
    /// The owner of each page.
    pub owners: Vec<Owner, A>,
    /// How many entries the log has.
    pub entries: usize,
    /// How many of them are refusals.
    pub refusals: usize,
}

/// Records the owner of each page of a book, and answers how many entries of its log are refusals.
fn look_at<L: LogBrand, A: Allocator + Copy>(
    book: &Book<L, A>,
    owners: &mut Vec<Owner, A>,
) -> Result<usize, AllocError> {
    for p in 0..book.pages() {
        owners.push(book.owner(PageNo(p)))?;
    }
    let log = book.log();
    let mut refusals = 0usize;
    for index in 0..log.len() {
        if let Some(entry) = log.get(index) {
            if matches!(entry.answer, Reply::Refused { .. }) {
                refusals = refusals.saturating_add(1);
            }
        }
    }
    Ok(refusals)
}

/// Runs jobs over a new book.
fn outcome_of<
    L: LogBrand + Send + Sync,
    A: Allocator + Copy + Send + Sync,
    G: Gate + Sync,
    R: Threads + Wait + Sync,
>(
    rt: &R,
    alloc: A,
    config: Config,
    image: Image<A>,
    jobs: Vec<Vec<JobIn<A>, A>, A>,
    depth: usize,
    server: Server,
    gate: &G,
    blank: BlankBook<A>,
) -> Result<RunEnd<A>, RunFault>
    requires name { blank.ledger.name ≡ L.name }
    requires parts { blank.ledger.parts ≡ L.parts }
    requires number { blank.ledger.parts ≡ 65536 }
    requires list { blank.drafts.name ≡ L.list }
    requires opening { L.opening ≡ opening_of config image }
    requires some { 1 ≤ vec_len jobs }
    requires few { vec_len jobs ≤ 16 }
    requires at_least_one { 1 ≤ depth }
    requires at_most { depth ≤ 256 }
{
    let ran: Ran<L, A> = run_threads(rt, alloc, config, image, jobs, depth, server, gate, blank)?;
    let Ran { report, jobs, book } = ran;
    let mut owners = Vec::new(alloc);
    let refusals = look_at(&book, &mut owners);
    let entries = book.log().len();
    book.end();
    match refusals {
        Ok(refusals) => Ok(RunEnd {
            report,
            jobs,
            owners,
            entries,
            refusals,
        }),
        Err(AllocError) => Err(RunFault::Memory),
    }
}

/// Runs jobs over a new book, whose image has this many zero blocks, each submitter with at most this many in flight, where this one serves.
pub fn play_at<A: Allocator + Copy + Send + Sync, G: Gate + Sync, R: Threads + Wait + Sync>(
    rt: &R,
    alloc: A,
    config: Config,
    blocks: u32,
    jobs: Vec<Vec<JobIn<A>, A>, A>,
    depth: usize,
    server: Server,
    gate: &G,
) -> Result<RunEnd<A>, RunFault>
    requires some { 1 ≤ vec_len jobs }
    requires few { vec_len jobs ≤ 16 }
    requires at_least_one { 1 ≤ depth }
    requires at_most { depth ≤ 256 }
{
    let Ok(image) = Image::zeroed(alloc, blocks) else {
        return Err(RunFault::Memory);
    };
    outcome_of::<Brand, A, G, R>(
        rt,
        alloc,
        config,
        image,
        jobs,
        depth,
        server,
        gate,
        BlankBook::new(),
    )
}

/// Runs jobs one after the other for each submitter, over a new book, whose image has this many zero blocks. Whoever rings serves.
pub fn play<A: Allocator + Copy + Send + Sync, G: Gate + Sync, R: Threads + Wait + Sync>(
    rt: &R,
    alloc: A,
    config: Config,
    blocks: u32,
    jobs: Vec<Vec<JobIn<A>, A>, A>,
    gate: &G,
) -> Result<RunEnd<A>, RunFault>
    requires some { 1 ≤ vec_len jobs }
    requires few { vec_len jobs ≤ 16 }
{
    play_at(rt, alloc, config, blocks, jobs, 1, Server::Ringer, gate)
}

/// A job of this many blocks, each in a piece of its own.
pub fn job<A: Allocator + Copy>(
    alloc: A,
    q: u16,
    kind: Kind,
    slba: u64,
    blocks: u32,
    bytes: &[u8],
) -> Result<JobIn<A>, AllocError> {
    let mut pieces = Pieces::new(alloc);
    for _ in 0..blocks {
        pieces.push(Piece::Data {
            offset: 0,
            len: 512,
        })?;
    }
    Ok(Job {
        q,
        request: Request {
            kind,
            nsid: 1,
            flags: Flags::NONE,
            block_size: BlockSize::Bytes512,
            slba,
            blocks,
            pieces,
        },
        bytes: Bytes::from_vec(Vec::from_slice(alloc, bytes)?),
    })
}

/// Whether a job was carried through, with this status and these bytes.
pub fn is_done<A: Allocator>(end: &JobEndIn<A>, status: Status, bytes: &[u8]) -> bool {
    match end {
        JobEnd::Done {
            status: told,
            bytes: gathered,
        } => *told == status && gathered.as_slice() == bytes,
        JobEnd::Refused(_) => false,
    }
}
