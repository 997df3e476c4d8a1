//! What submitters are told to do, and how their jobs and a whole run end.

ghost use Rattle.std.specs.Prelude.{◌≡◌, ◌≤◌, [], map, vec_len, OnOk};
ghost use Rattle.driver_threads.specs.Behind.{added, behind};

use driver_book::{Book, CloseFault, Log, LogBrand, ReportIn};
use entry_codec::Status;
use io_commands::{Request, RequestFault};
use std::alloc::{AllocError, Allocator, Global};
use std::marker::Model;
use step_core::{Bytes, OpenRefusal, World};
use thiserror::Error;

/// A command that a submitter carries through.
#[derive(Debug, Drop)]
pub struct Job<R = Request, B = Bytes> {
    /// Its queue.
    pub q: u16,
    /// What is asked for.
    pub request: R,
    /// The data of a Write, a Compare or a Deallocate, or what makes them ([`Data`](crate::Data)); where they are shorter than the data pieces, zeros
    /// follow them. A Read has none, and what is here for one is not written.
    pub bytes: B,
}

/// A job whose request and bytes are in the memory of one allocator.
pub type JobIn<A> = Job<Request<A>, Bytes<A>>;

/// How a job ended.
#[derive(Debug, Drop)]
pub enum JobEnd<B = Bytes> {
    /// Its command was carried through.
    Done {
        /// How the command ended.
        status: Status,
        /// What it gathered: a Read's data pieces joined in order, and nothing for another kind. Where the job's data keep something else
        /// ([`Data`](crate::Data)), that.
        bytes: B,
    },
    /// It was refused, and left nothing.
    Refused(JobRefusal),
}

/// The end of a job whose bytes are in the memory of one allocator.
pub type JobEndIn<A> = JobEnd<Bytes<A>>;

/// Why a job was refused.
#[derive(Clone, Copy, Debug, PartialEq, Eq, Error)]
pub enum JobRefusal {
    /// There is no such I/O queue, or it is neither live nor being deleted.
    #[error("there is no such queue")]
    NoQueue,
    /// The queue takes no more commands: it is being deleted, or, since the job's draft was reserved, it was deleted or reset, or its ring is
    /// full.
    #[error("the queue takes no more commands")]
    QueueGone,
    /// The request has a fault.
    #[error("the request has a fault: {0}")]
    Bad(RequestFault),
    /// The controller has blocks of another size than the request.
    #[error("the controller has blocks of another size")]
    OtherBlocks,
    /// It needs more pages than the queues leave of the pool.
    #[error("{need} pages are needed, and the queues leave only {pool} of the pool")]
    NoPages {
        /// How many pages it needs.
        need: u32,
        /// How many pages no queue owns.
        pool: u32,
    },
    /// There are more bytes than its data pieces take.
    #[error("there are more bytes than the data pieces take")]
    WrongLength,
}

/// Adds ends of a submitter after those that it has, or as those of the next submitter.
fn add_ends<A: Allocator, K: Drop>(
    lists: &mut Vec<Vec<JobEnd<K>, A>, A>,
    submitter: usize,
    later: Vec<JobEnd<K>, A>,
) -> Result<(), AllocError>
    requires { submitter ≤ vec_len lists.old }
    ensures { OnOk result (map (λ list. list.items) lists.new.items ≡ added (map (λ list. list.items) lists.old.items) submitter later.items) }
{
    let mut later = later;
    if submitter < lists.len() {
        lists[submitter].append(&mut later)?;
    } else {
        lists.push(later)?;
    }
    Ok(())
}

/// Adds ends of submitters: each submitter's after those that it has.
fn add_all<A: Allocator, K: Drop>(
    lists: &mut Vec<Vec<JobEnd<K>, A>, A>,
    later: Vec<Vec<JobEnd<K>, A>, A>,
) -> Result<(), AllocError>
    ensures { OnOk result (map (λ list. list.items) lists.new.items ≡ behind (map (λ list. list.items) lists.old.items) (map (λ list. list.items) later.items)) }
{
    let mut submitter = 0;
    for list in later {
        add_ends(lists, submitter, list)?;
        submitter += 1;
    }
    Ok(())
}

/// How the jobs of submitters ended, one list for each submitter. Contracts see these lists.
#[derive(Debug, Drop)]
pub struct JobEnds<A: Allocator = Global, K = Bytes<A>> {
    lists: Vec<Vec<JobEnd<K>, A>, A>,
}

impl<A: Allocator, K> Model for JobEnds<A, K> {
    ghost use Rattle.std.specs.Prelude.{List, map};
    ghost use Rattle.driver_threads.specs.Values.{EndOf};

    ghost Value = { List (List (EndOf K)) };

    ghost view = { λ e. map (λ list. list.items) e.lists.items };
}

impl<A: Allocator, K: Drop> JobEnds<A, K> {
    /// These lists.
    pub(crate) fn of(lists: Vec<Vec<JobEnd<K>, A>, A>) -> Self
        ensures { result ≡ map (λ list. list.items) lists.items }
    {
        JobEnds { lists }
    }

    /// The ends of no submitter. It takes no memory.
    pub fn none(alloc: A) -> Self
        ensures { result ≡ [] }
    {
        JobEnds {
            lists: Vec::new(alloc),
        }
    }

    /// Adds how later jobs of the same submitters ended: each submitter's ends after those that it has.
    ///
    /// # Errors
    ///
    /// Where memory is refused. Some of them may then be there.
    pub fn append(&mut self, later: JobEnds<A, K>) -> Result<(), AllocError>
        ensures { OnOk result (self.new ≡ behind self.old later) }
    {
        add_all(&mut self.lists, later.lists)
    }

    /// The lists, one for each submitter, in their order.
    pub fn as_slice(&self) -> &[Vec<JobEnd<K>, A>]
        ensures { map (λ list. list.items) result.now ≡ self.now }
    {
        &self.lists
    }
}

/// What a run of threads leaves.
#[derive(Drop)]
pub struct Ran<L: LogBrand, A: Allocator = Global, K = Bytes<A>> {
    /// What the book said as it was closed.
    pub report: ReportIn<A>,
    /// How the jobs ended.
    pub jobs: JobEnds<A, K>,
    /// The book.
    pub book: Book<L, A>,
}

/// What a round of jobs over an existing world leaves.
#[derive(Drop)]
pub struct Round<A: Allocator = Global, K = Bytes<A>> {
    /// The log of its book.
    pub log: Log<A>,
    /// What the book said as it was closed.
    pub report: ReportIn<A>,
    /// The world to which the log leads.
    pub world: World<A>,
    /// How the jobs ended.
    pub jobs: JobEnds<A, K>,
}

/// Why a run of threads failed.
#[derive(Clone, Copy, Debug, PartialEq, Eq, Error)]
pub enum RunFault {
    /// No world was opened.
    #[error("no world was opened")]
    Open(OpenRefusal),
    /// A thread could not be made.
    #[error("a thread could not be made")]
    NoThread,
    /// A gate was closed to a worker.
    #[error("the gate was closed to worker {worker}")]
    GateClosed {
        /// The worker.
        worker: u16,
    },
    /// The book was not closed.
    #[error("the book was not closed: {0}")]
    Close(CloseFault),
    /// Memory was refused.
    #[error("memory was refused")]
    Memory,
}
