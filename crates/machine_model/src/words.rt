//! The words of the machine: states of queues and commands, what a command is for, refusals, and what a reap finds.
//!
//! The definitions speak of these types, and so does the code that runs the machine.

use admin_commands::AdminKind;
use entry_codec::Status;
use io_commands::{Request, RequestFault};

/// How far a command has come at the host.
#[derive(Clone, Copy, Debug, PartialEq, Eq)]
pub enum Phase {
    /// Reserved: its pages are in its draft.
    Drafted,
    /// Its entry is in the submission queue, or past it.
    Submitted,
    /// Its status is known.
    Held,
    /// Its pages are in its finished command.
    Collected,
}

/// What the host knows of a queue.
#[derive(Clone, Copy, Debug, PartialEq, Eq)]
pub enum HostState {
    /// In use.
    Live,
    /// The deletion of its submission queue was sent.
    Deleting {
        /// Whether a successful one was reaped since.
        noted: bool,
    },
    /// Its submission half is given back.
    Retired,
    /// Both halves are given back.
    Gone,
    /// The creation of its completion queue was sent.
    MakingCq,
    /// It has a completion queue, and no submission queue yet.
    HalfMade,
    /// The creation of its submission queue was sent.
    MakingSq,
}

impl HostState {
    /// A word or two for people.
    pub fn name(self) -> &'static str {
        match self {
            HostState::Live => "live",
            HostState::Deleting { noted: false } => "deleting",
            HostState::Deleting { noted: true } => "deleted",
            HostState::Retired => "retired",
            HostState::Gone => "gone",
            HostState::MakingCq => "making cq",
            HostState::HalfMade => "half made",
            HostState::MakingSq => "making sq",
        }
    }
}

/// Whom a host speaks to.
#[derive(Clone, Copy, Debug, PartialEq, Eq)]
pub enum Peer {
    /// The modelled controller: it has only blocks of 512 bytes, and no admin commands except those of queues and Abort.
    Modelled,
    /// A device: it may have blocks of each size and any admin command.
    Device,
}

/// What an outstanding command is for.
#[derive(Drop)]
pub enum Work<R = Request> {
    /// A command of the caller's: of an I/O queue, or an admin command of queue 0.
    Io(R),
    /// A command of queue 0 that the host sends for a queue, or to abort a command.
    Management(AdminKind),
}

/// Why a step was refused. Each call names those that it may answer, in the order of their checks.
#[derive(Clone, Copy, Debug, PartialEq, Eq)]
pub enum Refusal {
    /// No queue of this number takes the call.
    NoQueue,
    /// The queue is being deleted.
    Deleting,
    /// The request has a fault.
    Bad(RequestFault),
    /// The host takes no blocks of the request's size.
    OtherBlocks,
    /// Each identifier of the queue is outstanding.
    NoIdentifier,
    /// Too few pages are free.
    NoPages {
        /// How many are needed.
        need: u32,
        /// How many are free.
        free: u32,
    },
    /// Memory was refused.
    Memory,
    /// No record in the fitting phase belongs to the value.
    Stranger,
    /// The draft was not built.
    NotBuilt,
    /// The queue takes no commands any more.
    QueueGone,
    /// The submission ring is full.
    QueueFull,
    /// The command has not ended.
    NotYet,
    /// The queue's state does not allow the call.
    WrongState,
    /// There is no such submitted command.
    NoSuchCommand,
    /// No deleted submission queue of this number waits to be retired.
    NotDeleted,
    /// A completion waits to be reaped.
    NotDrained,
    /// A command of the queue is outstanding.
    Outstanding,
    /// No run of that many consecutive pages is free.
    NoRun {
        /// How many are needed.
        need: u32,
    },
    /// The queue has no such slot.
    NoSlot,
    /// There is nothing to fetch.
    Idle,
    /// The slot's page is out of the store.
    SlotOut,
    /// The completion ring is full.
    Full,
    /// There is no such job.
    NoJob,
    /// The job has nothing to walk.
    Nothing,
    /// The job has no verdict yet.
    Walking,
    /// The job's completion waits for others.
    Waits,
}

/// Why a world was not opened: the first of these that holds.
#[derive(Clone, Copy, Debug, PartialEq, Eq)]
pub enum OpenRefusal {
    /// A number lies outside its limits.
    BadConfig,
    /// The pool has too few pages for the halves of all queues.
    NoPages {
        /// How many are needed.
        need: u32,
        /// How many the pool has.
        free: u32,
    },
    /// Memory was refused.
    Memory,
}

/// Why a completion was not taken for a command.
#[derive(Clone, Copy, Debug, PartialEq, Eq)]
pub enum RejectedFor {
    /// Its submission queue identifier is another queue's.
    WrongQueue,
    /// Its submission head lies outside the range from known head to tail.
    BadHead,
    /// No submitted command has its identifier.
    UnknownId,
}

/// What a reap found.
#[derive(Clone, Copy, Debug, PartialEq, Eq)]
pub enum Reaped {
    /// No new completion.
    Empty,
    /// A command of an I/O queue has ended.
    Done {
        /// Its identifier.
        cid: u16,
        /// How it ended.
        status: Status,
    },
    /// A command of queue 0 has ended.
    AdminDone {
        /// Its identifier on queue 0.
        cid: u16,
        /// How it ended.
        status: Status,
        /// The command specific Dword.
        dw0: u32,
    },
    /// A completion of no command; it was consumed.
    Rejected(RejectedFor),
}
