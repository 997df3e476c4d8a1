//! What the controller has fetched and not completed.

ghost use Rattle.std.specs.Prelude.{◌≡◌};
ghost use Rattle.controller_core.specs.Contents.{entry_of_work, verdict_of_work};

use entry_codec::{Status, SubEntry};
use io_commands::Job;
use std::alloc::Allocator;

/// A fetched command, from its fetch to its completion.
#[derive(Drop)]
pub struct FetchedCommand<J = Job> {
    /// The queue that it was fetched from.
    pub q: u16,
    /// How many units of its list were done.
    pub units_done: u32,
    /// The Abort, by its identifier on queue 0, whose completion waits for this one.
    pub waiting_abort: Option<u16>,
    /// The command itself.
    pub work: FetchedWork<J>,
}

/// What a fetched command is.
#[derive(Drop)]
pub enum FetchedWork<J = Job> {
    /// A command of an I/O queue.
    Io(J),
    /// A command of queue 0, which was decided at its fetch.
    Admin {
        /// The entry as it was fetched.
        entry: SubEntry,
        /// How it ends.
        status: Status,
        /// The command specific double word of its completion.
        dw0: u32,
    },
}

impl<A: Allocator> FetchedWork<Job<A>> {
    /// The entry, as it was fetched.
    pub fn entry(&self) -> &SubEntry
        ensures { result.now ≡ entry_of_work self.now }
    {
        match self {
            FetchedWork::Io(job) => job.entry(),
            FetchedWork::Admin { entry, .. } => entry,
        }
    }

    /// How the command ends, once that is known. An admin command's end is known from its fetch on.
    pub fn verdict(&self) -> Option<Status>
        ensures { result ≡ verdict_of_work self.now }
    {
        match self {
            FetchedWork::Io(job) => job.verdict(),
            FetchedWork::Admin { status, .. } => Some(*status),
        }
    }
}
