//! What a command waits for.

ghost use Rattle.std.specs.Prelude.{◌≡◌, Some, find};
ghost use Rattle.std.specs.List.{list_any};
ghost use Rattle.controller_core.specs.Completing.{is_abort_of, waits_among, has_success as work_succeeds};
ghost use Rattle.controller_core.specs.Contents.{AreAwaited, entry_of, entry_of_work, is_command};

use crate::command::{FetchedCommand, FetchedWork};
use crate::commands::Commands;
use admin_commands::{command_of, queue_of};
use entry_codec::SubEntry;
use entry_codec::admin_opcode::DELETE_IO_SQ;
use io_commands::Job;
use std::alloc::Allocator;

/// Whether the Abort of this identifier waits for a command, by what waits for that command.
fn is_abort(waiting: Option<u16>, cid: u16) -> bool
    ensures { result ≡ is_abort_of cid waiting }
{
    match waiting {
        Some(abort) => abort == cid,
        None => false,
    }
}

/// Whether a command ended with success.
fn has_success<A: Allocator>(work: &FetchedWork<Job<A>>) -> bool
    ensures { result ≡ work_succeeds work.now }
{
    match work.verdict() {
        Some(status) => status.is_success(),
        None => false,
    }
}

impl<A: Allocator> Commands<A> {
    /// Whether an Abort stopped a command that is there. Its own entry names that command.
    fn is_awaited(&self, entry: &SubEntry) -> bool
        requires there { entry_of self.now.list 0 entry.now.cid ≡ Some entry.now }
        requires awaited { AreAwaited self.now.list }
        ensures { result ≡ list_any (λ k. is_abort_of entry.now.cid k.waiting_abort) self.now.list }
    {
        match self.get(queue_of(entry), command_of(entry)) {
            Some(command) => is_abort(command.waiting_abort, entry.cid),
            None => false,
        }
    }

    /// Whether a command waits: an Abort for the command that it stopped, and a successful deletion of a submission queue for
    /// the queue's commands.
    pub(crate) fn is_waiting(&self, command: &FetchedCommand<Job<A>>) -> bool
        requires there { find (is_command command.now.q (entry_of_work command.now.work).cid) self.now.list ≡ Some command.now }
        requires awaited { AreAwaited self.now.list }
        ensures { result ≡ waits_among self.now.list command.now }
    {
        if command.q != 0 {
            return false;
        }
        let entry = command.work.entry();
        if self.is_awaited(entry) {
            return true;
        }
        if entry.opcode != DELETE_IO_SQ || !has_success(&command.work) {
            return false;
        }
        self.has_commands(queue_of(entry))
    }
}
