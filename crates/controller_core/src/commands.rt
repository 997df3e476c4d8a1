//! The commands that were fetched and not completed.

ghost use Rattle.std.specs.Prelude.{◌≡◌, ◌+◌, ◌<◌, ◌≤◌, ◌==◌, ◌++◌, ◌∷◌, [], ℕ, None, Some, IfOk, IfSome, OnOk, OnErr, false, is_some, map, find, get_or, length, slice_get};
ghost use Rattle.std.specs.List.{list_any};
ghost use Rattle.std.specs.Option.{option_copied};
ghost use Rattle.std.specs.Result.{result_err};
ghost use Rattle.controller_core.specs.Completing.{without_command};
ghost use Rattle.controller_core.specs.Contents.{change, entry_of_work, is_command};
ghost use Rattle.controller_core.specs.Looks.{name_at};
ghost use Rattle.controller_core.specs.Managing.{aborted, stopped_with_queue};
ghost use Rattle.controller_core.specs.Tables.{count_of};
ghost use Rattle.controller_core.specs.Walking.{refusal_among, WalksAmong};

use crate::command::FetchedCommand;
use crate::refusal::ControllerRefusal;
use controller_walk::WalkState;
use entry_codec::Status;
use io_commands::Job;
use page_memory::Dma;
use slot_table::LinkedTable;
use std::alloc::{AllocError, Allocator};
use std::marker::Model;

/// Fetched commands by their queues and identifiers, and how many each queue has. Contracts see how many queues there are, and the commands
/// as a list, in the order of the fetches.
#[derive(Drop)]
pub(crate) struct Commands<A: Allocator> {
    table: LinkedTable<FetchedCommand<Job<A>>, A>,
    counts: Vec<usize, A>,
}

impl<A: Allocator> Model for Commands<A> {
    ghost use Rattle.std.specs.Prelude.{length, map};
    ghost use Rattle.controller_core.specs.Tables.{AreCounted, AreNamed, Outstanding};
    ghost use Rattle.slot_table.specs.Rows.{IsDistinct};

    ghost Value = { Outstanding };

    ghost view = { λ c. record { queues = length c.counts.items; list = map (λ row. row.value) c.table } };

    ghost invariant = { λ c. AreNamed c.table × IsDistinct c.table × AreCounted c.counts.items (map (λ row. row.value) c.table) };
}

/// Makes each count zero.
fn forget(counts: &mut [usize])
    ensures zero { (q : ℕ) → get_or counts.new q 0 ≡ 0 }
    ensures count { length counts.new ≡ length counts.old }
{
    for count in counts.iter_mut() {
        *count = 0;
    }
}

impl<A: Allocator + Copy> Commands<A> {
    /// No commands of this many queues.
    pub(crate) fn open(alloc: A, queues: usize) -> Result<Self, AllocError>
        ensures { IfOk result (λ commands. commands ≡ record { queues = queues; list = [] }) }
    {
        Ok(Commands {
            counts: vec![in alloc; 0; queues]?,
            table: LinkedTable::new(alloc),
        })
    }
}

impl<A: Allocator> Commands<A> {
    /// How many commands there are.
    pub(crate) fn len(&self) -> usize
        ensures { result ≡ length self.now.list }
    {
        self.table.len()
    }

    /// The command of an identifier of a queue.
    pub(crate) fn get(&self, q: u16, cid: u16) -> Option<&FetchedCommand<Job<A>>>
        ensures found { option_copied result ≡ find (is_command q cid) self.now.list }

        // It's the only one of its name.
        ensures alone { (n : ℕ) → name_at self.now.list n ≡ Some (q, cid) → option_copied result ≡ slice_get self.now.list n }
    {
        self.table.get(q, cid)
    }

    /// The queue and the identifier of the command that was fetched first.
    pub(crate) fn first(&self) -> Option<(u16, u16)>
        ensures { result ≡ name_at self.now.list 0 }
    {
        self.table.first()
    }

    /// The queue and the identifier of the command that was fetched after the one of this name.
    pub(crate) fn next(&self, q: u16, cid: u16) -> Option<(u16, u16)>
        ensures { (n : ℕ) → name_at self.now.list n ≡ Some (q, cid) → result ≡ name_at self.now.list (n + 1) }
    {
        self.table.next(q, cid)
    }

    /// Does the next unit of a command.
    ///
    /// # Errors
    ///
    /// The first cause against it. Then nothing changed.
    pub(crate) fn walk<D: Dma>(
        &mut self,
        q: u16,
        cid: u16,
        dma: &mut D,
    ) -> Result<WalkState, ControllerRefusal>
        requires few { refusal_among self.old.list q cid ≡ None → IfSome (find (is_command q cid) self.old.list) (λ k. k.units_done ≤ 12545) }
        requires room { length (D.reached dma.old) ≤ 2 }
        ensures refusal { result_err result ≡ refusal_among self.old.list q cid }
        ensures refused { OnErr result ((self.new ≡ self.old) × (D.memory dma.new ≡ D.memory dma.old) × (D.reached dma.new ≡ D.reached dma.old)) }
        ensures among { IfOk result (λ state. WalksAmong self.old.list q cid (D.memory dma.old) (D.reached dma.old) state self.new.list (D.memory dma.new) (D.reached dma.new)) }
        ensures queues { self.new.queues ≡ self.old.queues }
        ensures unlisted { D.unlisted dma.new ≡ D.unlisted dma.old }
        ensures pool { D.page_count dma.new ≡ D.page_count dma.old }
    {
        let Some(command) = self.table.get_mut(q, cid) else {
            return Err(ControllerRefusal::NoJob);
        };
        command.walk(dma)
    }

    /// Stops the command that an Abort names.
    pub(crate) fn abort(&mut self, q: u16, cid: u16, abort: u16)
        ensures { self.new ≡ record self.old { list = map (aborted q cid abort) self.old.list } }
    {
        let Some(command) = self.table.get_mut(q, cid) else {
            return;
        };
        command.work.stop(Status::ABORT_REQUESTED);
        command.waiting_abort = Some(abort);
    }

    /// Stops one command where it is one of a queue that is deleted.
    fn stop(&mut self, q: u16, cid: u16, deleted: u16)
        ensures { (n : ℕ) → name_at self.old.list n ≡ Some (q, cid) → self.new ≡ record self.old { list = change n (stopped_with_queue deleted) self.old.list } }
    {
        let Some(command) = self.table.get_mut(q, cid) else {
            return;
        };
        command.stop_with_queue(deleted);
    }

    /// Stops the commands of a queue that is deleted. It ends with the last of them.
    pub(crate) fn stop_queue(&mut self, deleted: u16)
        ensures { self.new ≡ record self.old { list = map (stopped_with_queue deleted) self.old.list } }
    {
        let mut left = self.count(deleted);
        let mut place = self.first();
        for _ in 0..self.len() {
            if left == 0 {
                return;
            }
            let Some((q, cid)) = place else {
                return;
            };
            if q == deleted {
                self.stop(q, cid, deleted);
                left -= 1;
            }
            place = self.next(q, cid);
        }
    }

    /// Takes out the command of an identifier of a queue.
    pub(crate) fn take(&mut self, q: u16, cid: u16) -> Option<FetchedCommand<Job<A>>>
        ensures value { result ≡ find (is_command q cid) self.old.list }
        ensures rest { self.new ≡ record self.old { list = without_command q cid self.old.list } }
    {
        let command = self.table.take(q, cid)?;
        self.counts[usize::from(q)] -= 1;
        Some(command)
    }

    /// Takes out all commands.
    pub(crate) fn clear(&mut self)
        ensures { self.new ≡ record self.old { list = [] } }
    {
        self.table.clear();
        forget(&mut self.counts);
    }

    /// How many commands a queue has.
    fn count(&self, q: u16) -> usize
        ensures { result ≡ count_of self.now.list q }
    {
        match self.counts.get(usize::from(q)) {
            Some(count) => *count,
            None => 0,
        }
    }

    /// Whether a queue has a command.
    pub(crate) fn has_commands(&self, q: u16) -> bool
        ensures { result ≡ list_any (λ k. k.q == q) self.now.list }
    {
        self.count(q) != 0
    }
}

impl<A: Allocator + Clone> Commands<A> {
    /// Puts a command after the others.
    pub(crate) fn put(&mut self, command: FetchedCommand<Job<A>>) -> Result<(), AllocError>
        requires there { command.q < self.old.queues }
        requires unknown { is_some (find (is_command command.q (entry_of_work command.work).cid) self.old.list) ≡ false }
        ensures put { OnOk result (self.new ≡ record self.old { list = self.old.list ++ command ∷ [] }) }
        ensures refused { OnErr result (self.new ≡ self.old) }
    {
        let q = command.q;
        let cid = command.work.entry().cid;
        match self.table.put(q, cid, command) {
            Ok(()) => {}
            Err(_) => return Err(AllocError),
        }
        prove!(self.table.len() <= usize::MAX);
        self.counts[usize::from(q)] += 1;
        Ok(())
    }
}
