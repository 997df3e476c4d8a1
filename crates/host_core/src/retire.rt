//! The host gives the submission half of a deleted queue back.

ghost use Rattle.std.specs.Prelude.{◌≡◌, [], false, slice_get};
ghost use Rattle.machine_model.specs.Events as events;
ghost use Rattle.host_core.specs.Alone.{HostStep, IsOver};
ghost use Rattle.host_core.specs.Halves.{HasHalf};
ghost use Rattle.host_core.specs.Parts.{tables_of, Becomes};
ghost use Rattle.host_core.specs.Reaping.{lacks_completion, seen_at, without_submission};
ghost use Rattle.host_core.specs.Replies.{ring_reply};
ghost use Rattle.host_core.specs.Resetting.{HasPlaces};
ghost use Rattle.host_core.specs.Retiring.{retired, with_lost};
ghost use Rattle.host_core.specs.Whole.{IsHost, IsWhole};
ghost use Rattle.host_core.specs.Touching.{HostTouches, TouchesBy};

use crate::host::Host;
use crate::queues::{host_state, is_deleted, note};
use crate::tables::HostTables;
use entry_codec::ComEntry;
use machine_model::words::{HostState, Refusal};
use page_memory::{Half, MAX_PAGES, Store, TouchRecord};
use queue_pair::half_pages;
use std::alloc::Allocator;

impl<A: Allocator> HostTables<A> {
    /// The completion at the head of a queue, where it is new. No page changes.
    pub(crate) fn see(&self, store: &mut Store<A>, q: u16) -> Option<ComEntry>
        requires whole { IsWhole (tables_of self.now store.old.pages) }
        requires there { lacks_completion (slice_get self.now.queues.items q) ≡ false }
        ensures seen { seen_at (tables_of self.now store.old.pages) q ≡ result }
        ensures same { store.new.pages ≡ store.old.pages }
        ensures touches { TouchesBy 1 store.old store.new }
    {
        store.clear();
        let seen = self.queues[usize::from(q)].host.peek(store);
        prove!(store.pages() <= MAX_PAGES);
        seen
    }

    /// Ends the commands of a queue that no completion ended.
    pub(crate) fn lose_commands(&mut self, q: u16)
        requires { HasPlaces (tables_of self.old []) }
        ensures { Becomes self.old (with_lost q) self.new }
    {
        for cid in 0..self.entries - 1 {
            self.lose(q, cid);
        }
    }

    /// Gives a queue's submission half back, which is in this state then.
    pub(crate) fn give_back_submission(&mut self, q: u16, state: HostState)
        requires { HasHalf (tables_of self.old []) q Half.Submission }
        ensures { Becomes self.old (without_submission state q) self.new }
    {
        let pages = half_pages(self.entries, Half::Submission);
        let first = self.queues[usize::from(q)]
            .host
            .first_page(Half::Submission);
        self.ledger.give_back_run(q, Half::Submission, first, pages);
        note(&mut self.queues, q, state);
    }

    /// Retires a queue whose deletion has ended and whose completions are all reaped.
    fn commit_retire(&mut self, q: u16)
        requires host { IsHost (tables_of self.old []) }
        requires half { HasHalf (tables_of self.old []) q Half.Submission }
        ensures { Becomes self.old (retired q) self.new }
    {
        self.lose_commands(q);
        self.give_back_submission(q, HostState::Retired);
    }
}

impl<A: Allocator> Host<A> {
    /// Gives the submission half of a deleted queue back, and ends its submitted commands.
    ///
    /// Each of those is held with the status "Command Aborted due to SQ Deletion", as if its completion had been reaped; its pages
    /// stay its own until it is collected and released. The pages of the submission half are free, and the queue is retired.
    ///
    /// # Errors
    ///
    /// Neither the host nor a page changed. 1. `NotDeleted` where there is no such queue, or the success of its deletion was not reaped, or
    /// the queue was retired or the host reset since. 2. `NotDrained` where a new completion is at the head of its completion ring.
    pub fn retire(&mut self, store: &mut Store<A>, q: u16) -> Result<(), Refusal>
        requires { IsOver self.old store.old.pages }
        ensures step { HostStep self.old store.old.pages (events.Retire q) (ring_reply result) self.new store.new.pages }
        ensures touches { HostTouches self.old.entries store.old (events.Retire q) (ring_reply result) store.new }
        ensures over { IsOver self.new store.new.pages }
    {
        if !is_deleted(host_state(&self.parts.queues, q)) {
            return Err(Refusal::NotDeleted);
        }
        match self.parts.see(store, q) {
            Some(_) => Err(Refusal::NotDrained),
            None => {
                self.parts.commit_retire(q);
                Ok(())
            }
        }
    }
}
