//! The host posts an entry.

ghost use Rattle.std.specs.Prelude.{◌≡◌, ◌<◌, length};
ghost use Rattle.machine_model.specs.Refusals.{queue_full};
ghost use Rattle.queue_pair.specs.Slots.{is_full as spec_is_full};
ghost use Rattle.host_core.specs.Parts.{tables_of};
ghost use Rattle.host_core.specs.Posting.{CanPostTo, Posts};
ghost use Rattle.host_core.specs.Tables.{state_of};
ghost use Rattle.host_core.specs.Whole.{AreQueues};
ghost use Rattle.page_memory.specs.Pages.{Pages};
ghost use Rattle.host_core.specs.Touching.{TouchesBy};

use crate::tables::HostTables;
use entry_codec::SubEntry;
use page_memory::{MAX_PAGES, Store, TouchRecord};
use queue_pair::HostPair;
use std::alloc::Allocator;

/// Whether a submission ring of this many entries is full: one more entry would bring its tail to the head that the host knows.
fn is_full<A: Allocator>(pair: &HostPair<A>, entries: u16) -> bool
    requires { pair.now.entries ≡ entries }
    ensures { result ≡ spec_is_full pair.now.entries pair.now.ring.known_head pair.now.ring.tail }
{
    let tail = pair.ring_value();
    let next = if tail + 1 == entries { 0 } else { tail + 1 };
    // From the known head to the tail, the slot after the tail can only be the known head itself.
    pair.head_fits(next)
}

impl<A: Allocator> HostTables<A> {
    /// Whether the submission ring of a queue is full.
    pub(crate) fn is_queue_full(&self, q: u16) -> bool
        requires queues { AreQueues self.now.entries self.now.queues.items }
        requires there { q < length self.now.queues.items }
        ensures { (pages : Pages) → result ≡ queue_full (state_of (tables_of self.now pages)) q }
    {
        is_full(&self.queues[usize::from(q)].host, self.entries)
    }

    /// Posts an entry at the tail of a queue that has room for it.
    pub(crate) fn post(&mut self, store: &mut Store<A>, q: u16, entry: SubEntry)
        requires there { q < length self.old.queues.items }
        requires can { CanPostTo (tables_of self.old store.old.pages) q entry }
        ensures posts { Posts (tables_of self.old store.old.pages) q entry (tables_of self.new store.new.pages) }
        ensures touches { TouchesBy 1 store.old store.new }
    {
        store.clear();
        self.queues[usize::from(q)].host.post(store, entry).unwrap();
        prove!(store.pages() <= MAX_PAGES);
    }
}
