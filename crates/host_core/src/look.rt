//! What would be answered, and what the host knows: looks that change neither the host nor a page.

ghost use Rattle.std.specs.Prelude.{◌≡◌, ℕ, true, false, Some, IfOk, IfSome, IfNone, [], is_some, length, option_and_then, option_map, slice_get};
ghost use Rattle.std.specs.Result.{result_err};
ghost use Rattle.io_commands.specs.Least.{least_pages as spec_least_pages};
ghost use Rattle.io_commands.specs.Requests.{fault_of};
ghost use Rattle.machine_model.specs.Events as events;
ghost use Rattle.machine_model.specs.Refusals.{in_state, is_reaped, refusal_of};
ghost use Rattle.machine_model.specs.State.{record_at};
ghost use Rattle.page_memory.specs.Pages.{Pages};
ghost use Rattle.host_core.specs.Alone.{alone, IsOver};
ghost use Rattle.host_core.specs.Looks.{cause_of, completion_base as spec_completion_base, completion_waits as spec_completion_waits};
ghost use Rattle.host_core.specs.Touching.{TouchesAtMost};

use crate::host::Host;
use crate::queues::{has_no_completion, host_state};
use entry_codec::Status;
use io_commands::{Request, RequestFault};
use machine_model::words::{HostState, Refusal};
use page_memory::Store;
use std::alloc::Allocator;

/// A cause against an event; want of memory is none.
fn cause(why: Refusal) -> Option<Refusal>
    ensures { result ≡ cause_of why }
{
    match why {
        Refusal::Memory => None,
        why => Some(why),
    }
}

impl<A: Allocator + Copy> Host<A> {
    /// What [`Host::reserve`] would be refused for, ignoring want of memory, over any pages that are the host's.
    pub fn reserve_refusal(&self, q: u16, request: &Request<A>) -> Option<Refusal>
        ensures { (pages : Pages) → IsOver self.now pages → result ≡ refusal_of (alone self.now pages) (events.Reserve q request.now) }
    {
        match self.parts.check_reserve(q, request) {
            Ok(_) => None,
            Err(why) => cause(why),
        }
    }
}

impl<A: Allocator> Host<A> {
    /// The fewest pages that a request takes here, wherever it is placed: one for each data piece, and those of its chain where the
    /// data pages are consecutive ones. It takes no memory.
    ///
    /// # Errors
    ///
    /// The first fault of the request.
    pub fn least_pages<B: Allocator>(&self, request: &Request<B>) -> Result<u32, RequestFault>
        ensures least { IfOk result (λ pages. pages ≡ spec_least_pages request.now.pieces self.now.segment) }
        ensures fault { result_err result ≡ fault_of request.now.kind request.now.block_size request.now.blocks request.now.pieces }
    {
        request.check()?;
        Ok(request.least_pages(self.parts.segment))
    }

    /// What [`Host::collect`] of this command's ticket would be refused for, ignoring want of memory, over any pages that are the
    /// host's.
    pub fn collect_refusal(&self, q: u16, cid: u16) -> Option<Refusal>
        ensures { (pages : Pages) → IsOver self.now pages → result ≡ refusal_of (alone self.now pages) (events.Collect q cid) }
    {
        match self.parts.check_collect(q, cid) {
            Ok(_) => None,
            Err(why) => cause(why),
        }
    }

    /// How an outstanding command ended: the status that its record has. None where it has none, or no command is outstanding under this
    /// identifier.
    pub fn status_of(&self, q: u16, cid: u16) -> Option<Status>
        ensures { result ≡ option_and_then (λ r. r.status) (record_at self.now.host q cid) }
    {
        match self.parts.records.get(q, cid) {
            Some(entry) => entry.status,
            None => None,
        }
    }

    /// How many queues there are, queue 0 among them.
    pub fn queue_count(&self) -> u16
        ensures { result ≡ length self.now.host.queues }
    {
        self.parts.queues.len() as u16
    }

    /// How many entries each ring has.
    pub fn entries(&self) -> u16
        ensures { result ≡ self.now.entries }
    {
        self.parts.entries
    }

    /// The address at which a queue's completion ring begins, while its completions are reaped.
    pub fn completion_base(&self, q: u16) -> Option<u64>
        ensures base { result ≡ spec_completion_base self.now q }
        ensures there { is_some result ≡ in_state is_reaped (alone self.now []) q }
    {
        if has_no_completion(&self.parts.queues, q) {
            return None;
        }
        Some(self.parts.queues[usize::from(q)].host.completion_address(0))
    }

    /// What the host knows of a queue, if there is one of this number.
    pub fn queue_state(&self, q: u16) -> Option<HostState>
        ensures { result ≡ option_map (λ queue. queue.state) (slice_get self.now.host.queues q) }
    {
        host_state(&self.parts.queues, q)
    }

    /// Whether [`Host::reap`] would take a completion from the queue. No page changes, and one is touched at most.
    pub fn completion_waits(&self, store: &mut Store<A>, q: u16) -> bool
        requires { IsOver self.now store.old.pages }
        ensures answer { result ≡ spec_completion_waits (alone self.now store.old.pages) q }
        ensures same { store.new.pages ≡ store.old.pages }
        ensures touches { TouchesAtMost 1 store.old store.new }
    {
        if has_no_completion(&self.parts.queues, q) {
            return false;
        }
        self.parts.see(store, q).is_some()
    }
}
