//! The controller is reset: the host begins again with its admin queue alone.

ghost use Rattle.std.specs.Prelude.{◌≡◌, ◌+◌, ◌<◌, [], length, true};
ghost use Rattle.machine_model.specs.Events as events;
ghost use Rattle.page_ledger.specs.Owners.{given_back, is_half};
ghost use Rattle.page_memory.specs.declared.page.Half.{Half as HalfValue};
ghost use Rattle.page_memory.specs.declared.page.Half.TheVariants.{Submission, Completion};
ghost use Rattle.queue_pair.specs.Memory.{half_pages as pages_of_half};
ghost use Rattle.host_core.specs.Alone.{IsOver};
ghost use Rattle.host_core.specs.Halves.{has_half as spec_has_half};
ghost use Rattle.host_core.specs.Commands.{Claims};
ghost use Rattle.host_core.specs.Parts.{records_of, tables_of, Becomes};
ghost use Rattle.host_core.specs.Resetting.{admin_reset, gone as spec_gone, has_own as spec_has_own, host_reset, pages_reset, with_admin_renewed, with_all_own_over, with_io_queues_gone, with_own_over, with_queue_gone, with_records_reset, HasClaims, HasPlaces, ListHalves, ListsHalf};
ghost use Rattle.host_core.specs.Whole.{IsWhole};
ghost use Rattle.host_core.specs.Touching.{HostTouches, TouchesBy};

use crate::host::Host;
use crate::moving::zero_run;
use crate::queue::Queue;
use crate::release::unclaim;
use crate::tables::HostTables;
use machine_model::words::HostState;
use page_memory::{Half, Store};
use queue_pair::{HostPair, half_pages};
use std::alloc::Allocator;

/// Whether the host has a half of a queue in this state.
pub(crate) fn has_half(state: HostState, half: Half) -> bool
    ensures { result ≡ spec_has_half half state }
{
    match half {
        Half::Submission => match state {
            HostState::Live | HostState::Deleting { .. } | HostState::MakingSq => true,
            _ => false,
        },
        Half::Completion => match state {
            HostState::Gone => false,
            _ => true,
        },
    }
}

/// Leaves both rings of queue 0 as they opened, over the same halves.
fn reset_admin<A: Allocator>(queue: &mut Queue<HostPair<A>>)
    ensures { queue.new ≡ admin_reset queue.old }
{
    queue.host.restart();
}

/// Leaves an I/O queue gone.
fn lose<A: Allocator>(queue: &mut Queue<HostPair<A>>)
    ensures { queue.new ≡ spec_gone queue.old }
{
    queue.host.restart();
    queue.state = HostState::Gone;
}

impl<A: Allocator> HostTables<A> {
    /// Makes the pages of queue 0 zero, and leaves its rings as they opened.
    fn renew_admin(&mut self, store: &mut Store<A>)
        requires { IsWhole (tables_of self.old store.old.pages) }
        ensures renewed { tables_of self.new store.new.pages ≡ with_admin_renewed (tables_of self.old store.old.pages) }
        ensures touches { TouchesBy (pages_of_half self.old.entries Submission + pages_of_half self.old.entries Completion) store.old store.new }
    {
        let sq = self.queues[0].host.first_page(Half::Submission);
        zero_run(store, sq, half_pages(self.entries, Half::Submission));
        let cq = self.queues[0].host.first_page(Half::Completion);
        zero_run(store, cq, half_pages(self.entries, Half::Completion));
        reset_admin(&mut self.queues[0]);
    }

    /// Whether an identifier of queue 0 is that of a command that the host sent itself.
    fn has_own(&self, cid: u16) -> bool
        ensures { result ≡ spec_has_own (records_of self.now.records.rows) cid }
    {
        match self.records.get(0, cid) {
            Some(entry) => entry.kind().is_some(),
            None => false,
        }
    }

    /// Forgets such a command, and frees its identifier.
    fn forget_own(&mut self, cid: u16)
        requires there { 0 < length self.old.queues.items }
        requires claimed { spec_has_own (records_of self.old.records.rows) cid ≡ true → Claims self.old.queues.items 0 cid }
        ensures { Becomes self.old (with_own_over cid) self.new }
    {
        if self.has_own(cid) {
            self.forget(0, cid);
            unclaim(&mut self.queues, 0, cid);
        }
    }

    /// Forgets the commands that the host sent itself, and frees their identifiers.
    fn forget_admin(&mut self)
        requires places { HasPlaces (tables_of self.old []) }
        requires claims { HasClaims (tables_of self.old []) }
        ensures { Becomes self.old with_all_own_over self.new }
    {
        for cid in 0..self.entries - 1 {
            self.forget_own(cid);
        }
    }

    /// Ends the commands that the host sent itself, and those of the caller's that were submitted.
    fn reset_commands(&mut self)
        requires places { HasPlaces (tables_of self.old []) }
        requires claims { HasClaims (tables_of self.old []) }
        ensures { Becomes self.old with_records_reset self.new }
    {
        self.forget_admin();
        for q in 0..self.queues.len() as u16 {
            self.lose_commands(q);
        }
    }

    /// Gives a half of a queue back, where the host has it.
    fn give_back(&mut self, q: u16, half: Half)
        requires { ListsHalf (tables_of self.old []) q half }
        ensures { Becomes self.old (λ t. record t { owners = given_back (is_half q half) t.owners }) self.new }
    {
        let queue = &self.queues[usize::from(q)];
        if has_half(queue.state, half) {
            let first = queue.host.first_page(half);
            self.ledger
                .give_back_run(q, half, first, half_pages(self.entries, half));
        }
    }

    /// Gives the halves of an I/O queue back, and leaves it gone.
    fn lose_queue(&mut self, q: u16)
        requires { (half : HalfValue) → ListsHalf (tables_of self.old []) q half }
        ensures { Becomes self.old (with_queue_gone q) self.new }
    {
        self.give_back(q, Half::Submission);
        self.give_back(q, Half::Completion);
        lose(&mut self.queues[usize::from(q)]);
    }

    /// Leaves all I/O queues gone.
    fn lose_queues(&mut self)
        requires { ListHalves (tables_of self.old []) }
        ensures { Becomes self.old with_io_queues_gone self.new }
    {
        for q in 1..self.queues.len() as u16 {
            self.lose_queue(q);
        }
    }
}

impl<A: Allocator> Host<A> {
    /// Begins again as the controller is reset (NVM Express Base Specification 2.0, "Controller Level Reset", section 3.7.2). It takes no
    /// memory, and looks at each identifier of each queue.
    ///
    /// Each command of the caller's that was submitted is held with the status "Command Aborted due to SQ Deletion", and one that is drafted,
    /// held or collected stays as it is; those that the host sent itself are over. Each I/O queue is gone, and the pages of its halves are
    /// free. Queue 0 is as it opened: the same pages, all zero, and both rings empty. No doorbell is to be written.
    pub fn reset(&mut self, store: &mut Store<A>)
        requires { IsOver self.old store.old.pages }
        ensures host { self.new ≡ host_reset self.old store.old.pages }
        ensures pages { store.new.pages ≡ pages_reset self.old store.old.pages }
        ensures touches { HostTouches self.old.entries store.old events.Reset events.Accepted store.new }
        ensures over { IsOver self.new store.new.pages }
    {
        self.parts.renew_admin(store);
        self.parts.reset_commands();
        self.parts.lose_queues();
    }
}
