//! A command ends: a draft is cancelled, or a finished command released.

ghost use Rattle.std.specs.Prelude.{◌≡◌, ◌<◌, length, slice_get, IfErr, Some, true};
ghost use Rattle.machine_model.specs.After.{change};
ghost use Rattle.machine_model.specs.Events as events;
ghost use Rattle.host_core.specs.Alone.{HostStep, IsOver};
ghost use Rattle.host_core.specs.Commands.{ended as spec_ended, without_claim, Claims, Brings};
ghost use Rattle.host_core.specs.Parts.{tables_of};
ghost use Rattle.host_core.specs.Replies.{accept_reply};
ghost use Rattle.host_core.specs.Whole.{IsWhole};
ghost use Rattle.host_core.specs.Touching.{HostTouches, TouchesBy};

use crate::compare::are_whole;
use crate::host::Host;
use crate::moving::move_in;
use crate::queue::Queue;
use crate::record::Record;
use crate::refused::Refused;
use crate::spare::Spares;
use crate::tables::HostTables;
use io_commands::{Draft, Finished};
use machine_model::words::{Refusal, Work};
use page_memory::{Page, Store};
use queue_pair::HostPair;
use std::alloc::Allocator;

/// Frees an identifier that is claimed.
fn free_claimed<A: Allocator>(queue: &mut Queue<HostPair<A>>, cid: u16)
    requires { slice_get queue.old.host.claimed cid ≡ Some true }
    ensures { queue.new ≡ without_claim cid queue.old }
{
    queue.host.free(cid);
}

/// Frees an identifier of a queue that is claimed.
pub(crate) fn unclaim<A: Allocator>(queues: &mut Vec<Queue<HostPair<A>>, A>, q: u16, cid: u16)
    requires there { q < length queues.old.items }
    requires claimed { Claims queues.old.items q cid }
    ensures { queues.new.items ≡ change q (without_claim cid) queues.old.items }
{
    free_claimed(&mut queues[usize::from(q)], cid);
}

/// Keeps the lists of a command that is over.
fn keep_lists<A: Allocator>(spares: &mut Spares<A>, entry: Record<A>, pages: Vec<Page<A>, A>) {
    let Record {
        work,
        data_pages,
        chain_pages,
        ..
    } = entry;
    spares.numbers.keep(chain_pages);
    spares.numbers.keep(data_pages);
    spares.pages.keep(pages);
    match work {
        Work::Io(request) => spares.keep_pieces(request.pieces),
        Work::Management(_) => {}
    }
}

impl<A: Allocator> HostTables<A> {
    /// Ends a command: its pages come in, and are free, and so is its identifier. Its lists are kept.
    fn commit_end(
        &mut self,
        store: &mut Store<A>,
        spares: &mut Spares<A>,
        q: u16,
        cid: u16,
        pages: Vec<Page<A>, A>,
    )
        requires whole { IsWhole (tables_of self.old store.old.pages) }
        requires brings { Brings (tables_of self.old store.old.pages) q cid pages.items }
        ensures ended { tables_of self.new store.new.pages ≡ spec_ended q cid pages.items (tables_of self.old store.old.pages) }
        ensures touches { TouchesBy 0 store.old store.new }
    {
        let entry = self.records.take(q, cid).unwrap();
        self.ledger
            .give_back_pages(q, cid, &entry.data_pages, &entry.chain_pages);
        unclaim(&mut self.queues, q, cid);
        let mut pages = pages;
        move_in(store, &mut pages);
        keep_lists(spares, entry, pages);
    }
}

impl<A: Allocator> Host<A> {
    /// Cancels a draft: its pages come in with their bytes, and are free, and so is its identifier.
    ///
    /// # Errors
    ///
    /// `Stranger` exactly where no drafted command of this host has its queue, identifier, request and pages. Then the
    /// draft is handed back, and nothing changed.
    pub fn cancel(&mut self, store: &mut Store<A>, draft: Draft<A>) -> Result<(), Refused<Draft<A>>>
        requires { IsOver self.old store.old.pages }
        ensures step { HostStep self.old store.old.pages (events.Cancel draft) (accept_reply result) self.new store.new.pages }
        ensures touches { HostTouches self.old.entries store.old (events.Cancel draft) (accept_reply result) store.new }
        ensures over { IsOver self.new store.new.pages }
        ensures back { IfErr result (λ r. r.value ≡ draft) }
    {
        if !self.parts.has_draft(&draft) {
            return Err(Refused {
                value: draft,
                why: Refusal::Stranger,
            });
        }
        let parts = draft.apart();
        self.spares.keep_pieces(parts.request.pieces);
        self.parts
            .commit_end(store, &mut self.spares, parts.q, parts.cid, parts.pages);
        Ok(())
    }

    /// Releases a finished command: its pages come in with their bytes, and are free, and so is its identifier.
    ///
    /// # Errors
    ///
    /// `Stranger` exactly where no collected command of this host has its queue, identifier, request and pages. Then the
    /// finished command is handed back, and nothing changed.
    pub fn release(
        &mut self,
        store: &mut Store<A>,
        finished: Finished<A>,
    ) -> Result<(), Refused<Finished<A>>>
        requires { IsOver self.old store.old.pages }
        ensures step { HostStep self.old store.old.pages (events.Release finished) (accept_reply result) self.new store.new.pages }
        ensures touches { HostTouches self.old.entries store.old (events.Release finished) (accept_reply result) store.new }
        ensures over { IsOver self.new store.new.pages }
        ensures back { IfErr result (λ r. r.value ≡ finished) }
    {
        prove!(are_whole(finished.pages()));
        let request = finished.request();
        let (data_pages, chain_pages) = finished.pages().split_at(finished.data_pages());
        let command = (finished.q(), finished.cid());
        if !self
            .parts
            .has_record(true, command, request, data_pages, chain_pages)
        {
            return Err(Refused {
                value: finished,
                why: Refusal::Stranger,
            });
        }
        let parts = finished.apart();
        self.spares.keep_pieces(parts.request.pieces);
        self.parts
            .commit_end(store, &mut self.spares, parts.q, parts.cid, parts.pages);
        Ok(())
    }
}
