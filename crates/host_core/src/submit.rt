//! The host submits a draft.

ghost use Rattle.std.specs.Prelude.{◌≡◌, [], IfOk, IfErr};
ghost use Rattle.machine_model.specs.Events as events;
ghost use Rattle.machine_model.specs.Proper.{IsProperDraft};
ghost use Rattle.machine_model.specs.Step.{Refuses};
ghost use Rattle.host_core.specs.Alone.{HostStep, IsOver};
ghost use Rattle.host_core.specs.Parts.{tables_of, Over};
ghost use Rattle.host_core.specs.Replies.{accept_reply};
ghost use Rattle.host_core.specs.Submitting.{IsReady, Submits};
ghost use Rattle.host_core.specs.Tables.{state_of};
ghost use Rattle.host_core.specs.Whole.{IsHost, IsWhole};
ghost use Rattle.host_core.specs.Touching.{HostTouches, TouchesBy};

use crate::host::Host;
use crate::moving::move_in;
use crate::queues::is_live;
use crate::refused::Refused;
use crate::spare::Spares;
use crate::tables::HostTables;
use entry_codec::SubEntry;
use io_commands::{Draft, Ticket};
use machine_model::words::Refusal;
use page_memory::Store;
use std::alloc::Allocator;

impl<A: Allocator> HostTables<A> {
    /// A draft's entry, where nothing rules out its submission.
    fn check_submit(&self, draft: &Draft<A>) -> Result<SubEntry, Refusal>
        requires { IsHost (tables_of self.now []) }
        ensures ready { IfOk result (λ entry. Over self.now (λ t. IsReady t draft.now entry)) }
        ensures refused { IfErr result (λ why. Over self.now (λ t. Refuses (state_of t) (events.Submit draft.now) why [])) }
        ensures proper { IsProperDraft draft.now }
    {
        if !self.has_draft(draft) {
            return Err(Refusal::Stranger);
        }
        let Some(entry) = draft.entry() else {
            return Err(Refusal::NotBuilt);
        };
        if !is_live(&self.queues, draft.q()) {
            return Err(Refusal::QueueGone);
        }
        if self.is_queue_full(draft.q()) {
            return Err(Refusal::QueueFull);
        }
        Ok(entry)
    }

    /// Submits a draft: its pages come in, its command is submitted, and its entry is posted. Its lists are kept.
    fn commit_submit(
        &mut self,
        store: &mut Store<A>,
        spares: &mut Spares<A>,
        draft: Draft<A>,
        entry: SubEntry,
    ) -> Ticket
        requires whole { IsWhole (tables_of self.old store.old.pages) }
        requires ready { IsReady (tables_of self.old store.old.pages) draft entry }
        ensures submits { Submits (tables_of self.old store.old.pages) draft entry (tables_of self.new store.new.pages) }
        ensures ticket { result ≡ record { q = draft.q; cid = draft.cid } }
        ensures touches { TouchesBy 1 store.old store.new }
    {
        let mut parts = draft.apart();
        move_in(store, &mut parts.pages);
        self.mark_submitted(parts.q, parts.cid);
        self.post(store, parts.q, entry);
        spares.pages.keep(parts.pages);
        spares.keep_pieces(parts.request.pieces);
        Ticket::make(parts.q, parts.cid)
    }
}

impl<A: Allocator> Host<A> {
    /// Submits a draft that is built: its pages come in with their bytes, and its entry is posted at the tail of its queue (NVM
    /// Express Base Specification 2.0, "Memory-based transport queue model", section 3.3.1). The controller may fetch it once the tail
    /// doorbell is written. The ticket is the draft's.
    ///
    /// # Errors
    ///
    /// The draft is handed back, and nothing changed. 1. `Stranger` exactly where no drafted command of this host has its queue,
    /// identifier, request and pages. 2. `NotBuilt` where it has no entry. 3. `QueueGone` where its queue is not live.
    /// 4. `QueueFull` where the submission ring of its queue is full.
    pub fn submit(
        &mut self,
        store: &mut Store<A>,
        draft: Draft<A>,
    ) -> Result<Ticket, Refused<Draft<A>>>
        requires { IsOver self.old store.old.pages }
        ensures step { HostStep self.old store.old.pages (events.Submit draft) (accept_reply result) self.new store.new.pages }
        ensures touches { HostTouches self.old.entries store.old (events.Submit draft) (accept_reply result) store.new }
        ensures over { IsOver self.new store.new.pages }
        ensures back { IfErr result (λ r. r.value ≡ draft) }
        ensures ticket { IfOk result (λ ticket. ticket ≡ record { q = draft.q; cid = draft.cid }) }
    {
        let entry = match self.parts.check_submit(&draft) {
            Ok(entry) => entry,
            Err(why) => return Err(Refused { value: draft, why }),
        };
        Ok(
            self.parts
                .commit_submit(store, &mut self.spares, draft, entry),
        )
    }
}
