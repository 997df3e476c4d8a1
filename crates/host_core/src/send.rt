//! The host sends admin commands on queue 0.

ghost use Rattle.std.specs.Prelude.{◌≡◌, ◌<◌, [], None, true, false, IfOk, IfErr, OnOk, length, find};
ghost use Rattle.std.specs.List.{list_any};
ghost use Rattle.std.specs.Option.{option_map_or};
ghost use Rattle.admin_commands.specs.declared.AdminKind.TheVariants as kinds;
ghost use Rattle.controller_walk.specs.Units.{first_passing};
ghost use Rattle.machine_model.specs.Events as events;
ghost use Rattle.machine_model.specs.Refusals.{deletes_cq_of};
ghost use Rattle.machine_model.specs.State.{is_at};
ghost use Rattle.machine_model.specs.Step.{Refuses};
ghost use Rattle.page_memory.specs.Pages.{Pages};
ghost use Rattle.slot_table.specs.Table.{IsPlace};
ghost use Rattle.slot_table.specs.Rows.{value_at};
ghost use Rattle.host_core.specs.Alone.{HostStep, IsLowest, IsOver};
ghost use Rattle.host_core.specs.Commands.{ClaimsNext};
ghost use Rattle.host_core.specs.Parts.{records_of, tables_of, Becomes, Over};
ghost use Rattle.host_core.specs.Replies.{send_reply};
ghost use Rattle.host_core.specs.Sending.{asked, grants_none, lacks_queue as spec_lacks_queue, named_causes, noted, sending, CanSend, Sends};
ghost use Rattle.host_core.specs.Tables.{state_of};
ghost use Rattle.host_core.specs.Whole.{IsHost, IsWhole};
ghost use Rattle.host_core.specs.Touching.{HostTouches, TouchesBy};

use crate::host::Host;
use crate::queues::{
    claim, has_cq_alone, host_state, is_changing, is_deleting, next_identifier, note, takes_no_io,
};
use crate::record::Record;
use crate::tables::HostTables;
use admin_commands::{AdminKind, entry};
use entry_codec::Hints;
use machine_model::words::{HostState, Phase, Refusal, Work};
use page_memory::Store;
use std::alloc::Allocator;

/// Whether no I/O queue of a number, in this state, has a completion half.
fn lacks_queue(q: u16, state: Option<HostState>) -> bool
    ensures { result ≡ spec_lacks_queue q state }
{
    if q == 0 {
        return true;
    }
    match state {
        None | Some(HostState::Gone) => true,
        Some(_) => false,
    }
}

impl<A: Allocator> HostTables<A> {
    /// Whether a command of queue 0 deletes the completion side of a queue.
    fn is_deletion(&self, cid: u16, q: u16) -> bool
        ensures { result ≡ option_map_or (λ r. deletes_cq_of q r.work) (find (is_at 0 cid) (records_of self.now.records.rows)) false }
    {
        match self.records.get(0, cid) {
            Some(entry) => entry.deletes_completion(q),
            None => false,
        }
    }

    /// Whether the deletion of a queue's completion side is outstanding.
    pub(crate) fn awaits_deletion(&self, q: u16) -> bool
        requires { IsHost (tables_of self.now []) }
        ensures { result ≡ list_any (λ r. deletes_cq_of q r.work) (records_of self.now.records.rows) }
    {
        for cid in 0..self.entries - 1 {
            if self.is_deletion(cid, q) {
                return true;
            }
        }
        false
    }
}

impl<A: Allocator + Copy> HostTables<A> {
    /// Whether something about the named queue or command rules out an Abort.
    fn check_abort(&self, q: u16, cid: u16) -> Result<(), Refusal>
        ensures free { OnOk result ((pages : Pages) → first_passing (named_causes (state_of (tables_of self.now pages)) (kinds.Abort q cid)) ≡ None) }
        ensures refused { IfErr result (λ why. (pages : Pages) → Refuses (state_of (tables_of self.now pages)) (events.Abort q cid) why []) }
    {
        let state = host_state(&self.queues, q);
        if takes_no_io(q, state) {
            return Err(Refusal::NoQueue);
        }
        if is_deleting(state) {
            return Err(Refusal::WrongState);
        }
        if !self.has_submitted(q, cid) {
            return Err(Refusal::NoSuchCommand);
        }
        Ok(())
    }

    /// Whether something about the named queue rules out the deletion of its submission side.
    fn check_delete_sq(&self, q: u16) -> Result<(), Refusal>
        ensures free { OnOk result ((pages : Pages) → first_passing (named_causes (state_of (tables_of self.now pages)) (kinds.DeleteSq q)) ≡ None) }
        ensures refused { IfErr result (λ why. (pages : Pages) → Refuses (state_of (tables_of self.now pages)) (events.DeleteSq q) why []) }
    {
        let state = host_state(&self.queues, q);
        if takes_no_io(q, state) {
            return Err(Refusal::NoQueue);
        }
        if is_deleting(state) {
            return Err(Refusal::WrongState);
        }
        Ok(())
    }

    /// Whether something about the named queue rules out the deletion of its completion side.
    fn check_delete_cq(&self, q: u16) -> Result<(), Refusal>
        requires { IsHost (tables_of self.now []) }
        ensures free { OnOk result ((pages : Pages) → first_passing (named_causes (state_of (tables_of self.now pages)) (kinds.DeleteCq q)) ≡ None) }
        ensures refused { IfErr result (λ why. (pages : Pages) → Refuses (state_of (tables_of self.now pages)) (events.DeleteCq q) why []) }
    {
        let state = host_state(&self.queues, q);
        if lacks_queue(q, state) {
            return Err(Refusal::NoQueue);
        }
        if is_changing(state) {
            return Err(Refusal::WrongState);
        }
        if has_cq_alone(state) && self.awaits_deletion(q) {
            return Err(Refusal::WrongState);
        }
        Ok(())
    }

    /// Whether something that a command names rules it out.
    fn check_named(&self, kind: AdminKind) -> Result<(), Refusal>
        requires { IsHost (tables_of self.now []) }
        ensures free { OnOk result ((pages : Pages) → first_passing (named_causes (state_of (tables_of self.now pages)) kind) ≡ None) }
        ensures refused { IfErr result (λ why. (pages : Pages) → Refuses (state_of (tables_of self.now pages)) (sending kind) why []) }
    {
        match kind {
            AdminKind::Abort { q, cid } => self.check_abort(q, cid),
            AdminKind::DeleteSq { q } => self.check_delete_sq(q),
            AdminKind::DeleteCq { q } => self.check_delete_cq(q),
            AdminKind::CreateCq { q, .. } => self.check_create_cq(q),
            AdminKind::CreateSq { q, .. } => self.check_create_sq(q),
        }
    }
}

impl<A: Allocator + Copy> HostTables<A> {
    /// The identifier of queue 0 that a command gets for which no half is granted, or the first cause against it.
    fn check_send(&self, kind: AdminKind) -> Result<u16, Refusal>
        requires host { IsHost (tables_of self.now []) }
        requires plain { grants_none kind ≡ true }
        ensures ready { IfOk result (λ cid. Over self.now (λ t. CanSend t kind cid)) }
        ensures refused { IfErr result (λ why. Over self.now (λ t. Refuses (state_of t) (sending kind) why [])) }
    {
        match self.check_named(kind) {
            Ok(()) => {}
            Err(why) => return Err(why),
        }
        let Some(cid) = next_identifier(&self.queues, 0) else {
            return Err(Refusal::NoIdentifier);
        };
        if self.is_queue_full(0) {
            return Err(Refusal::QueueFull);
        }
        Ok(cid)
    }

    /// Claims an identifier of queue 0 for an admin command, which is outstanding then.
    pub(crate) fn note_sent(&mut self, kind: AdminKind, cid: u16)
        requires there { 0 < length self.old.queues.items }
        requires next { ClaimsNext self.old.queues.items 0 cid }
        requires place { IsPlace self.old.records 0 cid }
        requires empty { value_at self.old.records.rows 0 cid ≡ None }
        ensures { Becomes self.old (noted kind cid) self.new }
    {
        claim(&mut self.queues, 0, cid);
        let record = Record {
            phase: Phase::Submitted,
            work: Work::Management(kind),
            data_pages: Vec::new(self.alloc),
            chain_pages: Vec::new(self.alloc),
            status: None,
            hints: Hints::NONE,
        };
        self.add_record(0, cid, record);
    }

    /// Waits for the deletion of a submission queue, where it was asked for.
    fn await_deletion(&mut self, kind: AdminKind)
        ensures { Becomes self.old (asked kind) self.new }
    {
        match kind {
            AdminKind::DeleteSq { q } => {
                note(&mut self.queues, q, HostState::Deleting { noted: false });
            }
            AdminKind::Abort { .. }
            | AdminKind::DeleteCq { .. }
            | AdminKind::CreateCq { .. }
            | AdminKind::CreateSq { .. } => {}
        }
    }

    /// Sends an admin command.
    fn commit_send(&mut self, store: &mut Store<A>, kind: AdminKind, cid: u16)
        requires whole { IsWhole (tables_of self.old store.old.pages) }
        requires ready { CanSend (tables_of self.old store.old.pages) kind cid }
        ensures sends { Sends (tables_of self.old store.old.pages) kind cid (tables_of self.new store.new.pages) }
        ensures touches { TouchesBy 1 store.old store.new }
    {
        self.note_sent(kind, cid);
        self.post(store, 0, entry(kind, cid));
        self.await_deletion(kind);
    }
}

impl<A: Allocator + Copy> Host<A> {
    /// Sends an admin command for which no half is granted, where nothing rules it out.
    fn send(&mut self, store: &mut Store<A>, kind: AdminKind) -> Result<u16, Refusal>
        requires over { IsOver self.old store.old.pages }
        requires plain { grants_none kind ≡ true }
        ensures step { HostStep self.old store.old.pages (sending kind) (send_reply result) self.new store.new.pages }
        ensures touches { HostTouches self.old.entries store.old (sending kind) (send_reply result) store.new }
        ensures identifier { IfOk result (λ id. IsLowest self.old.host 0 id) }
        ensures over { IsOver self.new store.new.pages }
    {
        let cid = match self.parts.check_send(kind) {
            Ok(cid) => cid,
            Err(why) => return Err(why),
        };
        self.parts.commit_send(store, kind, cid);
        Ok(cid)
    }

    /// Sends an Abort of a submitted command (NVM Express Base Specification 2.0, "Abort command", section 5.1). It is posted at the
    /// tail of queue 0 under the identifier that is answered, the lowest that is free.
    ///
    /// # Errors
    ///
    /// Nothing changed. 1. `NoQueue` for queue 0, an unknown queue, and one whose submission half was given back and is not made again.
    /// 2. `WrongState` where it is being deleted. 3. `NoSuchCommand` where the queue has no submitted command of this identifier.
    /// 4. `NoIdentifier` where each identifier of queue 0 is outstanding. 5. `QueueFull` where the submission ring of queue 0 is full.
    pub fn abort(&mut self, store: &mut Store<A>, q: u16, cid: u16) -> Result<u16, Refusal>
        requires { IsOver self.old store.old.pages }
        ensures step { HostStep self.old store.old.pages (events.Abort q cid) (send_reply result) self.new store.new.pages }
        ensures touches { HostTouches self.old.entries store.old (events.Abort q cid) (send_reply result) store.new }
        ensures identifier { IfOk result (λ id. IsLowest self.old.host 0 id) }
        ensures over { IsOver self.new store.new.pages }
    {
        self.send(store, AdminKind::Abort { q, cid })
    }

    /// Sends the deletion of a submission queue, which takes no more commands (NVM Express Base Specification 2.0, "Delete I/O
    /// Submission Queue command", section 5.7). It is posted at the tail of queue 0 under the identifier that is answered, the lowest that
    /// is free.
    ///
    /// # Errors
    ///
    /// Nothing changed. 1. `NoQueue` for queue 0, an unknown queue, and one whose submission half was given back and is not made again.
    /// 2. `WrongState` where it is being deleted. 3. `NoIdentifier` where each identifier of queue 0 is outstanding. 4. `QueueFull` where
    /// the submission ring of queue 0 is full.
    pub fn delete_sq(&mut self, store: &mut Store<A>, q: u16) -> Result<u16, Refusal>
        requires { IsOver self.old store.old.pages }
        ensures step { HostStep self.old store.old.pages (events.DeleteSq q) (send_reply result) self.new store.new.pages }
        ensures touches { HostTouches self.old.entries store.old (events.DeleteSq q) (send_reply result) store.new }
        ensures identifier { IfOk result (λ id. IsLowest self.old.host 0 id) }
        ensures over { IsOver self.new store.new.pages }
    {
        self.send(store, AdminKind::DeleteSq { q })
    }

    /// Sends the deletion of a completion queue (NVM Express Base Specification 2.0, "Delete I/O Completion Queue command", section 5.6).
    /// It is posted at the tail of queue 0 under the identifier that is answered, the lowest that is free.
    ///
    /// # Errors
    ///
    /// Nothing changed. 1. `NoQueue` for queue 0, an unknown queue, and one that is gone. 2. `WrongState`
    /// where its submission side is being deleted or a half of it is being made, or it has its completion half alone and a deletion of
    /// that is outstanding.
    /// 3. `NoIdentifier` where each identifier of queue 0 is outstanding. 4. `QueueFull` where the submission ring of queue 0 is full.
    pub fn delete_cq(&mut self, store: &mut Store<A>, q: u16) -> Result<u16, Refusal>
        requires { IsOver self.old store.old.pages }
        ensures step { HostStep self.old store.old.pages (events.DeleteCq q) (send_reply result) self.new store.new.pages }
        ensures touches { HostTouches self.old.entries store.old (events.DeleteCq q) (send_reply result) store.new }
        ensures identifier { IfOk result (λ id. IsLowest self.old.host 0 id) }
        ensures over { IsOver self.new store.new.pages }
    {
        self.send(store, AdminKind::DeleteCq { q })
    }
}
