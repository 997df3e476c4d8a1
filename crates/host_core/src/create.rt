//! The host makes a queue that is gone once more: first its completion queue, then its submission queue.

ghost use Rattle.std.specs.Prelude.{◌≡◌, ◌==◌, ◌<◌, ◌+◌, ℕ, [], Option, None, Some, OnOk, IfOk, IfErr, find, is_some, length};
ghost use Rattle.std.specs.List.{list_any};
ghost use Rattle.admin_commands.specs.declared.AdminKind.TheVariants as kinds;
ghost use Rattle.controller_walk.specs.Units.{first_passing};
ghost use Rattle.machine_model.specs.Events as events;
ghost use Rattle.machine_model.specs.Refusals.{run_for};
ghost use Rattle.machine_model.specs.State.{is_at};
ghost use Rattle.machine_model.specs.Step.{Refuses};
ghost use Rattle.page_memory.specs.Pages.{Pages};
ghost use Rattle.queue_pair.specs.Memory.{half_pages as pages_of_half};
ghost use Rattle.host_core.specs.Alone.{HostStep, IsLowest, IsOver};
ghost use Rattle.host_core.specs.Parts.{records_of, tables_of, Over};
ghost use Rattle.host_core.specs.Replies.{send_reply};
ghost use Rattle.host_core.specs.Sending.{creating, creation, granted, making, named_causes, CanCreate, Creates};
ghost use Rattle.host_core.specs.Tables.{state_of};
ghost use Rattle.host_core.specs.Whole.{IsHost, IsWhole};
ghost use Rattle.host_core.specs.Touching.{HostTouches, TouchesBy};

use crate::host::Host;
use crate::moving::zero_run;
use crate::queue::Queue;
use crate::queues::{host_state, next_identifier};
use crate::tables::HostTables;
use admin_commands::{AdminKind, entry};
use machine_model::words::{HostState, Refusal};
use page_ledger::Owner;
use page_memory::{Half, PAGE_BYTES, PageNo, Store};
use queue_pair::{HostPair, half_pages};
use std::alloc::Allocator;

/// What a creation gets: an identifier of queue 0, and the first page of the half.
#[derive(Clone, Copy)]
struct Creation {
    cid: u16,
    first: PageNo,
}

impl<A: Allocator> HostTables<A> {
    /// Whether a command of a queue is outstanding under an identifier.
    fn has_command(&self, q: u16, cid: u16) -> bool
        ensures { result ≡ is_some (find (is_at q cid) (records_of self.now.records.rows)) }
    {
        match self.records.get(q, cid) {
            Some(_) => true,
            None => false,
        }
    }

    /// Whether a command of a queue is outstanding.
    fn has_commands(&self, q: u16) -> bool
        requires { IsHost (tables_of self.now []) }
        ensures { result ≡ list_any (λ r. r.q == q) (records_of self.now.records.rows) }
    {
        for cid in 0..self.entries - 1 {
            if self.has_command(q, cid) {
                return true;
            }
        }
        false
    }

    /// Whether something about the named queue rules out the creation of its completion queue.
    pub(crate) fn check_create_cq(&self, q: u16) -> Result<(), Refusal>
        requires { IsHost (tables_of self.now []) }
        ensures free { OnOk result ((pages : Pages) → first_passing (named_causes (state_of (tables_of self.now pages)) (kinds.CreateCq q 0 0 None)) ≡ None) }
        ensures refused { IfErr result (λ why. (pages : Pages) (vector : Option ℕ) → Refuses (state_of (tables_of self.now pages)) (events.CreateCq q vector) why []) }
    {
        if q == 0 {
            return Err(Refusal::NoQueue);
        }
        match host_state(&self.queues, q) {
            None => return Err(Refusal::NoQueue),
            Some(HostState::Gone) => {}
            Some(_) => return Err(Refusal::WrongState),
        }
        if self.has_commands(q) {
            return Err(Refusal::Outstanding);
        }
        Ok(())
    }

    /// Whether something about the named queue rules out the creation of its submission queue.
    pub(crate) fn check_create_sq(&self, q: u16) -> Result<(), Refusal>
        requires { IsHost (tables_of self.now []) }
        ensures free { OnOk result ((pages : Pages) → first_passing (named_causes (state_of (tables_of self.now pages)) (kinds.CreateSq q 0 0)) ≡ None) }
        ensures refused { IfErr result (λ why. (pages : Pages) → Refuses (state_of (tables_of self.now pages)) (events.CreateSq q) why []) }
    {
        if q == 0 {
            return Err(Refusal::NoQueue);
        }
        match host_state(&self.queues, q) {
            None => return Err(Refusal::NoQueue),
            Some(HostState::HalfMade) => {}
            Some(_) => return Err(Refusal::WrongState),
        }
        if self.awaits_deletion(q) {
            return Err(Refusal::WrongState);
        }
        Ok(())
    }

    /// Whether something about the named queue rules out the making of its half.
    fn check_half(&self, q: u16, half: Half) -> Result<(), Refusal>
        requires { IsHost (tables_of self.now []) }
        ensures free { OnOk result ((pages : Pages) → first_passing (named_causes (state_of (tables_of self.now pages)) (creation half q 0 0 None)) ≡ None) }
        ensures refused { IfErr result (λ why. (pages : Pages) (vector : Option ℕ) → Refuses (state_of (tables_of self.now pages)) (creating half q vector) why []) }
    {
        match half {
            Half::Completion => self.check_create_cq(q),
            Half::Submission => self.check_create_sq(q),
        }
    }

    /// Whether something rules out the making of a half of a queue, and what it gets where nothing does.
    fn check_create(&self, q: u16, half: Half) -> Result<Creation, Refusal>
        requires { IsHost (tables_of self.now []) }
        ensures ready { IfOk result (λ creation. Over self.now (λ t. CanCreate t half q creation.cid creation.first)) }
        ensures refused { IfErr result (λ why. Over self.now (λ t. (vector : Option ℕ) → Refuses (state_of t) (creating half q vector) why [])) }
    {
        match self.check_half(q, half) {
            Ok(()) => {}
            Err(why) => return Err(why),
        }
        let Some(cid) = next_identifier(&self.queues, 0) else {
            return Err(Refusal::NoIdentifier);
        };
        let need = half_pages(self.entries, half);
        let Some(first) = self.ledger.lowest_run(need) else {
            return Err(Refusal::NoRun { need });
        };
        if self.is_queue_full(0) {
            return Err(Refusal::QueueFull);
        }
        Ok(Creation { cid, first })
    }
}

/// Notes that a queue is granted a half, starting at a page: its rings are as they open.
fn make<A: Allocator>(queue: &mut Queue<HostPair<A>>, half: Half, first: PageNo)
    ensures { queue.new ≡ making half first queue.old }
{
    match half {
        Half::Completion => {
            let sq = queue.host.first_page(Half::Submission);
            queue.host.renew(sq, first);
            queue.state = HostState::MakingCq;
        }
        Half::Submission => {
            let cq = queue.host.first_page(Half::Completion);
            queue.host.renew(first, cq);
            queue.state = HostState::MakingSq;
        }
    }
}

/// The command that makes a half of a queue, of this many entries, starting at a page; a completion half is polled, or has interrupts on a vector.
fn command(half: Half, q: u16, entries: u16, first: PageNo, vector: Option<u16>) -> AdminKind
    requires { first < 65536 }
    ensures { result ≡ creation half q entries first vector }
{
    let base = PAGE_BYTES as u64 * u64::from(first.0);
    match half {
        Half::Completion => AdminKind::CreateCq {
            q,
            entries,
            base,
            vector,
        },
        Half::Submission => AdminKind::CreateSq { q, entries, base },
    }
}

impl<A: Allocator + Copy> HostTables<A> {
    /// Grants a queue a half, whose pages are made zero.
    fn grant_half(&mut self, store: &mut Store<A>, q: u16, half: Half, first: PageNo)
        requires whole { IsWhole (tables_of self.old store.old.pages) }
        requires run { run_for (state_of (tables_of self.old store.old.pages)) half ≡ Some first }
        requires there { q < length self.old.queues.items }
        ensures granted { tables_of self.new store.new.pages ≡ granted half q first (tables_of self.old store.old.pages) }
        ensures touches { TouchesBy (pages_of_half self.old.entries half) store.old store.new }
    {
        let need = half_pages(self.entries, half);
        self.ledger
            .grant_run(Owner::Queue { q, half }, need)
            .unwrap();
        zero_run(store, first, need);
        make(&mut self.queues[usize::from(q)], half, first);
    }

    /// Grants the half, and sends the command that makes it.
    fn commit_create(
        &mut self,
        store: &mut Store<A>,
        q: u16,
        half: Half,
        vector: Option<u16>,
        creation: Creation,
    )
        requires whole { IsWhole (tables_of self.old store.old.pages) }
        requires ready { CanCreate (tables_of self.old store.old.pages) half q creation.cid creation.first }
        ensures creates { Creates (tables_of self.old store.old.pages) half q vector creation.cid creation.first (tables_of self.new store.new.pages) }
        ensures touches { TouchesBy (pages_of_half self.old.entries half + 1) store.old store.new }
    {
        let Creation { cid, first } = creation;
        self.grant_half(store, q, half, first);
        let kind = command(half, q, self.entries, first, vector);
        self.note_sent(kind, cid);
        self.post(store, 0, entry(kind, cid));
    }
}

impl<A: Allocator + Copy> Host<A> {
    /// Makes a half of a queue, where nothing rules it out.
    fn create(
        &mut self,
        store: &mut Store<A>,
        q: u16,
        half: Half,
        vector: Option<u16>,
    ) -> Result<u16, Refusal>
        requires { IsOver self.old store.old.pages }
        ensures step { HostStep self.old store.old.pages (creating half q vector) (send_reply result) self.new store.new.pages }
        ensures touches { HostTouches self.old.entries store.old (creating half q vector) (send_reply result) store.new }
        ensures identifier { IfOk result (λ id. IsLowest self.old.host 0 id) }
        ensures over { IsOver self.new store.new.pages }
    {
        let creation = match self.parts.check_create(q, half) {
            Ok(creation) => creation,
            Err(why) => return Err(why),
        };
        let cid = creation.cid;
        self.parts.commit_create(store, q, half, vector, creation);
        Ok(cid)
    }

    /// Makes the completion queue of a queue that is gone (NVM Express Base Specification 2.0, "Create I/O Completion Queue command",
    /// section 5.4): its half is granted, in and zero, and the command that creates it is posted at the tail of queue 0 under the
    /// identifier that is answered, the lowest that is free. It has interrupts on a vector, or is polled: the command tells the device so, and
    /// interrupts are the caller's.
    ///
    /// # Errors
    ///
    /// Nothing changed. 1. `NoQueue` for queue 0 and an unknown queue. 2. `WrongState` where the queue is not gone. 3. `Outstanding` where a
    /// command of the queue is outstanding. 4. `NoIdentifier` where each identifier of queue 0 is outstanding. 5. `NoRun` where no run of so
    /// many consecutive pages is free. 6. `QueueFull` where the submission ring of queue 0 is full.
    pub fn create_cq(
        &mut self,
        store: &mut Store<A>,
        q: u16,
        vector: Option<u16>,
    ) -> Result<u16, Refusal>
        requires { IsOver self.old store.old.pages }
        ensures step { HostStep self.old store.old.pages (events.CreateCq q vector) (send_reply result) self.new store.new.pages }
        ensures touches { HostTouches self.old.entries store.old (events.CreateCq q vector) (send_reply result) store.new }
        ensures identifier { IfOk result (λ id. IsLowest self.old.host 0 id) }
        ensures over { IsOver self.new store.new.pages }
    {
        self.create(store, q, Half::Completion, vector)
    }

    /// Makes the submission queue of a queue that is half made (NVM Express Base Specification 2.0, "Create I/O Submission Queue
    /// command", section 5.5): its half is granted, in and zero, and the command that creates it is posted at the tail
    /// of queue 0 under the identifier that is answered, the lowest that is free.
    ///
    /// # Errors
    ///
    /// Nothing changed. 1. `NoQueue` for queue 0 and an unknown queue. 2. `WrongState` where the queue is not half made, or the deletion of its
    /// completion queue is outstanding. 3. `NoIdentifier` where each identifier of queue 0 is outstanding. 4. `NoRun` where no run of so
    /// many consecutive pages is free. 5. `QueueFull` where the submission ring of queue 0 is full.
    pub fn create_sq(&mut self, store: &mut Store<A>, q: u16) -> Result<u16, Refusal>
        requires { IsOver self.old store.old.pages }
        ensures step { HostStep self.old store.old.pages (events.CreateSq q) (send_reply result) self.new store.new.pages }
        ensures touches { HostTouches self.old.entries store.old (events.CreateSq q) (send_reply result) store.new }
        ensures identifier { IfOk result (λ id. IsLowest self.old.host 0 id) }
        ensures over { IsOver self.new store.new.pages }
    {
        self.create(store, q, Half::Submission, None)
    }
}
