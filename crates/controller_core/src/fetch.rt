//! The controller fetches an entry.

ghost use Rattle.std.specs.Prelude.{◌≡◌, ◌≢◌, ◌<◌, ◌+◌, ◌≤◌, ◌==◌, ◌||◌, ◌++◌, ◌∷◌, [], None, Some, true, false, IfOk, IfSome, IfErr, OnOk, OnErr, find, is_some, length, slice_get, vec_len, vec_capacity};
ghost use Rattle.std.specs.Result.{result_err};
ghost use Rattle.block_image.specs.Blocks.{block_count};
ghost use Rattle.entry_codec.specs.declared.status.TheConstants.Status.{COMMAND_ID_CONFLICT};
ghost use Rattle.queue_pair.specs.Memory.{entry_at, submission_page};
ghost use Rattle.controller_core.specs.Posting.{post_refusal_at, post_refusal, completion_by, memory_posted, page_posted, with_posted};
ghost use Rattle.controller_core.specs.Contents.{change, is_command, FitsWork, IsController};
ghost use Rattle.controller_core.specs.Lending.{IsRefusedAfterLook};
ghost use Rattle.controller_core.specs.Fetching.{live_side, side_refusal, look_refusal, entry_refusal, is_known, begun, LooksAt, PostsConflict, Takes, Fetches};
ghost use Rattle.controller_core.specs.Managing.{with_taken, command_of, managed};
ghost use Rattle.controller_core.specs.declared.command.FetchedWork.TheVariants.{Io};

use crate::command::{FetchedCommand, FetchedWork};
use crate::controller::Controller;
use crate::manage::{act, end_of, view_of};
use crate::post::post_completion;
use crate::queue::ControllerQueue;
use crate::refusal::ControllerRefusal;
use admin_commands::{SqState, decide};
use block_image::Blocks;
use entry_codec::{Status, SubEntry};
use io_commands::{Job, begin_job};
use page_memory::Dma;
use queue_pair::DevicePair;
use std::alloc::{AllocError, Allocator};

/// The rings of a queue from which entries are fetched.
fn live_pair(queues: &[ControllerQueue], q: u16) -> Option<DevicePair>
    ensures { result ≡ live_side (slice_get queues.now q) }
{
    let queue = queues.get(usize::from(q))?;
    match queue.state {
        SqState::Live => Some(queue.controller),
        SqState::Absent | SqState::Stopping => None,
    }
}

/// The entry at the head of a ring.
///
/// # Errors
///
/// 1. `Idle`: nothing is rung. 2. `SlotOut`: a byte of its slot is missing.
fn head_entry<D: Dma>(pair: &DevicePair, dma: &mut D) -> Result<SubEntry, ControllerRefusal>
    requires room { length (D.reached dma.old) ≤ 2 }
    ensures refusal { result_err result ≡ side_refusal (D.memory dma.old) pair.now }
    ensures some { IfOk result (λ e. pair.now.ring.head ≢ pair.now.ring.bell) }
    ensures entry { IfOk result (λ e. entry_at (D.memory dma.old) pair.now.sq pair.now.ring.head ≡ Some e) }
    ensures touched { OnOk result (D.reached dma.new ≡ D.reached dma.old ++ submission_page pair.now.sq pair.now.ring.head ∷ []) }
    ensures untouched { OnErr result (D.reached dma.new ≡ D.reached dma.old) }
    ensures memory { D.memory dma.new ≡ D.memory dma.old }
    ensures unlisted { D.unlisted dma.new ≡ D.unlisted dma.old }
    ensures pool { D.page_count dma.new ≡ D.page_count dma.old }
{
    match pair.next_entry(dma) {
        Ok(Some(entry)) => Ok(entry),
        Ok(None) => Err(ControllerRefusal::Idle),
        Err(_) => Err(ControllerRefusal::SlotOut),
    }
}

impl ControllerQueue {
    /// Takes the entry at the head, and posts Command Identifier Conflict for it. Where that is refused nothing changed.
    fn post_conflict<D: Dma>(
        &mut self,
        q: u16,
        cid: u16,
        dma: &mut D,
    ) -> Result<(), ControllerRefusal>
        requires rung { self.old.controller.ring.head ≢ self.old.controller.ring.bell }
        requires room { length (D.reached dma.old) ≤ 2 }
        ensures refusal { result_err result ≡ post_refusal (D.memory dma.old) self.old.controller }
        ensures queue { OnOk result (self.new ≡ with_posted (with_taken self.old)) }
        ensures written { OnOk result (D.memory dma.new ≡ memory_posted (D.memory dma.old) self.old.controller (completion_by q cid COMMAND_ID_CONFLICT 0 (with_taken self.old).controller)) }
        ensures touched { OnOk result (D.reached dma.new ≡ D.reached dma.old ++ page_posted self.old.controller ∷ []) }
        ensures refused { OnErr result ((self.new ≡ self.old) × (D.memory dma.new ≡ D.memory dma.old) × (D.reached dma.new ≡ D.reached dma.old)) }
        ensures unlisted { D.unlisted dma.new ≡ D.unlisted dma.old }
        ensures pool { D.page_count dma.new ≡ D.page_count dma.old }
    {
        let mut pair = self.controller;
        pair.take();
        post_completion(&mut pair, q, cid, Status::COMMAND_ID_CONFLICT, 0, dma)?;
        self.controller = pair;
        Ok(())
    }
}

/// Takes the entry at the head of a queue.
fn take_entry<A: Allocator>(queues: &mut Vec<ControllerQueue, A>, q: u16)
    requires there { q < length queues.old.items }
    requires rung { IfSome (slice_get queues.old.items q) (λ queue. queue.controller.ring.head ≢ queue.controller.ring.bell) }
    ensures { queues.new.items ≡ change q with_taken queues.old.items }
{
    queues[usize::from(q)].controller.take();
}

/// Takes the entry at the head of a queue, and posts Command Identifier Conflict for it. Where that is refused nothing changed.
fn post_conflict_at<A: Allocator, D: Dma>(
    queues: &mut Vec<ControllerQueue, A>,
    q: u16,
    cid: u16,
    dma: &mut D,
) -> Result<(), ControllerRefusal>
    requires there { q < length queues.old.items }
    requires rung { IfSome (slice_get queues.old.items q) (λ queue. queue.controller.ring.head ≢ queue.controller.ring.bell) }
    requires room { length (D.reached dma.old) ≤ 2 }
    ensures refusal { result_err result ≡ post_refusal_at queues.old.items (D.memory dma.old) q }
    ensures posts { OnOk result (PostsConflict queues.old.items q cid (D.memory dma.old) (D.reached dma.old) queues.new.items (D.memory dma.new) (D.reached dma.new)) }
    ensures count { length queues.new.items ≡ length queues.old.items }
    ensures refused { OnErr result ((queues.new.items ≡ queues.old.items) × (D.memory dma.new ≡ D.memory dma.old) × (D.reached dma.new ≡ D.reached dma.old)) }
    ensures unlisted { D.unlisted dma.new ≡ D.unlisted dma.old }
    ensures pool { D.page_count dma.new ≡ D.page_count dma.old }
{
    queues[usize::from(q)].post_conflict(q, cid, dma)
}

/// A command as it is fetched.
fn fetched<A: Allocator>(q: u16, work: FetchedWork<Job<A>>) -> FetchedCommand<Job<A>>
    ensures { result ≡ command_of q work }
{
    FetchedCommand {
        q,
        units_done: 0,
        waiting_abort: None,
        work,
    }
}

impl<A: Allocator + Copy, I: Blocks> Controller<A, I> {
    /// The entry at the head of a queue, or the first cause against it.
    pub(crate) fn look<D: Dma>(&self, q: u16, dma: &mut D) -> Result<SubEntry, ControllerRefusal>
        requires room { length (D.reached dma.old) ≤ 2 }
        ensures refusal { result_err result ≡ look_refusal self.now (D.memory dma.old) q }
        ensures looks { IfOk result (λ e. LooksAt self.now (D.memory dma.old) (D.reached dma.old) q e (D.reached dma.new)) }
        ensures sound { IsController self.now }
        ensures untouched { OnErr result (D.reached dma.new ≡ D.reached dma.old) }
        ensures memory { D.memory dma.new ≡ D.memory dma.old }
        ensures unlisted { D.unlisted dma.new ≡ D.unlisted dma.old }
        ensures pool { D.page_count dma.new ≡ D.page_count dma.old }
    {
        let Some(pair) = live_pair(&self.queues, q) else {
            return Err(ControllerRefusal::Idle);
        };
        head_entry(&pair, dma)
    }

    /// Takes the entry at the head of an I/O queue, and keeps the job that it begins as a command after the others.
    pub(crate) fn keep_job(&mut self, q: u16, job: Job<A>) -> Result<(), AllocError>
        requires there { q < length self.old.queues }
        requires rung { IfSome (slice_get self.old.queues q) (λ queue. queue.controller.ring.head ≢ queue.controller.ring.bell) }
        requires unknown { is_some (find (is_command q job.entry.cid) self.old.commands) ≡ false }
        requires fits { FitsWork (block_count self.old.image) q 0 (Io job) }
        ensures begun { OnOk result (self.new ≡ begun q job self.old) }
        ensures sound { IsController self.new }
        ensures refused { OnErr result (self.new ≡ self.old) }
    {
        self.commands.put(fetched(q, FetchedWork::Io(job)))?;
        take_entry(&mut self.queues, q);
        Ok(())
    }

    /// Takes the entry at the head of queue 0, decides it and does what was decided, and keeps it as a command after the others.
    fn manage_entry(&mut self, pages: u32, entry: SubEntry) -> Result<(), AllocError>
        requires there { 0 < length self.old.queues }
        requires rung { IfSome (slice_get self.old.queues 0) (λ queue. queue.controller.ring.head ≢ queue.controller.ring.bell) }
        requires unknown { is_some (find (is_command 0 entry.cid) self.old.commands) ≡ false }
        ensures managed { OnOk result (self.new ≡ managed pages entry self.old) }
        ensures sound { IsController self.new }
        ensures refused { OnErr result (self.new ≡ self.old) }
    {
        let verdict = decide(
            &entry,
            &view_of(pages, &self.queues, &self.commands, &entry),
        );
        let (status, dw0) = end_of(verdict);
        let cid = entry.cid;
        self.commands
            .put(fetched(0, FetchedWork::Admin { entry, status, dw0 }))?;
        take_entry(&mut self.queues, 0);
        act(&mut self.queues, &mut self.commands, cid, verdict);
        Ok(())
    }

    /// Takes an entry that was looked at, where it begins no job: one whose identifier is known is completed at once, with Command Identifier
    /// Conflict, and one of queue 0 is decided. Whether it was one of these; if not, nothing changed.
    ///
    /// # Errors
    ///
    /// As [`Controller::fetch`], after the look. Then nothing changed.
    pub(crate) fn take_at_once<D: Dma>(
        &mut self,
        q: u16,
        entry: SubEntry,
        dma: &mut D,
    ) -> Result<bool, ControllerRefusal>
        requires there { q < length self.old.queues }
        requires rung { IfSome (slice_get self.old.queues q) (λ queue. queue.controller.ring.head ≢ queue.controller.ring.bell) }
        requires room { length (D.reached dma.old) ≤ 2 }
        ensures taken { IfOk result (λ taken. taken ≡ (is_known self.old q entry || (q == 0))) }
        ensures room { OnOk result (entry_refusal self.old (D.memory dma.old) q entry ≡ None) }
        ensures takes { IfOk result (λ taken. taken ≡ true → Takes (is_known self.old q entry) self.old (D.page_count dma.old) q entry (D.memory dma.old) (D.reached dma.old) self.new (D.memory dma.new) (D.reached dma.new)) }
        ensures leaves { IfOk result (λ taken. taken ≡ false → (self.new ≡ self.old) × (D.memory dma.new ≡ D.memory dma.old) × (D.reached dma.new ≡ D.reached dma.old)) }
        ensures refused { IfErr result (λ why. IsRefusedAfterLook self.old (D.memory dma.old) q entry why) }
        ensures at_once { OnErr result ((is_known self.old q entry || (q == 0)) ≡ true) }
        ensures unchanged { OnErr result ((self.new ≡ self.old) × (D.memory dma.new ≡ D.memory dma.old) × (D.reached dma.new ≡ D.reached dma.old)) }
        ensures sound { IsController self.new }
        ensures unlisted { D.unlisted dma.new ≡ D.unlisted dma.old }
        ensures pool { D.page_count dma.new ≡ D.page_count dma.old }
    {
        if self.commands.get(q, entry.cid).is_some() {
            post_conflict_at(&mut self.queues, q, entry.cid, dma)?;
            return Ok(true);
        }
        if q == 0 {
            self.manage_entry(dma.pool_pages(), entry)?;
            return Ok(true);
        }
        Ok(false)
    }
}

impl<A: Allocator + Copy> Controller<A> {
    /// Fetches the entry at the head of a submission queue: the identifier of its command. An entry of an I/O queue begins a job: where a
    /// field check fails, that is its verdict, and a Read takes its blocks from the image as it is now. An entry of queue 0 is decided
    /// here: an Abort stops its command, the deletion of a submission queue stops that queue and its commands, the deletion of a completion
    /// queue drops it, and a creation makes its queue, with empty rings at the pages that it names. An identifier that was fetched from the
    /// queue and not completed is completed at once, with Command Identifier Conflict. The list of the touched pages has one page at most
    /// before. It gets the entry's page, and after it that of such a completion.
    ///
    /// # Errors
    ///
    /// 1. `Idle`: there is no such queue, nothing is fetched from it, or nothing is rung. 2. `SlotOut`: a byte of the entry's slot is
    /// missing. Where the identifier is completed at once: 3. `Full`: the completion ring is full. 4. `SlotOut`: a byte of the
    /// completion's slot is missing. Else 5. `Memory`, where memory is refused. Then nothing changed but the touched list, which has the
    /// entry's page from the third on.
    pub fn fetch<D: Dma>(&mut self, q: u16, dma: &mut D) -> Result<u16, ControllerRefusal>
        requires room { length (D.reached dma.old) ≤ 1 }
        ensures fetches { Fetches self.old (D.page_count dma.old) (D.memory dma.old) (D.reached dma.old) q result self.new (D.memory dma.new) (D.reached dma.new) }
        ensures sound { IsController self.new }
        ensures unlisted { D.unlisted dma.new ≡ D.unlisted dma.old }
        ensures pool { D.page_count dma.new ≡ D.page_count dma.old }
    {
        let entry = self.look(q, dma)?;
        let cid = entry.cid;
        if self.take_at_once(q, entry, dma)? {
            return Ok(cid);
        }
        let job = begin_job(self.alloc, &entry, &self.image)?;
        self.keep_job(q, job)?;
        Ok(cid)
    }
}
