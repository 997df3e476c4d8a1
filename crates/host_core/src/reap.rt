//! The host reaps a completion.

ghost use Rattle.std.specs.Prelude.{◌≡◌, ◌<◌, [], true, false, Some, IfOk, IfErr, length, slice_get};
ghost use Rattle.machine_model.specs.Events as events;
ghost use Rattle.machine_model.specs.Step.{reaped_as, reaped_entry};
ghost use Rattle.page_memory.specs.Pages.{Pages};
ghost use Rattle.queue_pair.specs.Slots.{is_in_range};
ghost use Rattle.host_core.specs.Alone.{HostStep, HostView, IsOver};
ghost use Rattle.host_core.specs.Commands.{Claims};
ghost use Rattle.host_core.specs.Halves.{HasHalf, HasMeant};
ghost use Rattle.host_core.specs.Parts.{tables_of, Becomes, Over};
ghost use Rattle.host_core.specs.Reaping.{consumed, ended_with, heard, lacks_completion, meant, over, seen_at, state_deleted, with_completion_heard, with_completion_taken, without_completion, Answered, FitsHead, ReapsTo};
ghost use Rattle.host_core.specs.Replies.{reap_reply};
ghost use Rattle.host_core.specs.Ringing.{head_of, head_rung};
ghost use Rattle.host_core.specs.Tables.{state_of};
ghost use Rattle.host_core.specs.Whole.{IsHost, IsWhole};
ghost use Rattle.host_core.specs.Touching.{HostTouches};

use crate::host::Host;
use crate::queue::Queue;
use crate::queues::{has_cq_alone, has_no_completion, host_state, note};
use crate::release::unclaim;
use crate::tables::HostTables;
use admin_commands::AdminKind;
use entry_codec::{ComEntry, Status};
use machine_model::words::{HostState, Reaped, Refusal, RejectedFor};
use page_memory::{Half, Store};
use queue_pair::{HostPair, half_pages};
use std::alloc::Allocator;

/// What a reap answers.
#[derive(Clone, Copy, Debug, PartialEq, Eq)]
pub struct Reap {
    /// What was found.
    pub found: Reaped,
    /// Where a completion was taken, the value for the completion queue's head doorbell.
    pub head: Option<u16>,
}

/// Moves a queue's completion head past one completion.
fn take_completion<A: Allocator>(queue: &mut Queue<HostPair<A>>)
    ensures { queue.new ≡ with_completion_taken queue.old }
{
    queue.host.advance();
}

/// Moves a queue's completion head past one completion, and the submission head that is known to the one that it tells.
fn accept_completion<A: Allocator>(queue: &mut Queue<HostPair<A>>, sqhd: u16)
    requires { is_in_range queue.old.host.entries queue.old.host.ring.known_head queue.old.host.ring.tail sqhd ≡ true }
    ensures { queue.new ≡ with_completion_heard sqhd queue.old }
{
    queue.host.advance();
    queue.host.accept_head(sqhd).unwrap();
}

/// What the end of a command of a queue is told as.
fn told(q: u16, entry: ComEntry) -> Reaped
    ensures { result ≡ reaped_as q entry }
{
    let ComEntry {
        cid,
        status,
        dw0,
        ..
    } = entry;
    if q == 0 {
        Reaped::AdminDone { cid, status, dw0 }
    } else {
        Reaped::Done { cid, status }
    }
}

/// What the host knows of a queue once the deletion of its submission side has ended.
fn deleted(status: Status) -> HostState
    ensures { result ≡ state_deleted status }
{
    if status.is_success() {
        HostState::Deleting { noted: true }
    } else {
        HostState::Live
    }
}

impl<A: Allocator> HostTables<A> {
    /// The command that the host sent itself and that a completion is for, if it is one; an error tells why it is for no command at
    /// all.
    fn find_completed(&self, q: u16, entry: ComEntry) -> Result<Option<AdminKind>, RejectedFor>
        requires there { lacks_completion (slice_get self.now.queues.items q) ≡ false }
        ensures answered { IfOk result (λ kind. (pages : Pages) → Answered (tables_of self.now pages) q entry kind) }
        ensures rejected { IfErr result (λ why. Over self.now (λ t. reaped_entry (state_of t) q entry ≡ Reaped.Rejected why)) }
    {
        if entry.sqid != q {
            return Err(RejectedFor::WrongQueue);
        }
        if !self.queues[usize::from(q)].host.head_fits(entry.sqhd) {
            return Err(RejectedFor::BadHead);
        }
        let Some(command) = self.records.get(q, entry.cid) else {
            return Err(RejectedFor::UnknownId);
        };
        if command.is_submitted() {
            Ok(command.kind())
        } else {
            Err(RejectedFor::UnknownId)
        }
    }

    /// Passes over the completion at a queue's head, which is for no command.
    fn reject(&mut self, q: u16)
        requires { q < length self.old.queues.items }
        ensures { Becomes self.old (consumed q) self.new }
    {
        take_completion(&mut self.queues[usize::from(q)]);
    }

    /// Takes the completion at a queue's head, which is for a command, and learns the submission head from it.
    fn accept(&mut self, q: u16, entry: ComEntry)
        requires there { q < length self.old.queues.items }
        requires head { FitsHead self.old.queues.items q entry.sqhd }
        ensures { Becomes self.old (heard q entry.sqhd) self.new }
    {
        accept_completion(&mut self.queues[usize::from(q)], entry.sqhd);
    }

    /// Takes the completion of a command, and notes how the command ended and what it hints at.
    fn hold_command(&mut self, q: u16, entry: ComEntry)
        requires there { q < length self.old.queues.items }
        requires head { FitsHead self.old.queues.items q entry.sqhd }
        ensures { Becomes self.old (ended_with q entry.sqhd entry.cid entry.status entry.hints) self.new }
    {
        self.accept(q, entry);
        self.hold(q, entry.cid, entry.status, entry.hints);
    }

    /// Takes the completion of a command that the host sent itself, and forgets the command.
    fn end_command(&mut self, q: u16, entry: ComEntry)
        requires there { q < length self.old.queues.items }
        requires head { FitsHead self.old.queues.items q entry.sqhd }
        requires claimed { Claims self.old.queues.items q entry.cid }
        ensures { Becomes self.old (over q entry.sqhd entry.cid) self.new }
    {
        self.accept(q, entry);
        self.forget(q, entry.cid);
        unclaim(&mut self.queues, q, entry.cid);
    }

    /// Gives a queue's completion half back.
    fn give_back_completion(&mut self, q: u16)
        requires { HasHalf (tables_of self.old []) q Half.Completion }
        ensures { Becomes self.old (without_completion q) self.new }
    {
        let pages = half_pages(self.entries, Half::Completion);
        let first = self.queues[usize::from(q)]
            .host
            .first_page(Half::Completion);
        self.ledger.give_back_run(q, Half::Completion, first, pages);
        note(&mut self.queues, q, HostState::Gone);
    }

    /// Does what the end of such a command means for the queue that it names.
    fn apply(&mut self, kind: AdminKind, status: Status)
        requires { HasMeant kind (tables_of self.old []) }
        ensures { Becomes self.old (meant kind status) self.new }
    {
        match kind {
            AdminKind::Abort { q: _, cid: _ } => {}
            AdminKind::DeleteSq { q } => note(&mut self.queues, q, deleted(status)),
            AdminKind::DeleteCq { q } => {
                if status.is_success() && has_cq_alone(host_state(&self.queues, q)) {
                    self.give_back_completion(q);
                }
            }
            AdminKind::CreateCq { q, .. } => {
                if status.is_success() {
                    note(&mut self.queues, q, HostState::HalfMade);
                } else {
                    self.give_back_completion(q);
                }
            }
            AdminKind::CreateSq { q, .. } => {
                if status.is_success() {
                    note(&mut self.queues, q, HostState::Live);
                } else {
                    self.give_back_submission(q, HostState::HalfMade);
                }
            }
        }
    }

    /// Ends the command that a completion is for.
    fn end(&mut self, q: u16, entry: ComEntry, kind: Option<AdminKind>) -> Reaped
        requires host { IsHost (tables_of self.old []) }
        requires there { lacks_completion (slice_get self.old.queues.items q) ≡ false }
        requires answered { (pages : Pages) → Answered (tables_of self.old pages) q entry kind }
        ensures reaps { (pages : Pages) → IsWhole (tables_of self.old pages) → seen_at (tables_of self.old pages) q ≡ Some entry → ReapsTo (tables_of self.old pages) q result (tables_of self.new pages) }
        ensures taken { (view : HostView) → head_rung view q result ≡ head_of view q }
        ensures many { length self.new.queues.items ≡ length self.old.queues.items }
    {
        match kind {
            None => self.hold_command(q, entry),
            Some(kind) => {
                self.end_command(q, entry);
                self.apply(kind, entry.status);
            }
        }
        told(q, entry)
    }

    /// Decides whether the completion at a queue's head ends a command or is rejected.
    fn end_or_reject(&mut self, q: u16, entry: ComEntry) -> Reaped
        requires host { IsHost (tables_of self.old []) }
        requires there { lacks_completion (slice_get self.old.queues.items q) ≡ false }
        ensures reaps { (pages : Pages) → IsWhole (tables_of self.old pages) → seen_at (tables_of self.old pages) q ≡ Some entry → ReapsTo (tables_of self.old pages) q result (tables_of self.new pages) }
        ensures taken { (view : HostView) → head_rung view q result ≡ head_of view q }
        ensures many { length self.new.queues.items ≡ length self.old.queues.items }
    {
        match self.find_completed(q, entry) {
            Ok(kind) => self.end(q, entry, kind),
            Err(why) => {
                self.reject(q);
                Reaped::Rejected(why)
            }
        }
    }
}

impl<A: Allocator> Host<A> {
    /// Looks at the head of a queue's completion ring, and takes the completion there, if there is a new one (NVM Express Base
    /// Specification 2.0, "Common Completion Queue Entry", section 3.3.3.2).
    ///
    /// What is found is `Empty` where there is none. A completion that names another queue, a submission head that does not lie from the known
    /// head to the tail, or no submitted command is `Rejected`: it is taken, and nothing else changes. Any other ends its command: `Done`
    /// tells the identifier of an I/O command and how it ended, and `AdminDone` the same of a command of queue 0, with its double word. The
    /// pages of a command of the caller's stay its own, and it is held until it is collected. One that the host sent itself is over: a queue
    /// that it deletes or makes takes the state that this end means; the completion half of a deleted completion queue that was left alone,
    /// and the half of a failed creation, are given back. The submission head that the completion of a command tells is known from then on.
    /// Where a completion was taken, the head doorbell is to be written.
    ///
    /// # Errors
    ///
    /// `NoQueue` where there is no such queue, or its completion half was given back and the queue is not made again. Then nothing changed.
    pub fn reap(&mut self, store: &mut Store<A>, q: u16) -> Result<Reap, Refusal>
        requires { IsOver self.old store.old.pages }
        ensures step { HostStep self.old store.old.pages (events.Reap q) (reap_reply result) self.new store.new.pages }
        ensures head { IfOk result (λ reap. reap.head ≡ head_rung self.new q reap.found) }
        ensures touches { HostTouches self.old.entries store.old (events.Reap q) (reap_reply result) store.new }
        ensures over { IsOver self.new store.new.pages }
    {
        if has_no_completion(&self.parts.queues, q) {
            return Err(Refusal::NoQueue);
        }
        let Some(entry) = self.parts.see(store, q) else {
            return Ok(Reap {
                found: Reaped::Empty,
                head: None,
            });
        };
        let found = self.parts.end_or_reject(q, entry);
        let head = self.parts.queues[usize::from(q)].host.head_value();
        Ok(Reap {
            found,
            head: Some(head),
        })
    }
}
