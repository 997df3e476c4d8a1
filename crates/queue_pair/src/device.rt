//! The controller's side of a queue pair.

ghost use Rattle.std.specs.Prelude.{◌≡◌, ◌≢◌, ◌<◌, ◌≤◌, ◌↔◌, ◌++◌, ◌∷◌, [], Err, IfOk, IfSome, IsErr, IsOk, IsSome, IsNone, IsTrue, IsFalse, OnOk, OnErr, Some, None, length};
ghost use Rattle.page_memory.specs.Memory.{Memory, written};
ghost use Rattle.entry_codec.specs.Completion.{completion_bytes, FitsCompletion};
ghost use Rattle.queue_pair.specs.Positions.{controller_positions};
ghost use Rattle.queue_pair.specs.Slots.{is_full, is_in_range};
ghost use Rattle.queue_pair.specs.Rings.{HostSide, IsHostSide, IsControllerSide, first_page_at, fresh_controller_ring, hearing_tail, hearing_head, entry_taken, completion_posted};
ghost use Rattle.queue_pair.specs.Memory.{completion_place, submission_page, completion_page, submission_slot, completion_slot, entry_at, phased};
ghost use Rattle.queue_pair.specs.Lists.{unfetched, rung, posted_completions, front, IsPair, HasPhases, AreTied};

use crate::fault::{BadBell, PostFault, SlotOut};
use crate::image::completion_image;
use crate::positions::ControllerPositions;
use crate::slots::{completion_address, lies_between, phase_after, slot_after, submission_address};
use entry_codec::{ComEntry, SubEntry};
use page_memory::{Dma, Half, PageNo};
use std::marker::Model;

/// The controller's side of a queue pair: where it takes entries and posts completions, and what doorbells told it.
#[derive(Clone, Copy)]
pub struct DevicePair {
    q: u16,
    entries: u16,
    sq: PageNo,
    cq: PageNo,
    head: u16,
    bell: u16,
    tail: u16,
    phase: bool,
    known_head: u16,
}

impl Model for DevicePair {
    ghost use Rattle.queue_pair.specs.Rings.{ControllerSide};

    ghost Value = { ControllerSide };

    ghost use Rattle.queue_pair.specs.Rings.{IsControllerSide};
    ghost use Rattle.queue_pair.specs.Views.{controller_side, controller_inside};

    ghost view = { controller_side };

    ghost invariant = { λ pair. IsControllerSide (controller_side pair) };

    ghost inverse = { controller_inside };
}

impl DevicePair {
    /// The controller's side of queue `q` with this many entries in each ring, whose halves begin at the pages `sq` and `cq`. Nothing
    /// is announced, and the first completion is posted with phase 1.
    pub fn open(q: u16, entries: u16, sq: PageNo, cq: PageNo) -> DevicePair
        requires least { 2 ≤ entries }
        requires most { entries ≤ 1024 }
        ensures { result ≡ record { q = q; entries = entries; sq = sq; cq = cq; ring = fresh_controller_ring } }
    {
        DevicePair {
            q,
            entries,
            sq,
            cq,
            head: 0,
            bell: 0,
            tail: 0,
            phase: true,
            known_head: 0,
        }
    }

    /// Makes the side as [`DevicePair::open`] makes one, over halves that begin at the pages `sq` and `cq`: nothing is announced, and the
    /// first completion is posted with phase 1. The number of the queue and of its entries stay.
    pub fn renew(&mut self, sq: PageNo, cq: PageNo)
        ensures renewed { self.new ≡ record self.old { sq = sq; cq = cq; ring = fresh_controller_ring } }
        ensures proper { IsControllerSide self.new }
    {
        *self = DevicePair::open(self.q, self.entries, sq, cq);
    }

    /// The entries of each ring.
    pub fn entries(&self) -> u16
        ensures { result ≡ self.now.entries }
    {
        self.entries
    }

    /// The first page of a half.
    pub fn first_page(&self, half: Half) -> PageNo
        ensures { result ≡ first_page_at half self.now }
    {
        match half {
            Half::Submission => self.sq,
            Half::Completion => self.cq,
        }
    }

    /// Where the controller stands in both rings, and what doorbells told it.
    pub fn positions(&self) -> ControllerPositions
        ensures { result ≡ controller_positions self.now.ring }
    {
        ControllerPositions {
            submission_head: self.head,
            tail_doorbell: self.bell,
            completion_tail: self.tail,
            phase: self.phase,
            head_doorbell: self.known_head,
        }
    }

    /// Reads the tail doorbell of the submission queue.
    ///
    /// # Errors
    ///
    /// `BadBell` exactly where the value is n or more. Then nothing changed.
    pub fn tail_bell(&mut self, value: u16) -> Result<(), BadBell>
        ensures fits { IsOk result ↔ (value < self.old.entries) }
        ensures heard { OnOk result (self.new ≡ record self.old { ring = hearing_tail value self.old.ring }) }
        ensures refused { OnErr result (self.new ≡ self.old) }
    {
        if value >= self.entries {
            return Err(BadBell);
        }
        self.bell = value;
        Ok(())
    }

    /// Reads the head doorbell of the completion queue.
    ///
    /// # Errors
    ///
    /// `BadBell` exactly where the value lies outside the known head to the tail of the completion ring in ring order, both ends
    /// inside. Then nothing changed.
    pub fn head_bell(&mut self, value: u16) -> Result<(), BadBell>
        ensures fits { IsOk result ↔ IsTrue (is_in_range self.old.entries self.old.ring.known_head self.old.ring.tail value) }
        ensures heard { OnOk result (self.new ≡ record self.old { ring = hearing_head value self.old.ring }) }
        ensures refused { OnErr result (self.new ≡ self.old) }
    {
        if !lies_between(self.entries, self.known_head, self.tail, value) {
            return Err(BadBell);
        }
        self.known_head = value;
        Ok(())
    }

    /// The submission head: the number of entries taken, modulo n.
    pub fn head(&self) -> u16
        ensures head { result ≡ self.now.ring.head }
        ensures proper { IsControllerSide self.now }
    {
        self.head
    }

    /// Looks at the first entry that was announced and not taken, if there is one.
    ///
    /// # Errors
    ///
    /// `SlotOut` exactly where there is one and a byte of its slot is missing from the memory. Then nothing changed.
    pub fn next_entry<D: Dma>(&self, dma: &mut D) -> Result<Option<SubEntry>, SlotOut>
        requires room { length (D.reached dma.old) ≤ 2 }
        ensures front { IfOk result (λ entry. entry ≡ front (rung (D.memory dma.old) self.now)) }
        ensures rung { IfOk result (λ entry. IsSome entry ↔ (self.now.ring.head ≢ self.now.ring.bell)) }
        ensures entry { IfOk result (λ entry. IfSome entry (λ e. entry_at (D.memory dma.old) self.now.sq self.now.ring.head ≡ Some e)) }
        ensures out { IsErr result ↔ ((self.now.ring.head ≢ self.now.ring.bell) × (submission_slot (D.memory dma.old) self.now.sq self.now.ring.head ≡ None)) }
        ensures touched { IfOk result (λ entry. IsSome entry → D.reached dma.new ≡ D.reached dma.old ++ submission_page self.now.sq self.now.ring.head ∷ []) }
        ensures untouched { IfOk result (λ entry. IsNone entry → D.reached dma.new ≡ D.reached dma.old) }
        ensures refused { OnErr result (D.reached dma.new ≡ D.reached dma.old) }
        ensures memory { D.memory dma.new ≡ D.memory dma.old }
        ensures unlisted { D.unlisted dma.new ≡ D.unlisted dma.old }
        ensures pool { D.page_count dma.new ≡ D.page_count dma.old }
    {
        if self.head == self.bell {
            return Ok(None);
        }
        let mut bytes = [0; 64];
        match dma.read(submission_address(self.sq, self.head), &mut bytes) {
            Ok(()) => {}
            Err(_) => return Err(SlotOut),
        }
        Ok(Some(SubEntry::read(&bytes)))
    }

    /// Takes the first entry that was announced.
    pub fn take(&mut self)
        requires { self.old.ring.head ≢ self.old.ring.bell }
        ensures taken { self.new ≡ record self.old { ring = entry_taken self.old.entries self.old.ring } }
        ensures rung { (m : Memory) → rung m self.old ≡ entry_at m self.old.sq self.old.ring.head ∷ rung m self.new }
        ensures unfetched { (m : Memory) (host : HostSide) → IsPair host self.old → IsHostSide host → self.old.ring.head ≢ host.ring.tail
            → unfetched m host self.old ≡ entry_at m self.old.sq self.old.ring.head ∷ unfetched m host self.new }
    {
        self.head = slot_after(self.entries, self.head);
    }

    /// Whether n - 1 slots lie from the known head to the tail, so that no completion can be posted.
    pub fn is_full(&self) -> bool
        ensures { result ≡ is_full self.now.entries self.now.ring.known_head self.now.ring.tail }
    {
        slot_after(self.entries, self.tail) == self.known_head
    }

    /// The address of the slot that the next completion goes to.
    pub fn post_address(&self) -> u64
        ensures { result ≡ completion_place self.now.cq self.now.ring.tail }
    {
        completion_address(self.cq, self.tail)
    }

    /// Puts a completion, with its phase bit set to the phase of this pass, into the slot at the tail.
    ///
    /// # Errors
    ///
    /// 1. `Full` exactly where n - 1 slots lie from the known head to the tail. 2. `SlotOut` exactly where there is room and a byte of
    /// the slot is missing from the memory. Then nothing changed.
    pub fn post<D: Dma>(&mut self, dma: &mut D, completion: ComEntry) -> Result<(), PostFault>
        requires fits { FitsCompletion completion }
        requires room { length (D.reached dma.old) ≤ 2 }
        ensures full { (result ≡ Err PostFault.Full) ↔ IsTrue (is_full self.old.entries self.old.ring.known_head self.old.ring.tail) }
        ensures out { (result ≡ Err PostFault.SlotOut) ↔ (IsFalse (is_full self.old.entries self.old.ring.known_head self.old.ring.tail) × (completion_slot (D.memory dma.old) self.old.cq self.old.ring.tail ≡ None)) }
        ensures tail { OnOk result (self.new ≡ record self.old { ring = completion_posted self.old.entries self.old.ring }) }
        ensures written { OnOk result (D.memory dma.new ≡ written (D.memory dma.old) (completion_place self.old.cq self.old.ring.tail) (completion_bytes (phased self.old.ring.phase completion))) }
        ensures touched { OnOk result (D.reached dma.new ≡ D.reached dma.old ++ completion_page self.old.cq self.old.ring.tail ∷ []) }
        ensures appended { OnOk result ((host : HostSide) → IsPair host self.old → IsHostSide host → IsFalse (is_full host.entries host.ring.head self.old.ring.tail)
            → posted_completions (D.memory dma.new) host self.new ≡ posted_completions (D.memory dma.old) host self.old ++ Some (phased self.old.ring.phase completion) ∷ []) }
        ensures phases { OnOk result (HasPhases (D.memory dma.old) self.old → HasPhases (D.memory dma.new) self.new) }
        ensures tied { OnOk result ((host : HostSide) → IsPair host self.old → IsHostSide host → IsFalse (is_full host.entries host.ring.head self.old.ring.tail) → AreTied host self.old → AreTied host self.new) }
        ensures refused { OnErr result ((self.new ≡ self.old) × (D.memory dma.new ≡ D.memory dma.old) × (D.reached dma.new ≡ D.reached dma.old)) }
        ensures unlisted { D.unlisted dma.new ≡ D.unlisted dma.old }
        ensures pool { D.page_count dma.new ≡ D.page_count dma.old }
    {
        if self.is_full() {
            return Err(PostFault::Full);
        }
        let bytes = completion_image(ComEntry {
            phase: self.phase,
            ..completion
        });
        match dma.write(completion_address(self.cq, self.tail), &bytes) {
            Ok(()) => {}
            Err(_) => return Err(PostFault::SlotOut),
        }
        self.phase = phase_after(self.entries, self.tail, self.phase);
        self.tail = slot_after(self.entries, self.tail);
        Ok(())
    }
}
