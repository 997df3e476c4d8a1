//! The host's side of a queue pair.

ghost use Rattle.std.specs.Prelude.{◌≡◌, ◌≢◌, ◌+◌, ◌-◌, ◌<◌, ◌≤◌, ◌↔◌, ◌++◌, ◌∷◌, [], ℕ, true, false, not, IfOk, IfSome, IfNone, IsErr, IsOk, IsFalse, IsSome, IsTrue, OnOk, OnErr, Some, length, position, slice_get, slice_set};
ghost use Rattle.page_memory.specs.Memory.{Memory, written};
ghost use Rattle.entry_codec.specs.Submission.{submission_bytes, FitsSubmission};
ghost use Rattle.queue_pair.specs.Positions.{host_positions};
ghost use Rattle.queue_pair.specs.Slots.{is_full, is_in_range};
ghost use Rattle.queue_pair.specs.Rings.{ControllerSide, IsHostSide, IsControllerSide, first_page_of, fresh_host_ring, next_tail, next_head, knowing, none_claimed};
ghost use Rattle.queue_pair.specs.Memory.{submission_place, completion_place, submission_page, completion_page, submission_slot, completion_slot, completion_at, new_completion_at};
ghost use Rattle.queue_pair.specs.Lists.{unfetched, posted_completions, front, IsPair, HasPhases, AreTied};

use crate::fault::{BadHead, QueueFull};
use crate::image::submission_image;
use crate::positions::HostPositions;
use crate::slots::{completion_address, lies_between, phase_after, slot_after, submission_address};
use entry_codec::{ComEntry, SubEntry};
use page_memory::{Dma, Half, PageNo};
use slot_table::BitList;
use std::alloc::{AllocError, Allocator, Global};
use std::marker::Model;

/// The host's side of a queue pair: where it posts entries and takes completions, and which identifiers are claimed.
#[derive(Drop)]
pub struct HostPair<A: Allocator = Global> {
    q: u16,
    entries: u16,
    sq: PageNo,
    cq: PageNo,
    head: u16,
    phase: bool,
    known_head: u16,
    tail: u16,
    free: BitList<A>,
}

impl<A: Allocator> Model for HostPair<A> {
    ghost use Rattle.queue_pair.specs.Rings.{HostSide};

    ghost Value = { HostSide };

    ghost use Rattle.queue_pair.specs.Rings.{IsHostSide};
    ghost use Rattle.queue_pair.specs.Views.{host_side};

    ghost view = { host_side };

    ghost invariant = { λ pair. IsHostSide (host_side pair) };
}

impl<A: Allocator + Clone> HostPair<A> {
    /// The host's side of queue `q` with this many entries in each ring, whose halves begin at the pages `sq` and `cq`. Nothing is
    /// posted, the first completion is expected with phase 1, and no identifier is claimed.
    ///
    /// # Errors
    ///
    /// `AllocError` where memory for the table of identifiers is refused.
    pub fn open(alloc: A, q: u16, entries: u16, sq: PageNo, cq: PageNo) -> Result<Self, AllocError>
        requires least { 2 ≤ entries }
        requires most { entries ≤ 1024 }
        ensures queue { IfOk result (λ pair. (pair.q ≡ q) × (pair.entries ≡ entries)) }
        ensures halves { IfOk result (λ pair. (pair.sq ≡ sq) × (pair.cq ≡ cq)) }
        ensures fresh { IfOk result (λ pair. pair.ring ≡ fresh_host_ring) }
        ensures unclaimed { IfOk result (λ pair. pair.claimed ≡ none_claimed (entries - 1)) }
        ensures proper { IfOk result (λ pair. IsHostSide pair) }
    {
        let free = BitList::open(alloc, u32::from(entries - 1))?;
        Ok(HostPair {
            q,
            entries,
            sq,
            cq,
            head: 0,
            phase: true,
            known_head: 0,
            tail: 0,
            free,
        })
    }
}

impl<A: Allocator> HostPair<A> {
    /// Makes the side as [`HostPair::open`] makes one, over halves that begin at the pages `sq` and `cq`: nothing is posted, the first
    /// completion is expected with phase 1, and no identifier is claimed. The number of the queue and of its entries stay. It takes no
    /// memory.
    pub fn renew(&mut self, sq: PageNo, cq: PageNo)
        ensures renewed { self.new ≡ record self.old { sq = sq; cq = cq; ring = fresh_host_ring; claimed = none_claimed (self.old.entries - 1) } }
        ensures proper { IsHostSide self.new }
    {
        self.sq = sq;
        self.cq = cq;
        self.restart();
        self.free.fill(true);
    }

    /// Leaves both rings as [`HostPair::open`] makes them: nothing is posted, and the first completion is expected with phase 1. The halves
    /// and the claimed identifiers stay.
    pub fn restart(&mut self)
        ensures restarted { self.new ≡ record self.old { ring = fresh_host_ring } }
        ensures proper { IsHostSide self.new }
    {
        self.head = 0;
        self.phase = true;
        self.known_head = 0;
        self.tail = 0;
    }

    /// Puts an entry into the slot at the tail and answers that slot. The controller sees it once the tail doorbell is written.
    ///
    /// # Errors
    ///
    /// `QueueFull` exactly where n - 1 slots lie from the known head to the tail. Then nothing changed.
    pub fn post<D: Dma>(&mut self, dma: &mut D, entry: SubEntry) -> Result<u16, QueueFull>
        requires fits { FitsSubmission entry }
        requires there { IsSome (submission_slot (D.memory dma.old) self.old.sq self.old.ring.tail) }
        requires room { length (D.reached dma.old) ≤ 2 }
        ensures full { IsErr result ↔ IsTrue (is_full self.old.entries self.old.ring.known_head self.old.ring.tail) }
        ensures slot { IfOk result (λ slot. slot ≡ self.old.ring.tail) }
        ensures tail { OnOk result (self.new ≡ record self.old { ring = next_tail self.old.entries self.old.ring }) }
        ensures written { OnOk result (D.memory dma.new ≡ written (D.memory dma.old) (submission_place self.old.sq self.old.ring.tail) (submission_bytes entry)) }
        ensures touched { OnOk result (D.reached dma.new ≡ D.reached dma.old ++ submission_page self.old.sq self.old.ring.tail ∷ []) }
        ensures appended { OnOk result ((controller : ControllerSide) → IsPair self.old controller → IsControllerSide controller → IsFalse (is_full controller.entries controller.ring.head self.old.ring.tail)
            → unfetched (D.memory dma.new) self.new controller ≡ unfetched (D.memory dma.old) self.old controller ++ Some entry ∷ []) }
        ensures refused { OnErr result ((self.new ≡ self.old) × (D.memory dma.new ≡ D.memory dma.old) × (D.reached dma.new ≡ D.reached dma.old)) }
        ensures unlisted { D.unlisted dma.new ≡ D.unlisted dma.old }
        ensures pool { D.page_count dma.new ≡ D.page_count dma.old }
    {
        let slot = self.tail;
        let tail = slot_after(self.entries, slot);
        if tail == self.known_head {
            return Err(QueueFull);
        }
        let bytes = submission_image(entry);
        dma.write(submission_address(self.sq, slot), &bytes)
            .unwrap();
        self.tail = tail;
        Ok(slot)
    }

    /// The value for the submission queue's doorbell: its tail.
    pub fn ring_value(&self) -> u16
        ensures tail { result ≡ self.now.ring.tail }
        ensures proper { IsHostSide self.now }
    {
        self.tail
    }

    /// The value for the completion queue's doorbell: its head.
    pub fn head_value(&self) -> u16
        ensures head { result ≡ self.now.ring.head }
        ensures proper { IsHostSide self.now }
    {
        self.head
    }

    /// Where the host stands in both rings.
    pub fn positions(&self) -> HostPositions
        ensures { result ≡ host_positions self.now.ring }
    {
        HostPositions {
            submission_tail: self.tail,
            submission_head: self.known_head,
            completion_head: self.head,
            phase: self.phase,
        }
    }

    /// The first page of a half.
    pub fn first_page(&self, half: Half) -> PageNo
        ensures { result ≡ first_page_of half self.now }
    {
        match half {
            Half::Submission => self.sq,
            Half::Completion => self.cq,
        }
    }

    /// The address of a slot of the completion ring.
    pub fn completion_address(&self, slot: u16) -> u64
        ensures { result ≡ completion_place self.now.cq slot }
    {
        completion_address(self.cq, slot)
    }

    /// The completion at the head, where it is new: where its phase bit is the one that is expected there.
    pub fn peek<D: Dma>(&self, dma: &mut D) -> Option<ComEntry>
        requires there { IsSome (completion_slot (D.memory dma.old) self.now.cq self.now.ring.head) }
        requires room { length (D.reached dma.old) ≤ 2 }
        ensures exact { result ≡ new_completion_at (D.memory dma.old) self.now.cq self.now.ring.head self.now.ring.phase }
        ensures front { (controller : ControllerSide) → IsPair self.now controller → IsControllerSide controller → HasPhases (D.memory dma.old) controller → AreTied self.now controller → result ≡ front (posted_completions (D.memory dma.old) self.now controller) }
        ensures touched { D.reached dma.new ≡ D.reached dma.old ++ completion_page self.now.cq self.now.ring.head ∷ [] }
        ensures memory { D.memory dma.new ≡ D.memory dma.old }
        ensures unlisted { D.unlisted dma.new ≡ D.unlisted dma.old }
        ensures pool { D.page_count dma.new ≡ D.page_count dma.old }
    {
        let mut bytes = [0; 16];
        dma.read(completion_address(self.cq, self.head), &mut bytes)
            .unwrap();
        let entry = ComEntry::read(&bytes);
        if entry.phase == self.phase {
            Some(entry)
        } else {
            None
        }
    }

    /// Takes the completion at the head: the head moves to the next slot, and the expected phase turns at the wrap. The caller
    /// guarantees that [`HostPair::peek`] answers a completion there.
    pub fn advance(&mut self)
        ensures advanced { self.new ≡ record self.old { ring = next_head self.old.entries self.old.ring } }
        ensures dropped { (m : Memory) (controller : ControllerSide) → IsPair self.old controller → IsControllerSide controller → self.old.ring.head ≢ controller.ring.tail
            → posted_completions m self.old controller ≡ completion_at m controller.cq self.old.ring.head ∷ posted_completions m self.new controller }
        ensures tied { (controller : ControllerSide) → IsPair self.old controller → IsControllerSide controller → self.old.ring.head ≢ controller.ring.tail → AreTied self.old controller → AreTied self.new controller }
    {
        self.phase = phase_after(self.entries, self.head, self.phase);
        self.head = slot_after(self.entries, self.head);
    }

    /// Learns the controller's submission head from a completion.
    ///
    /// # Errors
    ///
    /// `BadHead` exactly where the head pointer lies outside the known head to the tail in ring order, both ends inside. Then
    /// nothing changed.
    pub fn accept_head(&mut self, sqhd: u16) -> Result<(), BadHead>
        ensures fits { IsOk result ↔ IsTrue (is_in_range self.old.entries self.old.ring.known_head self.old.ring.tail sqhd) }
        ensures told { OnOk result (self.new ≡ record self.old { ring = knowing sqhd self.old.ring }) }
        ensures refused { OnErr result (self.new ≡ self.old) }
    {
        if !self.head_fits(sqhd) {
            return Err(BadHead);
        }
        self.known_head = sqhd;
        Ok(())
    }

    /// Whether [`HostPair::accept_head`] takes the head pointer.
    pub fn head_fits(&self, sqhd: u16) -> bool
        ensures fits { result ≡ is_in_range self.now.entries self.now.ring.known_head self.now.ring.tail sqhd }
        ensures proper { IsHostSide self.now }
    {
        lies_between(self.entries, self.known_head, self.tail, sqhd)
    }

    /// The lowest free identifier below n - 1, which [`HostPair::claim`] would claim; `None` exactly where each of them is claimed.
    pub fn unclaimed(&self) -> Option<u16>
        ensures lowest { result ≡ position not self.now.claimed }
    {
        let cid = self.free.lowest_from(0)?;
        Some(cid as u16)
    }

    /// Claims the lowest free identifier below n - 1; `None`, with nothing changed, exactly where each of them is claimed.
    pub fn claim(&mut self) -> Option<u16>
        ensures lowest { result ≡ position not self.old.claimed }
        ensures free { IfSome result (λ cid. slice_get self.old.claimed cid ≡ Some false) }
        ensures below { IfSome result (λ cid. (lower : ℕ) → lower < cid → slice_get self.old.claimed lower ≡ Some true) }
        ensures claimed { IfSome result (λ cid. self.new ≡ record self.old { claimed = slice_set self.old.claimed cid true }) }
        ensures owned { IfSome result (λ cid. slice_get self.new.claimed cid ≡ Some true) }
        ensures all_claimed { IfNone result ((cid : ℕ) → cid + 1 < self.old.entries → slice_get self.old.claimed cid ≡ Some true) }
        ensures unchanged { IfNone result (self.new ≡ self.old) }
    {
        let cid = self.unclaimed()?;
        self.free.set(u32::from(cid), false);
        Some(cid)
    }

    /// Frees an identifier that is claimed.
    pub fn free(&mut self, cid: u16)
        requires { slice_get self.old.claimed cid ≡ Some true }
        ensures { self.new ≡ record self.old { claimed = slice_set self.old.claimed cid false } }
    {
        self.free.set(u32::from(cid), true);
    }
}
