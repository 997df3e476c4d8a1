//! What the definitions give: the order of a ring, the rings as lists, and the halves in memory. Each function does nothing, and its
//! clauses are the laws.

ghost use Rattle.std.specs.Prelude.{◌≡◌, ◌+◌, ◌-◌, ◌*◌, ◌%◌, ◌<◌, ◌≤◌, ◌↔◌, ◌++◌, ◌∷◌, [], ℕ, Bool, true, false, not, nat_le, if◌then◌else◌, List, IsSome, Some, length};
ghost use Rattle.page_memory.specs.Memory.{Memory, written, pages_reached};
ghost use Rattle.page_memory.specs.Pages.{Pages, page_at, byte_at, zero_page, AreWhole};
ghost use Rattle.page_memory.specs.declared.page.Half.TheVariants.{Submission, Completion};
ghost use Rattle.queue_pair.specs.Slots.{next_slot, distance, is_full, is_in_range, moved};
ghost use Rattle.queue_pair.specs.Rings.{HostSide, ControllerSide, IsHostSide, IsControllerSide, fresh_host_ring, fresh_controller_ring, next_tail, next_head, knowing, hearing_tail, hearing_head, entry_taken, completion_posted, none_claimed};
ghost use Rattle.queue_pair.specs.Memory.{submission_place, completion_place, submission_page, completion_page, submission_slot, completion_slot, half_pages, doorbell_offset};
ghost use Rattle.queue_pair.specs.Lists.{entries_between, completions_from, PhasesStand, expected_phase};
ghost use Rattle.queue_pair.specs.Halves.{IsIn, IsZero, Agree, IsOutside, AreApart};

/// The order of a ring of n slots is that of the remainders by n: so after a number of takes a head is its start plus that number,
/// modulo n.
#[tactic(auto, using(crate::proofs::Rings::next_is_remainder, crate::proofs::Rings::distance_is_remainder, crate::proofs::Rings::moved_is_remainder))]
pub fn order_is_modular()
    ensures next { (n slot : ℕ) → slot < n → next_slot n slot ≡ (slot + 1) % n }
    ensures distance { (n from to : ℕ) → from < n → to < n → distance n from to ≡ (to + n - from) % n }
    ensures moved { (n many slot : ℕ) → slot < n → moved n slot many ≡ (slot + many) % n }
{}

/// Moves stay inside the ring, and n of them come round: the slot from which some number of moves leads to another lies the rest of the ring
/// ahead of that.
#[tactic(auto, using(crate::proofs::Rings::moved_below, crate::proofs::Rings::comes_round, crate::proofs::Rings::comes_apart, crate::proofs::Rings::tail_moved, crate::proofs::Rings::head_moved))]
pub fn moves_come_round()
    ensures inside { (n slot many : ℕ) → slot < n → moved n slot many < n }
    ensures round { (n slot many : ℕ) → slot < n → many ≤ n → moved n (moved n slot (n - many)) many ≡ slot }
    ensures apart { (n slot many : ℕ) → slot < n → many < n → distance n (moved n slot (n - many)) slot ≡ many }
    ensures tail { (n head tail : ℕ) → head < n → tail < n → tail ≡ moved n head (distance n head tail) }
    ensures head { (n head tail : ℕ) → head < n → tail < n → head ≡ moved n tail (n - distance n head tail) }
{}

/// A ring is full where the slot after its tail is its head. Where a head is ahead of the one that is known, there is room as soon
/// as the known one leaves room.
#[tactic(auto, using(crate::proofs::Rings::full_exactly, crate::proofs::Rings::room_ahead))]
pub fn room_is_known()
    ensures full { (n head tail : ℕ) → head < n → tail < n → ((is_full n head tail ≡ true) ↔ (next_slot n tail ≡ head)) }
    ensures ahead { (n known head tail : ℕ) → known < n → tail < n → is_in_range n known tail head ≡ true → is_full n known tail ≡ false → is_full n head tail ≡ false }
{}

/// The lists of a ring: as many as there are slots between the positions, none where the positions are the same, and cut at each position on
/// the way. So the entries that are not fetched are those that were announced, and then those that were not.
#[tactic(auto, using(crate::proofs::Rings::entries_count, crate::proofs::Rings::completions_count, crate::proofs::Rings::entries_none, crate::proofs::Rings::completions_none, crate::proofs::Rings::entries_parts, crate::proofs::Rings::completions_parts))]
pub fn lists_follow_slots()
    ensures entries { (m : Memory) (sq n from to : ℕ) → length (entries_between m sq n from to) ≡ distance n from to }
    ensures answers { (m : Memory) (cq n from to : ℕ) → length (completions_from m cq n from to) ≡ distance n from to }
    ensures no_entries { (m : Memory) (sq n slot : ℕ) → entries_between m sq n slot slot ≡ [] }
    ensures no_answers { (m : Memory) (cq n slot : ℕ) → completions_from m cq n slot slot ≡ [] }
    ensures entries_cut { (m : Memory) (sq n from mid to : ℕ) → from < n → to < n → is_in_range n from to mid ≡ true
        → entries_between m sq n from to ≡ entries_between m sq n from mid ++ entries_between m sq n mid to }
    ensures completions_cut { (m : Memory) (cq n from mid to : ℕ) → from < n → to < n → is_in_range n from to mid ≡ true
        → completions_from m cq n from to ≡ completions_from m cq n from mid ++ completions_from m cq n mid to }
{}

/// Each slot lies in one page, which is a page of its half; it is there where the half's pages are in.
#[tactic(auto, using(crate::proofs::Halves::submission_there, crate::proofs::Halves::completion_there, crate::proofs::Halves::submission_page_within, crate::proofs::Halves::completion_page_within))]
pub fn slots_lie_in_halves()
    ensures entry { (n sq slot : ℕ) → slot < n → submission_page sq slot < sq + half_pages n Submission }
    ensures completion { (n cq slot : ℕ) → slot < n → completion_page cq slot < cq + half_pages n Completion }
    ensures one_page_entry { (sq slot : ℕ) → pages_reached (submission_place sq slot) 64 ≡ submission_page sq slot ∷ [] }
    ensures one_page_completion { (cq slot : ℕ) → pages_reached (completion_place cq slot) 16 ≡ completion_page cq slot ∷ [] }
    ensures entry_there { (m : Memory) (sq n slot : ℕ) → IsIn m sq (half_pages n Submission) → slot < n → IsSome (submission_slot m sq slot) }
    ensures completion_there { (m : Memory) (cq n slot : ℕ) → IsIn m cq (half_pages n Completion) → slot < n → IsSome (completion_slot m cq slot) }
{}

/// Memories that show the same in a half have the same list there, and the same phases.
#[tactic(auto, using(crate::proofs::Halves::entries_agree, crate::proofs::Halves::posted_agree, crate::proofs::Halves::phases_agree))]
pub fn halves_tell_lists()
    ensures entries { (m m' : Memory) (sq n from to : ℕ) → Agree m m' sq (half_pages n Submission) → from < n
        → entries_between m sq n from to ≡ entries_between m' sq n from to }
    ensures answers { (m m' : Memory) (cq n from to : ℕ) → Agree m m' cq (half_pages n Completion) → from < n
        → completions_from m cq n from to ≡ completions_from m' cq n from to }
    ensures phases { (m m' : Memory) (cq n tail : ℕ) (phase : Bool) → Agree m m' cq (half_pages n Completion)
        → PhasesStand m cq n tail phase → PhasesStand m' cq n tail phase }
{}

/// A write outside a half leaves what it shows, and so does a post to the other half of a queue, or to a half of another queue.
#[tactic(auto, using(crate::proofs::Halves::outside_agrees, crate::proofs::Halves::entry_outside, crate::proofs::Halves::completion_outside, crate::proofs::Halves::completions_left, crate::proofs::Halves::entries_left))]
pub fn writes_elsewhere_leave_halves()
    ensures outside { (m : Memory) (place page pages : ℕ) (bytes : List ℕ) → IsOutside place (length bytes) page pages → Agree m (written m place bytes) page pages }
    ensures entry { (sq n slot page pages : ℕ) → slot < n → AreApart sq (half_pages n Submission) page pages → IsOutside (submission_place sq slot) 64 page pages }
    ensures completion { (cq n slot page pages : ℕ) → slot < n → AreApart cq (half_pages n Completion) page pages → IsOutside (completion_place cq slot) 16 page pages }
    ensures answers { (m : Memory) (sq cq n slot from to : ℕ) (bytes : List ℕ) → length bytes ≡ 64 → slot < n → from < n → AreApart sq (half_pages n Submission) cq (half_pages n Completion)
        → completions_from (written m (submission_place sq slot) bytes) cq n from to ≡ completions_from m cq n from to }
    ensures entries { (m : Memory) (sq cq n slot from to : ℕ) (bytes : List ℕ) → length bytes ≡ 16 → slot < n → from < n → AreApart cq (half_pages n Completion) sq (half_pages n Submission)
        → entries_between (written m (completion_place cq slot) bytes) sq n from to ≡ entries_between m sq n from to }
{}

/// Over a pool of whole pages, a half is in where its pages are, is zero where they are pages of zeros, and shows the same where its
/// pages do.
#[tactic(auto, using(crate::proofs::Halves::pages_in, crate::proofs::Halves::pages_zero, crate::proofs::Halves::pages_agree))]
pub fn pools_show_halves()
    ensures pages_in { (pool : Pages) (page pages : ℕ) → AreWhole pool → ((p : ℕ) → p < pages → IsSome (page_at pool (page + p))) → IsIn (byte_at pool) page pages }
    ensures zeros { (pool : Pages) (page pages : ℕ) → ((p : ℕ) → p < pages → page_at pool (page + p) ≡ Some zero_page) → IsZero (byte_at pool) page pages }
    ensures same { (pool other : Pages) (page pages : ℕ) → ((p : ℕ) → p < pages → page_at pool (page + p) ≡ page_at other (page + p)) → Agree (byte_at pool) (byte_at other) page pages }
{}

/// Over pages of zeros the phases stand as the first completion is awaited, and the two sides are tied as they are opened.
#[tactic(auto, using(crate::proofs::Halves::zeros_stand))]
pub fn fresh_rings_stand()
    ensures phases { (m : Memory) (cq n : ℕ) → IsZero m cq (half_pages n Completion) → PhasesStand m cq n fresh_controller_ring.tail fresh_controller_ring.phase }
    ensures tied { fresh_host_ring.phase ≡ expected_phase fresh_host_ring.head fresh_controller_ring.tail fresh_controller_ring.phase }
{}

/// Each move of a side leaves its positions inside the ring, and so does making it anew over other halves.
pub fn moves_stay_inside()
    ensures next_tail { (side : HostSide) → IsHostSide side → IsHostSide (record side { ring = next_tail side.entries side.ring }) }
    ensures next_head { (side : HostSide) → IsHostSide side → IsHostSide (record side { ring = next_head side.entries side.ring }) }
    ensures knowing { (side : HostSide) (head : ℕ) → IsHostSide side → is_in_range side.entries side.ring.known_head side.ring.tail head ≡ true
        → IsHostSide (record side { ring = knowing head side.ring }) }
    ensures hearing_tail { (side : ControllerSide) (tail : ℕ) → IsControllerSide side → tail < side.entries → IsControllerSide (record side { ring = hearing_tail tail side.ring }) }
    ensures hearing_head { (side : ControllerSide) (head : ℕ) → IsControllerSide side → is_in_range side.entries side.ring.known_head side.ring.tail head ≡ true
        → IsControllerSide (record side { ring = hearing_head head side.ring }) }
    ensures entry_taken { (side : ControllerSide) → IsControllerSide side → IsControllerSide (record side { ring = entry_taken side.entries side.ring }) }
    ensures completion_posted { (side : ControllerSide) → IsControllerSide side → IsControllerSide (record side { ring = completion_posted side.entries side.ring }) }
    ensures host_renewed { (side : HostSide) (sq cq : ℕ) → IsHostSide side → IsHostSide (record side { sq = sq; cq = cq; ring = fresh_host_ring; claimed = none_claimed (side.entries - 1) }) }
    ensures controller_renewed { (side : ControllerSide) (sq cq : ℕ) → IsControllerSide side → IsControllerSide (record side { sq = sq; cq = cq; ring = fresh_controller_ring }) }
{}

/// Where two positions lie some number of slots apart, each tells the other; and the phase that the host expects tells the controller's,
/// by whether the answers that are left reach past the wrap. Each side tells the other's phase alike.
#[tactic(auto, using(crate::proofs::Rings::tail_is_remainder, crate::proofs::Rings::head_is_remainder, crate::proofs::Rings::phase_told, crate::proofs::Rings::told_alike))]
pub fn positions_follow_lists()
    ensures tail { (n head tail : ℕ) → head < n → tail < n → tail ≡ (head + distance n head tail) % n }
    ensures head { (n head tail : ℕ) → head < n → tail < n → head ≡ (tail + n - distance n head tail) % n }
    ensures phase { (n head tail : ℕ) (phase : Bool) → head < n → tail < n
        → phase ≡ (if nat_le n (head + distance n head tail) then not (expected_phase head tail phase) else expected_phase head tail phase) }
    ensures alike { (head tail : ℕ) (phase : Bool) → phase ≡ expected_phase head tail (expected_phase head tail phase) }
{}

/// Worked runs of the definitions.
pub fn worked_rings()
    ensures next { next_slot 4 2 ≡ 3 }
    ensures wrap { next_slot 4 3 ≡ 0 }
    ensures ahead { distance 4 1 3 ≡ 2 }
    ensures behind { distance 4 3 1 ≡ 2 }
    ensures full { is_full 4 1 0 ≡ true }
    ensures empty { is_full 4 1 1 ≡ false }
    ensures ends { is_in_range 4 3 1 3 ≡ true }
    ensures inside { is_in_range 4 3 1 0 ≡ true }
    ensures past { is_in_range 4 3 1 2 ≡ false }
    ensures outside { is_in_range 4 3 1 4 ≡ false }
    ensures three_takes { moved 2 0 3 ≡ 1 }
    ensures pages_of_64 { half_pages 64 Submission ≡ 1 }
    ensures pages_of_65 { half_pages 65 Submission ≡ 2 }
    ensures pages_of_256 { half_pages 256 Completion ≡ 1 }
    ensures pages_of_257 { half_pages 257 Completion ≡ 2 }
    ensures last_slot { submission_place 2 1023 ≡ 0x11FC0 }
    ensures submission_doorbell { doorbell_offset 1 Submission ≡ 0x1008 }
    ensures completion_doorbell { doorbell_offset 1 Completion ≡ 0x100C }
{}
