//! Laws of the definitions that the contracts cite. Each function does nothing, and its clause is the law.

ghost use Rattle.std.specs.Prelude.{◌≡◌, ◌≤◌, ℕ, Bool, List};
ghost use Rattle.page_memory.specs.Memory.{Memory};
ghost use Rattle.sgl_descriptor.specs.declared.Direction.{Direction};
ghost use Rattle.controller_walk.specs.declared.walk.Walk.{Walk};
ghost use Rattle.controller_walk.specs.declared.walk.WalkState.{WalkState};
ghost use Rattle.controller_walk.specs.Units.{Course, units_of_list};
ghost use Rattle.controller_walk.specs.Along.{ListMovesAlong, ListMovesAll};
ghost use Rattle.controller_walk.specs.Serving.{SameWhereServed, SameListWhereServed};
ghost use Rattle.controller_walk.specs.Laws.{SameCourse, StandsAtFirst, StepDoesUnit, reads_in};

/// Memories that have the same bytes at the descriptors that a list reads, and miss the same bytes, give the list the
/// same units and the same verdict.
pub fn lists_hang_on_descriptors()
    ensures { (m n : Memory) → SameCourse m n }
{}

/// A memory that has the same bytes at the descriptors that a list reads, and misses none of the bytes that it moves, gives
/// the list the same course, whatever else differs. (No other memory need do so for a list that ends for want of a byte.)
pub fn lists_hang_on_what_they_reach()
    ensures { (m other : Memory) → SameListWhereServed m other }
{}

/// The same holds for what a walk still has to do: a page that it doesn't reach may come and go, and may be written.
#[tactic(auto, using(crate::proofs::Same::walk_served))]
pub fn walks_hang_on_what_they_reach()
    ensures { (m other : Memory) → SameWhereServed m other }
{}

/// A walk that begins stands at the first unit of its list, and stays there while nobody writes the list's descriptors or changes
/// which bytes are missing.
pub fn walks_begin_at_the_first_unit()
    ensures { (at : ℕ → Bool) (m : Memory) (sgl1 : List ℕ) (dir : Direction) (need : ℕ) (w : Walk) → StandsAtFirst at m sgl1 dir need w }
{}

/// A walk's step number t, counted from 0, does unit number t of its list and answers `More`, or, as it does the last, the
/// list's verdict. This holds while nobody else writes the list's descriptors or changes which bytes are missing, and the
/// list itself moves no byte onto its descriptors.
pub fn steps_do_units()
    ensures { (at : ℕ → Bool) (m : Memory) (c : Course) (t : ℕ) (w next : Walk) (answer : WalkState) → StepDoesUnit at m c t w next answer }
{}

/// At most 4,095 descriptors of each list are read after the entry's own, whatever the memory holds.
pub fn lists_read_few_descriptors()
    ensures { (m : Memory) (sgl1 : List ℕ) (dir : Direction) (need : ℕ) → reads_in (units_of_list m sgl1 dir need) ≤ 4095 }
{}

/// Each byte that a list moves goes to or comes from the address that the targets of its parts give it, in the parts' order; of
/// a part only the prefix that is still wanted counts. A descriptor is read only where bytes are still wanted. The parts that a
/// list that ends well takes count exactly the bytes that the command moves.
pub fn lists_move_along_targets()
    ensures { (m : Memory) (sgl1 : List ℕ) (dir : Direction) (need : ℕ) → ListMovesAlong m sgl1 dir need }
{}

/// A list that ends well moves each of the command's bytes that has an address for its target.
pub fn lists_move_all_bytes()
    ensures { (m : Memory) (sgl1 : List ℕ) (dir : Direction) (need : ℕ) → ListMovesAll m sgl1 dir need }
{}
