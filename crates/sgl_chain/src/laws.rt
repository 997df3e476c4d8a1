//! Laws of the definitions that the contracts cite. Each function does nothing, and its clauses are the laws.

ghost use Rattle.std.specs.Prelude.{◌≡◌, ◌≤◌, ℕ, List, length};
ghost use Rattle.sgl_descriptor.specs.declared.Direction.{Direction};
ghost use Rattle.sgl_descriptor.specs.declared.Part.{Part};
ghost use Rattle.sgl_descriptor.specs.Targets.{targets, counted_in};
ghost use Rattle.page_memory.specs.Memory.{Memory};
ghost use Rattle.page_memory.specs.Pages.{Pages, AreWhole};
ghost use Rattle.sgl_chain.specs.Joining.{joined, NoneJoin};
ghost use Rattle.sgl_chain.specs.Laws.{LaidChainsSpell, OneList, SpelledInMore, PartsComeBack, PagesHoldSegments, LaidByNumber};

/// The segments of 1 to 1,024 parts, laid in their pages, spell exactly these parts from the first descriptor.
#[tactic(auto, using(crate::proofs::Spelled::spells))]
pub fn laid_chains_spell()
    ensures { (s : ℕ) → LaidChainsSpell s }
{}

/// Over a memory a descriptor spells at most one list of parts.
pub fn spells_one_list()
    ensures { (m : Memory) → OneList m }
{}

/// What a descriptor spells over a memory it spells over every memory that has each of its bytes, and perhaps more.
pub fn spells_in_more_memory()
    ensures { (m larger : Memory) → SpelledInMore m larger }
{}

/// The parts of a chain are exactly those that it is built of.
#[tactic(auto, using(crate::proofs::Back::parts_back))]
pub fn parts_come_back()
    ensures { (s : ℕ) → PartsComeBack s }
{}

/// A page of a pool into which a segment was laid holds the segment's bytes in memory.
pub fn pages_hold_segments()
    ensures { (pages : Pages) → AreWhole pages → PagesHoldSegments pages }
{}

/// That segments are laid can be said of each by its number.
#[tactic(auto, using(crate::proofs::Spelled::laid_each, crate::proofs::Spelled::laid_all))]
pub fn laid_by_number()
    ensures { (m : Memory) → LaidByNumber m }
{}

/// Joined parts have the targets of the list that they are made of, in both directions, and so as many bytes. They are
/// no more than its parts.
#[tactic(auto, using(crate::proofs::Joins::same_targets, crate::proofs::Joins::same_count, crate::proofs::Joins::joined_few))]
pub fn joined_parts_say_the_same()
    ensures targets { (dir : Direction) (parts : List Part) → targets dir (joined parts) ≡ targets dir parts }
    ensures counted { (dir : Direction) (parts : List Part) → counted_in dir (joined parts) ≡ counted_in dir parts }
    ensures few { (parts : List Part) → length (joined parts) ≤ length parts }
{}

/// No two neighbours among joined parts join, so that joining them again changes nothing.
#[tactic(auto, using(crate::proofs::Joins::none_join, crate::proofs::Joins::joined_twice))]
pub fn joined_parts_stand_apart()
    ensures apart { (parts : List Part) → NoneJoin (joined parts) }
    ensures twice { (parts : List Part) → joined (joined parts) ≡ joined parts }
{}
