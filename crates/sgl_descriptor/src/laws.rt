//! Laws of the definitions that the contracts cite. Each function does nothing, and its clauses are the laws.

ghost use Rattle.std.specs.Prelude.{◌≡◌, ℕ, List, length};
ghost use Rattle.sgl_descriptor.specs.declared.Descriptor.{Descriptor};
ghost use Rattle.sgl_descriptor.specs.declared.Part.{Part};
ghost use Rattle.sgl_descriptor.specs.declared.Direction.{Direction};
ghost use Rattle.sgl_descriptor.specs.Spelling.{Fits};
ghost use Rattle.sgl_descriptor.specs.Targets.{targets, counted_in};
ghost use Rattle.sgl_descriptor.specs.Laws.{IsSixteenBytes, RoundTrip, OneSpelling, ReadAlike, TargetsJoin};

/// What is written for a descriptor whose fields fit is 16 bytes, spells it, and is read as that descriptor.
pub fn round_trip()
    ensures { (d : Descriptor) → Fits d → RoundTrip d }
{}

/// Bytes spell at most one descriptor, the one that they are read as.
#[tactic(auto, using(crate::proofs::Spells::both))]
pub fn one_spelling()
    ensures { (bytes : List ℕ) → OneSpelling bytes }
{}

/// Two strings of 16 bytes, the first of a valid type and subtype, are read alike exactly where they agree outside the
/// reserved bytes. One whose type or subtype is invalid is read like exactly those that are invalid too.
#[tactic(auto, using(crate::proofs::Reserved::alike))]
pub fn read_alike()
    ensures { (a b : List ℕ) → IsSixteenBytes a → IsSixteenBytes b → ReadAlike a b }
{}

/// There is one target for each counted byte, in the parts' order.
pub fn targets_of_parts()
    ensures counted { (dir : Direction) (parts : List Part) →
        length (targets dir parts) ≡ counted_in dir parts }
    ensures joined { (dir : Direction) (a b : List Part) → TargetsJoin dir a b }
{}
