//! The doorbells.

ghost use Rattle.two_sides.specs.Laws.{tails_are_heard, heads_are_heard};

/// The controller takes the tail that a host writes to its doorbell, whatever was forged, and the head where nothing was.
#[tactic(auto, using(crate::proofs::Places::tails_heard, crate::proofs::Places::heads_heard))]
pub fn doorbells_are_heard()
    ensures tails { tails_are_heard }
    ensures heads { heads_are_heard }
{}
