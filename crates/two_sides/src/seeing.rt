//! What the host sees in a completion ring.

ghost use Rattle.two_sides.specs.Stepping.{completions_are_seen};

/// The host finds a completion at the head of a queue that is reaped exactly where the machine has one, whatever was forged.
#[tactic(auto, using(crate::proofs::Places::completions_seen))]
pub fn completions_are_seen_alike()
    ensures { completions_are_seen }
{}
