//! Completions.

ghost use Rattle.two_sides.specs.Stepping.{completes_step, completes_refuse_alike};

/// The completion of a command is a step of the machine, and leaves both sides tied.
pub fn completes_are_the_machines()
    ensures { completes_step }
{}

/// Where nothing was forged, the controller refuses a completion for the machine's cause.
#[tactic(auto, using(crate::proofs::CompleteSteps::complete_refused_alike))]
pub fn completes_refuse_as_the_machine()
    ensures { completes_refuse_alike }
{}
