//! Walks.

ghost use Rattle.two_sides.specs.Stepping.{walks_step, walks_refuse_alike};

/// The step of a walk is one of the machine, and leaves both sides tied.
pub fn walks_are_the_machines()
    ensures { walks_step }
{}

/// Where nothing was forged, the controller refuses a walk for the machine's cause.
#[tactic(auto, using(crate::proofs::WalkSteps::walk_refused_alike))]
pub fn walks_refuse_as_the_machine()
    ensures { walks_refuse_alike }
{}
