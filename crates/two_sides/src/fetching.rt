//! A fetch.

ghost use Rattle.two_sides.specs.Stepping.{fetches_step, fetches_refuse_alike};

/// A fetch by the controller is a step of the machine, and leaves both sides tied.
pub fn fetches_are_the_machines()
    ensures { fetches_step }
{}

/// Where nothing was forged the controller refuses a fetch as the machine does.
#[tactic(auto, using(crate::proofs::FetchSteps::refuse_alike))]
pub fn fetches_refuse_as_the_machine()
    ensures { fetches_refuse_alike }
{}
