//! The host's steps.

ghost use Rattle.two_sides.specs.Laws.{hosts_share_queues, forged_hosts_step, hosts_answer, hosts_refuse};
ghost use Rattle.two_sides.specs.Stepping.{hosts_step};

/// Whatever was forged: where both sides have the same number of queues, and each at the controller has its number, as many entries as the host's
/// and a side that fits them, a step of the host keeps it so.
#[tactic(auto, using(crate::proofs::Shared::share_queues))]
pub fn hosts_keep_their_queues()
    ensures { hosts_share_queues }
{}

/// After a forged entry a step of the host is one of the machine.
pub fn forged_hosts_are_the_machine()
    ensures { forged_hosts_step }
{}

/// What the host answers to a call that looks at no completion ring is what the machine may answer, whatever was forged.
#[tactic(auto, using(crate::proofs::Assembling::answer_as_machine))]
pub fn hosts_answer_as_the_machine()
    ensures { hosts_answer }
{}

/// A refusal of such a call changes neither side, and is a step of the machine.
pub fn hosts_refuse_as_the_machine()
    ensures { hosts_refuse }
{}

/// Each call of the host, with what the controller sees of it, is a step of the machine, and leaves both sides tied as a world's are.
pub fn hosts_are_the_machine()
    ensures { hosts_step }
{}
