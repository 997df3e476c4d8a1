//! Laws of the definitions that the contracts cite. Each function does nothing, and its clause is the law.

ghost use Rattle.host_core.specs.Laws.{LeavesJust, LeavesOne, RefusesJust, WritesLeaveOver};

/// A step of the host leaves just the host and the memory that the machine says: one answer leaves one of each.
#[tactic(auto, using(crate::proofs::Told::leaves_just, crate::proofs::Told::leaves_one))]
pub fn steps_are_exact()
    ensures just { LeavesJust }
    ensures one { LeavesOne }
{}

/// A refusal has one cause, and changes nothing; want of memory is told only where there is no cause.
#[tactic(auto, using(crate::proofs::Told::refuses_just))]
pub fn refusals_have_one_cause()
    ensures { RefusesJust }
{}

/// Other bytes in the pages that are in, as a controller writes them, leave the pages the host's.
#[tactic(auto, using(crate::proofs::Told::writes_leave_over))]
pub fn writes_leave_pages_the_hosts()
    ensures { WritesLeaveOver }
{}
