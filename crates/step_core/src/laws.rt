//! Laws of benches. Each function does nothing.

ghost use Rattle.step_core.specs.Going.{benches_open_in_order, benches_keep_order, benches_go_on, benches_touch_what_they_may, benches_make_trusted_runs};
ghost use Rattle.step_core.specs.Laws.{benches_run_the_machine};

/// What a bench does is a run of the machine: the events that its steps ask
/// for, one after the other, each with a reply that the step's answer reports.
///
/// Filling, building and gathering are steps of a kept value alone, and a step that finds no value changes nothing: these are not part of the run.
///
/// Where none of the steps since the bench opened is an accepted forgery, the machine's laws of trusted runs apply to their run, resets and all: to
/// what a Read gathers, a Write changes, a Compare answers, and to the statuses.
pub fn law_of_benches()
    ensures run { benches_run_the_machine }
    ensures lawful { benches_make_trusted_runs }
{}

/// A bench opens in order, and each of its steps keeps it so, forged entries or not; and in that state each step whose numbers fit may be made: there
/// is an answer that it may get.
pub fn law_of_order()
    ensures opens { benches_open_in_order }
    ensures keeps { benches_keep_order }
    ensures goes_on { benches_go_on }
{}

/// Where the world is trusted, what a step of a bench reports of the controller names only allowed pages, and only those of its own queue or command.
pub fn law_of_touches()
    ensures { benches_touch_what_they_may }
{}
