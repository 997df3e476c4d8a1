//! Laws of the machine's pages and identifiers, of every step and of every run. Each function does nothing.

ghost use Rattle.machine_model.specs.Claims.{each_step_keeps, every_run_is_sound, every_run_takes_out, counts_add_up};

/// Whatever a step does, forged entries or not: where each page had exactly one owner, each page has one again.
///
/// The four counts still add up to the pool, no identifier is outstanding twice on a queue, a page is out exactly
/// where a drafted or collected command has it, and no command of a queue is outstanding while the queue is made again.
pub fn law_of_steps()
    ensures { each_step_keeps }
{}

/// So it is after every run from an opening, refused steps and forged entries among its steps.
pub fn law_of_runs()
    ensures { every_run_is_sound }
{}

/// The four counts (free, of queues, of chains, of data) add up to the pool wherever each page has exactly one owner.
pub fn law_of_counts()
    ensures { counts_add_up }
{}

/// After every run a page is out of the store exactly where a drafted or collected command has it.
pub fn law_of_pages_out()
    ensures { every_run_takes_out }
{}
