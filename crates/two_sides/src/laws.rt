//! Laws of the machine's steps and runs that speak of both sides, of order, answers and trust, and of lists and slots in memory. Each function does nothing.

ghost use Rattle.two_sides.specs.Provided.{each_step_provides, every_run_provides, each_step_stays_in_rings, every_run_stays_in_rings};
ghost use Rattle.two_sides.specs.Histories.{unforged_runs_end_trusted, trusted_ends_are_unforged, resets_restore_trust};
ghost use Rattle.two_sides.specs.InOrder.{openings_are_in_order, steps_keep_order, reserved_drafts_are_proper, collected_commands_are_proper, every_event_is_answered};
ghost use Rattle.two_sides.specs.MachineLaws.{trusted_worlds_are_linked, live_queues_are_there, jobs_stand, jobs_keep_their_lists, admin_commands_stand_once, trusted_steps_stay_allowed, hosts_need_no_controller, chains_stand, chains_stay, rings_are_never_full};
ghost use Rattle.two_sides.specs.Lists.{lists_keep_to_their_pages, lists_end_well, long_lists_end_well, short_lists_end, walks_read_the_pool, walks_go_as_in_the_pool};
ghost use Rattle.two_sides.specs.Recovering.{openings_can_recover, resets_recover, every_run_recovers, resets_leave_io_commands};
ghost use Rattle.two_sides.specs.Slots.{entries_lie_in_pages, completions_lie_in_pages, entries_stand_in_memory, completions_stand_in_memory, entries_are_written, completions_are_written};

/// Once an entry was forged, what the host is answered, and what its part and the memory become, depends on nothing in the
/// controller's part.
pub fn law_of_forged_worlds()
    ensures { hosts_need_no_controller }
{}

/// The host's positions in its rings are slots of them: after every run from an opening, forged entries or not, and a step that
/// begins so ends so.
#[tactic(auto, using(crate::proofs::ControllerMoves::steps_stay_in_rings, crate::proofs::ControllerMoves::runs_stay_in_rings))]
pub fn law_of_positions()
    ensures steps { each_step_stays_in_rings }
    ensures runs { every_run_stays_in_rings }
{}

/// Each queue of the host has its halves until it gives them back, the pages of each consecutive, and none of their pages from then on: after every
/// run from an opening, forged entries or not.
///
/// Each outstanding command has an identifier below its queue's entries less one, and an I/O command as many data and chain pages as its
/// request wants. A sound state that is provided so stays so, whatever the step.
#[tactic(auto, using(crate::proofs::Provided::steps_provide, crate::proofs::Provided::runs_provide))]
pub fn law_of_provisions()
    ensures steps { each_step_provides }
    ensures runs { every_run_provides }
{}

/// Where nothing was forged, each admin command is at the controller at most once, and only while it is outstanding.
///
/// It is then not yet fetched, or a job, or completed.
pub fn law_of_places()
    ensures { admin_commands_stand_once }
{}

/// Where nothing was forged, each step of the controller, accepted or refused, touches only allowed pages.
///
/// A `fetch` and a `complete` touch pages of their own queue, which the controller has, and a `walk` pages of its own
/// command, which is a job.
pub fn law_of_touches()
    ensures { trusted_steps_stay_allowed }
{}

/// The memory that a walk reads in the machine is the pool's, byte for byte, where each page that is in has its 4,096 bytes.
///
/// A list has the same course in both.
#[tactic(auto, using(crate::proofs::PoolBytes::reads_the_pool))]
pub fn law_of_memory()
    ensures memory { walks_read_the_pool }
    ensures courses { walks_go_as_in_the_pool }
{}

/// A walk of a list whose segments lie in chain pages and spell parts that lie in data pages, where no page is of both kinds, reads only in the chain
/// pages, and moves only in the data pages.
pub fn law_of_lists()
    ensures { lists_keep_to_their_pages }
{}

/// A list whose parts are there, and count exactly the bytes that the command moves, ends without a fault. What is taken on the way
/// has the targets of its parts, byte for byte.
pub fn law_of_ends()
    ensures { lists_end_well }
{}

/// A list may be longer than its data: it ends without a fault too, and what is taken has as many of its first targets as the command moves bytes.
pub fn law_of_longer_lists()
    ensures { long_lists_end_well }
{}

/// A list may be shorter than its data: it ends with Data SGL Length Invalid (0:0F), where its parts are there.
pub fn law_of_shorter_lists()
    ensures { short_lists_end }
{}

/// Where nothing was forged, each queue that the controller has, and each that has a job, is at the host with its halves.
pub fn law_of_links()
    ensures { trusted_worlds_are_linked }
{}

/// Where nothing was forged, a submission queue that is live at the host is there at the controller.
///
/// The controller gives a queue up only as a deletion that the host asked for succeeds, or at a reset, after which the host has no I/O queue. Of that
/// deletion the host reaps only the success, so it never takes the queue for live until it is made again.
pub fn law_of_live_queues()
    ensures { live_queues_are_there }
{}

/// A run from an opening in which no forgery was accepted ends in a trusted state. And steps that lead to a trusted state, from
/// wherever they began, accepted no forgery since the last reset among them: no other event restores the trust.
#[tactic(auto, using(crate::proofs::PoolBytes::ends_unforged))]
pub fn law_of_trust()
    ensures ends { unforged_runs_end_trusted }
    ensures unforged { trusted_ends_are_unforged }
{}

/// A reset leaves a trusted state whose sides agree, whatever was forged: what that needs holds in an opening, and each step keeps it
/// (`law_of_order`). So after it every law of `agreement` applies to the machine again.
///
/// Each I/O command is outstanding as before, and held with status 0:08 where it was submitted.
#[tactic(auto, using(crate::proofs::Agreed::runs_recover, crate::proofs::PoolBytes::trust_restored, machine_model::proofs::HostLeaves::io_left))]
pub fn law_of_resets()
    ensures trust { resets_restore_trust }
    ensures agreement { resets_recover }
    ensures openings { openings_can_recover }
    ensures runs { every_run_recovers }
    ensures commands { resets_leave_io_commands }
{}

/// Each step keeps a state in order, forged entries or not: sound, each page that is in whole, both sides agreeing unless something
/// was forged since the last reset, and fit to agree after a reset. An opening is in order.
///
/// What it hands out is fit to be handed in again: the draft of a reserved command, and the pages of a collected one.
#[tactic(auto, using(crate::proofs::Agreed::order_kept, crate::proofs::Served::reserved_is_proper, crate::proofs::Served::collected_is_proper))]
pub fn law_of_order()
    ensures openings { openings_are_in_order }
    ensures steps { steps_keep_order }
    ensures drafts { reserved_drafts_are_proper }
    ensures commands { collected_commands_are_proper }
{}

/// In a state in order each event may happen, forged entries or not: there is an answer that it may get, and a state that this leads to.
#[tactic(auto, using(crate::proofs::Agreed::answers_every_event))]
pub fn law_of_answers()
    ensures { every_event_is_answered }
{}

/// Where nothing was forged, the chain of each submitted command that has a list spells its parts, from the descriptor of its entry,
/// and no step that leaves a command submitted changes a byte of its chain pages.
pub fn law_of_chains()
    ensures stand { chains_stand }
    ensures stay { chains_stay }
{}

/// Where nothing was forged, each job of an I/O queue is that of a submitted command, and its walk keeps to the command's
/// pages and, where the command moves data, would end well.
///
/// A step that forges nothing and leaves the job there keeps its list the same.
pub fn law_of_jobs()
    ensures stand { jobs_stand }
    ensures keep { jobs_keep_their_lists }
{}

/// The slots of a queue, which the machine finds by the list of the queue's pages, are those that `queue_pair` finds in the memory
/// starting at the first page: their pages, their bytes, and what a post writes.
#[tactic(auto, using(crate::proofs::PoolBytes::entry_pages, crate::proofs::PoolBytes::completion_pages, crate::proofs::PoolBytes::entries_stand, crate::proofs::PoolBytes::completions_stand))]
pub fn law_of_slots()
    ensures entry_pages { entries_lie_in_pages }
    ensures completion_pages { completions_lie_in_pages }
    ensures entries { entries_stand_in_memory }
    ensures answers { completions_stand_in_memory }
    ensures entries_written { entries_are_written }
    ensures completions_written { completions_are_written }
{}

/// Where nothing was forged, no event is refused because a ring is full, or because a page of a queue is out.
pub fn law_of_room()
    ensures { rings_are_never_full }
{}
