//! What steps answer. Each function does nothing.

ghost use Rattle.run_laws.specs.Walked.{units_done_count_the_walks, walks_go_on_without_a_verdict, only_the_last_walk_ends, compares_by_their_drafts, compare_failures_are_of_compares};
ghost use Rattle.run_laws.specs.Accepted.{openings_are_ready, steps_keep_ready, every_event_is_accepted_or_has_a_cause, every_reset_is_accepted, resets_have_one_answer, forged_worlds_accept_the_controller, forged_worlds_know_their_queues};

/// Where nothing was forged, a job of an I/O queue has done as many units as there were accepted walk steps of it since its
/// fetch.
pub fn law_of_units()
    ensures { units_done_count_the_walks }
{}

/// Where nothing was forged, a walk step answers that the walk goes on exactly where its job has no verdict then.
///
/// Only the last walk step of a command answers an end or a fault: before a further one of its identifier the command was
/// completed, or the controller was reset.
pub fn law_of_walks()
    ensures verdicts { walks_go_on_without_a_verdict }
    ensures ends { only_the_last_walk_ends }
{}

/// Where nothing was forged, a command whose draft is a Compare of namespace 1, and that ended neither by an Abort or a deletion
/// nor for blocks beyond the image, succeeds exactly where its blocks are then its draft's bytes, and otherwise fails as a Compare. No
/// other command fails so, and one of another namespace ends for that.
pub fn law_of_drafted_compares()
    ensures compares { compares_by_their_drafts }
    ensures failures { compare_failures_are_of_compares }
{}

/// A state is ready where it is in order, and each command that is held is an I/O command with its status. An opening is ready, and
/// each step from a ready state leads to one, forged entries or not.
pub fn law_of_ready_states()
    ensures openings { openings_are_ready }
    ensures steps { steps_keep_ready }
{}

/// In a ready state an event that no cause refuses is accepted: only lack of memory can prevent it.
///
/// So a free identifier and free pages exist wherever no cause says otherwise. That holds of the host's events whatever was forged,
/// and of the controller's where nothing was. A reset is never refused, whatever was forged: it has one answer, and leaves one state.
///
/// After a forged entry the causes don't decide for the controller: each of
/// its events may be accepted, of a queue that the host has, and of no other.
pub fn law_of_acceptance()
    ensures events { every_event_is_accepted_or_has_a_cause }
    ensures resets { every_reset_is_accepted }
    ensures answer_of_resets { resets_have_one_answer }
    ensures forged { forged_worlds_accept_the_controller }
    ensures queues { forged_worlds_know_their_queues }
{}
