//! How commands end where nothing was forged. Each function does nothing.

ghost use Rattle.run_laws.specs.Ends.{reaps_answer_the_front, nothing_conflicts, ends_come_from_completions, retired_queues_were_deleted, collects_tell_how_commands_ended, collects_tell_no_hints, every_collect_has_its_cause, commands_complete_once, ends_are_told_once, commands_are_collected_once, submitted_commands_end_once};
ghost use Rattle.run_laws.specs.Verdicts.{jobs_stay, verdicts_stay, verdicts_end_walks, first_verdicts_count};

/// Where nothing was forged, a reap answers the oldest completion of its queue, and none where there is none: no completion is rejected.
pub fn law_of_reaps()
    ensures { reaps_answer_the_front }
{}

/// Where nothing was forged, no entry that is fetched has the identifier of a job of its queue, so no command is completed with a conflict
/// of identifiers.
pub fn law_of_identifiers()
    ensures { nothing_conflicts }
{}

/// Where nothing was forged, the status that a reap answers for a command of an I/O queue is the one that its completion gave it, with its
/// cause; the command was not submitted anew since.
pub fn law_of_completions()
    ensures { ends_come_from_completions }
{}

/// Where nothing was forged, a queue that is retired was deleted: a Delete SQ of it was fetched before. So no command is lost except by a reset, or
/// with a queue whose deletion was asked for.
///
/// A queue that was made again has a deletion of its own: it was fetched since the queue was last retired, since it was last asked for anew,
/// and since the controller was last reset.
pub fn law_of_retirements()
    ensures { retired_queues_were_deleted }
{}

/// Where nothing was forged, a command that is collected has the status that its completion gave it, or was lost: it was submitted as its
/// queue was retired, which had been deleted, or as the controller was reset.
///
/// So it has one of seven statuses, each with its cause: it succeeded; an Abort of it was fetched while it was a job, or a deletion of its
/// queue, or the queue was retired or the controller reset under it; the controller does not have its opcode; its namespace was another
/// than 1; its blocks passed the image's end; or a Compare found a difference.
///
/// And it has no hints.
pub fn law_of_collects()
    ensures ends { collects_tell_how_commands_ended }
    ensures hints { collects_tell_no_hints }
    ensures causes { every_collect_has_its_cause }
{}

/// Where nothing was forged, each command of an I/O queue ends once: between two completions of an identifier, between two reaps that end
/// it, and between two collects of it, it was submitted anew. So it was between two steps that end it, while it is submitted: a reap that
/// takes its completion, the retirement of its queue, or a reset.
pub fn law_of_single_ends()
    ensures completions { commands_complete_once }
    ensures reaps { ends_are_told_once }
    ensures collects { commands_are_collected_once }
    ensures ends { submitted_commands_end_once }
{}

/// Where nothing was forged, only the first verdict of a command counts: its job stays until it completes or the controller is reset, and as
/// soon as it has a verdict it keeps it, its bytes and its count of walk steps, and is no longer walked.
///
/// So where the command completes, it does so with that verdict; only a Compare whose data came without a fault may find a difference besides.
pub fn law_of_verdicts()
    ensures jobs { jobs_stay }
    ensures stay { verdicts_stay }
    ensures ends_walks { verdicts_end_walks }
    ensures count { first_verdicts_count }
{}
