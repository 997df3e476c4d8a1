//! Worked runs: what scripts of steps print, computed from the definitions. Each function does nothing.
//!
//! The world has 16 pages, one I/O queue of 4 entries and an image of 64 blocks of zeros.
#![tactic(auto, unfolding(page_memory::specs::Pages::zero_page, sgl_descriptor::specs::Spelling::descriptor_of, entry_codec::specs::Submission::submission_bytes, entry_codec::specs::Submission::submission_of, entry_codec::specs::Completion::completion_bytes, entry_codec::specs::Completion::completion_of, controller_walk::specs::Units::moving, controller_walk::specs::Units::from_place, page_memory::specs::Memory::bytes_at))]

ghost use Rattle.std.specs.Prelude.{◌≡◌, Some, None};
ghost use Rattle.entry_codec.specs.declared.status.TheConstants.Status.{SUCCESS, ABORT_REQUESTED};
ghost use Rattle.machine_model.specs.Script.{played, left_by};
ghost use Rattle.machine_model.specs.WorkedReads.{ordinary};
ghost use Rattle.run_laws.specs.WorkedVerdicts.{one_aborted, one_aborted_said, deleted_under, deleted_under_said, verdict_at};

/// A queue is deleted under two commands that have their verdicts, one by an Abort and one by a walk to its end.
///
/// The verdicts stay, both commands complete with them, and the deletion completes after them with success.
pub fn worked_verdicts()
    ensures before { played ordinary one_aborted ≡ one_aborted_said }
    ensures aborted { verdict_at 1 1 (left_by ordinary one_aborted) ≡ Some ABORT_REQUESTED }
    ensures walked { verdict_at 1 0 (left_by ordinary one_aborted) ≡ Some SUCCESS }
    ensures after_deletion { played (left_by ordinary one_aborted) deleted_under ≡ deleted_under_said }
{}
