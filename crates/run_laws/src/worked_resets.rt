//! Worked runs of a reset. Its function does nothing.
#![tactic(auto, unfolding(page_memory::specs::Pages::zero_page, sgl_descriptor::specs::Spelling::descriptor_of, entry_codec::specs::Submission::submission_bytes, entry_codec::specs::Submission::submission_of, entry_codec::specs::Completion::completion_bytes, entry_codec::specs::Completion::completion_of, controller_walk::specs::Units::moving, controller_walk::specs::Units::from_place, page_memory::specs::Memory::bytes_at))]

ghost use Rattle.std.specs.Prelude.{◌≡◌};
ghost use Rattle.machine_model.specs.Script.{played, made_by};
ghost use Rattle.machine_model.specs.WorkedReads.{ordinary};
ghost use Rattle.run_laws.specs.WorkedRenewals.{deletions, own_deletions};
ghost use Rattle.run_laws.specs.WorkedResets.{reset_under, reset_under_said, times_ended, deleted_and_reset};

/// The controller is reset under a Read that was fetched, and under one that was completed with success and not reaped.
///
/// Both are lost: they are collected with the status of a deleted queue. Each was ended by one step, the reset.
///
/// A deletion that was fetched before a reset is none of the queue that is made after it.
pub fn worked_resets()
    ensures lost { played ordinary reset_under ≡ reset_under_said }
    ensures completed_command { times_ended 0 (made_by ordinary reset_under) ≡ 1 }
    ensures job { times_ended 1 (made_by ordinary reset_under) ≡ 1 }
    ensures old_deletion { deletions (made_by ordinary deleted_and_reset) ≡ 1 }
    ensures none_of_its_own { own_deletions (made_by ordinary deleted_and_reset) ≡ 0 }
{}
