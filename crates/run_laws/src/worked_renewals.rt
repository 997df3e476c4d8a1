//! A worked run: a queue that is made again, and deleted and retired a second time. Its function does nothing.
#![tactic(auto, unfolding(page_memory::specs::Pages::zero_page, sgl_descriptor::specs::Spelling::descriptor_of, entry_codec::specs::Submission::submission_bytes, entry_codec::specs::Submission::submission_of, entry_codec::specs::Completion::completion_bytes, entry_codec::specs::Completion::completion_of, controller_walk::specs::Units::moving, controller_walk::specs::Units::from_place, page_memory::specs::Memory::bytes_at))]

ghost use Rattle.std.specs.Prelude.{◌≡◌};
ghost use Rattle.machine_model.specs.Script.{played, left_by, made_by};
ghost use Rattle.machine_model.specs.WorkedReads.{ordinary};
ghost use Rattle.run_laws.specs.WorkedRenewals.{made_again, made_again_said, deleted_again, deleted_again_said, before_retiring, deletions, own_deletions};

/// A queue is deleted and retired, and made again: the Delete SQ that was fetched was of the old queue, and none was of the new one.
///
/// Then it is deleted and retired a second time. Of the two that were fetched by then, one was of the new queue.
pub fn worked_renewals()
    ensures made_again { played ordinary made_again ≡ made_again_said }
    ensures deleted_again { played (left_by ordinary made_again) deleted_again ≡ deleted_again_said }
    ensures old { deletions (made_by ordinary made_again) ≡ 1 }
    ensures none_of_its_own { own_deletions (made_by ordinary made_again) ≡ 0 }
    ensures two { deletions (made_by ordinary before_retiring) ≡ 2 }
    ensures one_of_its_own { own_deletions (made_by ordinary before_retiring) ≡ 1 }
{}
