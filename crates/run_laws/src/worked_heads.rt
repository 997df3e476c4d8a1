//! A worked run: the SQ head pointer of a completion, with a younger entry in the ring. Its function does nothing.
#![tactic(auto, unfolding(page_memory::specs::Pages::zero_page, sgl_descriptor::specs::Spelling::descriptor_of, entry_codec::specs::Submission::submission_bytes, entry_codec::specs::Submission::submission_of, entry_codec::specs::Completion::completion_bytes, entry_codec::specs::Completion::completion_of, controller_walk::specs::Units::moving, controller_walk::specs::Units::from_place, page_memory::specs::Memory::bytes_at))]

ghost use Rattle.std.specs.Prelude.{◌≡◌, Some};
ghost use Rattle.machine_model.specs.Script as script;
ghost use Rattle.machine_model.specs.Script.{played, left_by};
ghost use Rattle.machine_model.specs.WorkedQueues as queues;
ghost use Rattle.machine_model.specs.WorkedReads.{ordinary};
ghost use Rattle.run_laws.specs.WorkedHeads.{posted_behind, posted_behind_said, second_word, reaped_behind, reaped_behind_said, ring_behind};

/// A completion is posted while a younger entry of its queue is in the ring, not announced: its SQ head pointer is 1, where the
/// controller fetches next, and not the tail 2.
pub fn worked_heads()
    ensures posted { played ordinary posted_behind ≡ posted_behind_said }
    ensures younger_entry { script.shown (left_by ordinary posted_behind) 2 64 4 ≡ second_word }
    ensures head_pointer { script.shown (left_by ordinary posted_behind) 3 0 16 ≡ queues.completion_in_slot 1 1 }
    ensures reaped { played ordinary reaped_behind ≡ reaped_behind_said }
    ensures ring { queues.ring_of (left_by ordinary reaped_behind) ≡ Some ring_behind }
{}
