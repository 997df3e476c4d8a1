//! Worked runs of the definitions. Each function does nothing, and its clauses are the run.
#![tactic(auto, unfolding(page_memory::specs::Pages::zero_page, entry_codec::specs::Completion::completion_bytes, entry_codec::specs::Completion::completion_of))]

ghost use Rattle.std.specs.Prelude.{◌≡◌, ◌∷◌, [], Some, None, true, false};
ghost use Rattle.entry_codec.specs.declared.status.TheConstants.Status.{SUCCESS};
ghost use Rattle.machine_model.specs.After.{after, held};
ghost use Rattle.machine_model.specs.Events as events;
ghost use Rattle.machine_model.specs.Refusals.{refusal_of};
ghost use Rattle.machine_model.specs.Step.{reaped};
ghost use Rattle.machine_model.specs.declared.words.Reaped.TheVariants.{Empty, Done, Rejected};
ghost use Rattle.machine_model.specs.declared.words.RejectedFor.TheVariants.{WrongQueue, BadHead, UnknownId};
ghost use Rattle.machine_model.specs.declared.words.Refusal.TheVariants as refusal;
ghost use Rattle.host_core.specs.Alone.{alone};
ghost use Rattle.host_core.specs.Laws.{shown};
ghost use Rattle.host_core.specs.Ringing.{head_of, tail_of};
ghost use Rattle.host_core.specs.Worked.{blank, completion, hinting_completion, pages_with, read_command, waiting};

/// A Read waits for its completion: none is there, it cannot be collected yet, and the tail to ring is 1.
pub fn worked_waiting()
    ensures none { reaped (alone waiting blank) 1 ≡ Empty }
    ensures not_yet { refusal_of (alone waiting blank) (events.Collect 1 0) ≡ Some refusal.NotYet }
    ensures tail { tail_of waiting 1 ≡ Some 1 }
{}

/// Its completion is in the first slot, and is reaped: the head moves on, and the command can be collected.
pub fn worked_reap()
    ensures found { reaped (alone waiting (pages_with completion)) 1 ≡ Done 0 SUCCESS }
    ensures head { head_of (shown (after (alone waiting (pages_with completion)) (events.Reap 1) (events.Reaps (Done 0 SUCCESS)))) 1 ≡ Some 1 }
    ensures held { refusal_of (after (alone waiting (pages_with completion)) (events.Reap 1) (events.Reaps (Done 0 SUCCESS))) (events.Collect 1 0) ≡ None }
{}

/// What its completion hints at is kept with the status.
pub fn worked_hints()
    ensures { (shown (after (alone waiting (pages_with hinting_completion)) (events.Reap 1) (events.Reaps (Done 0 SUCCESS)))).host.records ≡ (held SUCCESS hinting_completion.hints read_command ∷ []) }
{}

/// Entries that no such controller posts: each is rejected with its cause, and one of the other phase is not seen.
pub fn worked_forged()
    ensures queue { reaped (alone waiting (pages_with (record completion { sqid = 2 }))) 1 ≡ Rejected WrongQueue }
    ensures head { reaped (alone waiting (pages_with (record completion { sqhd = 2 }))) 1 ≡ Rejected BadHead }
    ensures identifier { reaped (alone waiting (pages_with (record completion { cid = 1 }))) 1 ≡ Rejected UnknownId }
    ensures phase { reaped (alone waiting (pages_with (record completion { phase = false }))) 1 ≡ Empty }
    ensures taken { head_of (shown (after (alone waiting (pages_with (record completion { cid = 1 }))) (events.Reap 1) (events.Reaps (Rejected UnknownId)))) 1 ≡ Some 1 }
    ensures kept { (shown (after (alone waiting (pages_with (record completion { cid = 1 }))) (events.Reap 1) (events.Reaps (Rejected UnknownId)))).host.records ≡ waiting.host.records }
{}
