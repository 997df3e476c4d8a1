//! Worked lines of replies. Each function computes some.

ghost use Rattle.std.specs.Prelude.{◌≡◌, [], ◌∷◌, ◌++◌, codes, replicate};
ghost use Rattle.controller_walk.specs.declared.walk.WalkState.TheVariants as walk;
ghost use Rattle.entry_codec.specs.declared.hints.TheConstants.Hints.{NONE};
ghost use Rattle.entry_codec.specs.declared.status.TheConstants.Status.{SUCCESS, ABORT_REQUESTED, LBA_OUT_OF_RANGE, COMPARE_FAILURE};
ghost use Rattle.io_commands.specs.declared.request.RequestFault.TheVariants as request;
ghost use Rattle.machine_model.specs.declared.words.Reaped.TheVariants as reaped;
ghost use Rattle.machine_model.specs.declared.words.Refusal.TheVariants as refusal;
ghost use Rattle.machine_model.specs.declared.words.RejectedFor.TheVariants as rejected;
ghost use Rattle.script_cli.specs.Owners.{owners_text, counts_line};
ghost use Rattle.script_cli.specs.Replies.{reply_line, gathered_text};
ghost use Rattle.script_cli.specs.Worked.{fed, all_fed, first_owners};
ghost use Rattle.script_cli.specs.declared.verb.CommandVerb.TheVariants as command;
ghost use Rattle.script_cli.specs.declared.verb.QueueVerb.TheVariants as queue;
ghost use Rattle.script_cli.specs.declared.verb.Verb.TheVariants.{Reserve, Forge, Reset, OnQueue, OnCommand};
ghost use Rattle.step_core.specs.declared.step.Reply.TheVariants as reply;

/// What the first script prints, but for line 11.
pub fn first_run_prints()
    ensures line1 { reply_line 1 Reserve (reply.Reserved 1 0 1 0) ≡ fed (codes "1 reserve q 1 cid 0 data 1 chain 0") }
    ensures line2 { reply_line 2 (OnCommand command.Build) reply.Accepted ≡ fed (codes "2 build ok") }
    ensures line3 { reply_line 3 (OnCommand command.Submit) reply.Accepted ≡ fed (codes "3 submit ok") }
    ensures line4 { reply_line 4 (OnQueue queue.Ring) reply.Accepted ≡ fed (codes "4 ring ok") }
    ensures line5 { reply_line 5 (OnQueue queue.Fetch) (reply.Fetched 0 (2 ∷ [])) ≡ fed (codes "5 fetch cid 0 touched 2") }
    ensures line6 { reply_line 6 (OnCommand command.Walk) (reply.Walked walk.More []) ≡ fed (codes "6 walk more touched -") }
    ensures line7 { reply_line 7 (OnCommand command.Walk) (reply.Walked walk.End (4 ∷ [])) ≡ fed (codes "7 walk end touched 4") }
    ensures line8 { reply_line 8 (OnCommand command.Complete) (reply.Completed (3 ∷ [])) ≡ fed (codes "8 complete ok touched 3") }
    ensures line9 { reply_line 9 (OnQueue queue.Reap) (reply.Reaps (reaped.Done 0 SUCCESS)) ≡ fed (codes "9 reap done cid 0 status 0:00") }
    ensures line10 { reply_line 10 (OnCommand command.Collect) (reply.Collected SUCCESS NONE) ≡ fed (codes "10 collect status 0:00") }
    ensures line12 { owners_text first_owners ≡ all_fed (codes "0-0 queue 0 sq" ∷ codes "1-1 queue 0 cq" ∷ codes "2-2 queue 1 sq" ∷ codes "3-3 queue 1 cq" ∷ codes "4-4 command 1 0 data" ∷ codes "5-15 free" ∷ []) }
    ensures line13 { reply_line 13 (OnCommand command.Release) reply.Accepted ≡ fed (codes "13 release ok") }
    ensures last { counts_line (record { free_pages = 12; queue_pages = 4; chain_pages = 0; data_pages = 0 }) ≡ fed (codes "counts free 12 queue 4 chain 0 data 0") }
{}

/// Gathered bytes.
pub fn gathered_bytes_print()
    ensures zeros { gathered_text (replicate 512 0) ≡ codes "00*512" }
    ensures none { gathered_text [] ≡ codes "-" }
    ensures runs { gathered_text (171 ∷ 205 ∷ 0 ∷ 0 ∷ []) ≡ codes "AB*1,CD*1,00*2" }
    ensures again { gathered_text (1 ∷ 2 ∷ 1 ∷ []) ≡ codes "01*1,02*1,01*1" }
{}

/// Lines of runs in which something is refused or ends otherwise.
pub fn other_runs_print()
    ensures bucket { reply_line 1 Reserve (reply.Reserved 1 0 1 1) ≡ fed (codes "1 reserve q 1 cid 0 data 1 chain 1") }
    ensures mismatch { reply_line 1 Reserve (reply.Refused (refusal.Bad request.LengthMismatch) []) ≡ fed (codes "1 reserve refused Bad LengthMismatch") }
    ensures too_few { reply_line 1 Reserve (reply.Refused (refusal.NoPages 13 12) []) ≡ fed (codes "1 reserve refused NoPages need 13 free 12") }
    ensures no_run { reply_line 9 (OnQueue queue.CreateSq) (reply.Refused (refusal.NoRun 2) []) ≡ fed (codes "9 create_sq refused NoRun need 2") }
    ensures nothing { reply_line 6 (OnCommand command.Walk) (reply.Refused refusal.Nothing []) ≡ fed (codes "6 walk refused Nothing") }
    ensures past_the_end { reply_line 8 (OnQueue queue.Reap) (reply.Reaps (reaped.Done 0 LBA_OUT_OF_RANGE)) ≡ fed (codes "8 reap done cid 0 status 0:80") }
    ensures two_touched { reply_line 8 (OnCommand command.Walk) (reply.Walked walk.More (5 ∷ 8 ∷ [])) ≡ fed (codes "8 walk more touched 5,8") }
    ensures abort { reply_line 7 (OnCommand command.Abort) (reply.Sent 0) ≡ fed (codes "7 abort cid 0") }
    ensures waits { reply_line 10 (OnCommand command.Complete) (reply.Refused refusal.Waits (0 ∷ [])) ≡ fed (codes "10 complete refused Waits") }
    ensures aborted { reply_line 14 (OnQueue queue.Reap) (reply.Reaps (reaped.Done 0 ABORT_REQUESTED)) ≡ fed (codes "14 reap done cid 0 status 0:07") }
    ensures admin { reply_line 15 (OnQueue queue.Reap) (reply.Reaps (reaped.AdminDone 0 SUCCESS 0)) ≡ fed (codes "15 reap admin cid 0 status 0:00 dw0 0") }
    ensures no_such_command { reply_line 16 (OnCommand command.Abort) (reply.Refused refusal.NoSuchCommand []) ≡ fed (codes "16 abort refused NoSuchCommand") }
    ensures forged { reply_line 1 Forge reply.Accepted ≡ fed (codes "1 forge ok") }
    ensures unknown { reply_line 2 (OnQueue queue.Reap) (reply.Reaps (reaped.Rejected rejected.UnknownId)) ≡ fed (codes "2 reap rejected UnknownId") }
    ensures bad_head { reply_line 4 (OnQueue queue.Reap) (reply.Reaps (reaped.Rejected rejected.BadHead)) ≡ fed (codes "4 reap rejected BadHead") }
    ensures wrong_queue { reply_line 6 (OnQueue queue.Reap) (reply.Reaps (reaped.Rejected rejected.WrongQueue)) ≡ fed (codes "6 reap rejected WrongQueue") }
    ensures empty { reply_line 7 (OnQueue queue.Reap) (reply.Reaps reaped.Empty) ≡ fed (codes "7 reap empty") }
    ensures reset { reply_line 7 Reset reply.Accepted ≡ fed (codes "7 reset ok") }
    ensures no_slot { reply_line 8 Forge (reply.Refused refusal.NoSlot []) ≡ fed (codes "8 forge refused NoSlot") }
    ensures compare { reply_line 9 (OnCommand command.Collect) (reply.Collected COMPARE_FAILURE NONE) ≡ fed (codes "9 collect status 2:85") }
    ensures no_value { reply_line 9 (OnCommand command.Build) reply.NoValue ≡ fed (codes "9 build refused NoValue") }
{}
