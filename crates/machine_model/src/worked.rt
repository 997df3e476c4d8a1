//! Worked runs: what scripts of steps print, computed from the definitions. Each function does nothing.
//!
//! A world has 16 pages, one I/O queue of 4 entries and an image of 64 blocks of zeros where a run does not say otherwise.
#![tactic(auto, unfolding(page_memory::specs::Pages::zero_page, sgl_descriptor::specs::Spelling::descriptor_of, entry_codec::specs::Submission::submission_bytes, entry_codec::specs::Submission::submission_of, entry_codec::specs::Completion::completion_bytes, entry_codec::specs::Completion::completion_of, controller_walk::specs::Units::moving, controller_walk::specs::Units::from_place, page_memory::specs::Memory::bytes_at))]

ghost use Rattle.std.specs.Prelude.{◌≡◌, [], ◌∷◌, None, Some, false, true, length};
ghost use Rattle.entry_codec.specs.declared.hints.TheConstants.Hints.{NONE};
ghost use Rattle.io_commands.specs.{Values.{IsGood}, declared.request.Kind.TheVariants.{Read}};
ghost use Rattle.machine_model.specs.Events as events;
ghost use Rattle.machine_model.specs.Opening as opens;
ghost use Rattle.machine_model.specs.Script.{played, left_by, made_by, all_allowed, free_of, build};
ghost use Rattle.machine_model.specs.Script as script;
ghost use Rattle.machine_model.specs.WorkedAdmin as admin;
ghost use Rattle.machine_model.specs.WorkedChains as chains;
ghost use Rattle.machine_model.specs.WorkedChains.{small_segments};
ghost use Rattle.machine_model.specs.WorkedCreations as creations;
ghost use Rattle.machine_model.specs.WorkedForged as forged;
ghost use Rattle.machine_model.specs.WorkedLaws as laws;
ghost use Rattle.machine_model.specs.WorkedQueues as queues;
ghost use Rattle.machine_model.specs.WorkedResets as resets;
ghost use Rattle.machine_model.specs.WorkedReads.{ordinary, first_read, first_read_said, first_write, first_write_said, stopped_read, stopped_read_said};
ghost use Rattle.machine_model.specs.WorkedSound as sound;
ghost use Rattle.machine_model.specs.WorkedWalks as walks;

/// One block read through one Data Block, and one written and read back; and a Read that is stopped after its first byte, and
/// gathers that byte and its draft's own zeros.
pub fn worked_reads()
    ensures first_read { played ordinary first_read ≡ first_read_said }
    ensures first_write { played ordinary first_write ≡ first_write_said }
    ensures stopped_read { played ordinary stopped_read ≡ stopped_read_said }
{}

/// Chains: two segments, a Bit Bucket, four whole pages that join. Their descriptors are in memory byte for byte.
pub fn worked_chains()
    ensures two_segments { played small_segments chains.two_segments ≡ chains.two_segments_said }
    ensures two_segments_bytes { chains.two_segments_shown ≡ chains.two_segments_bytes }
    ensures bucket_behind_data { played ordinary chains.bucket_behind_data ≡ chains.bucket_behind_data_said }
    ensures bucket_bytes { chains.bucket_shown ≡ chains.bucket_bytes }
    ensures four_pages { played ordinary chains.four_pages ≡ chains.four_pages_said }
    ensures four_pages_bytes { chains.four_pages_shown ≡ chains.four_pages_bytes }
{}

/// Where pages are placed: a run after a page that stands alone, and pages that are no run, which need a chain page.
pub fn worked_placements()
    ensures run_behind_a_hole { played ordinary chains.run_behind_a_hole ≡ chains.run_behind_a_hole_said }
    ensures run_behind_a_hole_bytes { chains.run_behind_a_hole_shown ≡ chains.run_behind_a_hole_bytes }
    ensures no_run { played chains.nine_pages chains.no_run ≡ chains.no_run_said }
{}

/// Walks over lists in a store of eight pages: their answers and touched pages, and the order of the faults.
pub fn worked_walks()
    ensures circle { walks.circle ≡ walks.circle_said }
    ensures straddling_descriptor { walks.straddling_descriptor ≡ walks.straddling_descriptor_said }
    ensures empty_block_and_bucket { walks.empty_block_and_bucket ≡ walks.empty_block_and_bucket_said }
    ensures orders { walks.orders ≡ walks.orders_said }
    ensures longer { walks.longer ≡ walks.longer_said }
    ensures too_many { walks.too_many ≡ walks.too_many_said }
{}

/// Queues: the bytes of their slots as they turn, identifiers and pages that run out, two Compares, a Read past the image,
/// a request of other blocks, which changes no count, the draft of another world, and refusals in their order.
pub fn worked_queues()
    ensures first_ring { queues.ring_of (left_by queues.two_entries queues.once) ≡ Some queues.ring_after_one }
    ensures second_ring { queues.ring_of (left_by (queues.turned_to queues.ring_after_one) queues.once) ≡ Some queues.ring_after_two }
    ensures first_completion { script.shown (left_by queues.two_entries queues.once) 3 0 16 ≡ queues.completion_in_slot 1 1 }
    ensures second_completion { script.shown (left_by (queues.turned_to queues.ring_after_one) queues.once) 3 16 16 ≡ queues.completion_in_slot 0 1 }
    ensures third_completion { script.shown (left_by (queues.turned_to queues.ring_after_two) queues.once) 3 0 16 ≡ queues.completion_in_slot 1 0 }
    ensures wrapped_completion { script.shown (left_by sound.three_entries sound.two_turns) 3 0 16 ≡ queues.completion_in_slot 1 0 }
    ensures first_submission { script.shown (left_by queues.two_entries queues.once) 2 0 4 ≡ queues.first_word }
    ensures no_second_submission { script.shown (left_by queues.two_entries queues.once) 2 64 4 ≡ (0 ∷ 0 ∷ 0 ∷ 0 ∷ []) }
    ensures second_submission { script.shown (left_by (queues.turned_to queues.ring_after_one) queues.once) 2 64 4 ≡ queues.first_word }
    ensures identifiers_run_out { played ordinary queues.identifiers_run_out ≡ queues.identifiers_run_out_said }
    ensures two_compares { played ordinary queues.two_compares ≡ queues.two_compares_said }
    ensures read_past_image { played ordinary queues.read_past_image ≡ queues.read_past_image_said }
    ensures read_of_namespace_2 { played ordinary queues.read_of_namespace_2 ≡ queues.read_of_namespace_2_said }
    ensures large_block_is_good { IsGood queues.large_block }
    ensures other_blocks { played ordinary queues.other_blocks ≡ queues.other_blocks_said }
    ensures other_blocks_counts { queues.counts_after (queues.block Read 0 ∷ script.ask 1 queues.large_block ∷ []) ≡ queues.counts_after (queues.block Read 0 ∷ []) }
    ensures pages_run_out { played ordinary queues.pages_run_out ≡ queues.pages_run_out_said }
    ensures stranger { queues.stranger ≡ (script.refused events.Stranger ∷ script.ok ∷ []) }
    ensures refusals_in_order { played ordinary queues.refusals_in_order ≡ queues.refusals_in_order_said }
    ensures fills { played ordinary queues.fills ≡ queues.fills_said }
    ensures turns { played sound.three_entries sound.turns ≡ sound.said_turns }
{}

/// Admin commands: three Aborts, the deletion of a queue with work left, an Abort sent for an earlier command of the same
/// identifier, and two Delete CQs sent to a live queue.
pub fn worked_admin()
    ensures three_aborts { played ordinary admin.three_aborts ≡ admin.three_aborts_said }
    ensures queue_deletion { played ordinary admin.queue_deletion ≡ admin.queue_deletion_said }
    ensures free_after_deletion { free_of (left_by ordinary admin.queue_deletion) ≡ 14 }
    ensures abort_of_reused_identifier { played ordinary admin.abort_of_reused_identifier ≡ admin.abort_of_reused_identifier_said }
    ensures two_cq_deletions { played ordinary admin.two_cq_deletions ≡ admin.two_cq_deletions_said }
{}

/// A queue that is gone is made again: the calls and what they answer, the bytes of the two entries, polled and with
/// interrupts, what is refused while half of it is there, and the pages that are left free.
pub fn worked_creations()
    ensures creation { played (left_by ordinary admin.queue_deletion) creations.creation ≡ creations.creation_said }
    ensures completion_queue_entry { creations.entry_of (left_by ordinary admin.queue_deletion) (script.create_cq 1 None) ≡ creations.completion_queue_entry_said }
    ensures interrupts { played (left_by ordinary admin.queue_deletion) (creations.creation_with (Some 3)) ≡ creations.creation_said }
    ensures interrupts_entry { creations.entry_of (left_by ordinary admin.queue_deletion) (script.create_cq 1 (Some 3)) ≡ creations.interrupts_entry_said }
    ensures submission_queue_entry { creations.entry_of (left_by (left_by ordinary admin.queue_deletion) (creations.managed (script.create_cq 1 None))) (script.create_sq 1) ≡ creations.submission_queue_entry_said }
    ensures half_made_refusals { played (left_by ordinary admin.queue_deletion) creations.half_made_refusals ≡ creations.half_made_refusals_said }
    ensures free_after_creation { free_of (left_by (left_by ordinary admin.queue_deletion) creations.creation) ≡ 11 }
    ensures free_after_refusals { free_of (left_by (left_by ordinary admin.queue_deletion) creations.half_made_refusals) ≡ 14 }
{}

/// Forged completion entries: what the host is answered, whatever the controller's part is (blank or crowded).
pub fn worked_forged()
    ensures three_rejections { played ordinary forged.three_rejections ≡ forged.three_rejections_said }
    ensures three_rejections_blank { forged.played_over forged.blank ordinary forged.three_rejections ≡ forged.three_rejections_said }
    ensures three_rejections_crowded { forged.played_over forged.crowded ordinary forged.three_rejections ≡ forged.three_rejections_said }
    ensures head_held_back_blank { forged.played_over forged.blank (left_by ordinary forged.three_submitted) forged.head_held_back ≡ forged.head_held_back_said }
    ensures forged_deletion_crowded { forged.played_over forged.crowded forged.two_queues forged.forged_deletion ≡ forged.forged_deletion_said }
    ensures collected_while_walking { played ordinary forged.collected_while_walking ≡ forged.collected_while_walking_said }
    ensures head_held_back { played (left_by ordinary forged.three_submitted) forged.head_held_back ≡ forged.head_held_back_said }
    ensures identifier_of_a_job { played (left_by ordinary forged.three_submitted) forged.identifier_of_a_job ≡ forged.identifier_of_a_job_said }
    ensures forged_deletion { played forged.two_queues forged.forged_deletion ≡ forged.forged_deletion_said }
{}

/// The hints of a command's completion are reported with it, whoever wrote the completion; the controller gives no hints, nor does a reset.
pub fn worked_hints()
    ensures forged { forged.hints_told (left_by ordinary forged.ended_by_hinting) ≡ (forged.each_hint ∷ []) }
    ensures completed { forged.hints_told (left_by ordinary forged.ended_by_controller) ≡ (NONE ∷ []) }
    ensures reset { forged.hints_told (left_by ordinary forged.ended_by_reset) ≡ (NONE ∷ []) }
{}

/// A reset: with one command of each phase, a job, and entries that are not fetched; and after a forged entry, where it makes the machine trusted
/// again. A queue is made again after it, the pages of all I/O queues are free, and each page has one owner in each state before a step.
pub fn worked_resets()
    ensures reset_run { played forged.two_queues resets.reset_run ≡ resets.reset_run_said }
    ensures free_before_reset { free_of (left_by forged.two_queues resets.one_of_each) ≡ 5 }
    ensures free_after_all { free_of (left_by (left_by forged.two_queues resets.one_of_each) resets.after_all) ≡ 14 }
    ensures forged_and_reset { played ordinary resets.forged_and_reset ≡ resets.forged_and_reset_said }
    ensures trusted_again { resets.is_trusted (left_by ordinary resets.forged_and_reset) ≡ true }
    ensures sound { sound.all_sound (made_by forged.two_queues resets.reset_run) ≡ true }
    ensures forged_sound { sound.all_sound (made_by ordinary resets.forged_and_reset) ≡ true }
    ensures touches { all_allowed (made_by forged.two_queues resets.reset_run) ≡ true }
{}

/// Two openings that are refused.
pub fn worked_openings()
    ensures too_few_pages { opens.open_refusal 8 4 4 256 ≡ Some (opens.NoPages 10 8) }
    ensures bad_config { opens.open_refusal 7 1 4 256 ≡ Some opens.BadConfig }
{}

/// Each step of these runs touches only pages that it may.
pub fn worked_touches()
    ensures two_segments { all_allowed (made_by small_segments chains.two_segments) ≡ true }
    ensures three_aborts { all_allowed (made_by ordinary admin.three_aborts) ≡ true }
    ensures queue_deletion { all_allowed (made_by ordinary admin.queue_deletion) ≡ true }
    ensures creation { all_allowed (made_by (left_by ordinary admin.queue_deletion) creations.creation) ≡ true }
    ensures half_made_refusals { all_allowed (made_by (left_by ordinary admin.queue_deletion) creations.half_made_refusals) ≡ true }
{}

/// What a walk may answer: the page that its unit touches, which it can't omit.
pub fn worked_answers()
    ensures touches { laws.SecondStepTouches (7 ∷ []) }
    ensures touches_something { laws.SecondStepTouches [] → ⊥ }
{}

/// The image of a run with one Write, what a Read with a Bit Bucket gathers, and what the segments of three pieces spell.
pub fn worked_images()
    ensures image { laws.image_of_first_write ≡ (0 ∷ 171 ∷ 205 ∷ 0 ∷ []) }
    ensures image_left { laws.image_left ≡ laws.image_of_first_write }
    ensures read_with_bucket { length laws.read_with_bucket ≡ 512 }
    ensures parts_spelled { laws.parts_spelled ≡ laws.three_parts }
    ensures built_of_three { laws.IsBuiltOfThree }
    ensures segments_named { laws.SegmentsNamed }
    ensures far_entry { laws.far_entry_read ≡ laws.far_entry }
    ensures no_flag { laws.cdw12_with false false ≡ 7 }
    ensures force_unit_access { laws.cdw12_with true false ≡ 0x40000007 }
    ensures limited_retry { laws.cdw12_with false true ≡ 0x80000007 }
    ensures both_flags { laws.cdw12_with true true ≡ 0xC0000007 }
{}

/// Drafts that nobody but their maker can make: one whose entry has another identifier, and one with segments of another
/// length.
pub fn worked_drafts()
    ensures renamed { played laws.one_renamed laws.renamed_run ≡ laws.renamed_said }
    ensures anew_lengths { laws.lengths laws.made_anew ≡ (48 ∷ []) }
    ensures own_lengths { laws.lengths (left_by laws.four_each (build 1 0 ∷ [])) ≡ (64 ∷ []) }
    ensures anew { played laws.made_anew laws.anew_run ≡ laws.anew_said }
{}

/// A Read of two blocks that was never fetched, after one of a single block with its identifier, which was: the latest draft
/// before that fetch is not its own.
pub fn worked_never_fetched()
    ensures before_the_fetch { laws.blocks_drafted 4 ≡ (1 ∷ []) }
    ensures before_the_collect { laws.blocks_drafted 20 ≡ (2 ∷ []) }
{}

/// In each state before a step of these runs every page has one owner, the counts add up, identifiers differ, and pages are out with
/// their commands.
pub fn worked_owners()
    ensures three_aborts { sound.all_sound (made_by ordinary admin.three_aborts) ≡ true }
    ensures queue_deletion { sound.all_sound (made_by ordinary admin.queue_deletion) ≡ true }
    ensures creation { sound.all_sound (made_by (left_by ordinary admin.queue_deletion) creations.creation) ≡ true }
    ensures half_made_refusals { sound.all_sound (made_by (left_by ordinary admin.queue_deletion) creations.half_made_refusals) ≡ true }
    ensures bucket_behind_data { sound.all_sound (made_by ordinary chains.bucket_behind_data) ≡ true }
    ensures collected_while_walking { sound.all_sound (made_by ordinary forged.collected_while_walking) ≡ true }
    ensures identifier_of_a_job { sound.all_sound (made_by (left_by ordinary forged.three_submitted) forged.identifier_of_a_job) ≡ true }
    ensures forged_deletion { sound.all_sound (made_by forged.two_queues forged.forged_deletion) ≡ true }
{}
