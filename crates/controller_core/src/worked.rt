//! Worked runs of the definitions. Each function does nothing, and its clauses are the run.
#![tactic(auto, unfolding(page_memory::specs::Memory::bytes_at, sgl_descriptor::specs::Spelling::descriptor_of, entry_codec::specs::Submission::submission_of, entry_codec::specs::Completion::completion_bytes, controller_walk::specs::Units::moving, controller_walk::specs::Units::from_place))]

ghost use Rattle.std.specs.Prelude.{◌≡◌, ◌∷◌, [], None, Some, false, length, replicate, slice_get, true};
ghost use Rattle.admin_commands.specs.Entries.{admin_entry};
ghost use Rattle.admin_commands.specs.declared.AdminKind.TheVariants.{Abort, CreateCq};
ghost use Rattle.controller_walk.specs.declared.walk.WalkState.TheVariants.{More, End};
ghost use Rattle.entry_codec.specs.Worked.{first_completion_bytes, first_read};
ghost use Rattle.entry_codec.specs.declared.status.TheConstants.Status.{SUCCESS, INVALID_OPCODE, INVALID_FIELD, DATA_TRANSFER_ERROR, INVALID_SGL_SEGMENT, INVALID_SGL_COUNT, DATA_SGL_LENGTH_INVALID, SGL_TYPE_INVALID};
ghost use Rattle.page_memory.specs.Memory.{bytes_at};
ghost use Rattle.controller_core.specs.Completing.{CompletesTo, complete_refusal};
ghost use Rattle.controller_core.specs.Doorbells.{tail_rung, head_rung};
ghost use Rattle.controller_core.specs.Fetching.{FetchesTo, fetch_refusal, look_refusal};
ghost use Rattle.controller_core.specs.Lending.{entry_lacked, fetch_lacked, lent_refusal};
ghost use Rattle.controller_core.specs.Managing.{command_of, managed};
ghost use Rattle.controller_core.specs.Walking.{WalksTo, walk_refusal};
ghost use Rattle.controller_core.specs.Worked.{fresh, rung, memory_with_entry, with_read_begun, with_read_halfway, with_read_walked, with_read_completed, memory_with_data, memory_with_completion, wrong_opcode, status_bytes, create_cq, create_sq, memory_with_creations, without_queue, with_completion_made, with_queue_made, made_queue, with_abort, with_reset, with_reset_rung, block};
ghost use Rattle.controller_core.specs.declared.command.FetchedWork.TheVariants.{Admin};
ghost use Rattle.controller_core.specs.declared.lending.LentRefusal.TheVariants.{NotLent, Refused};
ghost use Rattle.controller_core.specs.declared.refusal.ControllerRefusal.TheVariants as refusal;

/// A Read of one block, from the entry in memory to the completion in memory, with the pages that each call touches after those that were touched before.
#[tactic(auto, using(crate::proofs::WorkedReads::first_fetch, crate::proofs::WorkedReads::first_unit, crate::proofs::WorkedReads::second_unit, crate::proofs::WorkedReads::first_completion), unfolding(page_memory::specs::Memory::bytes_at, sgl_descriptor::specs::Spelling::descriptor_of, entry_codec::specs::Submission::submission_of, entry_codec::specs::Completion::completion_bytes, controller_walk::specs::Units::moving, controller_walk::specs::Units::from_place))]
pub fn worked_first_read()
    ensures fetch { FetchesTo rung 8 memory_with_entry [] 1 0 with_read_begun memory_with_entry (2 ∷ []) }
    ensures first_unit { WalksTo with_read_begun 1 0 memory_with_entry (2 ∷ []) More with_read_halfway memory_with_entry (2 ∷ []) }
    ensures second_unit { WalksTo with_read_halfway 1 0 memory_with_entry (2 ∷ []) End with_read_walked memory_with_data (2 ∷ 4 ∷ []) }
    ensures completion { CompletesTo with_read_walked 1 0 memory_with_data (2 ∷ 4 ∷ []) with_read_completed memory_with_completion (2 ∷ 4 ∷ 3 ∷ []) }
    ensures data { bytes_at memory_with_completion 0x4000 512 ≡ Some (replicate 512 0x11) }
    ensures entry { bytes_at memory_with_completion 0x3000 16 ≡ Some first_completion_bytes }
{}

/// What is refused along that Read.
pub fn worked_refusals()
    ensures not_rung { look_refusal fresh memory_with_entry 1 ≡ Some refusal.Idle }
    ensures no_queue { look_refusal rung memory_with_entry 2 ≡ Some refusal.Idle }
    ensures unread { walk_refusal rung 1 0 ≡ Some refusal.NoJob }
    ensures walking { complete_refusal with_read_halfway memory_with_entry 1 0 ≡ Some refusal.Walking }
    ensures walked { walk_refusal with_read_walked 1 0 ≡ Some refusal.Nothing }
    ensures ready { complete_refusal with_read_walked memory_with_data 1 0 ≡ None }
    ensures forgotten { complete_refusal with_read_completed memory_with_completion 1 0 ≡ Some refusal.NoJob }
{}

/// Which blocks are wanted along that Read, where none is lent: its own at the fetch, and none at the end.
pub fn worked_wants()
    ensures read { entry_lacked (λ slba n. false) rung 1 first_read ≡ Some (NotLent 0 1) }
    ensures lent { entry_lacked (λ slba n. true) rung 1 first_read ≡ None }
    ensures known { entry_lacked (λ slba n. false) with_read_begun 1 first_read ≡ None }
    ensures admin { entry_lacked (λ slba n. false) rung 0 first_read ≡ None }
    ensures not_rung { fetch_lacked (λ slba n. false) fresh memory_with_entry 1 ≡ None }
    ensures ends { lent_refusal (λ slba n. false) with_read_walked memory_with_data 1 0 ≡ None }
    ensures walking { lent_refusal (λ slba n. false) with_read_halfway memory_with_entry 1 0 ≡ Some (Refused refusal.Walking) }
{}

/// Doorbells out of their range: a tail that is no slot, a head past the tail, a queue that is not there.
pub fn worked_doorbells()
    ensures tail { tail_rung 1 4 fresh ≡ fresh }
    ensures head { head_rung 1 1 fresh ≡ fresh }
    ensures no_queue { tail_rung 2 1 fresh ≡ fresh }
{}

/// An entry of queue 0 with a wrong opcode, and an Abort of the Read in the midst of its walk, which waits for it.
pub fn worked_admin()
    ensures wrong { (managed 8 wrong_opcode fresh).commands ≡ command_of 0 (Admin wrong_opcode INVALID_OPCODE 0) ∷ [] }
    ensures waits { complete_refusal (managed 8 (admin_entry (Abort 1 0) 0) with_read_halfway) memory_with_entry 0 0 ≡ Some refusal.Waits }
    ensures stopped { walk_refusal (managed 8 (admin_entry (Abort 1 0) 0) with_read_halfway) 1 0 ≡ Some refusal.Nothing }
    ensures too_late { complete_refusal (managed 8 (admin_entry (Abort 1 0) 0) with_read_walked) memory_with_data 0 0 ≡ None }
{}

/// The halves of a queue that was deleted are made again, from their entries in memory: it is live, with empty rings at the pages named.
#[tactic(auto, using(crate::proofs::WorkedReads::completion_fetched, crate::proofs::WorkedReads::submission_fetched), unfolding(page_memory::specs::Memory::bytes_at, sgl_descriptor::specs::Spelling::descriptor_of, entry_codec::specs::Submission::submission_of, entry_codec::specs::Completion::completion_bytes, controller_walk::specs::Units::moving, controller_walk::specs::Units::from_place))]
pub fn worked_creations()
    ensures completion { FetchesTo without_queue 8 memory_with_creations [] 0 0 with_completion_made memory_with_creations (0 ∷ []) }
    ensures submission { FetchesTo with_completion_made 8 memory_with_creations (0 ∷ []) 0 1 with_queue_made memory_with_creations (0 ∷ 0 ∷ []) }
    ensures queue { slice_get with_queue_made.queues 1 ≡ Some made_queue }
    ensures ends { with_queue_made.commands ≡ command_of 0 (Admin create_cq SUCCESS 0) ∷ command_of 0 (Admin create_sq SUCCESS 0) ∷ [] }
{}

/// A completion queue that would begin inside a page, and one that would begin where the pool ends: invalid field; of the first
/// it is said that nothing is made.
pub fn worked_refused_creations()
    ensures inside { (managed 8 (admin_entry (CreateCq 1 4 0x6010 None) 0) without_queue).commands ≡ command_of 0 (Admin (admin_entry (CreateCq 1 4 0x6010 None) 0) INVALID_FIELD 0) ∷ [] }
    ensures behind { (managed 8 (admin_entry (CreateCq 1 4 0x8000 None) 0) without_queue).commands ≡ command_of 0 (Admin (admin_entry (CreateCq 1 4 0x8000 None) 0) INVALID_FIELD 0) ∷ [] }
    ensures unmade { slice_get (managed 8 (admin_entry (CreateCq 1 4 0x6010 None) 0) without_queue).queues 1 ≡ slice_get without_queue.queues 1 }
{}

/// A Read in the midst of its walk and the Abort that stopped it are gone after a reset, and nothing is fetched of what stands in the rings.
/// The Read's queue is made again, from its entries in memory, as after a deletion.
#[tactic(auto, using(crate::proofs::WorkedReads::completion_fetched, crate::proofs::WorkedReads::submission_fetched), unfolding(page_memory::specs::Memory::bytes_at, sgl_descriptor::specs::Spelling::descriptor_of, entry_codec::specs::Submission::submission_of, entry_codec::specs::Completion::completion_bytes, controller_walk::specs::Units::moving, controller_walk::specs::Units::from_place))]
pub fn worked_reset()
    ensures before { length with_abort.commands ≡ 2 }
    ensures admin_idle { fetch_refusal with_reset memory_with_creations 0 ≡ Some refusal.Idle }
    ensures idle { fetch_refusal with_reset memory_with_entry 1 ≡ Some refusal.Idle }
    ensures unwalked { walk_refusal with_reset 1 0 ≡ Some refusal.NoJob }
    ensures uncompleted { complete_refusal with_reset memory_with_entry 0 0 ≡ Some refusal.NoJob }
    ensures still_idle { fetch_refusal (tail_rung 1 1 with_reset) memory_with_entry 1 ≡ Some refusal.Idle }
    ensures image { with_reset.image ≡ block }
    ensures completion { FetchesTo with_reset_rung 8 memory_with_creations [] 0 0 with_completion_made memory_with_creations (0 ∷ []) }
    ensures submission { FetchesTo with_completion_made 8 memory_with_creations (0 ∷ []) 0 1 with_queue_made memory_with_creations (0 ∷ 0 ∷ []) }
    ensures queue { slice_get with_queue_made.queues 1 ≡ Some made_queue }
{}

/// The bytes that tell the guest of each fault of a walk, in the first pass of the ring.
pub fn worked_faults()
    ensures transfer { status_bytes DATA_TRANSFER_ERROR ≡ 0x09 ∷ 0x00 ∷ [] }
    ensures segment { status_bytes INVALID_SGL_SEGMENT ≡ 0x1B ∷ 0x00 ∷ [] }
    ensures count { status_bytes INVALID_SGL_COUNT ≡ 0x1D ∷ 0x00 ∷ [] }
    ensures length { status_bytes DATA_SGL_LENGTH_INVALID ≡ 0x1F ∷ 0x00 ∷ [] }
    ensures kind { status_bytes SGL_TYPE_INVALID ≡ 0x23 ∷ 0x00 ∷ [] }
{}
