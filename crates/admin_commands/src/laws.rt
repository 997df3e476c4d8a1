//! The rules of the admin commands, for any entry, and what the entries that the driver sends ask for.

ghost use Rattle.std.specs.Prelude.{ℕ, ◌≡◌, ◌≢◌, ◌<◌, ◌≤◌, ◌+◌, ◌/◌, ◌%◌, ◌^◌, ◌++◌, ◌∷◌, [], true, false, Option, Some, None, Ok, replicate, take};
ghost use Rattle.page_memory.specs.declared.page.Half.TheVariants.{Submission, Completion};
ghost use Rattle.entry_codec.specs.declared.submission.SubEntry.{SubEntry};
ghost use Rattle.entry_codec.specs.declared.status.TheConstants.Status.{SUCCESS, INVALID_OPCODE, INVALID_FIELD, COMPLETION_QUEUE_INVALID, INVALID_QUEUE_IDENTIFIER, INVALID_QUEUE_SIZE, INVALID_QUEUE_DELETION};
ghost use Rattle.entry_codec.specs.Submission.{submission_bytes};
ghost use Rattle.queue_pair.specs.Memory.{half_pages};
ghost use Rattle.admin_commands.specs.declared.AdminKind.TheVariants.{Abort, DeleteSq, DeleteCq, CreateCq, CreateSq};
ghost use Rattle.admin_commands.specs.declared.SqState.TheVariants.{Absent, Live, Stopping};
ghost use Rattle.admin_commands.specs.declared.AdminVerdict.TheVariants.{Answer, AbortJob, StopQueue, DropCompletion, MakeCompletion, MakeSubmission};
ghost use Rattle.admin_commands.specs.declared.DeviceView.{DeviceView};
ghost use Rattle.admin_commands.specs.Entries.{admin_entry, named_queue, named_command, named_size, named_completion_queue, named_vector, named_base, is_contiguous, kind_or_fault};
ghost use Rattle.admin_commands.specs.Creations.{CreatesFreeCompletionQueue, CreatesFreeSubmissionQueue, CreatesPairedSubmissionQueue};
ghost use Rattle.admin_commands.specs.Verdicts.{decision};

/// What an entry that the driver sends names is read back from it. The ring of a creation lies in consecutive pages, and the completions of
/// a new submission queue go to the completion queue of its number.
pub fn names_come_back()
    ensures abort_queue { (q cid id : ℕ) → q < 2 ^ 16 → named_queue (admin_entry (Abort q cid) id) ≡ q }
    ensures abort_command { (q cid id : ℕ) → q < 2 ^ 16 → named_command (admin_entry (Abort q cid) id) ≡ cid }
    ensures delete_sq { (q id : ℕ) → q < 2 ^ 16 → named_queue (admin_entry (DeleteSq q) id) ≡ q }
    ensures delete_cq { (q id : ℕ) → q < 2 ^ 16 → named_queue (admin_entry (DeleteCq q) id) ≡ q }
    ensures create_cq_queue { (q n base id : ℕ) (vector : Option ℕ) → q < 2 ^ 16 → named_queue (admin_entry (CreateCq q n base vector) id) ≡ q }
    ensures create_cq_size { (q n base id : ℕ) (vector : Option ℕ) → q < 2 ^ 16 → 1 ≤ n → named_size (admin_entry (CreateCq q n base vector) id) ≡ n }
    ensures create_cq_base { (q n base id : ℕ) (vector : Option ℕ) → base < 2 ^ 64 → named_base (admin_entry (CreateCq q n base vector) id) ≡ base }
    ensures create_cq_contiguous { (q n base id : ℕ) (vector : Option ℕ) → is_contiguous (admin_entry (CreateCq q n base vector) id) ≡ true }
    ensures create_cq_vector { (q n base id : ℕ) (vector : Option ℕ) → named_vector (admin_entry (CreateCq q n base vector) id) ≡ vector }
    ensures create_sq_queue { (q n base id : ℕ) → q < 2 ^ 16 → named_queue (admin_entry (CreateSq q n base) id) ≡ q }
    ensures create_sq_size { (q n base id : ℕ) → q < 2 ^ 16 → 1 ≤ n → named_size (admin_entry (CreateSq q n base) id) ≡ n }
    ensures create_sq_base { (q n base id : ℕ) → base < 2 ^ 64 → named_base (admin_entry (CreateSq q n base) id) ≡ base }
    ensures create_sq_contiguous { (q n base id : ℕ) → is_contiguous (admin_entry (CreateSq q n base) id) ≡ true }
    ensures create_sq_completion_queue { (q n base id : ℕ) → named_completion_queue (admin_entry (CreateSq q n base) id) ≡ q }
{}

/// The bytes of three creations' entries: of completion queue 1 with a ring of 4 entries at 2000h, polled and with interrupts on vector 3,
/// and of submission queue 1 with a ring at 3000h.
#[tactic(auto, unfolding(entry_codec::specs::Submission::submission_bytes))]
pub fn creations_have_their_bytes()
    ensures completion_queue { submission_bytes (admin_entry (CreateCq 1 4 0x2000 None) 0) ≡ 0x05 ∷ 0x00 ∷ 0x00 ∷ 0x00 ∷ [] ++ replicate 20 0x00 ++ 0x00 ∷ 0x20 ∷ [] ++ replicate 14 0x00 ++ 0x01 ∷ 0x00 ∷ 0x03 ∷ 0x00 ∷ 0x01 ∷ 0x00 ∷ 0x00 ∷ 0x00 ∷ [] ++ replicate 16 0x00 }
    ensures with_interrupts { submission_bytes (admin_entry (CreateCq 1 4 0x2000 (Some 3)) 0) ≡ 0x05 ∷ 0x00 ∷ 0x00 ∷ 0x00 ∷ [] ++ replicate 20 0x00 ++ 0x00 ∷ 0x20 ∷ [] ++ replicate 14 0x00 ++ 0x01 ∷ 0x00 ∷ 0x03 ∷ 0x00 ∷ 0x03 ∷ 0x00 ∷ 0x03 ∷ 0x00 ∷ [] ++ replicate 16 0x00 }
    ensures submission_queue { submission_bytes (admin_entry (CreateSq 1 4 0x3000) 0) ≡ 0x01 ∷ 0x00 ∷ 0x00 ∷ 0x00 ∷ [] ++ replicate 20 0x00 ++ 0x00 ∷ 0x30 ∷ [] ++ replicate 14 0x00 ++ 0x01 ∷ 0x00 ∷ 0x03 ∷ 0x00 ∷ 0x01 ∷ 0x00 ∷ 0x01 ∷ 0x00 ∷ [] ++ replicate 16 0x00 }
{}

/// The checks of the fields come in their order, before the rules: any opcode but the five is refused, whatever FUSE is, and then any
/// FUSE but 0.
pub fn checks_fields_first()
    ensures opcode { (entry : SubEntry) (view : DeviceView) → entry.opcode ≢ 0x00 → entry.opcode ≢ 0x01 → entry.opcode ≢ 0x04 → entry.opcode ≢ 0x05 → entry.opcode ≢ 0x08 → decision entry view ≡ Answer INVALID_OPCODE 0 }
    ensures fused_delete_sq { (entry : SubEntry) (view : DeviceView) → entry.opcode ≡ 0x00 → entry.fuse ≢ 0 → decision entry view ≡ Answer INVALID_FIELD 0 }
    ensures fused_create_sq { (entry : SubEntry) (view : DeviceView) → entry.opcode ≡ 0x01 → entry.fuse ≢ 0 → decision entry view ≡ Answer INVALID_FIELD 0 }
    ensures fused_delete_cq { (entry : SubEntry) (view : DeviceView) → entry.opcode ≡ 0x04 → entry.fuse ≢ 0 → decision entry view ≡ Answer INVALID_FIELD 0 }
    ensures fused_create_cq { (entry : SubEntry) (view : DeviceView) → entry.opcode ≡ 0x05 → entry.fuse ≢ 0 → decision entry view ≡ Answer INVALID_FIELD 0 }
    ensures fused_abort { (entry : SubEntry) (view : DeviceView) → entry.opcode ≡ 0x08 → entry.fuse ≢ 0 → decision entry view ≡ Answer INVALID_FIELD 0 }
{}

/// An Abort stops the command that it names exactly where that is an I/O job without verdict; otherwise it was not aborted, which DW0 says.
pub fn aborts()
    ensures stops { (entry : SubEntry) (view : DeviceView) → entry.opcode ≡ 0x08 → entry.fuse ≡ 0 → named_queue entry ≢ 0 → view.target_walks ≡ true → decision entry view ≡ AbortJob (named_queue entry) (named_command entry) }
    ensures too_late { (entry : SubEntry) (view : DeviceView) → entry.opcode ≡ 0x08 → entry.fuse ≡ 0 → view.target_walks ≡ false → decision entry view ≡ Answer SUCCESS 1 }
    ensures queue_zero { (entry : SubEntry) (view : DeviceView) → entry.opcode ≡ 0x08 → entry.fuse ≡ 0 → named_queue entry ≡ 0 → decision entry view ≡ Answer SUCCESS 1 }
{}

/// A Delete SQ stops the submission queue that it names exactly where that is a live I/O queue; otherwise it names no queue to delete.
pub fn deletes_submission_queues()
    ensures live { (entry : SubEntry) (view : DeviceView) → entry.opcode ≡ 0x00 → entry.fuse ≡ 0 → named_queue entry ≢ 0 → view.sq ≡ Live → decision entry view ≡ StopQueue (named_queue entry) }
    ensures absent { (entry : SubEntry) (view : DeviceView) → entry.opcode ≡ 0x00 → entry.fuse ≡ 0 → view.sq ≡ Absent → decision entry view ≡ Answer INVALID_QUEUE_IDENTIFIER 0 }
    ensures stopping { (entry : SubEntry) (view : DeviceView) → entry.opcode ≡ 0x00 → entry.fuse ≡ 0 → view.sq ≡ Stopping → decision entry view ≡ Answer INVALID_QUEUE_IDENTIFIER 0 }
    ensures queue_zero { (entry : SubEntry) (view : DeviceView) → entry.opcode ≡ 0x00 → entry.fuse ≡ 0 → named_queue entry ≡ 0 → decision entry view ≡ Answer INVALID_QUEUE_IDENTIFIER 0 }
{}

/// A Delete CQ drops the completion queue that it names exactly where that is an I/O queue whose submission queue is gone; a queue that is
/// there is refused for its submission queue, and any other names no queue to delete.
pub fn deletes_completion_queues()
    ensures gone { (entry : SubEntry) (view : DeviceView) → entry.opcode ≡ 0x04 → entry.fuse ≡ 0 → named_queue entry ≢ 0 → view.cq_there ≡ true → view.sq ≡ Absent → decision entry view ≡ DropCompletion (named_queue entry) }
    ensures live { (entry : SubEntry) (view : DeviceView) → entry.opcode ≡ 0x04 → entry.fuse ≡ 0 → named_queue entry ≢ 0 → view.cq_there ≡ true → view.sq ≡ Live → decision entry view ≡ Answer INVALID_QUEUE_DELETION 0 }
    ensures stopping { (entry : SubEntry) (view : DeviceView) → entry.opcode ≡ 0x04 → entry.fuse ≡ 0 → named_queue entry ≢ 0 → view.cq_there ≡ true → view.sq ≡ Stopping → decision entry view ≡ Answer INVALID_QUEUE_DELETION 0 }
    ensures not_there { (entry : SubEntry) (view : DeviceView) → entry.opcode ≡ 0x04 → entry.fuse ≡ 0 → view.cq_there ≡ false → decision entry view ≡ Answer INVALID_QUEUE_IDENTIFIER 0 }
    ensures queue_zero { (entry : SubEntry) (view : DeviceView) → entry.opcode ≡ 0x04 → entry.fuse ≡ 0 → named_queue entry ≡ 0 → decision entry view ≡ Answer INVALID_QUEUE_IDENTIFIER 0 }
{}

/// A Create CQ makes the completion queue that it names exactly where that is an I/O queue that is not there, with a ring of the size of
/// every ring, in consecutive pages of the pool. The number is checked first, then the size, and then the pages.
pub fn creates_completion_queues()
    ensures queue_zero { (entry : SubEntry) (view : DeviceView) → entry.opcode ≡ 0x05 → entry.fuse ≡ 0 → named_queue entry ≡ 0 → decision entry view ≡ Answer INVALID_QUEUE_IDENTIFIER 0 }
    ensures queue_above { (entry : SubEntry) (view : DeviceView) → entry.opcode ≡ 0x05 → entry.fuse ≡ 0 → view.queues < named_queue entry → decision entry view ≡ Answer INVALID_QUEUE_IDENTIFIER 0 }
    ensures there { (entry : SubEntry) (view : DeviceView) → entry.opcode ≡ 0x05 → entry.fuse ≡ 0 → view.cq_there ≡ true → decision entry view ≡ Answer INVALID_QUEUE_IDENTIFIER 0 }
    ensures size { (entry : SubEntry) (view : DeviceView) → CreatesFreeCompletionQueue entry view → named_size entry ≢ view.entries → decision entry view ≡ Answer INVALID_QUEUE_SIZE 0 }
    ensures scattered { (entry : SubEntry) (view : DeviceView) → CreatesFreeCompletionQueue entry view → named_size entry ≡ view.entries → is_contiguous entry ≡ false → decision entry view ≡ Answer INVALID_FIELD 0 }
    ensures inside_a_page { (entry : SubEntry) (view : DeviceView) → CreatesFreeCompletionQueue entry view → named_size entry ≡ view.entries → is_contiguous entry ≡ true → named_base entry % 4096 ≢ 0 → decision entry view ≡ Answer INVALID_FIELD 0 }
    ensures past_the_pool { (entry : SubEntry) (view : DeviceView) → CreatesFreeCompletionQueue entry view → named_size entry ≡ view.entries → is_contiguous entry ≡ true → named_base entry % 4096 ≡ 0 → view.pages < named_base entry / 4096 + half_pages view.entries Completion → decision entry view ≡ Answer INVALID_FIELD 0 }
    ensures made { (entry : SubEntry) (view : DeviceView) → CreatesFreeCompletionQueue entry view → named_size entry ≡ view.entries → is_contiguous entry ≡ true → named_base entry % 4096 ≡ 0 → named_base entry / 4096 + half_pages view.entries Completion ≤ view.pages → decision entry view ≡ MakeCompletion (named_queue entry) (named_base entry) }
{}

/// A Create SQ makes the submission queue that it names exactly where that is an I/O queue that is not there in any state, whose
/// completions go to the completion queue of its number, which is there, with a ring of the size of every ring, in consecutive pages of the
/// pool. The number is checked first, then the completion queue, then the size, and then the pages.
pub fn creates_submission_queues()
    ensures queue_zero { (entry : SubEntry) (view : DeviceView) → entry.opcode ≡ 0x01 → entry.fuse ≡ 0 → named_queue entry ≡ 0 → decision entry view ≡ Answer INVALID_QUEUE_IDENTIFIER 0 }
    ensures queue_above { (entry : SubEntry) (view : DeviceView) → entry.opcode ≡ 0x01 → entry.fuse ≡ 0 → view.queues < named_queue entry → decision entry view ≡ Answer INVALID_QUEUE_IDENTIFIER 0 }
    ensures live { (entry : SubEntry) (view : DeviceView) → entry.opcode ≡ 0x01 → entry.fuse ≡ 0 → view.sq ≡ Live → decision entry view ≡ Answer INVALID_QUEUE_IDENTIFIER 0 }
    ensures stopping { (entry : SubEntry) (view : DeviceView) → entry.opcode ≡ 0x01 → entry.fuse ≡ 0 → view.sq ≡ Stopping → decision entry view ≡ Answer INVALID_QUEUE_IDENTIFIER 0 }
    ensures completion_queue_zero { (entry : SubEntry) (view : DeviceView) → entry.opcode ≡ 0x01 → entry.fuse ≡ 0 → named_completion_queue entry ≡ 0 → decision entry view ≡ Answer INVALID_QUEUE_IDENTIFIER 0 }
    ensures completion_queue_above { (entry : SubEntry) (view : DeviceView) → entry.opcode ≡ 0x01 → entry.fuse ≡ 0 → view.queues < named_completion_queue entry → decision entry view ≡ Answer INVALID_QUEUE_IDENTIFIER 0 }
    ensures completion_queue_not_there { (entry : SubEntry) (view : DeviceView) → CreatesFreeSubmissionQueue entry view → 0 < named_completion_queue entry → named_completion_queue entry ≤ view.queues → view.cq_there ≡ false → decision entry view ≡ Answer COMPLETION_QUEUE_INVALID 0 }
    ensures another_completion_queue { (entry : SubEntry) (view : DeviceView) → CreatesFreeSubmissionQueue entry view → 0 < named_completion_queue entry → named_completion_queue entry ≤ view.queues → named_completion_queue entry ≢ named_queue entry → decision entry view ≡ Answer COMPLETION_QUEUE_INVALID 0 }
    ensures size { (entry : SubEntry) (view : DeviceView) → CreatesPairedSubmissionQueue entry view → named_size entry ≢ view.entries → decision entry view ≡ Answer INVALID_QUEUE_SIZE 0 }
    ensures scattered { (entry : SubEntry) (view : DeviceView) → CreatesPairedSubmissionQueue entry view → named_size entry ≡ view.entries → is_contiguous entry ≡ false → decision entry view ≡ Answer INVALID_FIELD 0 }
    ensures inside_a_page { (entry : SubEntry) (view : DeviceView) → CreatesPairedSubmissionQueue entry view → named_size entry ≡ view.entries → is_contiguous entry ≡ true → named_base entry % 4096 ≢ 0 → decision entry view ≡ Answer INVALID_FIELD 0 }
    ensures past_the_pool { (entry : SubEntry) (view : DeviceView) → CreatesPairedSubmissionQueue entry view → named_size entry ≡ view.entries → is_contiguous entry ≡ true → named_base entry % 4096 ≡ 0 → view.pages < named_base entry / 4096 + half_pages view.entries Submission → decision entry view ≡ Answer INVALID_FIELD 0 }
    ensures made { (entry : SubEntry) (view : DeviceView) → CreatesPairedSubmissionQueue entry view → named_size entry ≡ view.entries → is_contiguous entry ≡ true → named_base entry % 4096 ≡ 0 → named_base entry / 4096 + half_pages view.entries Submission ≤ view.pages → decision entry view ≡ MakeSubmission (named_queue entry) (named_base entry) }
{}

/// The entry that the driver sends for a command asks for that command.
pub fn entries_ask_for_their_command()
    ensures abort { (q cid id : ℕ) → q < 2 ^ 16 → kind_or_fault (admin_entry (Abort q cid) id) ≡ Ok (Abort q cid) }
    ensures delete_sq { (q id : ℕ) → q < 2 ^ 16 → kind_or_fault (admin_entry (DeleteSq q) id) ≡ Ok (DeleteSq q) }
    ensures delete_cq { (q id : ℕ) → q < 2 ^ 16 → kind_or_fault (admin_entry (DeleteCq q) id) ≡ Ok (DeleteCq q) }
    ensures create_cq { (q n base id : ℕ) (vector : Option ℕ) → q < 2 ^ 16 → 1 ≤ n → base < 2 ^ 64 → kind_or_fault (admin_entry (CreateCq q n base vector) id) ≡ Ok (CreateCq q n base vector) }
    ensures create_sq { (q n base id : ℕ) → q < 2 ^ 16 → 1 ≤ n → base < 2 ^ 64 → kind_or_fault (admin_entry (CreateSq q n base) id) ≡ Ok (CreateSq q n base) }
{}

/// Whether a completion queue is polled or has interrupts, and on which vector, decides nothing: whoever serves them, the controller's
/// answer is the same.
pub fn interrupts_decide_nothing()
    ensures entries { (one other : SubEntry) (view : DeviceView) → one.opcode ≡ 0x05 → other.opcode ≡ 0x05 → one.fuse ≡ other.fuse → one.cdw10 ≡ other.cdw10 → one.cdw11 % 2 ≡ other.cdw11 % 2 → take 8 one.sgl1 ≡ take 8 other.sgl1 → decision one view ≡ decision other view }
    ensures sent { (q n base id : ℕ) (vector : Option ℕ) (view : DeviceView) → decision (admin_entry (CreateCq q n base vector) id) view ≡ decision (admin_entry (CreateCq q n base None) id) view }
{}

/// What a controller does with an entry that is no creation (opcodes 01h and 05h) depends on the command that it asks for, and on no other
/// field of it; and with any entry on its opcode, FUSE, CDW10, CDW11 and the first eight bytes of its data pointer, and on no other field.
pub fn decides_by_the_command()
    ensures no_creation { (one other : SubEntry) (view : DeviceView) → one.opcode ≢ 0x01 → one.opcode ≢ 0x05 → kind_or_fault one ≡ kind_or_fault other → decision one view ≡ decision other view }
    ensures any { (one other : SubEntry) (view : DeviceView) → one.opcode ≡ other.opcode → one.fuse ≡ other.fuse → one.cdw10 ≡ other.cdw10 → one.cdw11 ≡ other.cdw11 → take 8 one.sgl1 ≡ take 8 other.sgl1 → decision one view ≡ decision other view }
{}
