//! The controller's side: a command of an I/O queue from its fetch to its completion.

ghost use Rattle.std.specs.Prelude.{◌≡◌, ◌<◌, ◌≤◌, ◌+◌, ◌*◌, ◌-◌, ◌^◌, ◌++◌, ◌∷◌, [], length, replicate, ℕ, true, false, IsSome, IfOk, OnErr, None, Some};
ghost use Rattle.std.specs.Result.{result_err};
ghost use Rattle.block_image.specs.Blocks.{block_count};
ghost use Rattle.controller_walk.specs.Walks.{DoesFirst, LeavesRest};
ghost use Rattle.io_commands.specs.Requests.{is_admin, moves_data, opcode_of};
ghost use Rattle.io_commands.specs.declared.request.Kind.{Kind};
ghost use Rattle.io_commands.specs.Jobs.{IsJob, kind_of_opcode, first_block as spec_first_block, block_number as spec_block_number, need_of_entry, direction_of_entry, io_fault, NoFaultIsPassing, first_bytes as spec_first_bytes, bytes_after_check, BeginsWalk, begins_read as spec_begins_read, lacks_read as spec_lacks_read, job_course, left_of_walk, verdict_of, lacks_blocks as spec_lacks_blocks, finished_status, finished_image, needs_blocks, status_after, image_after, JobContents, entry_over, job_over};

use crate::request::{Kind, MAX_COMMAND_BLOCKS};
use block_image::{BLOCK_SIZE, Blocks};
use controller_walk::{Walk, WalkState};
use entry_codec::{Status, SubEntry, io_opcode};
use page_memory::Dma;
use std::alloc::{AllocError, Allocator, Global};
use std::marker::Model;

/// A fetched command of an I/O queue, which waits for its walk or for its completion.
///
/// A controller that is reset may drop it. Contracts see its entry, how many blocks its image had, its bytes, its walk, if it
/// has one, and its verdict, once it has one.
#[derive(Drop)]
pub struct Job<A: Allocator = Global> {
    entry: SubEntry,
    blocks: u32,
    bytes: Vec<u8, A>,
    walk: Option<Walk>,
    verdict: Option<Status>,
}

impl<A: Allocator> Model for Job<A> {
    ghost use Rattle.io_commands.specs.Jobs.{JobContents, IsJobBy};

    ghost Value = { JobContents };

    ghost view = { λ job. record { blocks = job.blocks; entry = job.entry; bytes = job.bytes.items; walk = job.walk; verdict = job.verdict } };

    ghost invariant = { λ job. IsJobBy job.blocks job.entry job.bytes.items job.verdict job.walk };
}

/// The command of an opcode that the controller has: a Read, a Write or a Compare.
pub fn kind_of(opcode: u8) -> Option<Kind>
    ensures { result ≡ kind_of_opcode opcode }
{
    match opcode {
        io_opcode::WRITE => Some(Kind::Write),
        io_opcode::READ => Some(Kind::Read),
        io_opcode::COMPARE => Some(Kind::Compare),
        _ => None,
    }
}

/// The first block that an entry names.
pub fn first_block(entry: &SubEntry) -> u64
    ensures { result ≡ spec_first_block entry.now }
{
    u64::from(entry.cdw10) + (u64::from(entry.cdw11) << 32)
}

/// How many blocks an entry names.
pub fn block_number(entry: &SubEntry) -> u32
    ensures number { result ≡ spec_block_number entry.now }
    ensures some { 0 < result }
    ensures most { result ≤ 65536 }
{
    entry.cdw12 % 65_536 + 1
}

/// The field checks of an entry, in their order: the command, or the fault.
fn checked(entry: &SubEntry, blocks: u32) -> Result<Kind, Status>
    ensures fault { result_err result ≡ io_fault blocks entry.now }
    ensures kind { IfOk result (λ kind. kind_of_opcode entry.now.opcode ≡ Some kind) }
{
    let Some(kind) = kind_of(entry.opcode) else {
        return Err(Status::INVALID_OPCODE);
    };
    if entry.nsid != 1 {
        return Err(Status::INVALID_NAMESPACE);
    }
    if entry.fuse != 0 || entry.psdt != 1 {
        return Err(Status::INVALID_FIELD);
    }
    let number = block_number(entry);
    if number > MAX_COMMAND_BLOCKS {
        return Err(Status::INVALID_FIELD);
    }
    if number > blocks || first_block(entry) > u64::from(blocks - number) {
        return Err(Status::LBA_OUT_OF_RANGE);
    }
    Ok(kind)
}

/// The bytes that a command begins with: the blocks of a Read, and zeros for what a Write or a Compare fetches.
///
/// # Errors
///
/// Where memory is refused, or a block of a Read is not at hand.
pub fn first_bytes<A: Allocator, I: Blocks>(
    alloc: A,
    entry: &SubEntry,
    kind: Kind,
    image: &I,
) -> Result<Vec<u8, A>, AllocError>
    requires passes { io_fault (block_count (I.bytes image.now)) entry.now ≡ None }
    requires kind { kind_of_opcode entry.now.opcode ≡ Some kind }
    ensures bytes { IfOk result (λ bytes. bytes.items ≡ spec_first_bytes (I.bytes image.now) entry.now (Some kind)) }
    ensures length { IfOk result (λ bytes. length bytes.items ≡ need_of_entry entry.now) }
{
    let number = block_number(entry);
    match kind {
        Kind::Read => image.copied(alloc, first_block(entry), number),
        _ => Ok(vec![in alloc; 0; BLOCK_SIZE * number as usize]?),
    }
}

/// Whether an entry passes the field checks and is a Read.
fn begins_read(entry: &SubEntry, blocks: u32) -> bool
    ensures { result ≡ spec_begins_read blocks entry.now }
{
    match checked(entry, blocks) {
        Ok(Kind::Read) => true,
        _ => false,
    }
}

/// Whether an entry begins a Read of blocks that are not at hand: [`begin_job`] refuses it then, and of an image never for this.
pub fn lacks_read<I: Blocks>(entry: &SubEntry, image: &I) -> bool
    ensures { result ≡ spec_lacks_read (I.at_hand image.now) (block_count (I.bytes image.now)) entry.now }
{
    let number = block_number(entry);
    !image.has(first_block(entry), number) && begins_read(entry, image.blocks())
}

/// Takes in a fetched entry of an I/O queue (NVM Command Set Specification 1.0, Compare, Read and Write).
///
/// The field checks come in this order: the opcode (Invalid Command Opcode), NSID 1 (Invalid Namespace or Format), FUSE 0 and
/// PSDT 1 (Invalid Field in Command), at most 2,048 blocks (Invalid Field in Command), and blocks of the image (LBA Out of
/// Range). The first that fails is the job's verdict. A Read takes its blocks from the image as it is now.
///
/// # Errors
///
/// Where memory is refused, or a block of a Read is not at hand. A command that fails a check asks for neither.
pub fn begin_job<A: Allocator, I: Blocks>(
    alloc: A,
    entry: &SubEntry,
    image: &I,
) -> Result<Job<A>, AllocError>
    ensures entry { IfOk result (λ job. job.entry ≡ entry.now) }
    ensures blocks { IfOk result (λ job. job.blocks ≡ block_count (I.bytes image.now)) }
    ensures verdict { IfOk result (λ job. job.verdict ≡ io_fault (block_count (I.bytes image.now)) entry.now) }
    ensures bytes { IfOk result (λ job. job.bytes ≡ bytes_after_check (I.bytes image.now) entry.now (io_fault (block_count (I.bytes image.now)) entry.now)) }
    ensures walk { IfOk result (λ job. BeginsWalk entry.now (io_fault (block_count (I.bytes image.now)) entry.now) job.walk) }
    ensures left { IfOk result (λ job. left_of_walk job.walk ≤ 12545) }
    ensures job { IfOk result (λ job. IsJob job) }
    ensures refused { OnErr result (io_fault (block_count (I.bytes image.now)) entry.now ≡ None) }
{
    let blocks = image.blocks();
    match checked(entry, blocks) {
        Ok(kind) => {
            let bytes = first_bytes(alloc, entry, kind, image)?;
            let need = 512 * block_number(entry);
            Ok(Job {
                entry: *entry,
                blocks,
                bytes,
                walk: Some(Walk::begin(entry.sgl1, kind.direction(), need)),
                verdict: None,
            })
        }
        Err(fault) => Ok(Job {
            entry: *entry,
            blocks,
            bytes: Vec::new(alloc),
            walk: None,
            verdict: Some(fault),
        }),
    }
}

/// The verdict that a step of the walk gives.
fn verdict_after(state: WalkState) -> Option<Status>
    ensures { result ≡ verdict_of state }
{
    match state {
        WalkState::More => None,
        WalkState::End => Some(Status::SUCCESS),
        WalkState::Fault(status) => Some(status),
    }
}

impl<A: Allocator> Job<A> {
    /// Does the next unit of the walk, and answers as [`Walk::step`] does: `End` gives the verdict Successful Completion, a
    /// fault gives its status, and after `More` there is no verdict still.
    ///
    /// There is no verdict, and the touched list has room for two more pages.
    pub fn step<D: Dma>(&mut self, dma: &mut D) -> WalkState
        requires open { self.old.verdict ≡ None }
        requires room { length (D.reached dma.old) ≤ 2 }
        ensures does { DoesFirst (job_course (D.memory dma.old) self.old) (direction_of_entry self.old.entry)
            (D.memory dma.old) (D.memory dma.new) self.old.bytes self.new.bytes (D.reached dma.old) (D.reached dma.new) }
        ensures leaves { LeavesRest (job_course (D.memory dma.old) self.old) result (job_course (D.memory dma.old) self.new) }
        ensures verdict { self.new.verdict ≡ verdict_of result }
        ensures entry { self.new.entry ≡ self.old.entry }
        ensures blocks { self.new.blocks ≡ self.old.blocks }
        ensures fewer { left_of_walk self.new.walk < left_of_walk self.old.walk }
        ensures touches { length (D.reached dma.new) ≤ length (D.reached dma.old) + 2 }
        ensures unlisted { D.unlisted dma.new ≡ D.unlisted dma.old }
        ensures pool { D.page_count dma.new ≡ D.page_count dma.old }
        ensures job { IsJob self.new }
    {
        let Some(walk) = &mut self.walk else {
            // A job without a verdict has a walk. `Option` has no `as_mut` here.
            unreachable!()
        };
        let answer = walk.step(dma, &mut self.bytes);
        self.verdict = verdict_after(answer);
        answer
    }

    /// Ends the walk with a status, as an Abort or the deletion of the queue does.
    pub fn stop(&mut self, status: Status)
        requires open { self.old.verdict ≡ None }
        ensures { self.new ≡ record self.old { verdict = Some status } }
    {
        self.verdict = Some(status);
    }

    /// The verdict, once there is one. How the command ends is [`Job::final_status`].
    pub fn verdict(&self) -> Option<Status>
        ensures verdict { result ≡ self.now.verdict }
        ensures job { IsJob self.now }
    {
        self.verdict
    }

    /// The status that a job with a verdict completes with, over an image of as many blocks as that of its begin.
    ///
    /// Where the verdict is Successful Completion a Compare whose bytes differ from its blocks ends with Compare Failure (NVM
    /// Command Set Specification 1.0, Compare). All else ends with the verdict.
    pub fn final_status<I: Blocks>(&self, image: &I) -> Status
        requires verdict { IsSome self.now.verdict }
        requires blocks { block_count (I.bytes image.now) ≡ self.now.blocks }
        requires at_hand { spec_lacks_blocks (I.at_hand image.now) self.now ≡ false }
        ensures status { result ≡ finished_status (I.bytes image.now) self.now }
    {
        let verdict = self.verdict.unwrap();
        if verdict != Status::SUCCESS {
            return verdict;
        }
        match kind_of(self.entry.opcode) {
            Some(Kind::Compare) if !image.equal(first_block(&self.entry), &self.bytes) => {
                Status::COMPARE_FAILURE
            }
            _ => Status::SUCCESS,
        }
    }

    /// Whether the end of the job reads or writes blocks that are not at hand: its verdict is Successful Completion, and it is a Compare or a
    /// Write. So it is of no job over an image.
    pub fn lacks_blocks<I: Blocks>(&self, image: &I) -> bool
        ensures { result ≡ spec_lacks_blocks (I.at_hand image.now) self.now }
    {
        let number = block_number(&self.entry);
        !image.has(first_block(&self.entry), number) && self.needs_blocks()
    }

    /// Whether the end of the job reads or writes blocks.
    fn needs_blocks(&self) -> bool
        ensures { result ≡ needs_blocks self.now }
    {
        match (self.verdict, kind_of(self.entry.opcode)) {
            (Some(verdict), Some(Kind::Compare | Kind::Write)) => verdict.is_success(),
            _ => false,
        }
    }

    /// The entry as it was fetched.
    pub fn entry(&self) -> &SubEntry
        ensures { result.now ≡ self.now.entry }
    {
        &self.entry
    }

    /// The command's bytes, as far as its list was walked: those of a Read's blocks, and what a Write or a Compare fetched.
    pub fn bytes(&self) -> &[u8]
        ensures { result.now ≡ self.now.bytes }
    {
        &self.bytes
    }

    /// How many blocks the image had as the entry was checked.
    pub fn blocks(&self) -> u32
        ensures { result ≡ self.now.blocks }
    {
        self.blocks
    }
}

/// Completes a job that has a verdict, over an image of as many blocks as that of its begin: the status of its completion.
///
/// Where the verdict is Successful Completion a Write puts its bytes over its blocks, and a Compare whose bytes differ from
/// its blocks ends with Compare Failure. All else leaves the image, and ends with the verdict.
pub fn finish_job<A: Allocator, I: Blocks>(job: Job<A>, image: &mut I) -> Status
    requires verdict { IsSome job.verdict }
    requires blocks { block_count (I.bytes image.old) ≡ job.blocks }
    requires at_hand { spec_lacks_blocks (I.at_hand image.old) job ≡ false }
    ensures status { result ≡ finished_status (I.bytes image.old) job }
    ensures image { I.bytes image.new ≡ finished_image (I.bytes image.old) job }
    ensures as_long { length (I.bytes image.new) ≡ length (I.bytes image.old) }
    ensures at_hand { (from n : ℕ) → I.at_hand image.new from n ≡ I.at_hand image.old from n }
    ensures place { I.place image.new ≡ I.place image.old }
{
    let status = job.final_status(image);
    let Job { entry, bytes, .. } = job;
    if status == Status::SUCCESS && kind_of(entry.opcode) == Some(Kind::Write) {
        image.copy_in(first_block(&entry), &bytes);
    }
    status
}

/// The controller has each command of blocks that moves data by its opcode, and no other.
pub fn laws_of_opcodes()
    ensures undone { (kind : Kind) → moves_data kind ≡ true → kind_of_opcode (opcode_of kind) ≡ Some kind }
    ensures unknown { (kind : Kind) → is_admin kind ≡ false → moves_data kind ≡ false → kind_of_opcode (opcode_of kind) ≡ None }
    ensures only { (opcode : ℕ) (kind : Kind) → kind_of_opcode opcode ≡ Some kind → opcode ≡ opcode_of kind }
{}

/// The law of the field checks.
pub fn laws_of_checks()
    ensures { NoFaultIsPassing }
{}

/// What the fields of an entry say.
pub fn worked_fields()
    ensures no_flush { kind_of_opcode 0x00 ≡ None }
    ensures write { kind_of_opcode 0x01 ≡ Some Kind.Write }
    ensures read { kind_of_opcode 0x02 ≡ Some Kind.Read }
    ensures no_write_uncorrectable { kind_of_opcode 0x04 ≡ None }
    ensures compare { kind_of_opcode 0x05 ≡ Some Kind.Compare }
    ensures first_of_both_words { spec_first_block (record (entry_over 0x02 0 1) { cdw10 = 0x89ABCDEF; cdw11 = 0x01234567 }) ≡ 0x0123456789ABCDEF }
    ensures number_is_one_more { spec_block_number (record (entry_over 0x02 0 1) { cdw12 = 7 }) ≡ 8 }
    ensures number_in_low_half { spec_block_number (record (entry_over 0x02 0 1) { cdw12 = 0xC0000007 }) ≡ 8 }
    ensures most { spec_block_number (record (entry_over 0x02 0 1) { cdw12 = 0xFFFF }) ≡ 65536 }
    ensures need { need_of_entry (entry_over 0x02 0 8) ≡ 4096 }
{}

/// The field checks at their borders, over images of this many blocks, and which of them comes first.
pub fn worked_checks()
    ensures passes { io_fault 65536 (entry_over 0x02 0 1) ≡ None }
    ensures opcode { io_fault 65536 (entry_over 0x03 0 1) ≡ Some Status.INVALID_OPCODE }
    ensures opcode_before_namespace { io_fault 65536 (record (entry_over 0x00 0 1) { nsid = 2 }) ≡ Some Status.INVALID_OPCODE }
    ensures no_namespace { io_fault 65536 (record (entry_over 0x02 0 1) { nsid = 0 }) ≡ Some Status.INVALID_NAMESPACE }
    ensures second_namespace { io_fault 65536 (record (entry_over 0x02 0 1) { nsid = 2 }) ≡ Some Status.INVALID_NAMESPACE }
    ensures all_namespaces { io_fault 65536 (record (entry_over 0x02 0 1) { nsid = 0xFFFFFFFF }) ≡ Some Status.INVALID_NAMESPACE }
    ensures namespace_before_fuse { io_fault 65536 (record (entry_over 0x02 0 1) { nsid = 2; fuse = 1 }) ≡ Some Status.INVALID_NAMESPACE }
    ensures first_fused { io_fault 65536 (record (entry_over 0x05 0 1) { fuse = 1 }) ≡ Some Status.INVALID_FIELD }
    ensures second_fused { io_fault 65536 (record (entry_over 0x01 0 1) { fuse = 2 }) ≡ Some Status.INVALID_FIELD }
    ensures prp { io_fault 65536 (record (entry_over 0x02 0 1) { psdt = 0 }) ≡ Some Status.INVALID_FIELD }
    ensures metadata_sgl { io_fault 65536 (record (entry_over 0x02 0 1) { psdt = 2 }) ≡ Some Status.INVALID_FIELD }
    ensures fuse_before_range { io_fault 1 (record (entry_over 0x02 1 1) { fuse = 1 }) ≡ Some Status.INVALID_FIELD }
    ensures most_blocks { io_fault 65536 (entry_over 0x01 0 2048) ≡ None }
    ensures one_block_more { io_fault 65536 (entry_over 0x01 0 2049) ≡ Some Status.INVALID_FIELD }
    ensures number_before_range { io_fault 1 (entry_over 0x01 0 2049) ≡ Some Status.INVALID_FIELD }
    ensures last_blocks { io_fault 16 (entry_over 0x02 8 8) ≡ None }
    ensures one_past_the_end { io_fault 16 (entry_over 0x02 9 8) ≡ Some Status.LBA_OUT_OF_RANGE }
    ensures behind_the_end { io_fault 16 (entry_over 0x02 16 1) ≡ Some Status.LBA_OUT_OF_RANGE }
    ensures more_than_the_image { io_fault 16 (entry_over 0x02 0 17) ≡ Some Status.LBA_OUT_OF_RANGE }
    ensures last_number { io_fault 65536 (entry_over 0x02 (2 ^ 64 - 1) 1) ≡ Some Status.LBA_OUT_OF_RANGE }
{}

/// How commands end over an image of one block of bytes 11h.
pub fn worked_ends()
    ensures equal { status_after (replicate 512 0x11) (entry_over 0x05 0 1) (replicate 512 0x11) (Some Status.SUCCESS) ≡ Status.SUCCESS }
    ensures last_byte_differs { status_after (replicate 512 0x11) (entry_over 0x05 0 1) (replicate 511 0x11 ++ 0x12 ∷ []) (Some Status.SUCCESS) ≡ Status.COMPARE_FAILURE }
    ensures fault_before_difference { status_after (replicate 512 0x11) (entry_over 0x05 0 1) (replicate 512 0) (Some Status.DATA_TRANSFER_ERROR) ≡ Status.DATA_TRANSFER_ERROR }
    ensures write { image_after (replicate 512 0x11) (entry_over 0x01 0 1) (replicate 512 0x22) (Some Status.SUCCESS) ≡ replicate 512 0x22 }
    ensures write_ends_well { status_after (replicate 512 0x11) (entry_over 0x01 0 1) (replicate 512 0x22) (Some Status.SUCCESS) ≡ Status.SUCCESS }
    ensures failed_write { image_after (replicate 512 0x11) (entry_over 0x01 0 1) (replicate 512 0x22) (Some Status.DATA_SGL_LENGTH_INVALID) ≡ replicate 512 0x11 }
    ensures stopped_write { image_after (replicate 512 0x11) (entry_over 0x01 0 1) (replicate 512 0x22) (Some Status.ABORT_REQUESTED) ≡ replicate 512 0x11 }
    ensures compare_leaves { image_after (replicate 512 0x11) (entry_over 0x05 0 1) (replicate 512 0x22) (Some Status.SUCCESS) ≡ replicate 512 0x11 }
    ensures read_leaves { image_after (replicate 512 0x11) (entry_over 0x02 0 1) (replicate 512 0x22) (Some Status.SUCCESS) ≡ replicate 512 0x11 }
{}

/// Whose end reads or writes blocks, and that none is lacking where all are at hand.
pub fn worked_needs()
    ensures compare { needs_blocks (job_over 0x05 (Some Status.SUCCESS)) ≡ true }
    ensures write { needs_blocks (job_over 0x01 (Some Status.SUCCESS)) ≡ true }
    ensures read { needs_blocks (job_over 0x02 (Some Status.SUCCESS)) ≡ false }
    ensures failed { needs_blocks (job_over 0x01 (Some Status.DATA_TRANSFER_ERROR)) ≡ false }
    ensures walking { needs_blocks (job_over 0x01 None) ≡ false }
    ensures at_hand { (job : JobContents) → spec_lacks_blocks (λ slba n. true) job ≡ false }
    ensures lacks_read { spec_lacks_read (λ slba n. false) 1 (entry_over 0x02 0 1) ≡ true }
    ensures lacks_nothing { spec_lacks_read (λ slba n. false) 1 (entry_over 0x01 0 1) ≡ false }
    ensures out_of_range { spec_lacks_read (λ slba n. false) 1 (entry_over 0x02 1 1) ≡ false }
{}
