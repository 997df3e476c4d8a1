//! Admin commands as values: Abort, and the creation and deletion of submission and completion queues (NVM Express Base
//! Specification 2.0, "Abort command", "Create I/O Completion Queue command", "Create I/O Submission Queue command", "Delete I/O
//! Submission Queue command", "Delete I/O Completion Queue command").
//!
//! The host makes an [`entry`]. The controller shows what it knows of the queue and the command that an entry names, and
//! [`decide`] tells what it does at the fetch. What then waits for what is the controller's own matter. [`identify`] reads what a
//! device says of itself. Nothing here takes memory.
#![tactic(auto)]

pub mod identify;
pub mod laws;

ghost use Rattle.std.specs.Prelude.{◌≡◌, ◌+◌, ◌*◌};
ghost use Rattle.entry_codec.specs.Submission.{FitsSubmission};
ghost use Rattle.admin_commands.specs.Entries.{admin_entry, opcode_of, named_by, qualified_by, base_of, pointer_to, named_queue, named_command, named_size, named_completion_queue, named_base, is_contiguous, is_opcode};
ghost use Rattle.admin_commands.specs.Verdicts.{decision, abort_verdict, delete_sq_verdict, delete_cq_verdict, is_io_queue, half_fault, create_cq_verdict, create_sq_verdict};

use entry_codec::admin_opcode::{ABORT, CREATE_IO_CQ, CREATE_IO_SQ, DELETE_IO_CQ, DELETE_IO_SQ};
use entry_codec::{Status, SubEntry};
use page_memory::Half;
use queue_pair::half_pages;

/// An admin command of this profile, with what it names.
#[derive(Clone, Copy, Debug, PartialEq, Eq)]
pub enum AdminKind {
    /// Abort the command `cid` of submission queue `q`.
    Abort {
        /// The submission queue.
        q: u16,
        /// The command's identifier.
        cid: u16,
    },
    /// Delete I/O submission queue `q`.
    DeleteSq {
        /// The submission queue.
        q: u16,
    },
    /// Delete I/O completion queue `q`.
    DeleteCq {
        /// The completion queue.
        q: u16,
    },
    /// Create I/O completion queue `q`, with a ring in consecutive pages.
    CreateCq {
        /// The completion queue.
        q: u16,
        /// The entries of its ring, 2 to 1,024.
        entries: u16,
        /// The address of its first byte, a multiple of 4,096.
        base: u64,
        /// The vector of its interrupts; none where it is polled.
        vector: Option<u16>,
    },
    /// Create I/O submission queue `q`, with a ring in consecutive pages, whose completions go to completion queue `q`.
    CreateSq {
        /// The submission queue.
        q: u16,
        /// The entries of its ring, 2 to 1,024.
        entries: u16,
        /// The address of its first byte, a multiple of 4,096.
        base: u64,
    },
}

/// What the controller knows of a submission queue (own).
#[derive(Clone, Copy, Debug, PartialEq, Eq)]
pub enum SqState {
    /// It is not there.
    Absent,
    /// Its entries are fetched.
    Live,
    /// It is being deleted: nothing is fetched from it any more.
    Stopping,
}

/// What the controller knows of the queue, and of the command, that an admin entry names.
#[derive(Clone, Copy, Debug, PartialEq, Eq)]
pub struct DeviceView {
    /// The state of the submission queue of that number.
    pub sq: SqState,
    /// Whether the completion queue of that number is there.
    pub cq_there: bool,
    /// Whether the command is an I/O job that has no verdict yet.
    pub target_walks: bool,
    /// How many I/O queues the controller has: their numbers are 1 to this one.
    pub queues: u16,
    /// The entries of each ring.
    pub entries: u16,
    /// The pages of the pool: they have the addresses below 4,096 times this.
    pub pages: u32,
}

/// What the controller does with an admin entry at its fetch.
#[derive(Clone, Copy, Debug, PartialEq, Eq)]
pub enum AdminVerdict {
    /// It answers at once.
    Answer {
        /// The status.
        status: Status,
        /// The command specific double word of the completion.
        dw0: u32,
    },
    /// It stops that job, and answers 0:00 with DW0 = 0 once the job has completed.
    AbortJob {
        /// The job's queue.
        q: u16,
        /// The job's identifier.
        cid: u16,
    },
    /// It stops that submission queue and its jobs, and answers 0:00 once no job of the queue is left.
    StopQueue {
        /// The queue.
        q: u16,
    },
    /// That completion queue is gone; the answer is 0:00.
    DropCompletion {
        /// The queue.
        q: u16,
    },
    /// That completion queue is there, with an empty ring starting at this address; the answer is 0:00.
    MakeCompletion {
        /// The queue.
        q: u16,
        /// The address of its first byte.
        base: u64,
    },
    /// That submission queue is live, with an empty ring starting at this address; the answer is 0:00.
    MakeSubmission {
        /// The queue.
        q: u16,
        /// The address of its first byte.
        base: u64,
    },
}

/// The entry that the driver sends for an admin command, under an identifier of queue 0.
///
/// Whatever the profile names nothing for is zero (own): NSID, PSDT, FUSE, MPTR, CDW12 to CDW15, bits 31:16 of a deletion's CDW10, and DPTR and
/// CDW11 but for a creation's base address, its bit "physically contiguous", its completion queue or its interrupts. A ring of 0 entries,
/// which is none, is written as one of 1.
pub fn entry(kind: AdminKind, cid: u16) -> SubEntry
    ensures entry { result ≡ admin_entry kind cid }
    ensures fits { FitsSubmission result }
{
    SubEntry {
        opcode: opcode_of(kind),
        fuse: 0,
        psdt: 0,
        cid,
        nsid: 0,
        mptr: 0,
        sgl1: pointer_to(base_of(kind)),
        cdw10: named_by(kind),
        cdw11: qualified_by(kind),
        cdw12: 0,
        cdw13: 0,
        cdw14: 0,
        cdw15: 0,
    }
}

/// The opcode of a command.
fn opcode_of(kind: AdminKind) -> u8
    ensures { result ≡ opcode_of kind }
{
    match kind {
        AdminKind::Abort { .. } => ABORT,
        AdminKind::DeleteSq { .. } => DELETE_IO_SQ,
        AdminKind::DeleteCq { .. } => DELETE_IO_CQ,
        AdminKind::CreateCq { .. } => CREATE_IO_CQ,
        AdminKind::CreateSq { .. } => CREATE_IO_SQ,
    }
}

/// CDW10: the queue, and in bits 31:16 the command to abort, or one less than the entries of the ring.
fn named_by(kind: AdminKind) -> u32
    ensures { result ≡ named_by kind }
{
    match kind {
        AdminKind::Abort { q, cid } => halves(q, cid),
        AdminKind::DeleteSq { q } | AdminKind::DeleteCq { q } => u32::from(q),
        AdminKind::CreateCq { q, entries, .. } | AdminKind::CreateSq { q, entries, .. } => {
            halves(q, entries.saturating_sub(1))
        }
    }
}

/// CDW11 of a creation: bit 0, "physically contiguous"; for a completion queue bit 1, "interrupts enabled", with the vector in bits 31:16;
/// and for a submission queue in bits 31:16 its completion queue.
fn qualified_by(kind: AdminKind) -> u32
    ensures { result ≡ qualified_by kind }
{
    match kind {
        AdminKind::Abort { .. } | AdminKind::DeleteSq { .. } | AdminKind::DeleteCq { .. } => 0,
        AdminKind::CreateCq { vector: None, .. } => halves(1, 0),
        AdminKind::CreateCq {
            vector: Some(vector),
            ..
        } => halves(1 + 2, vector),
        AdminKind::CreateSq { q, .. } => halves(1, q),
    }
}

/// A double word of two halves, bits 15:0 and bits 31:16.
fn halves(low: u16, high: u16) -> u32
    ensures { result ≡ low + 65536 * high }
{
    u32::from(low) + 65_536 * u32::from(high)
}

/// The address where the ring of a creation begins.
fn base_of(kind: AdminKind) -> u64
    ensures { result ≡ base_of kind }
{
    match kind {
        AdminKind::Abort { .. } | AdminKind::DeleteSq { .. } | AdminKind::DeleteCq { .. } => 0,
        AdminKind::CreateCq { base, .. } | AdminKind::CreateSq { base, .. } => base,
    }
}

/// A data pointer of one address.
fn pointer_to(address: u64) -> [u8; 16]
    ensures { result ≡ pointer_to address }
{
    let mut pointer = [0; 16];
    pointer[..8].copy_from_slice(&address.to_le_bytes());
    pointer
}

/// The queue that an admin entry names: CDW10, bits 15:0.
pub fn queue_of(entry: &SubEntry) -> u16
    ensures { result ≡ named_queue entry.now }
{
    (entry.cdw10 % 65_536) as u16
}

/// The command that an admin entry names, of the queue that it names: CDW10, bits 31:16.
pub fn command_of(entry: &SubEntry) -> u16
    ensures { result ≡ named_command entry.now }
{
    (entry.cdw10 / 65_536) as u16
}

/// How many entries the ring of a creation has: one more than CDW10, bits 31:16, so 65,536 at most.
fn named_size(entry: &SubEntry) -> u32
    ensures { result ≡ named_size entry.now }
{
    entry.cdw10 / 65_536 + 1
}

/// Whether the ring of a creation is physically contiguous: CDW11, bit 0.
fn is_contiguous(entry: &SubEntry) -> bool
    ensures { result ≡ is_contiguous entry.now }
{
    entry.cdw11 % 2 == 1
}

/// The completion queue that the creation of a submission queue names: CDW11, bits 31:16.
fn named_completion_queue(entry: &SubEntry) -> u16
    ensures { result ≡ named_completion_queue entry.now }
{
    (entry.cdw11 / 65_536) as u16
}

/// The address where the ring of a creation begins: the first eight bytes of the data pointer.
fn named_base(entry: &SubEntry) -> u64
    ensures { result ≡ named_base entry.now }
{
    let [b0, b1, b2, b3, b4, b5, b6, b7, ..] = entry.sgl1;
    u64::from_le_bytes([b0, b1, b2, b3, b4, b5, b6, b7])
}

/// What the controller does with an admin entry, whatever the entry is. The view is that of the queue and the command
/// which the entry names ([`queue_of`], [`command_of`]).
///
/// The checks come in this order (own): an opcode that is none of the five, 0:01; FUSE not 0, 0:02. Then the command's
/// rule.
///
/// - An Abort stops a job without verdict, and is otherwise answered 0:00 with DW0 = 1.
/// - Delete SQ stops a live I/O queue, and is otherwise answered 1:01.
/// - Delete CQ is answered 1:01 where the queue is 0 or is not there, 1:0C where its submission queue is there in any
///   state, and otherwise drops the queue.
/// - Create CQ is answered 1:01 where the queue is 0, above the controller's I/O queues, or there; 1:02 where the size, one
///   more than the number in its field, is not that of the controller's rings; 0:02 where the ring is not physically
///   contiguous, where its base address is no multiple of 4,096, or where a page of it lies outside the pool (own). Otherwise it
///   makes the queue.
/// - Create SQ is answered 1:01 where the queue is 0, above the controller's I/O queues, or there in any state; 1:01 where
///   the completion queue is 0 or above the I/O queues; 1:00 where the completion queue is not there, or is not that of the
///   queue's own number (own); and then as Create CQ from the size onward. Otherwise it makes the queue.
pub fn decide(entry: &SubEntry, view: &DeviceView) -> AdminVerdict
    ensures { result ≡ decision entry.now view.now }
{
    if !is_opcode(entry.opcode) {
        return answer(Status::INVALID_OPCODE, 0);
    }
    if entry.fuse != 0 {
        return answer(Status::INVALID_FIELD, 0);
    }
    let q = queue_of(entry);
    match entry.opcode {
        ABORT => decide_abort(q, command_of(entry), view),
        DELETE_IO_SQ => decide_delete_sq(q, view),
        DELETE_IO_CQ => decide_delete_cq(q, view),
        CREATE_IO_CQ => decide_create_cq(entry, view),
        _ => decide_create_sq(entry, view),
    }
}

/// Whether an opcode is one of the five.
fn is_opcode(code: u8) -> bool
    ensures { result ≡ is_opcode code }
{
    matches!(
        code,
        ABORT | DELETE_IO_SQ | DELETE_IO_CQ | CREATE_IO_CQ | CREATE_IO_SQ
    )
}

fn answer(status: Status, dw0: u32) -> AdminVerdict
    ensures { result ≡ AdminVerdict.Answer status dw0 }
{
    AdminVerdict::Answer { status, dw0 }
}

fn decide_abort(q: u16, cid: u16, view: &DeviceView) -> AdminVerdict
    ensures { result ≡ abort_verdict q cid view.now }
{
    if view.target_walks && q != 0 {
        AdminVerdict::AbortJob { q, cid }
    } else {
        answer(Status::SUCCESS, 1)
    }
}

fn decide_delete_sq(q: u16, view: &DeviceView) -> AdminVerdict
    ensures { result ≡ delete_sq_verdict q view.now }
{
    if q == 0 || !matches!(view.sq, SqState::Live) {
        answer(Status::INVALID_QUEUE_IDENTIFIER, 0)
    } else {
        AdminVerdict::StopQueue { q }
    }
}

fn decide_delete_cq(q: u16, view: &DeviceView) -> AdminVerdict
    ensures { result ≡ delete_cq_verdict q view.now }
{
    if q == 0 || !view.cq_there {
        answer(Status::INVALID_QUEUE_IDENTIFIER, 0)
    } else if !matches!(view.sq, SqState::Absent) {
        answer(Status::INVALID_QUEUE_DELETION, 0)
    } else {
        AdminVerdict::DropCompletion { q }
    }
}

fn decide_create_cq(entry: &SubEntry, view: &DeviceView) -> AdminVerdict
    ensures { result ≡ create_cq_verdict entry.now view.now }
{
    let q = queue_of(entry);
    if !is_io_queue(q, view) || view.cq_there {
        return answer(Status::INVALID_QUEUE_IDENTIFIER, 0);
    }
    match half_fault(Half::Completion, entry, view) {
        Some(fault) => answer(fault, 0),
        None => AdminVerdict::MakeCompletion {
            q,
            base: named_base(entry),
        },
    }
}

fn decide_create_sq(entry: &SubEntry, view: &DeviceView) -> AdminVerdict
    ensures { result ≡ create_sq_verdict entry.now view.now }
{
    let q = queue_of(entry);
    let completion_queue = named_completion_queue(entry);
    if !is_io_queue(q, view) || !matches!(view.sq, SqState::Absent) {
        return answer(Status::INVALID_QUEUE_IDENTIFIER, 0);
    }
    if !is_io_queue(completion_queue, view) {
        return answer(Status::INVALID_QUEUE_IDENTIFIER, 0);
    }
    if !view.cq_there || completion_queue != q {
        return answer(Status::COMPLETION_QUEUE_INVALID, 0);
    }
    match half_fault(Half::Submission, entry, view) {
        Some(fault) => answer(fault, 0),
        None => AdminVerdict::MakeSubmission {
            q,
            base: named_base(entry),
        },
    }
}

/// Whether a number is that of an I/O queue of the controller.
fn is_io_queue(q: u16, view: &DeviceView) -> bool
    ensures { result ≡ is_io_queue q view.now }
{
    0 < q && q <= view.queues
}

/// What is wrong with the half that a creation asks for: its size, and then its pages.
fn half_fault(half: Half, entry: &SubEntry, view: &DeviceView) -> Option<Status>
    ensures { result ≡ half_fault half entry.now view.now }
{
    let base = named_base(entry);
    if named_size(entry) != u32::from(view.entries) {
        return Some(Status::INVALID_QUEUE_SIZE);
    }
    if !is_contiguous(entry) || base % 4096 != 0 {
        return Some(Status::INVALID_FIELD);
    }
    let end = base / 4096 + u64::from(half_pages(view.entries, half));
    if end > u64::from(view.pages) {
        return Some(Status::INVALID_FIELD);
    }
    None
}
