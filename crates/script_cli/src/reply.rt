//! Replies as text.

ghost use Rattle.std.specs.Prelude.{◌≡◌, ◌++◌, OnOk, IfSome, string_bytes, codes, true, replicate};
ghost use Rattle.std.specs.Fmt.{decimal};
ghost use Rattle.entry_codec.specs.Status.{status_text};
ghost use Rattle.machine_model.specs.declared.words.Reaped.TheVariants.{Done};
ghost use Rattle.script_cli.specs.Replies.{more_pages, touched_text, run_text, gathered_text, request_fault_name as spec_request_fault_name, fill_fault_name as spec_fill_fault_name, refusal_name as spec_refusal_name, refusal_detail, refusal_text, rejected_name as spec_rejected_name, reaped_text, walk_text, reserved_text, answer_text, reply_line};

use crate::numbers::{put_byte, put_field, put_number, put_status};
use crate::verb::Verb;
use controller_walk::WalkState;
use entry_codec::Status;
use io_commands::{FillFault, RequestFault};
use page_memory::PageNo;
use std::alloc::AllocError;
use step_core::{Reaped, Refusal, RejectedFor, Reply, Touched};

/// Puts further pages, each after a comma.
fn put_more_pages(out: &mut String, pages: &[PageNo]) -> Result<(), AllocError>
    ensures { OnOk result (string_bytes out.new ≡ string_bytes out.old ++ more_pages pages.now) }
{
    let mut rest = pages;
    while let Some((page, others)) = rest.split_first() {
        put_field(out, ",", u64::from(page.0))?;
        rest = others;
    }
    Ok(())
}

/// Puts the pages that a step touched.
fn put_touched(out: &mut String, touched: &Touched) -> Result<(), AllocError>
    ensures { OnOk result (string_bytes out.new ≡ string_bytes out.old ++ touched_text touched.now) }
{
    let Some((page, rest)) = touched.pages().split_first() else {
        return out.push_str("-");
    };
    put_number(out, u64::from(page.0))?;
    put_more_pages(out, rest)
}

/// Puts a run of one byte.
fn put_run(out: &mut String, byte: u8, count: usize) -> Result<(), AllocError>
    ensures { OnOk result (string_bytes out.new ≡ string_bytes out.old ++ run_text byte count) }
{
    put_byte(out, byte)?;
    put_field(out, "*", count as u64)
}

/// Whether eight bytes are all this one.
fn are_all(byte: u8, eight: [u8; 8]) -> bool
    ensures { result ≡ true → eight ≡ replicate 8 byte }
{
    u64::from_le_bytes(eight) == u64::from_le_bytes([byte; 8])
}

/// What follows the first eight bytes, if those are all this one.
fn behind_eight(byte: u8, bytes: &[u8]) -> Option<&[u8]>
    ensures { IfSome result (λ behind. bytes.now ≡ replicate 8 byte ++ behind.now) }
{
    let (eight, behind) = bytes.split_first_chunk::<8>()?;
    if are_all(byte, *eight) {
        Some(behind)
    } else {
        None
    }
}

/// Puts bytes as their longest runs.
#[tactic(auto, using(crate::proofs::Texts::eight_more, crate::proofs::Texts::eight_fewer))]
pub fn put_gathered(out: &mut String, bytes: &[u8]) -> Result<(), AllocError>
    ensures { OnOk result (string_bytes out.new ≡ string_bytes out.old ++ gathered_text bytes.now) }
{
    let Some((first, mut rest)) = bytes.split_first() else {
        return out.push_str("-");
    };
    let mut byte = *first;
    let mut count = 1usize;
    while let Some((next, others)) = rest.split_first() {
        if let Some(behind) = behind_eight(byte, rest) {
            count += 8;
            rest = behind;
        } else if *next == byte {
            count += 1;
            rest = others;
        } else {
            put_run(out, byte, count)?;
            out.push_str(",")?;
            byte = *next;
            count = 1;
            rest = others;
        }
    }
    put_run(out, byte, count)
}

/// The name of a request's fault.
pub fn request_fault_name(why: RequestFault) -> &'static str
    ensures { result.now ≡ spec_request_fault_name why }
{
    match why {
        RequestFault::TooManyPieces => "TooManyPieces",
        RequestFault::EmptyPiece => "EmptyPiece",
        RequestFault::CrossesPage => "CrossesPage",
        RequestFault::BadCount => "BadCount",
        RequestFault::LengthMismatch => "LengthMismatch",
        RequestFault::HostsOwn => "HostsOwn",
    }
}

/// The name of why a draft was not filled.
pub fn fill_fault_name(why: FillFault) -> &'static str
    ensures { result.now ≡ spec_fill_fault_name why }
{
    match why {
        FillFault::NotASource => "NotASource",
        FillFault::WrongLength => "WrongLength",
    }
}

/// The name of why a completion was rejected.
pub fn rejected_name(why: RejectedFor) -> &'static str
    ensures { result.now ≡ spec_rejected_name why }
{
    match why {
        RejectedFor::WrongQueue => "WrongQueue",
        RejectedFor::BadHead => "BadHead",
        RejectedFor::UnknownId => "UnknownId",
    }
}

/// The name of a refusal.
pub fn refusal_name(why: Refusal) -> &'static str
    ensures { result.now ≡ spec_refusal_name why }
{
    match why {
        Refusal::NoQueue => "NoQueue",
        Refusal::Deleting => "Deleting",
        Refusal::Bad(_) => "Bad",
        Refusal::OtherBlocks => "OtherBlocks",
        Refusal::NoIdentifier => "NoIdentifier",
        Refusal::NoPages { .. } => "NoPages",
        Refusal::Memory => "Memory",
        Refusal::Stranger => "Stranger",
        Refusal::NotBuilt => "NotBuilt",
        Refusal::QueueGone => "QueueGone",
        Refusal::QueueFull => "QueueFull",
        Refusal::NotYet => "NotYet",
        Refusal::WrongState => "WrongState",
        Refusal::NoSuchCommand => "NoSuchCommand",
        Refusal::NotDeleted => "NotDeleted",
        Refusal::NotDrained => "NotDrained",
        Refusal::Outstanding => "Outstanding",
        Refusal::NoRun { .. } => "NoRun",
        Refusal::NoSlot => "NoSlot",
        Refusal::Idle => "Idle",
        Refusal::SlotOut => "SlotOut",
        Refusal::Full => "Full",
        Refusal::NoJob => "NoJob",
        Refusal::Nothing => "Nothing",
        Refusal::Walking => "Walking",
        Refusal::Waits => "Waits",
    }
}

/// Puts what follows the name of a refusal.
fn put_refusal_detail(out: &mut String, why: Refusal) -> Result<(), AllocError>
    ensures { OnOk result (string_bytes out.new ≡ string_bytes out.old ++ refusal_detail why) }
{
    match why {
        Refusal::Bad(fault) => {
            let name = request_fault_name(fault);
            write!(out, " {name}")
        }
        Refusal::NoPages { need, free } => write!(out, " need {need} free {free}"),
        Refusal::NoRun { need } => write!(out, " need {need}"),
        _ => Ok(()),
    }
}

/// Puts a refusal.
fn put_refusal(out: &mut String, why: Refusal) -> Result<(), AllocError>
    ensures { OnOk result (string_bytes out.new ≡ string_bytes out.old ++ refusal_text why) }
{
    let name = refusal_name(why);
    write!(out, "refused {name}")?;
    put_refusal_detail(out, why)
}

/// Puts the status that a command ended with, after its identifier.
fn put_done(out: &mut String, cid: u16, status: Status) -> Result<(), AllocError>
    ensures { OnOk result (string_bytes out.new ≡ string_bytes out.old ++ reaped_text (Done cid status)) }
{
    put_field(out, "done cid ", u64::from(cid))?;
    out.push_str(" status ")?;
    put_status(out, status)
}

/// Puts what a reap found.
fn put_reaped(out: &mut String, what: &Reaped) -> Result<(), AllocError>
    ensures { OnOk result (string_bytes out.new ≡ string_bytes out.old ++ reaped_text what.now) }
{
    match *what {
        Reaped::Empty => out.push_str("empty"),
        Reaped::Done { cid, status } => put_done(out, cid, status),
        Reaped::AdminDone { cid, status, dw0 } => {
            write!(out, "admin cid {cid} status {status} dw0 {dw0}")
        }
        Reaped::Rejected(why) => {
            let name = rejected_name(why);
            write!(out, "rejected {name}")
        }
    }
}

/// Puts what a walk answered.
fn put_walk(out: &mut String, state: WalkState) -> Result<(), AllocError>
    ensures { OnOk result (string_bytes out.new ≡ string_bytes out.old ++ walk_text state) }
{
    match state {
        WalkState::More => out.push_str("more"),
        WalkState::End => out.push_str("end"),
        WalkState::Fault(status) => write!(out, "fault {status}"),
    }
}

/// Puts the pages that a step touched, after the word for them.
fn put_touched_word(out: &mut String, touched: &Touched) -> Result<(), AllocError>
    ensures { OnOk result (string_bytes out.new ≡ string_bytes out.old ++ (codes " touched " ++ touched_text touched.now)) }
{
    out.push_str(" touched ")?;
    put_touched(out, touched)
}

/// Puts the answer of a walk, and the pages that it touched.
fn put_controller_answer(
    out: &mut String,
    state: WalkState,
    touched: &Touched,
) -> Result<(), AllocError>
    ensures { OnOk result (string_bytes out.new ≡ string_bytes out.old ++ (walk_text state ++ (codes " touched " ++ touched_text touched.now))) }
{
    put_walk(out, state)?;
    put_touched_word(out, touched)
}

/// Puts what an entry was fetched as.
fn put_fetched(out: &mut String, cid: u16, touched: &Touched) -> Result<(), AllocError>
    ensures { OnOk result (string_bytes out.new ≡ string_bytes out.old ++ (codes "cid " ++ (decimal cid ++ (codes " touched " ++ touched_text touched.now)))) }
{
    put_field(out, "cid ", u64::from(cid))?;
    put_touched_word(out, touched)
}

/// Puts that a completion was posted.
fn put_completed(out: &mut String, touched: &Touched) -> Result<(), AllocError>
    ensures { OnOk result (string_bytes out.new ≡ string_bytes out.old ++ (codes "ok touched " ++ touched_text touched.now)) }
{
    out.push_str("ok touched ")?;
    put_touched(out, touched)
}

/// Puts that a draft was not filled.
pub fn put_not_filled(out: &mut String, why: FillFault) -> Result<(), AllocError>
    ensures { OnOk result (string_bytes out.new ≡ string_bytes out.old ++ (codes "refused " ++ spec_fill_fault_name why)) }
{
    let name = fill_fault_name(why);
    write!(out, "refused {name}")
}

/// Puts the numbers of a reserved command.
fn put_reserved(out: &mut String, q: u16, cid: u16, data: u32, chain: u32) -> Result<(), AllocError>
    ensures { OnOk result (string_bytes out.new ≡ string_bytes out.old ++ reserved_text q cid «data» chain) }
{
    put_field(out, "q ", u64::from(q))?;
    put_field(out, " cid ", u64::from(cid))?;
    put_field(out, " data ", u64::from(data))?;
    put_field(out, " chain ", u64::from(chain))
}

/// Puts the status that a collect took.
fn put_collected(out: &mut String, status: Status) -> Result<(), AllocError>
    ensures { OnOk result (string_bytes out.new ≡ string_bytes out.old ++ (codes "status " ++ status_text status)) }
{
    out.push_str("status ")?;
    put_status(out, status)
}

/// Puts an answer.
fn put_answer(out: &mut String, reply: &Reply) -> Result<(), AllocError>
    ensures { OnOk result (string_bytes out.new ≡ string_bytes out.old ++ answer_text reply.now) }
{
    match reply {
        Reply::Reserved {
            q,
            cid,
            data,
            chain,
        } => put_reserved(out, *q, *cid, *data, *chain),
        Reply::Accepted => out.push_str("ok"),
        Reply::Fetched { cid, touched } => put_fetched(out, *cid, touched),
        Reply::Walked { state, touched } => put_controller_answer(out, *state, touched),
        Reply::Completed { touched } => put_completed(out, touched),
        Reply::Reaps(what) => put_reaped(out, what),
        Reply::Collected { status, .. } => put_collected(out, *status),
        Reply::Gathered(bytes) => put_gathered(out, bytes.as_slice()),
        Reply::Sent { cid } => put_field(out, "cid ", u64::from(*cid)),
        Reply::NoValue => out.push_str("refused NoValue"),
        Reply::NotFilled(why) => put_not_filled(out, *why),
        Reply::Refused { why, .. } => put_refusal(out, *why),
    }
}

/// Appends the line of a step to a text: the number of its line, its verb and its answer.
///
/// # Errors
///
/// Where memory is refused. A part of the line may then be in the text.
pub fn append_reply(
    out: &mut String,
    number: u32,
    verb: Verb,
    reply: &Reply,
) -> Result<(), AllocError>
    ensures { OnOk result (string_bytes out.new ≡ string_bytes out.old ++ reply_line number verb reply.now) }
{
    put_number(out, u64::from(number))?;
    out.push(' ')?;
    out.push_str(verb.name())?;
    out.push(' ')?;
    put_answer(out, reply)?;
    out.push('\n')
}
