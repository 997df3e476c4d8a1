//! What a step answered, as an object.

ghost use Rattle.std.specs.Prelude.{◌≡◌, IfOk, OnOk, string_bytes};
ghost use Rattle.serde_json.specs.Data.{no_members};
ghost use Rattle.texts.specs.Objects.{Sends, events_of, members_events};
ghost use Rattle.texts.specs.ReplyObjects.{PutsReply, SendsNamed, answer_members, detail_members, reaped_members, reaped_text as spec_reaped_text, reserved_members, status_members, text_of as spec_text_of, told_object, touched_members, walked_members, walked_text as spec_walked_text, why_members};

use crate::objects::line::{hex_bytes, put_object};
use crate::objects::members::{put_number, put_text};
use controller_walk::WalkState;
use entry_codec::Status;
use entry_codec::status_names::name_of;
use script_cli::{Verb, fill_fault_name, is_well, refusal_name, rejected_name, request_fault_name};
use serde::{Described, Serialize, Serializer};
use std::alloc::{AllocError, Global};
use step_core::{Reaped, Refusal, Reply, Touched};

/// Puts the members of a status, which has this text: that, and its name if it has one.
fn put_status<S: Serializer>(out: &mut S, status: Status, text: &str) -> Result<(), S::Error>
    ensures { OnOk result (SendsNamed (λ name. members_events (status_members text.now name no_members)) (S.written out.old) (S.written out.new)) }
{
    put_text(out, "status", text)?;
    match name_of(status) {
        Some(name) => put_text(out, "name", name),
        None => Ok(()),
    }
}

/// Puts the member of the pages that a step touched.
fn put_touched<S: Serializer>(out: &mut S, touched: &Touched) -> Result<(), S::Error>
    ensures { OnOk result (Sends (members_events (touched_members touched.now)) (S.written out.old) (S.written out.new)) }
{
    let pages = touched.pages();
    out.key("touched")?;
    out.begin_seq(Some(pages.len()))?;
    for page in pages {
        out.u64(u64::from(page.0))?;
    }
    out.end_seq()
}

/// Puts the members of what a walk found, whose status has this text.
fn put_walked<S: Serializer>(out: &mut S, state: WalkState, text: &str) -> Result<(), S::Error>
    ensures { OnOk result (SendsNamed (λ name. members_events (walked_members text.now name state no_members)) (S.written out.old) (S.written out.new)) }
{
    match state {
        WalkState::More => put_text(out, "answer", "more"),
        WalkState::End => put_text(out, "answer", "end"),
        WalkState::Fault(status) => {
            put_text(out, "answer", "fault")?;
            put_status(out, status, text)
        }
    }
}

/// Puts the members of what a reap found, whose status has this text.
fn put_reaped<S: Serializer>(out: &mut S, found: &Reaped, text: &str) -> Result<(), S::Error>
    ensures { OnOk result (SendsNamed (λ name. members_events (reaped_members text.now name found.now)) (S.written out.old) (S.written out.new)) }
{
    match *found {
        Reaped::Empty => put_text(out, "answer", "empty"),
        Reaped::Done { cid, status } => {
            put_text(out, "answer", "done")?;
            put_number(out, "cid", u64::from(cid))?;
            put_status(out, status, text)
        }
        Reaped::AdminDone { cid, status, dw0 } => {
            put_text(out, "answer", "admin")?;
            put_number(out, "cid", u64::from(cid))?;
            put_status(out, status, text)?;
            put_number(out, "dw0", u64::from(dw0))
        }
        Reaped::Rejected(why) => {
            put_text(out, "answer", "rejected")?;
            put_text(out, "why", rejected_name(why))
        }
    }
}

/// Puts the members of a refusal with this name.
fn put_why<S: Serializer>(out: &mut S, name: &str) -> Result<(), S::Error>
    ensures { OnOk result (Sends (members_events (why_members name.now no_members)) (S.written out.old) (S.written out.new)) }
{
    put_text(out, "answer", "refused")?;
    put_text(out, "why", name)
}

/// Puts what more is said of a refusal.
fn put_detail<S: Serializer>(out: &mut S, why: Refusal) -> Result<(), S::Error>
    ensures { OnOk result (Sends (members_events (detail_members why)) (S.written out.old) (S.written out.new)) }
{
    match why {
        Refusal::Bad(fault) => put_text(out, "fault", request_fault_name(fault)),
        Refusal::NoPages { need, free } => {
            put_number(out, "need", u64::from(need))?;
            put_number(out, "free", u64::from(free))
        }
        Refusal::NoRun { need } => put_number(out, "need", u64::from(need)),
        _ => Ok(()),
    }
}

/// Puts the members of a command that was reserved.
fn put_reserved<S: Serializer>(
    out: &mut S,
    q: u16,
    cid: u16,
    pages: u32,
    chain: u32,
) -> Result<(), S::Error>
    ensures { OnOk result (Sends (members_events (reserved_members q cid pages chain)) (S.written out.old) (S.written out.new)) }
{
    put_text(out, "answer", "reserved")?;
    put_number(out, "q", u64::from(q))?;
    put_number(out, "cid", u64::from(cid))?;
    put_number(out, "data", u64::from(pages))?;
    put_number(out, "chain", u64::from(chain))
}

/// Puts the members of an answer whose status, or whose bytes, have this text.
fn put_answer<S: Serializer>(out: &mut S, reply: &Reply, text: &str) -> Result<(), S::Error>
    ensures { OnOk result (SendsNamed (λ name. members_events (answer_members text.now name reply.now)) (S.written out.old) (S.written out.new)) }
{
    match reply {
        Reply::Reserved {
            q,
            cid,
            data,
            chain,
        } => put_reserved(out, *q, *cid, *data, *chain),
        Reply::Accepted => put_text(out, "answer", "ok"),
        Reply::Fetched { cid, touched } => {
            put_text(out, "answer", "fetched")?;
            put_number(out, "cid", u64::from(*cid))?;
            put_touched(out, touched)
        }
        Reply::Walked { state, touched } => {
            put_walked(out, *state, text)?;
            put_touched(out, touched)
        }
        Reply::Completed { touched } => {
            put_text(out, "answer", "ok")?;
            put_touched(out, touched)
        }
        Reply::Reaps(found) => put_reaped(out, found, text),
        Reply::Collected { status, .. } => {
            put_text(out, "answer", "collected")?;
            put_status(out, *status, text)
        }
        Reply::Gathered(_) => {
            put_text(out, "answer", "gathered")?;
            put_text(out, "bytes", text)
        }
        Reply::Sent { cid } => {
            put_text(out, "answer", "sent")?;
            put_number(out, "cid", u64::from(*cid))
        }
        Reply::NoValue => put_why(out, "NoValue"),
        Reply::NotFilled(why) => put_why(out, fill_fault_name(*why)),
        Reply::Refused { why, .. } => {
            put_why(out, refusal_name(*why))?;
            put_detail(out, *why)
        }
    }
}

/// What a step answered. What an answer does not have is left out.
#[derive(Drop)]
struct ReplyObject<'a> {
    line: u32,
    verb: Verb,
    reply: &'a Reply,
    /// The text of its status, or of its bytes.
    text: String,
}

impl Described for ReplyObject<'_> {
    ghost writes = { λ it. SendsNamed (λ name. events_of (told_object it.line it.verb (string_bytes it.text) name it.reply.now)) };
}

impl Serialize for ReplyObject<'_> {
    fn serialize<S: Serializer>(&self, out: &mut S) -> Result<(), S::Error> {
        out.begin_map(None)?;
        put_number(out, "line", u64::from(self.line))?;
        put_text(out, "verb", self.verb.name())?;
        out.key("well")?;
        out.bool(is_well(self.reply))?;
        put_answer(out, self.reply, self.text.as_str())?;
        out.end_map()
    }
}

/// The text of the status that a walk ended with; nothing of another walk.
fn walked_text(alloc: Global, state: WalkState) -> Result<String, AllocError>
    ensures { IfOk result (λ text. string_bytes text ≡ spec_walked_text state) }
{
    match state {
        WalkState::More | WalkState::End => Ok(String::new(alloc)),
        WalkState::Fault(status) => format!(in alloc; "{status}"),
    }
}

/// The text of the status that a reap found; nothing where it found none.
fn reaped_text(alloc: Global, found: &Reaped) -> Result<String, AllocError>
    ensures { IfOk result (λ text. string_bytes text ≡ spec_reaped_text found.now) }
{
    match found {
        Reaped::Empty | Reaped::Rejected(_) => Ok(String::new(alloc)),
        Reaped::Done { status, .. } | Reaped::AdminDone { status, .. } => {
            format!(in alloc; "{status}")
        }
    }
}

/// The text of an answer's status, or of its bytes; nothing of an answer that has neither.
fn text_of(alloc: Global, reply: &Reply) -> Result<String, AllocError>
    ensures { IfOk result (λ text. string_bytes text ≡ spec_text_of reply.now) }
{
    match reply {
        Reply::Walked { state, .. } => walked_text(alloc, *state),
        Reply::Reaps(found) => reaped_text(alloc, found),
        Reply::Collected { status, .. } => format!(in alloc; "{status}"),
        Reply::Gathered(bytes) => hex_bytes(alloc, bytes.as_slice()),
        _ => Ok(String::new(alloc)),
    }
}

/// Puts the object of a step: the number of its line, its verb, and what it answered, by name.
///
/// # Errors
///
/// Where memory is refused.
pub fn put_reply_object(
    alloc: Global,
    out: &mut String,
    number: u32,
    verb: Verb,
    reply: &Reply,
) -> Result<(), AllocError>
    ensures { OnOk result (PutsReply number verb reply.now (string_bytes out.old) (string_bytes out.new)) }
{
    let object = ReplyObject {
        line: number,
        verb,
        reply,
        text: text_of(alloc, reply)?,
    };
    put_object(alloc, out, &object)
}
