//! What is wrong with lines, as an object of JSON.

ghost use Rattle.std.specs.Prelude.{OnOk, string_bytes};
ghost use Rattle.views.specs.FaultObjects.{PutsFault, fault_members, fault_object};
ghost use Rattle.texts.specs.Objects.{Sends, events_of, members_events};

use crate::explain::fault::CaseFault;
use crate::explain::text::sentence_of;
use serde::{Described, Serialize, Serializer};
use std::alloc::{AllocError, Global};
use texts::objects::{put_number, put_object, put_text};

/// A fault, and the sentence of it.
#[derive(Drop)]
struct FaultObject {
    fault: CaseFault,
    sentence: String,
}

/// Puts the members of a fault, which has this sentence.
fn put_fault<S: Serializer>(out: &mut S, fault: CaseFault, sentence: &str) -> Result<(), S::Error>
    ensures { OnOk result (Sends (members_events (fault_members fault sentence.now)) (S.written out.old) (S.written out.new)) }
{
    match fault {
        CaseFault::Line {
            number,
            start,
            end: _,
            wrong,
        } => {
            put_text(out, "fault", wrong.name())?;
            put_number(out, "line", u64::from(number))?;
            put_number(out, "column", start.saturating_add(1) as u64)?;
            put_text(out, "sentence", sentence)
        }
        CaseFault::TooLong => {
            put_text(out, "fault", "TooLong")?;
            put_text(out, "sentence", sentence)
        }
        CaseFault::NoEntry => {
            put_text(out, "fault", "NoEntry")?;
            put_text(out, "sentence", sentence)
        }
        CaseFault::Memory => put_text(out, "fault", "Memory"),
    }
}

impl Described for FaultObject {
    ghost writes = { λ it. Sends (events_of (fault_object it.fault (string_bytes it.sentence))) };
}

impl Serialize for FaultObject {
    fn serialize<S: Serializer>(&self, out: &mut S) -> Result<(), S::Error> {
        out.begin_map(None)?;
        put_fault(out, self.fault, self.sentence.as_str())?;
        out.end_map()
    }
}

/// The sentence of a fault; nothing where it has none.
fn sentence_or_nothing(alloc: Global, fault: CaseFault) -> Result<String, AllocError> {
    Ok(sentence_of(alloc, fault)?.unwrap_or(String::new(alloc)))
}

/// Puts the object of what is wrong with lines, or with the words of an entry: its name, where it is, line and column from 1, and a sentence.
///
/// # Errors
///
/// Where memory is refused.
pub fn put_fault_object(alloc: Global, out: &mut String, fault: CaseFault) -> Result<(), AllocError>
    ensures { OnOk result (PutsFault fault (string_bytes out.old) (string_bytes out.new)) }
{
    let sentence = sentence_or_nothing(alloc, fault)?;
    put_object(alloc, out, &FaultObject { fault, sentence })
}
