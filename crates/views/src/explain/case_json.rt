//! An explanation as JSON, one object on each line, and what is wrong with lines.

use crate::explain::case::Case;
use crate::explain::cause::put_cause;
use crate::explain::command::Explanation;
use crate::explain::fault::CaseFault;
use crate::explain::list::Taken;
use crate::explain::round::{Round, round_of};
use crate::explain::rule::{broken_rule, put_rule};
use crate::explain::text::{put_more, put_rest};
use controller_walk::DescriptorAt;
use entry_codec::status_names::name_of;
use entry_codec::{Status, SubEntry};
use io_commands::{block_number, first_block};
use serde::Serialize;
use sgl_descriptor::Descriptor;
use std::alloc::{AllocError, Global};
use texts::objects::{hex_number, put_object};
use texts::traces::{type_name, type_of};

/// A descriptor that the controller takes.
#[derive(Drop, Serialize)]
struct TakenObject {
    descriptor: u32,
    at: Option<String>,
    #[serde(rename = "type")]
    kind: &'static str,
    #[serde(skip_serializing_if = "Option::is_none")]
    address: Option<String>,
    #[serde(skip_serializing_if = "Option::is_none")]
    length: Option<u32>,
    #[serde(skip_serializing_if = "Option::is_none")]
    bytes: Option<u32>,
}

/// Where a list goes round.
#[derive(Drop, Serialize)]
struct RoundObject {
    again: u32,
    left_out: usize,
}

/// How a command ends.
#[derive(Drop, Serialize)]
struct EndObject {
    accepted: bool,
    status: String,
    name: Option<&'static str>,
    #[serde(skip_serializing_if = "Option::is_none")]
    descriptor: Option<u32>,
    #[serde(skip_serializing_if = "Option::is_none")]
    at: Option<String>,
    #[serde(skip_serializing_if = "Option::is_none")]
    rule: Option<String>,
    #[serde(skip_serializing_if = "Option::is_none")]
    more: Option<String>,
}

/// The fields of an entry that breaks a rule for them.
#[derive(Drop, Serialize)]
struct EntryObject {
    opcode: u8,
    fuse: u8,
    psdt: u8,
    cid: u16,
    nsid: u32,
    slba: String,
    nlb: u32,
}

/// A number of 64 bits as a hexadecimal text: a number of JSON is read as one of 53 bits.
fn hex(alloc: Global, number: Option<u64>) -> Result<Option<String>, AllocError> {
    Ok(match number {
        Some(number) => Some(hex_number(alloc, number)?),
        None => None,
    })
}

/// The object of an entry.
fn entry_object(alloc: Global, entry: &SubEntry) -> Result<EntryObject, AllocError> {
    Ok(EntryObject {
        opcode: entry.opcode,
        fuse: entry.fuse,
        psdt: entry.psdt,
        cid: entry.cid,
        nsid: entry.nsid,
        slba: hex_number(alloc, first_block(entry))?,
        nlb: block_number(entry).saturating_sub(1),
    })
}

/// The object of a descriptor.
fn taken_object(alloc: Global, taken: &Taken) -> Result<TakenObject, AllocError> {
    let DescriptorAt { number, place } = taken.at;
    let counted = Some(taken.counted);
    let (kind, address, length, bytes) = match Descriptor::read(&taken.bytes) {
        Ok(Descriptor::DataBlock { addr, len }) => ("Data Block", Some(addr), Some(len), counted),
        Ok(Descriptor::BitBucket { len }) => ("Bit Bucket", None, Some(len), counted),
        Ok(Descriptor::Segment { addr, len }) => ("Segment", Some(addr), Some(len), None),
        Ok(Descriptor::LastSegment { addr, len }) => ("Last Segment", Some(addr), Some(len), None),
        Err(_) => (type_name(type_of(&taken.bytes).0), None, None, None),
    };
    Ok(TakenObject {
        descriptor: number,
        at: hex(alloc, place)?,
        kind,
        address: hex(alloc, address)?,
        length,
        bytes,
    })
}

/// A text that is put, without its line feed; none where nothing is put.
fn sentence(text: String) -> Option<String> {
    let mut text = text;
    if text.as_str().ends_with('\n') {
        text.pop();
    }
    if text.is_empty() { None } else { Some(text) }
}

/// The object of a command's end.
fn end_object(
    alloc: Global,
    case: &Case,
    explanation: &Explanation,
) -> Result<EndObject, AllocError> {
    let status = explanation.status;
    let mut more = String::new(alloc);
    let (at, rule) = match explanation.fault {
        Some(fault) => {
            put_more(&mut more, &case.memory, explanation, fault)?;
            let mut rule = String::new(alloc);
            put_cause(&mut rule, fault.cause, explanation.taken.last())?;
            (Some(fault.at), Some(rule))
        }
        None if status == Status::SUCCESS => {
            put_rest(&mut more, explanation)?;
            (None, None)
        }
        None => {
            let mut rule = String::new(alloc);
            put_rule(
                &mut rule,
                &SubEntry::read(&case.entry),
                &case.namespace,
                status,
            )?;
            (None, Some(rule))
        }
    };
    Ok(EndObject {
        accepted: status == Status::SUCCESS,
        status: format!(in alloc; "{status}")?,
        name: name_of(status),
        descriptor: at.map(|at| at.number),
        at: hex(alloc, at.and_then(|at| at.place))?,
        rule,
        more: sentence(more),
    })
}

/// Puts what [`crate::explain::text::put_explanation`] puts as JSON: an object for each descriptor that was taken, and one for the command's end. Numbers of 64 bits are hexadecimal texts;
/// `at` is null for a descriptor that is in the entry. An entry that breaks a rule for its fields has an object too.
///
/// # Errors
///
/// Where memory is refused.
pub(crate) fn put_objects(
    alloc: Global,
    out: &mut String,
    case: &Case,
    explanation: &Explanation,
) -> Result<(), AllocError> {
    let entry = SubEntry::read(&case.entry);
    if broken_rule(&entry, &case.namespace).is_some() {
        put_object(alloc, out, &entry_object(alloc, &entry)?)?;
    }
    let round = round_of(explanation);
    let all = explanation.taken.as_slice();
    let shown = match round {
        Some(Round { len, .. }) => len,
        None => all.len(),
    };
    for taken in all.iter().take(shown) {
        put_object(alloc, out, &taken_object(alloc, taken)?)?;
    }
    if let Some(
        Round {
            again,
            left_out,
            ..
        },
    ) = round
    {
        put_object(alloc, out, &RoundObject { again, left_out })?;
    }
    put_object(alloc, out, &end_object(alloc, case, explanation)?)
}
