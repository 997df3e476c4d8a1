//! Single entries, descriptors and statuses as objects.

use crate::explain::entry::{admin_name, halves};
use crate::explain::refusal::{Refusal, descriptor_fault, entry_refusal, put_first_rule};
use crate::explain::status::{any_name_of, parts_of};
use entry_codec::{ComEntry, Hints, Status, SubEntry, admin_opcode};
use io_commands::{block_number, first_block, kind_of};
use serde::Serialize;
use std::alloc::{AllocError, Global};
use texts::objects::{hex_number, put_object};
use texts::traces::{KEYED, TRANSPORT, opcode_name, subtype_name, type_name, type_of};

/// The type of a Bit Bucket, which has no address.
const BUCKET: u8 = 1;

/// The fields of a descriptor that its type has.
#[derive(Drop, Serialize)]
struct DescriptorFields {
    #[serde(rename = "type")]
    kind: &'static str,
    type_code: u8,
    subtype: &'static str,
    subtype_code: u8,
    address: Option<String>,
    length: u32,
    key: Option<u32>,
}

/// What is refused, and by which rule.
#[derive(Drop, Serialize)]
struct RefusedObject {
    what: &'static str,
    status: String,
    name: Option<&'static str>,
    rule: String,
}

/// A descriptor, and whether it is refused as SGL1 of an entry.
#[derive(Drop, Serialize)]
struct DescriptorObject {
    descriptor: DescriptorFields,
    refused: Option<RefusedObject>,
}

/// The words of an entry that a command may use.
#[derive(Drop, Serialize)]
struct WordsObject {
    cdw10: u32,
    cdw11: u32,
    cdw12: u32,
    cdw13: u32,
    cdw14: u32,
    cdw15: u32,
}

/// The blocks of an entry.
#[derive(Drop, Serialize)]
struct BlocksObject {
    slba: String,
    nlb: u32,
}

/// An entry of an I/O queue, and what of it is refused.
#[derive(Drop, Serialize)]
struct SubmissionObject {
    opcode: u8,
    command: &'static str,
    fuse: u8,
    psdt: u8,
    cid: u16,
    nsid: u32,
    mptr: String,
    sgl1: DescriptorFields,
    words: WordsObject,
    blocks: Option<BlocksObject>,
    refused: Option<RefusedObject>,
}

/// The fields of CDW10 and CDW11 that an opcode of the admin queue has.
#[derive(Default, Drop, Serialize)]
struct AdminFields {
    #[serde(skip_serializing_if = "Option::is_none")]
    qid: Option<u32>,
    #[serde(skip_serializing_if = "Option::is_none")]
    qsize: Option<u32>,
    #[serde(skip_serializing_if = "Option::is_none")]
    pc: Option<u32>,
    #[serde(skip_serializing_if = "Option::is_none")]
    ien: Option<u32>,
    #[serde(skip_serializing_if = "Option::is_none")]
    iv: Option<u32>,
    #[serde(skip_serializing_if = "Option::is_none")]
    qprio: Option<u32>,
    #[serde(skip_serializing_if = "Option::is_none")]
    cqid: Option<u32>,
    #[serde(skip_serializing_if = "Option::is_none")]
    sqid: Option<u32>,
    #[serde(skip_serializing_if = "Option::is_none")]
    cid: Option<u32>,
}

/// An entry of the admin queue.
#[derive(Drop, Serialize)]
struct AdminObject {
    opcode: u8,
    command: &'static str,
    fuse: u8,
    psdt: u8,
    cid: u16,
    nsid: u32,
    mptr: String,
    prp1: String,
    prp2: String,
    words: WordsObject,
    fields: Option<AdminFields>,
}

/// A status, and the hints above it.
#[derive(Drop, Serialize)]
struct StatusObject {
    status: String,
    name: Option<&'static str>,
    dnr: u8,
    more: u8,
    crd: u8,
}

/// A completion entry.
#[derive(Drop, Serialize)]
struct CompletionObject {
    dw0: u32,
    sqhd: u16,
    sqid: u16,
    cid: u16,
    phase: u8,
    status: StatusObject,
}

/// The fields of a descriptor, by its type.
fn descriptor_fields(alloc: Global, bytes: &[u8; 16]) -> Result<DescriptorFields, AllocError> {
    let [a, b, c, d, e, f, g, h, i, j, k, l, m, n, o, _] = *bytes;
    let (kind, subtype) = type_of(bytes);
    let address = u64::from_le_bytes([a, b, c, d, e, f, g, h]);
    let whole = u32::from_le_bytes([i, j, k, l]);
    let (address, length, key) = match kind {
        BUCKET | TRANSPORT => (None, whole, None),
        KEYED => (
            Some(hex_number(alloc, address)?),
            whole % 0x100_0000,
            Some(u32::from_le_bytes([l, m, n, o])),
        ),
        _ => (Some(hex_number(alloc, address)?), whole, None),
    };
    Ok(DescriptorFields {
        kind: type_name(kind),
        type_code: kind,
        subtype: subtype_name(subtype),
        subtype_code: subtype,
        address,
        length,
        key,
    })
}

/// What is refused, with the rule that is broken.
fn refused_object(
    alloc: Global,
    refusal: Refusal,
    rule: String,
) -> Result<RefusedObject, AllocError> {
    let status = refusal.status();
    Ok(RefusedObject {
        what: refusal.what(),
        status: format!(in alloc; "{status}")?,
        name: any_name_of(status),
        rule,
    })
}

/// Puts the object of a descriptor.
pub(crate) fn put_descriptor_object(
    alloc: Global,
    out: &mut String,
    bytes: &[u8; 16],
) -> Result<(), AllocError> {
    let refused = match descriptor_fault(alloc, bytes)? {
        Some(fault) => {
            let mut rule = String::new(alloc);
            put_first_rule(&mut rule, bytes, fault)?;
            Some(refused_object(alloc, Refusal::First(fault), rule)?)
        }
        None => None,
    };
    let descriptor = descriptor_fields(alloc, bytes)?;
    put_object(
        alloc,
        out,
        &DescriptorObject {
            descriptor,
            refused,
        },
    )
}

/// The words of an entry.
fn words_of(entry: &SubEntry) -> WordsObject {
    WordsObject {
        cdw10: entry.cdw10,
        cdw11: entry.cdw11,
        cdw12: entry.cdw12,
        cdw13: entry.cdw13,
        cdw14: entry.cdw14,
        cdw15: entry.cdw15,
    }
}

/// The blocks of an entry whose opcode has some.
fn blocks_of(alloc: Global, entry: &SubEntry) -> Result<Option<BlocksObject>, AllocError> {
    if kind_of(entry.opcode).is_none() {
        return Ok(None);
    }
    Ok(Some(BlocksObject {
        slba: hex_number(alloc, first_block(entry))?,
        nlb: block_number(entry).saturating_sub(1),
    }))
}

/// Puts the object of an entry of an I/O queue.
pub(crate) fn put_submission_object(
    alloc: Global,
    out: &mut String,
    bytes: &[u8; 64],
) -> Result<(), AllocError> {
    let entry = SubEntry::read(bytes);
    let refused = match entry_refusal(alloc, &entry)? {
        Some(refusal) => {
            let mut rule = String::new(alloc);
            refusal.put_rule(alloc, &mut rule, &entry)?;
            Some(refused_object(alloc, refusal, rule)?)
        }
        None => None,
    };
    let object = SubmissionObject {
        opcode: entry.opcode,
        command: opcode_name(1, entry.opcode),
        fuse: entry.fuse,
        psdt: entry.psdt,
        cid: entry.cid,
        nsid: entry.nsid,
        mptr: hex_number(alloc, entry.mptr)?,
        sgl1: descriptor_fields(alloc, &entry.sgl1)?,
        words: words_of(&entry),
        blocks: blocks_of(alloc, &entry)?,
        refused,
    };
    put_object(alloc, out, &object)
}

/// The fields of CDW10 and CDW11 that an opcode of the admin queue has.
fn admin_fields(entry: &SubEntry) -> Option<AdminFields> {
    let (low, high) = halves(entry.cdw10);
    let (flags, other) = halves(entry.cdw11);
    match entry.opcode {
        admin_opcode::CREATE_IO_CQ => Some(AdminFields {
            qid: Some(low),
            qsize: Some(high),
            pc: Some(flags % 2),
            ien: Some(flags / 2 % 2),
            iv: Some(other),
            ..AdminFields::default()
        }),
        admin_opcode::CREATE_IO_SQ => Some(AdminFields {
            qid: Some(low),
            qsize: Some(high),
            pc: Some(flags % 2),
            qprio: Some(flags / 2 % 4),
            cqid: Some(other),
            ..AdminFields::default()
        }),
        admin_opcode::DELETE_IO_SQ | admin_opcode::DELETE_IO_CQ => Some(AdminFields {
            qid: Some(low),
            ..AdminFields::default()
        }),
        admin_opcode::ABORT => Some(AdminFields {
            sqid: Some(low),
            cid: Some(high),
            ..AdminFields::default()
        }),
        _ => None,
    }
}

/// Puts the object of an entry of the admin queue.
pub(crate) fn put_admin_object(
    alloc: Global,
    out: &mut String,
    entry: &SubEntry,
) -> Result<(), AllocError> {
    let [a, b, c, d, e, f, g, h, i, j, k, l, m, n, o, p] = entry.sgl1;
    let first = u64::from_le_bytes([a, b, c, d, e, f, g, h]);
    let second = u64::from_le_bytes([i, j, k, l, m, n, o, p]);
    let object = AdminObject {
        opcode: entry.opcode,
        command: admin_name(entry.opcode),
        fuse: entry.fuse,
        psdt: entry.psdt,
        cid: entry.cid,
        nsid: entry.nsid,
        mptr: hex_number(alloc, entry.mptr)?,
        prp1: hex_number(alloc, first)?,
        prp2: hex_number(alloc, second)?,
        words: words_of(entry),
        fields: admin_fields(entry),
    };
    put_object(alloc, out, &object)
}

/// The object of a status, by its name, and the hints above it.
fn status_object(alloc: Global, status: Status, hints: Hints) -> Result<StatusObject, AllocError> {
    Ok(StatusObject {
        status: format!(in alloc; "{status}")?,
        name: any_name_of(status),
        dnr: u8::from(hints.do_not_retry),
        more: u8::from(hints.more),
        crd: hints.retry_delay,
    })
}

/// Puts the object of a completion entry.
pub(crate) fn put_completion_object(
    alloc: Global,
    out: &mut String,
    bytes: &[u8; 16],
) -> Result<(), AllocError> {
    let ComEntry {
        dw0,
        sqhd,
        sqid,
        cid,
        phase,
        status,
        hints,
    } = ComEntry::read(bytes);
    let object = CompletionObject {
        dw0,
        sqhd,
        sqid,
        cid,
        phase: u8::from(phase),
        status: status_object(alloc, status, hints)?,
    };
    put_object(alloc, out, &object)
}

/// Puts the object of a status field.
pub(crate) fn put_status_object(
    alloc: Global,
    out: &mut String,
    field: u16,
) -> Result<(), AllocError> {
    let (status, hints) = parts_of(field);
    put_object(alloc, out, &status_object(alloc, status, hints)?)
}
