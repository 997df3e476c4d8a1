//! Entries whose queue is known, and what of them only people ask for.

use entry_codec::{ComEntry, Hints, SubEntry, admin_opcode};
use io_commands::{block_number, first_block, kind_of};
use std::alloc::AllocError;
use texts::traces::{
    put_completion_fields, put_entry_head, put_entry_words, put_submission_fields,
};

/// What follows the name of a thing, given how many there are.
pub(crate) fn plural(number: u32) -> &'static str {
    if number == 1 { "" } else { "s" }
}

/// Puts the fields of an entry of an I/O queue, and its blocks where its opcode has some.
pub(crate) fn put_entry(out: &mut String, entry: &SubEntry) -> Result<(), AllocError> {
    put_submission_fields(out, 1, entry)?;
    if kind_of(entry.opcode).is_none() {
        return Ok(());
    }
    let (first, number) = (first_block(entry), block_number(entry));
    let (last, blocks) = (number.saturating_sub(1), plural(number));
    write!(
        out,
        "    SLBA {first}, NLB {last}: {number} block{blocks}\n"
    )
}

/// Puts the hints above a status: Command Retry Delay, More and Do Not Retry (NVM Express Base Specification 2.0, "Status Field Definition"), 14:11 of a status field.
pub(crate) fn put_hints(out: &mut String, hints: Hints) -> Result<(), AllocError> {
    let (retry, more) = (u8::from(hints.do_not_retry), u8::from(hints.more));
    let delay = hints.retry_delay;
    write!(out, "    DNR {retry}, More {more}, CRD {delay}\n")
}

/// Puts the fields of a completion entry, those among them that no entry of this controller has.
pub(crate) fn put_whole_completion(out: &mut String, bytes: &[u8; 16]) -> Result<(), AllocError> {
    let entry = ComEntry::read(bytes);
    put_completion_fields(out, &entry)?;
    put_hints(out, entry.hints)
}

/// What an opcode of the admin queue asks for (the same specification, "Admin Command Set").
pub(crate) fn admin_name(opcode: u8) -> &'static str {
    match opcode {
        admin_opcode::DELETE_IO_SQ => "Delete I/O Submission Queue",
        admin_opcode::CREATE_IO_SQ => "Create I/O Submission Queue",
        0x02 => "Get Log Page",
        admin_opcode::DELETE_IO_CQ => "Delete I/O Completion Queue",
        admin_opcode::CREATE_IO_CQ => "Create I/O Completion Queue",
        0x06 => "Identify",
        admin_opcode::ABORT => "Abort",
        0x09 => "Set Features",
        0x0A => "Get Features",
        0x0C => "Asynchronous Event Request",
        0x0D => "Namespace Management",
        0x10 => "Firmware Commit",
        0x11 => "Firmware Image Download",
        0x14 => "Device Self-test",
        0x15 => "Namespace Attachment",
        0x18 => "Keep Alive",
        0x80 => "Format NVM",
        0x81 => "Security Send",
        0x82 => "Security Receive",
        0x84 => "Sanitize",
        _ => "no name here",
    }
}

/// The halves of a word: bits 15:0, and 31:16.
pub(crate) fn halves(word: u32) -> (u32, u32) {
    (word % 65_536, word / 65_536)
}

/// Puts the fields of CDW10 and CDW11 that creations of both halves of a queue have.
fn put_created(out: &mut String, entry: &SubEntry) -> Result<(), AllocError> {
    let (queue, size) = halves(entry.cdw10);
    let (entries, contiguous) = (size.saturating_add(1), entry.cdw11 % 2);
    write!(
        out,
        "    QID {queue}, QSIZE {size}: {entries} entries, PC {contiguous}"
    )
}

/// Puts the fields of CDW10 and CDW11 that an opcode of the admin queue has.
fn put_admin_words(out: &mut String, entry: &SubEntry) -> Result<(), AllocError> {
    let (low, high) = halves(entry.cdw10);
    let (flags, other) = halves(entry.cdw11);
    match entry.opcode {
        admin_opcode::CREATE_IO_CQ => {
            put_created(out, entry)?;
            let enabled = flags / 2 % 2;
            write!(out, ", IEN {enabled}, IV {other}\n")
        }
        admin_opcode::CREATE_IO_SQ => {
            put_created(out, entry)?;
            let priority = flags / 2 % 4;
            write!(out, ", QPRIO {priority}, CQID {other}\n")
        }
        admin_opcode::DELETE_IO_SQ | admin_opcode::DELETE_IO_CQ => write!(out, "    QID {low}\n"),
        admin_opcode::ABORT => write!(out, "    SQID {low}, CID {high}\n"),
        _ => Ok(()),
    }
}

/// Puts the fields of an entry of the admin queue, whose data pointer is two PRP entries.
pub(crate) fn put_admin(out: &mut String, entry: &SubEntry) -> Result<(), AllocError> {
    put_entry_head(out, admin_name(entry.opcode), entry)?;
    let [a, b, c, d, e, f, g, h, i, j, k, l, m, n, o, p] = entry.sgl1;
    let first = u64::from_le_bytes([a, b, c, d, e, f, g, h]);
    let second = u64::from_le_bytes([i, j, k, l, m, n, o, p]);
    write!(out, "    PRP1 {first:X}h, PRP2 {second:X}h\n")?;
    put_entry_words(out, entry)?;
    put_admin_words(out, entry)
}
