//! Entries of queues, field by field.

ghost use Rattle.std.specs.Prelude.{◌≡◌, ◌++◌, OnOk, string_bytes};
ghost use Rattle.texts.specs.Fields.{PutsCompletion, asks_text, completion_head_text, first_words_text, head_text, opcode_name as spec_opcode_name, submission_text, words_text};

use crate::traces::bytes::put_byte;
use crate::traces::descriptors::put_descriptor;
use crate::traces::lists::put_list;
use crate::traces::slots::{put_completion_slot, put_submission_slot};
use entry_codec::status_names::name_of;
use entry_codec::{ComEntry, SubEntry, admin_opcode, io_opcode};
use std::alloc::AllocError;
use world_bench::Bench;

/// What an opcode asks for, on queue 0 or another one.
#[tactic(auto, unfolding(crate::specs::Fields::opcode_name))]
pub fn opcode_name(q: u16, opcode: u8) -> &'static str
    ensures { result.now ≡ spec_opcode_name q opcode }
{
    if q == 0 {
        return match opcode {
            admin_opcode::DELETE_IO_SQ => "Delete I/O Submission Queue",
            admin_opcode::CREATE_IO_SQ => "Create I/O Submission Queue",
            admin_opcode::DELETE_IO_CQ => "Delete I/O Completion Queue",
            admin_opcode::CREATE_IO_CQ => "Create I/O Completion Queue",
            admin_opcode::ABORT => "Abort",
            _ => "no command of this profile",
        };
    }
    match opcode {
        io_opcode::WRITE => "Write",
        io_opcode::READ => "Read",
        io_opcode::COMPARE => "Compare",
        io_opcode::WRITE_ZEROES => "Write Zeroes",
        io_opcode::VERIFY => "Verify",
        io_opcode::FLUSH => "Flush",
        io_opcode::DATASET_MANAGEMENT => "Dataset Management",
        _ => "no command of this profile",
    }
}

/// Puts the fields of an entry that say what it asks for.
#[tactic(auto, unfolding(crate::specs::Fields::asks_text))]
fn put_asks(out: &mut String, name: &str, entry: &SubEntry) -> Result<(), AllocError>
    ensures { OnOk result (string_bytes out.new ≡ string_bytes out.old ++ asks_text name.now entry.now) }
{
    let SubEntry {
        opcode,
        fuse,
        psdt,
        ..
    } = *entry;
    out.push_str("    OPC")?;
    put_byte(out, opcode)?;
    write!(out, "h {name}, FUSE {fuse}, PSDT {psdt}")
}

/// Puts the fields of an entry that come before its data pointer, with a name for its opcode, a line.
///
/// # Errors
///
/// Where memory is refused.
#[tactic(auto, unfolding(crate::specs::Fields::head_text))]
pub fn put_entry_head(out: &mut String, name: &str, entry: &SubEntry) -> Result<(), AllocError>
    ensures { OnOk result (string_bytes out.new ≡ string_bytes out.old ++ head_text name.now entry.now) }
{
    put_asks(out, name, entry)?;
    let SubEntry {
        cid,
        nsid,
        mptr,
        ..
    } = *entry;
    write!(out, ", CID {cid}, NSID {nsid}, MPTR {mptr:X}h\n")
}

/// Puts the first three words after the data pointer of an entry.
#[tactic(auto, unfolding(crate::specs::Fields::first_words_text))]
fn put_first_words(out: &mut String, entry: &SubEntry) -> Result<(), AllocError>
    ensures { OnOk result (string_bytes out.new ≡ string_bytes out.old ++ first_words_text entry.now) }
{
    let SubEntry {
        cdw10,
        cdw11,
        cdw12,
        ..
    } = *entry;
    write!(
        out,
        "    CDW10 {cdw10:X}h, CDW11 {cdw11:X}h, CDW12 {cdw12:X}h"
    )
}

/// Puts the words of an entry that follow its data pointer, a line.
///
/// # Errors
///
/// Where memory is refused.
#[tactic(auto, unfolding(crate::specs::Fields::words_text))]
pub fn put_entry_words(out: &mut String, entry: &SubEntry) -> Result<(), AllocError>
    ensures { OnOk result (string_bytes out.new ≡ string_bytes out.old ++ words_text entry.now) }
{
    put_first_words(out, entry)?;
    let SubEntry {
        cdw13,
        cdw14,
        cdw15,
        ..
    } = *entry;
    write!(
        out,
        ", CDW13 {cdw13:X}h, CDW14 {cdw14:X}h, CDW15 {cdw15:X}h\n"
    )
}

/// Puts the fields of a submission queue entry of a queue, three lines.
///
/// # Errors
///
/// Where memory is refused.
pub fn put_submission_fields(out: &mut String, q: u16, entry: &SubEntry) -> Result<(), AllocError>
    ensures { OnOk result (string_bytes out.new ≡ string_bytes out.old ++ submission_text q entry.now) }
{
    put_entry_head(out, opcode_name(q, entry.opcode), entry)?;
    out.push_str("    SGL1 ")?;
    put_descriptor(out, &entry.sgl1)?;
    out.push('\n')?;
    put_entry_words(out, entry)
}

/// Puts the entry in a slot of a submission queue, and with `list` the segments of its list.
pub(crate) fn put_submission(
    out: &mut String,
    bench: &mut Bench,
    q: u16,
    slot: u16,
    list: bool,
) -> Result<(), AllocError>
    ensures same { bench.new.table ≡ bench.old.table }
{
    let Some(bytes) = put_submission_slot(out, bench, q, slot)? else {
        return Ok(());
    };
    let entry = SubEntry::read(&bytes);
    put_submission_fields(out, q, &entry)?;
    if list {
        put_list(out, bench, &entry.sgl1)?;
    }
    Ok(())
}

/// Puts the fields of a completion queue entry before its status.
#[tactic(auto, unfolding(crate::specs::Fields::completion_head_text))]
fn put_completion_head(out: &mut String, entry: &ComEntry) -> Result<(), AllocError>
    ensures { OnOk result (string_bytes out.new ≡ string_bytes out.old ++ completion_head_text entry.now) }
{
    let ComEntry {
        dw0,
        sqhd,
        sqid,
        cid,
        phase,
        status: _,
        hints: _,
    } = *entry;
    let phase = u8::from(phase);
    write!(
        out,
        "    DW0 {dw0:X}h, SQHD {sqhd}, SQID {sqid}, CID {cid}, P {phase}, SF "
    )
}

/// Puts the fields of a completion queue entry, a line.
///
/// # Errors
///
/// Where memory is refused.
pub fn put_completion_fields(out: &mut String, entry: &ComEntry) -> Result<(), AllocError>
    ensures { OnOk result (PutsCompletion entry.now (string_bytes out.old) (string_bytes out.new)) }
{
    put_completion_head(out, entry)?;
    let status = entry.status;
    match name_of(status) {
        Some(name) => write!(out, "{status} {name}\n"),
        None => write!(out, "{status}\n"),
    }
}

/// Puts the entry in a slot of a completion queue.
pub(crate) fn put_completion(
    out: &mut String,
    bench: &mut Bench,
    q: u16,
    slot: u16,
) -> Result<(), AllocError>
    ensures same { bench.new.table ≡ bench.old.table }
{
    let Some(bytes) = put_completion_slot(out, bench, q, slot)? else {
        return Ok(());
    };
    put_completion_fields(out, &ComEntry::read(&bytes))
}
