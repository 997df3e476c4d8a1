//! The lines of an explanation.

ghost use Rattle.std.specs.Prelude.{IfOk, string_bytes};
ghost use Rattle.std.specs.Option.{option_map};
ghost use Rattle.views.specs.FaultTexts.{IsSentence, IsTold};

use crate::explain::case::Case;
use crate::explain::cause::put_cause;
use crate::explain::command::Explanation;
use crate::explain::entry::put_entry;
use crate::explain::fault::CaseFault;
use crate::explain::list::Taken;
use crate::explain::round::round_of;
use crate::explain::rule::{broken_rule, put_rule};
use crate::sparse_memory::SparseMemory;
use controller_walk::{DescriptorAt, FaultCause, WalkFault};
use entry_codec::status_names::Named;
use entry_codec::{Status, SubEntry};
use sgl_descriptor::Descriptor;
use std::alloc::{AllocError, Global};
use texts::faults::{line_at, put_line};
use texts::traces::put_descriptor;

/// The bytes of a page.
const PAGE: u64 = 4_096;

/// The most pages that a pool of the profile has.
const PROFILE_PAGES: u64 = 65_536;

/// The bytes of a descriptor.
const DESCRIPTOR: u64 = 16;

/// Puts which descriptor of a list it is, and its address.
fn put_number(out: &mut String, at: DescriptorAt) -> Result<(), AllocError> {
    let number = at.number;
    match at.place {
        Some(place) => write!(out, "descriptor {number}, at {place:X}h: "),
        None => write!(out, "descriptor {number}, SGL1 of the entry: "),
    }
}

/// Puts what a descriptor is for.
fn put_counted(out: &mut String, taken: &Taken) -> Result<(), AllocError> {
    let counted = taken.counted;
    match Descriptor::read(&taken.bytes) {
        Ok(Descriptor::DataBlock { .. }) => write!(out, ", for {counted} bytes"),
        Ok(Descriptor::BitBucket { .. }) if counted > 0 => {
            write!(out, ", for {counted} bytes that are not moved")
        }
        Ok(Descriptor::BitBucket { .. }) => out.push_str(", for no bytes: only a Read has them"),
        _ => Ok(()),
    }
}

/// Puts the line of a descriptor.
fn put_taken(out: &mut String, taken: &Taken) -> Result<(), AllocError> {
    put_number(out, taken.at)?;
    put_descriptor(out, &taken.bytes)?;
    put_counted(out, taken)?;
    out.push('\n')
}

/// Puts the lines of descriptors. Of a list that goes round they are those of the first round.
fn put_all(out: &mut String, explanation: &Explanation) -> Result<(), AllocError> {
    let all = explanation.taken.as_slice();
    let Some(round) = round_of(explanation) else {
        for taken in all {
            put_taken(out, taken)?;
        }
        return Ok(());
    };
    for taken in all.iter().take(round.len) {
        put_taken(out, taken)?;
    }
    let (number, left_out) = (round.again, round.left_out);
    write!(
        out,
        "the list goes round: descriptor {number} is next again, and so on, {left_out} more\n"
    )
}

/// The first page of a range of bytes that is past the pool, or out; the range's last page where none is.
fn missing_page(memory: &SparseMemory, addr: u64, len: u64) -> u64 {
    let mut page = addr / PAGE;
    let last = addr.saturating_add(len.saturating_sub(1)) / PAGE;
    for _ in 0..len {
        if page >= last || !memory.is_there(page) {
            break;
        }
        page = page.saturating_add(1);
    }
    page
}

/// Puts why bytes of a range are unreadable. A pool of the profile has pages by their numbers; of others addresses are told.
fn put_missing(
    out: &mut String,
    memory: &SparseMemory,
    addr: u64,
    len: u64,
) -> Result<(), AllocError> {
    let page = missing_page(memory, addr, len);
    let (first, pages) = (memory.first(), memory.count());
    let at = page.saturating_mul(PAGE);
    if first == 0 && pages <= PROFILE_PAGES {
        if page < pages {
            return write!(out, "page {page} is out\n");
        }
        return write!(
            out,
            "page {page} is past the pool, which has {pages} pages\n"
        );
    }
    if memory.is_of_pool(page) {
        return write!(out, "the page at {at:X}h is out\n");
    }
    let (base, size) = (first.saturating_mul(PAGE), pages.saturating_mul(PAGE));
    write!(
        out,
        "the page at {at:X}h is outside of the pool, which has {size:X}h bytes from {base:X}h on\n"
    )
}

/// Puts more of a fault, where its sentence does not have all.
pub(crate) fn put_more(
    out: &mut String,
    memory: &SparseMemory,
    explanation: &Explanation,
    fault: WalkFault,
) -> Result<(), AllocError> {
    let mut counted = 0u32;
    for taken in &explanation.taken {
        counted = counted.saturating_add(taken.counted);
    }
    match (fault.cause, explanation.taken.last()) {
        (FaultCause::ListTooShort, _) => {
            let need = explanation.need;
            write!(
                out,
                "the command moves {need} bytes, and its list has {counted}\n"
            )
        }
        (FaultCause::UnreadableDescriptor, _) => match fault.at.place {
            Some(place) => put_missing(out, memory, place, DESCRIPTOR),
            None => Ok(()),
        },
        (FaultCause::UnreadableData, Some(taken)) => match Descriptor::read(&taken.bytes) {
            Ok(Descriptor::DataBlock { addr, .. }) => {
                put_missing(out, memory, addr, u64::from(taken.counted))
            }
            _ => Ok(()),
        },
        _ => Ok(()),
    }
}

/// How many descriptors of its segment come after the last one that was taken.
fn left_in_segment(taken: &[Taken]) -> u64 {
    let Some(place) = taken.last().and_then(|last| last.at.place) else {
        return 0;
    };
    for link in taken.iter().rev() {
        if let Ok(
            Descriptor::Segment { addr, len } | Descriptor::LastSegment { addr, len },
        ) = Descriptor::read(&link.bytes)
        {
            let next = place.saturating_sub(addr).saturating_add(DESCRIPTOR);
            return u64::from(len).saturating_sub(next) / DESCRIPTOR;
        }
    }
    0
}

/// Puts what of the list was not wanted: bytes of the descriptor that was taken last, and descriptors after it.
pub(crate) fn put_rest(out: &mut String, explanation: &Explanation) -> Result<(), AllocError> {
    let Some(taken) = explanation.taken.last() else {
        return Ok(());
    };
    match left_in_segment(explanation.taken.as_slice()) {
        0 => {}
        1 => out.push_str("the list goes on: 1 descriptor of this segment is not looked at\n")?,
        left => write!(
            out,
            "the list goes on: {left} descriptors of this segment are not looked at\n"
        )?,
    }
    match Descriptor::read(&taken.bytes) {
        Ok(Descriptor::DataBlock { len, .. } | Descriptor::BitBucket { len })
            if len > taken.counted => {
            let need = explanation.need;
            write!(
                out,
                "the list is longer than the {need} bytes of the command: what comes after them is left alone\n"
            )
        }
        _ => Ok(()),
    }
}

/// Puts a line for each descriptor of a list that was taken, in order: its number, its address, its fields, and how many of the command's
/// bytes it is for; of an entry that breaks a rule for its fields it puts these. Then it puts how the command ends: `accepted`, or `refused` with the status, and which descriptor breaks which rule.
///
/// # Errors
///
/// Where memory is refused.
pub(crate) fn put_explanation(
    out: &mut String,
    case: &Case,
    explanation: &Explanation,
) -> Result<(), AllocError> {
    let entry = SubEntry::read(&case.entry);
    if broken_rule(&entry, &case.namespace).is_some() {
        put_entry(out, &entry)?;
    }
    put_all(out, explanation)?;
    let status = explanation.status;
    let named = Named(status);
    if status == Status::SUCCESS {
        write!(out, "accepted: {named}\n")?;
        return put_rest(out, explanation);
    }
    write!(out, "refused: {named}\n")?;
    match explanation.fault {
        Some(fault) => {
            put_number(out, fault.at)?;
            put_cause(out, fault.cause, explanation.taken.last())?;
            out.push('\n')?;
            put_more(out, &case.memory, explanation, fault)
        }
        None => {
            put_rule(out, &entry, &case.namespace, status)?;
            out.push('\n')
        }
    }
}

/// The sentence of a fault; none where memory was refused.
pub(crate) fn sentence_of(alloc: Global, fault: CaseFault) -> Result<Option<String>, AllocError>
    ensures { IfOk result (λ said. IsSentence fault (option_map string_bytes said)) }
{
    match (fault, fault.sentence()) {
        (CaseFault::Line { wrong, .. }, _) => Ok(Some(wrong.to_string(alloc)?)),
        (_, Some(sentence)) => Ok(Some(String::from_str(alloc, sentence)?)),
        (_, None) => Ok(None),
    }
}

/// What more is told of a fault: the line, a caret under the word, and a sentence.
///
/// # Errors
///
/// Where memory is refused.
pub fn fault_lines(alloc: Global, text: &[u8], fault: CaseFault) -> Result<String, AllocError>
    ensures { IfOk result (λ told. IsTold text.now fault (string_bytes told)) }
{
    let mut out = String::new(alloc);
    if let CaseFault::Line {
        number,
        start,
        end,
        ..
    } = fault
    {
        let line = line_at(text, number).unwrap_or(&[]);
        put_line(&mut out, line, start, end)?;
    }
    if let Some(sentence) = sentence_of(alloc, fault)? {
        write!(out, "{sentence}\n")?;
    }
    Ok(out)
}
