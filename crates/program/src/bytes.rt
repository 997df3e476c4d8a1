//! Bytes that are pasted in: cases that are explained, and entries that are decoded.

ghost use Rattle.std.specs.Prelude.{IfErr};
ghost use Rattle.program.specs.Performing.{IsBytesFault};

use crate::below::lines_or_none;
use crate::fault::{BytesFault, Fault, FaultReport};
use crate::inputs::script_text;
use crate::printing::print_text;
use entry_codec::Status;
use script_cli::RunFault;
use std::alloc::{AllocError, AllocGlobal, Global};
use std::io::{Read, Write};
use std::rt::Files;
use texts::faults::nearest;
use views::explain::{
    CaseFault, Explained, Layout, Shown, explain_text, fault_lines, put_fault_object, show,
};

/// An object, if there was memory for it.
fn fault_object(alloc: Global, fault: CaseFault) -> Result<String, AllocError> {
    let mut text = String::new(alloc);
    put_fault_object(alloc, &mut text, fault)?;
    Ok(text)
}

/// What is told of a text that is not a case: lines below the fault, or an object in the output, and nothing else.
fn at_fault<W: Write>(
    alloc: Global,
    text: &[u8],
    fault: CaseFault,
    layout: Layout,
    writer: &mut W,
) -> FaultReport<Fault>
    ensures { IsBytesFault result.fault }
{
    if layout == Layout::Lines {
        let below = lines_or_none(alloc, fault_lines(alloc, text, fault));
        let fault = Fault::Bytes(BytesFault::Case(fault));
        return FaultReport::of(fault, below);
    }
    match print_text(alloc, fault_object(alloc, fault), writer) {
        Ok(()) => FaultReport::alone(alloc, Fault::Bytes(BytesFault::Answered(fault))),
        Err(told) => told,
    }
}

/// The text of a case.
fn case_text<R: AllocGlobal + Files, I: Read>(
    rt: &R,
    path: Option<&str>,
    reader: &mut I,
) -> Result<Vec<u8>, FaultReport<Fault>>
    ensures fault { IfErr result (λ told. IsBytesFault told.fault) }
{
    match script_text(rt, path, reader) {
        Ok(text) => Ok(text),
        Err(
            FaultReport {
                fault: RunFault::Unreadable,
                place: _,
                below,
            },
        ) => Err(FaultReport::of(Fault::Bytes(BytesFault::Unreadable), below)),
        Err(told) => Err(FaultReport::alone(rt.alloc(), Fault::Run(told.fault))),
    }
}

/// The kinds of bytes that are decoded.
const KINDS: [&str; 5] = ["sqe", "admin", "cqe", "sgl", "status"];

/// What is told of a word that names no kind of bytes.
fn unknown_kind(alloc: Global, word: &str) -> FaultReport<Fault>
    ensures { IsBytesFault result.fault }
{
    let below = match nearest(alloc, word.as_bytes(), &KINDS) {
        Ok(Some(kind)) => { lines_or_none(alloc, format!(in alloc; "did you mean '{kind}'?\n")) }
        _ => String::new(alloc),
    };
    FaultReport::of(Fault::Bytes(BytesFault::UnknownKind), below)
}

/// Explains the command of a case.
pub(crate) fn explain_case<R: AllocGlobal + Files, I: Read, W: Write>(
    rt: &R,
    path: Option<&str>,
    layout: Layout,
    reader: &mut I,
    writer: &mut W,
) -> Result<(), FaultReport<Fault>>
    ensures fault { IfErr result (λ told. IsBytesFault told.fault) }
{
    let alloc = rt.alloc();
    let case = case_text(rt, path, reader)?;
    match explain_text(rt, path, &case, layout) {
        Ok(Explained { text, status }) => {
            print_text(alloc, Ok(text), writer)?;
            if status == Status::SUCCESS {
                Ok(())
            } else {
                Err(FaultReport::alone(alloc, Fault::Bytes(BytesFault::Refused)))
            }
        }
        Err(fault) => Err(at_fault(alloc, &case, fault, layout, writer)),
    }
}

/// Words, with a blank after each.
fn joined(alloc: Global, words: &[&str]) -> Result<String, AllocError> {
    let mut text = String::new(alloc);
    for word in words {
        text.push_str(word)?;
        text.push(' ')?;
    }
    Ok(text)
}

/// Decodes the bytes after the first word.
pub(crate) fn show_words<R: AllocGlobal + Files, W: Write>(
    rt: &R,
    words: &[&str],
    layout: Layout,
    writer: &mut W,
) -> Result<(), FaultReport<Fault>>
    ensures fault { IfErr result (λ told. IsBytesFault told.fault) }
{
    let alloc = rt.alloc();
    let Some((first, others)) = words.split_first() else {
        return Err(FaultReport::alone(alloc, Fault::Bytes(BytesFault::UnknownKind)));
    };
    let Some(what) = Shown::named(first) else {
        return Err(unknown_kind(alloc, first));
    };
    let Ok(bytes) = joined(alloc, others) else {
        return Err(at_fault(alloc, &[], CaseFault::Memory, layout, writer));
    };
    match show(rt, what, bytes.as_bytes(), layout) {
        Ok(text) => print_text(alloc, Ok(text), writer),
        Err(fault) => Err(at_fault(alloc, bytes.as_bytes(), fault, layout, writer)),
    }
}
