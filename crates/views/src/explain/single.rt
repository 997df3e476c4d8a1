//! Single entries and descriptors.

ghost use Rattle.std.specs.Prelude.{◌≡◌};
ghost use Rattle.views.specs.Words.{shown_named};

use crate::explain::answer::Layout;
use crate::explain::dump::{Dump, FILE};
use crate::explain::entry::{put_admin, put_entry, put_whole_completion};
use crate::explain::fault::{CaseFault, Wrong};
use crate::explain::files::file_bytes;
use crate::explain::lines::{Line, Stop, put_in};
use crate::explain::refusal::{Refusal, descriptor_fault, entry_refusal, put_first_rule};
use crate::explain::single_json::{
    put_admin_object, put_completion_object, put_descriptor_object, put_status_object,
    put_submission_object,
};
use crate::explain::status::{put_status, status_field};
use controller_walk::WalkFault;
use entry_codec::SubEntry;
use entry_codec::status_names::Named;
use script_cli::{MAX_LINES, split_line, words_of};
use std::alloc::{AllocError, AllocGlobal, Global};
use std::rt::Files;
use texts::faults::Place;
use texts::traces::put_descriptor;

/// What words are to be.
#[derive(Clone, Copy, Debug, PartialEq, Eq)]
pub enum Shown {
    /// A submission queue entry of an I/O queue.
    Submission,
    /// A submission queue entry of the admin queue.
    Admin,
    /// A completion queue entry.
    Completion,
    /// A scatter-gather list descriptor.
    Descriptor,
    /// A status: `0:0D`, or the 15 bits of its field, hexadecimal.
    Status,
}

impl Shown {
    /// What a word names: `sqe`, `admin`, `cqe`, `sgl` or `status`.
    pub fn named(word: &str) -> Option<Shown>
        ensures { result ≡ shown_named word.now }
    {
        if word == "sqe" {
            Some(Shown::Submission)
        } else if word == "admin" {
            Some(Shown::Admin)
        } else if word == "cqe" {
            Some(Shown::Completion)
        } else if word == "sgl" {
            Some(Shown::Descriptor)
        } else if word == "status" {
            Some(Shown::Status)
        } else {
            None
        }
    }
}

/// Puts the bytes of a line after those of the lines before it.
fn put_line<R: AllocGlobal + Files>(
    rt: &R,
    dump: &mut Dump,
    into: &mut [u8],
    text: &[u8],
) -> Result<(), Stop> {
    let mut line = Line::of(text);
    if words_of(text).is_err() {
        let (start, end) = (0, text.len());
        return Err(Stop::At(Place { start, end }, Wrong::NoText));
    }
    for _ in 0..line.len() {
        let Some(place) = line.peek() else {
            break;
        };
        let word = line.word(place);
        let bytes = if matches!(word, [FILE, ..]) {
            line.next();
            let bytes = file_bytes(rt, "", place, word, dump.room())?;
            dump.add(bytes.len());
            bytes
        } else {
            dump.line(rt.alloc(), &mut line)?
        };
        let from = dump.filled().saturating_sub(bytes.len());
        put_in(into, from, bytes.as_slice());
    }
    Ok(())
}

/// This many bytes, of lines.
fn array<R: AllocGlobal + Files, const N: usize>(rt: &R, text: &[u8]) -> Result<[u8; N], Stop> {
    let alloc = rt.alloc();
    let mut dump = Dump::begin(alloc, N);
    let mut array = [0; N];
    let mut rest = text;
    for number in 1..=MAX_LINES {
        if rest.is_empty() {
            break;
        }
        let (first, after) = split_line(rest);
        put_line(rt, &mut dump, &mut array, first).map_err(|stop| stop.in_line(number))?;
        rest = after;
    }
    let found = dump.filled();
    if found != N {
        let (start, end) = (0, split_line(text).0.len());
        let wanted = N;
        let wrong = Wrong::NotSoMany { found, wanted };
        return Err(Stop::At(Place { start, end }, wrong));
    }
    Ok(array)
}

/// Puts that SGL1 is refused, and why, or that it is not.
fn put_first(
    out: &mut String,
    bytes: &[u8; 16],
    fault: Option<WalkFault>,
) -> Result<(), AllocError> {
    let Some(fault) = fault else {
        return out.push_str("SGL1 is not refused by itself\n");
    };
    let named = Named(fault.cause.status());
    write!(out, "SGL1 is refused: {named}\n")?;
    put_first_rule(out, bytes, fault)?;
    out.push('\n')
}

/// Puts a descriptor, and whether it is refused as SGL1 of an entry.
fn put_sgl(out: &mut String, alloc: Global, bytes: &[u8; 16]) -> Result<(), AllocError> {
    put_descriptor(out, bytes)?;
    out.push('\n')?;
    put_first(out, bytes, descriptor_fault(alloc, bytes)?)
}

/// Puts the fields of an entry, and whether it is refused before its list is read, whichever blocks the image has.
fn put_sqe(out: &mut String, alloc: Global, bytes: &[u8; 64]) -> Result<(), AllocError> {
    let entry = SubEntry::read(bytes);
    put_entry(out, &entry)?;
    match entry_refusal(alloc, &entry)? {
        None => put_first(out, &entry.sgl1, None),
        Some(Refusal::First(fault)) => put_first(out, &entry.sgl1, Some(fault)),
        Some(refusal) => {
            let named = Named(refusal.status());
            write!(out, "refused: {named}\n")?;
            refusal.put_rule(alloc, out, &entry)?;
            out.push('\n')
        }
    }
}

/// What words are, by their fields.
fn text_of<R: AllocGlobal + Files>(rt: &R, what: Shown, words: &[u8]) -> Result<String, Stop> {
    let alloc = rt.alloc();
    let mut out = String::new(alloc);
    match what {
        Shown::Submission => put_sqe(&mut out, alloc, &array(rt, words)?)?,
        Shown::Admin => put_admin(&mut out, &SubEntry::read(&array(rt, words)?))?,
        Shown::Completion => put_whole_completion(&mut out, &array(rt, words)?)?,
        Shown::Descriptor => put_sgl(&mut out, alloc, &array(rt, words)?)?,
        Shown::Status => put_status(&mut out, words)?,
    }
    Ok(out)
}

/// What words are, by their fields, as an object.
fn object_of<R: AllocGlobal + Files>(rt: &R, what: Shown, words: &[u8]) -> Result<String, Stop> {
    let alloc = rt.alloc();
    let mut out = String::new(alloc);
    match what {
        Shown::Submission => put_submission_object(alloc, &mut out, &array(rt, words)?)?,
        Shown::Admin => put_admin_object(alloc, &mut out, &SubEntry::read(&array(rt, words)?))?,
        Shown::Completion => put_completion_object(alloc, &mut out, &array(rt, words)?)?,
        Shown::Descriptor => put_descriptor_object(alloc, &mut out, &array(rt, words)?)?,
        Shown::Status => put_status_object(alloc, &mut out, status_field(words)?)?,
    }
    Ok(out)
}

/// Decodes an entry, a descriptor or a status that is typed, or is in a file: each field by its name, and what of it the controller refuses whatever
/// memory holds; in lines, or as one object of JSON.
///
/// # Errors
///
/// A fault of line 1, or `Memory` where memory is refused.
pub fn show<R: AllocGlobal + Files>(
    rt: &R,
    what: Shown,
    words: &[u8],
    layout: Layout,
) -> Result<String, CaseFault> {
    let text = match layout {
        Layout::Lines => text_of(rt, what, words),
        Layout::Objects => object_of(rt, what, words),
    };
    match text {
        Ok(text) => Ok(text),
        Err(stop) => Err(stop.fault(1)),
    }
}
