//! What is wrong with a word, in a sentence.

use crate::faults::finding::{Found, JOB, Wanted};
use crate::faults::forms::{Grammar, Slot, form_text};
use crate::faults::layout::Shown;
use crate::faults::near::nearest;
use script_cli::{LineFault, VERBS, Verb, piece};
use std::alloc::{AllocError, Global};

/// The kinds of commands.
const KINDS: [&str; 7] = [
    "read",
    "write",
    "compare",
    "deallocate",
    "write_zeroes",
    "verify",
    "flush",
];

/// The words with which the line of a job may begin.
const JOBS: [&str; 1] = ["job"];

/// What is wrong with a word that follows those of a request.
const BEHIND_PIECES: &str =
    "this word is one too many: after the pieces may come 'nsid N', 'block_size N', 'fua' and 'lr', each once and in this order.";

/// What is wrong with a word that follows those of `create_cq`.
const BEHIND_QUEUE: &str = "this word is one too many: after Q may come 'vector N', once.";

/// The most digits of a number.
const MAX_DIGITS: usize = 20;

/// Puts the word that may be meant, or else what there is.
fn put_meant(
    out: &mut String,
    alloc: Global,
    word: &[u8],
    names: &[&'static str],
    otherwise: &str,
) -> Result<(), AllocError> {
    match nearest(alloc, word, names)? {
        Some(name) => write!(out, "did you mean '{name}'?"),
        None => out.push_str(otherwise),
    }
}

/// Puts what a first word is, where a step is expected.
fn put_no_verb(out: &mut String, alloc: Global, word: &[u8]) -> Result<(), AllocError> {
    if word == JOB {
        return out.push_str("'job' begins a line of `nvmesgl threads`, and is no step.");
    }
    let mut names = Vec::new(alloc);
    for verb in VERBS {
        names.push(verb.name())?;
    }
    let shown = Shown(word);
    write!(out, "'{shown}' is no verb: ")?;
    let otherwise = "`nvmesgl grammar` prints them all.";
    put_meant(out, alloc, word, names.as_slice(), otherwise)
}

/// Puts what a first word is, where a job is expected.
fn put_no_job(out: &mut String, alloc: Global, word: &[u8]) -> Result<(), AllocError> {
    let shown = Shown(word);
    if Verb::named(word).is_some() {
        return write!(out, "'{shown}' is a step of `nvmesgl steps`, and no job.");
    }
    write!(out, "'{shown}' is no job: ")?;
    put_meant(out, alloc, word, &JOBS, "each line begins with 'job'.")
}

/// Puts what is wrong with a number.
fn put_bad_number(out: &mut String, word: &[u8], slot: Slot) -> Result<(), AllocError> {
    let shown = Shown(word);
    let name = slot.name();
    if !word.iter().all(|byte| byte.is_ascii_digit()) {
        write!(out, "'{shown}' is no decimal number: {name} is ")?;
    } else if word.len() > MAX_DIGITS {
        return write!(out, "'{shown}' has more than {MAX_DIGITS} digits.");
    } else if slot == Slot::BlockSize {
        write!(out, "no block has {shown} bytes: {name} is ")?;
    } else if word.iter().all(|byte| *byte == b'0') {
        write!(out, "{shown} is too small: {name} is ")?;
    } else {
        write!(out, "{shown} is too large: {name} is ")?;
    }
    slot.put_about(out)?;
    out.push_str(".")
}

/// Puts what is wrong with bytes.
fn put_bad_bytes(out: &mut String, word: &[u8], slot: Slot) -> Result<(), AllocError> {
    let shown = Shown(word);
    let digits = word.len();
    if slot == Slot::Bytes && word.contains(&b'*') {
        return write!(
            out,
            "'{shown}' is no HEX: runs of bytes are printed so, and written out here, as ABAB for AB*2; zeros at the end may be left out."
        );
    }
    if !word.iter().all(|byte| byte.is_ascii_hexdigit()) {
        return write!(
            out,
            "'{shown}' is no HEX: that is digits 0 to 9 and A to F alone, two for each byte."
        );
    }
    if slot == Slot::EntryBytes {
        return write!(
            out,
            "HEX has {digits} digits here, and a completion entry has 32, for 16 bytes."
        );
    }
    write!(out, "HEX has {digits} digits here, and each byte has two.")
}

/// Puts what is wrong with a word in a place.
fn put_bad_word(
    out: &mut String,
    alloc: Global,
    grammar: Grammar,
    word: &[u8],
    slot: Slot,
) -> Result<(), AllocError> {
    match slot {
        Slot::Bytes if grammar != Grammar::Steps && piece(word).is_some() => {
            let shown = Shown(word);
            write!(
                out,
                "'{shown}' is a piece: HEX, the bytes, stands before the pieces."
            )
        }
        Slot::Bytes | Slot::EntryBytes => put_bad_bytes(out, word, slot),
        Slot::Kind => {
            let shown = Shown(word);
            write!(out, "'{shown}' is no kind of command: ")?;
            let kinds = "it is read, write, compare, deallocate, write_zeroes, verify or flush.";
            put_meant(out, alloc, word, &KINDS, kinds)
        }
        _ => put_bad_number(out, word, slot),
    }
}

/// Puts that a word is missing.
fn put_missing(out: &mut String, slot: Slot) -> Result<(), AllocError> {
    let name = slot.name();
    write!(out, "a word is missing here: {name}, ")?;
    slot.put_about(out)?;
    out.push_str(".")
}

/// Puts that a word is one too many.
fn put_extra(out: &mut String, alloc: Global, word: &[u8], verb: Verb) -> Result<(), AllocError> {
    if word.first() == Some(&b'#') {
        return out.push_str("a comment has a line of its own: '#' begins none after a step.");
    }
    if verb == Verb::Fill {
        return out.push_str("this word is one too many: HEX is one word, without blanks.");
    }
    if verb == Verb::Reserve {
        return out.push_str(BEHIND_PIECES);
    }
    if verb == Verb::CreateCq {
        return out.push_str(BEHIND_QUEUE);
    }
    let form = form_text(alloc, verb)?;
    write!(out, "this word is one too many: the form is '{form}'.")
}

/// Puts what is wrong with a line that has a byte that is not ASCII.
fn put_not_ascii(out: &mut String, bytes: &[u8]) -> Result<(), AllocError> {
    let byte = bytes.first().copied().unwrap_or(0);
    write!(
        out,
        "the byte {byte:02X}h is not ASCII: a script is ASCII text, comments too."
    )
}

/// Puts the sentence that says what is wrong with a line.
pub(crate) fn put_sentence(
    out: &mut String,
    alloc: Global,
    grammar: Grammar,
    line: &[u8],
    found: Found,
) -> Result<(), AllocError> {
    let word = line.get(found.start..found.end).unwrap_or(&[]);
    if word.last() == Some(&b'\r') {
        return out.push_str(
            "a carriage return ends this word: it ends a line only before a line feed.",
        );
    }
    match found.wanted {
        Wanted::ShorterLine => {
            let len = line.len();
            write!(out, "the line has {len} bytes, and may have 16384.")
        }
        Wanted::Ascii => put_not_ascii(out, word),
        Wanted::Verb => match grammar {
            Grammar::Steps => put_no_verb(out, alloc, word),
            Grammar::Jobs(_) => put_no_job(out, alloc, word),
        },
        Wanted::Slot(slot) if found.fault == LineFault::MissingWord => put_missing(out, slot),
        Wanted::Slot(slot) => put_bad_word(out, alloc, grammar, word, slot),
        Wanted::Piece => {
            let shown = Shown(word);
            write!(
                out,
                "'{shown}' is no piece: a piece is OFFSET+LEN, as 0+512, or xLEN, as x512."
            )
        }
        Wanted::Nothing(verb) => put_extra(out, alloc, word, verb),
        Wanted::NothingOfJob => out.push_str(BEHIND_PIECES),
    }
}
