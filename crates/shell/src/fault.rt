//! What is wrong with a line.

use crate::dot_word::{DOT_WORDS, DotWord};
use script_cli::LineFault;
use script_cli::transcripts::BadOption;
use std::alloc::{AllocError, Global};
use texts::faults::{Grammar, explain, nearest, word_from};

/// What is wrong with a line.
#[derive(Clone, Copy, Debug, PartialEq, Eq)]
pub(crate) enum Fault<'a> {
    /// It is too long or not ASCII, or it begins with no dot and is not a line of a script.
    Line(LineFault),
    /// Its first word begins with a dot, and is none of the shell's.
    UnknownWord(&'a str),
    /// An argument is missing.
    Missing(DotWord),
    /// A word is not what is there in the form.
    Bad(&'a str, DotWord),
    /// A word is left over.
    Extra(&'a str, DotWord),
    /// A word is not an option of a world.
    BadOption(BadOption<'a>),
}

/// What is typed in the place of a word of other shells.
fn typed_for(word: &str) -> Option<&'static str> {
    match word {
        "quit" | "exit" | ".exit" | ".q" | "q" => Some(".quit"),
        "help" | "?" | ".?" | ".h" | "h" => Some(".help"),
        _ => None,
    }
}

/// What is typed in the place of the first word of a line, if that is one of other shells.
fn typed_for_line(line: &[u8]) -> Option<&'static str> {
    match word_from(line, 0) {
        Some(place) => match std::str::from_utf8(&line[place.start..place.end]) {
            Ok(word) => typed_for(word),
            Err(_) => None,
        },
        None => None,
    }
}

impl Fault<'_> {
    /// Its name, as a script's faults have one.
    fn name(&self) -> &'static str {
        match self {
            Fault::Line(_) => "Line",
            Fault::UnknownWord(_) => "UnknownWord",
            Fault::Missing(_) => "MissingWord",
            Fault::Bad(..) | Fault::BadOption(_) => "BadWord",
            Fault::Extra(..) => "ExtraWord",
        }
    }

    /// Puts a sentence.
    fn put_sentence(&self, alloc: Global, out: &mut String) -> Result<(), AllocError> {
        match self {
            Fault::Line(_) => Ok(()),
            Fault::UnknownWord(word) => put_unknown(alloc, out, word),
            Fault::Missing(dot) => {
                let form = dot.form();
                write!(out, "a word is missing; the form is: {form}\n")
            }
            Fault::Bad(word, dot) => {
                let form = dot.form();
                write!(out, "'{word}' does not fit; the form is: {form}\n")
            }
            Fault::Extra(word, dot) => {
                let form = dot.form();
                write!(out, "'{word}' is left over; the form is: {form}\n")
            }
            Fault::BadOption(BadOption { word, why, .. }) => {
                let word = word.escape_ascii();
                write!(out, "'{word}' does not fit: {why}\n")
            }
        }
    }

    /// Puts what is wrong with the line of this number: its name, and a sentence.
    pub(crate) fn put(
        &self,
        alloc: Global,
        out: &mut String,
        number: u32,
        line: &[u8],
    ) -> Result<(), AllocError> {
        if let Fault::Line(fault) = self {
            return put_line_fault(alloc, out, number, line, *fault);
        }
        let name = self.name();
        write!(out, "line {number}: {name}\n")?;
        self.put_sentence(alloc, out)
    }
}

/// Puts what is wrong with a line of a script. Of one that is too long, only its first part was kept.
fn put_line_fault(
    alloc: Global,
    out: &mut String,
    number: u32,
    line: &[u8],
    fault: LineFault,
) -> Result<(), AllocError> {
    write!(out, "line {number}: {fault}\n")?;
    if fault == LineFault::UnknownVerb {
        if let Some(typed) = typed_for_line(line) {
            return write!(out, "type '{typed}'\n");
        }
    }
    if fault == LineFault::LongLine {
        return out.push_str("a line has 16384 bytes at most.\n");
    }
    let below = explain(alloc, Grammar::Steps, line, fault)?;
    out.push_str(&below)
}

/// Puts that a word is none, and which one is near it.
pub(crate) fn put_unknown(alloc: Global, out: &mut String, word: &str) -> Result<(), AllocError> {
    write!(out, "'{word}' is no word of the shell")?;
    if let Some(typed) = typed_for(word) {
        return write!(out, "; type '{typed}'\n");
    }
    let names = DOT_WORDS.map(|dot| dot.name());
    match nearest(alloc, word.as_bytes(), &names)? {
        Some(name) => write!(out, "; did you mean '{name}'?\n"),
        None => out.push_str("; '.help' lists them.\n"),
    }
}
