//! A line, a caret under a word of it, and a sentence.

ghost use Rattle.std.specs.Prelude.{◌≡◌, ◌≤◌, ◌<◌, ◌-◌, ◌++◌, OnOk, map, replicate, string_bytes};
ghost use Rattle.texts.specs.Layout.{shown, dots_if, cut_text, carets_text, line_text};

use crate::faults::finding::find;
use crate::faults::forms::Grammar;
use crate::faults::sentences::put_sentence;
use script_cli::LineFault;
use std::alloc::{AllocError, Global};
use std::fmt;

/// The most bytes of a line that are shown.
const WIDTH: usize = 76;

/// How many of them come before the word, where the line is longer.
const BEFORE: usize = 30;

/// The most bytes of a word that are quoted.
const MAX_QUOTED: usize = 32;

/// A byte as it is shown: a blank for a tab, and a question mark for what is not printed.
fn shown_byte(byte: u8) -> char
    ensures shown { result ≡ shown byte }
    ensures ascii { result < 128 }
{
    match byte {
        b' '..=b'~' => char::from(byte),
        b'\t' => ' ',
        _ => '?',
    }
}

/// A word as it is quoted, cut where it is long.
#[derive(Clone, Copy)]
pub(crate) struct Shown<'a>(pub(crate) &'a [u8]);

impl fmt::Display for Shown<'_> {
    fn fmt<W: fmt::Write>(&self, f: &mut fmt::Formatter<W>) -> fmt::Result {
        let word = self.0;
        for byte in word.iter().take(MAX_QUOTED) {
            f.write_char(shown_byte(*byte))?;
        }
        if word.len() > MAX_QUOTED {
            f.write_str("..")?;
        }
        Ok(())
    }
}

/// Puts a character this often.
fn put_often(out: &mut String, character: char, times: usize) -> Result<(), AllocError>
    requires { character < 128 }
    ensures { OnOk result (string_bytes out.new ≡ string_bytes out.old ++ replicate times character) }
{
    for _ in 0..times {
        out.push(character)?;
    }
    Ok(())
}

/// Puts bytes as they are shown.
fn put_shown(out: &mut String, bytes: &[u8]) -> Result<(), AllocError>
    ensures { OnOk result (string_bytes out.new ≡ string_bytes out.old ++ map shown bytes.now) }
{
    for byte in bytes {
        out.push(shown_byte(*byte))?;
    }
    Ok(())
}

/// Puts two dots where something is left out.
fn put_dots_if(out: &mut String, cut: bool) -> Result<(), AllocError>
    ensures { OnOk result (string_bytes out.new ≡ string_bytes out.old ++ dots_if cut) }
{
    if cut { out.push_str("..") } else { Ok(()) }
}

/// Puts what is shown of a line starting at a byte, with dots where something is left out.
#[tactic(auto, unfolding(crate::specs::Layout::cut_text))]
fn put_cut(out: &mut String, line: &[u8], from: usize) -> Result<(), AllocError>
    ensures { OnOk result (string_bytes out.new ≡ string_bytes out.old ++ cut_text line.now from) }
{
    put_dots_if(out, from > 0)?;
    let (_, rest) = line.split_at(from.min(line.len()));
    put_shown(out, &rest[..rest.len().min(WIDTH)])?;
    put_dots_if(out, rest.len() > WIDTH)
}

/// Puts a caret for each byte from `start` to `end` below a line that is shown starting at a byte, and a line feed.
#[tactic(auto, unfolding(crate::specs::Layout::carets_text))]
fn put_carets(out: &mut String, from: usize, start: usize, end: usize) -> Result<(), AllocError>
    requires { from ≤ start - 30 }
    ensures { OnOk result (string_bytes out.new ≡ string_bytes out.old ++ carets_text from start end) }
{
    let dots = if from > 0 { 2 } else { 0 };
    let most = WIDTH.saturating_add(from).saturating_sub(start);
    out.push_str("  ")?;
    put_often(out, ' ', start.saturating_sub(from).saturating_add(dots))?;
    put_often(out, '^', end.saturating_sub(start).min(most).max(1))?;
    out.push('\n')
}

/// Puts a line, cut where it is long, and below it a caret for each byte from `start` to `end`, one at least.
///
/// # Errors
///
/// Where memory is refused.
pub fn put_line(out: &mut String, line: &[u8], start: usize, end: usize) -> Result<(), AllocError>
    ensures { OnOk result (string_bytes out.new ≡ string_bytes out.old ++ line_text line.now start end) }
{
    let from = if line.len() > WIDTH {
        start.saturating_sub(BEFORE)
    } else {
        0
    };
    out.push_str("  ")?;
    put_cut(out, line, from)?;
    out.push('\n')?;
    put_carets(out, from, start, end)
}

/// What is told of a line that is at fault: the line, a caret under the word, and a sentence; three lines, each with its line feed.
///
/// # Errors
///
/// Where memory is refused.
pub fn explain(
    alloc: Global,
    grammar: Grammar,
    line: &[u8],
    fault: LineFault,
) -> Result<String, AllocError> {
    let mut out = String::new(alloc);
    if fault == LineFault::TooManyLines {
        put_line(&mut out, line, 0, 1)?;
        out.push_str("a script has 65536 lines at most, empty ones and comments among them.\n")?;
        return Ok(out);
    }
    if let Some(found) = find(alloc, grammar, line)? {
        put_line(&mut out, line, found.start, found.end)?;
        put_sentence(&mut out, alloc, grammar, line, found)?;
        out.push_str("\n")?;
    }
    Ok(out)
}
