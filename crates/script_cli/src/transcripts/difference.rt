//! The first difference between what was printed and what a transcript says.

ghost use Rattle.std.specs.Prelude.{◌≡◌, ◌≤◌, IfOk, length, option_map, string_bytes};
ghost use Rattle.script_cli.specs.Differences.{column_of, common_front, difference_text, differs, first_difference as spec_first_difference, text_or_nothing, NoneIfSame};
ghost use Rattle.script_cli.specs.Lines.{lines};
ghost use Rattle.script_cli.specs.Transcripts.{told_text};

use crate::transcripts::read::Told;
use std::alloc::{AllocError, Global};
use std::fmt;
use std::fmt::{Display, Formatter, Write};

/// The first difference between what was printed and what a transcript says.
#[derive(Debug, Drop)]
pub struct Difference {
    /// The number of the line in the transcript, from 1: that of the answer, or the last line before the place where one is missing.
    pub number: u32,
    /// What is there. None where more was printed than is there.
    pub wanted: Option<String>,
    /// What was printed. None where less was printed than is there.
    pub came: Option<String>,
}

/// A text, or `nothing` where there is none.
fn text_or(text: &Option<String>) -> &str
    ensures { result.now ≡ text_or_nothing (option_map string_bytes text.now) }
{
    match text {
        Some(text) => text.as_str(),
        None => "nothing",
    }
}

/// How many bytes two texts begin with alike.
fn alike(wanted: &[u8], came: &[u8]) -> usize
    ensures alike { result ≡ common_front wanted.now came.now }
    ensures most { result ≤ length wanted.now }
{
    let mut alike = 0usize;
    let mut left = wanted;
    let mut right = came;
    while let (Some((a, others)), Some((b, rest))) = (left.split_first(), right.split_first()) {
        if *a != *b {
            break;
        }
        alike += 1;
        left = others;
        right = rest;
    }
    alike
}

impl Difference {
    /// What is there and what was printed, each `nothing` where there is none.
    pub fn texts(&self) -> (&str, &str)
        ensures wanted { result.0.now ≡ text_or_nothing (option_map string_bytes self.now.wanted) }
        ensures came { result.1.now ≡ text_or_nothing (option_map string_bytes self.now.came) }
    {
        (text_or(&self.wanted), text_or(&self.came))
    }

    /// The column of its line where it begins, from 1; an answer follows `> `.
    pub fn column(&self) -> usize
        ensures { result ≡ column_of (option_map string_bytes self.now.wanted) (option_map string_bytes self.now.came) }
    {
        match (&self.wanted, &self.came) {
            (Some(wanted), Some(came)) => 3 + alike(wanted.as_bytes(), came.as_bytes()),
            _ => 1,
        }
    }
}

impl Display for Difference {
    fn fmt<W: Write>(&self, f: &mut Formatter<W>) -> fmt::Result {
        let number = self.number;
        let (wanted, came) = self.texts();
        write!(f, "line {number}: wanted {wanted}, came {came}")
    }
}

/// A difference whose texts are each owned.
fn different(
    alloc: Global,
    number: u32,
    wanted: Option<&str>,
    came: Option<&str>,
) -> Result<Option<Difference>, AllocError>
    ensures { IfOk result (λ found. option_map difference_text found ≡ differs number (option_map (λ text. text.now) wanted.entry) (option_map (λ text. text.now) came.entry)) }
{
    Ok(Some(Difference {
        number,
        wanted: owned(alloc, wanted)?,
        came: owned(alloc, came)?,
    }))
}

/// A text of one's own.
fn owned(alloc: Global, text: Option<&str>) -> Result<Option<String>, AllocError>
    ensures { IfOk result (λ made. option_map string_bytes made ≡ option_map (λ text. text.now) text.entry) }
{
    match text {
        Some(text) => Ok(Some(String::from_str(alloc, text)?)),
        None => Ok(None),
    }
}

/// The first difference between the lines that a line of a script printed and those that it must print.
pub(crate) fn first_difference(
    alloc: Global,
    told: &Told,
    printed: &str,
) -> Result<Option<Difference>, AllocError>
    ensures first { IfOk result (λ found. option_map difference_text found ≡ spec_first_difference (told_text told.now) (lines printed.now)) }
{
    let mut number = told.number;
    let mut answers = told.answers.as_slice();
    for came in printed.lines() {
        let Some((answer, rest)) = answers.split_first() else {
            return different(alloc, number, None, Some(came));
        };
        number = answer.number;
        let wanted = answer.text.as_str();
        if wanted != came {
            return different(alloc, number, Some(wanted), Some(came));
        }
        answers = rest;
    }
    match answers.split_first() {
        Some((answer, _)) => different(alloc, answer.number, Some(answer.text.as_str()), None),
        None => Ok(None),
    }
}

/// The law of differences: there is none exactly where the printed lines are the answers, in the same order and as many.
pub fn law_of_differences()
    ensures { NoneIfSame }
{}
