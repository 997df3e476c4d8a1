//! How a transcript is read.

ghost use Rattle.std.specs.Prelude.{◌≡◌, ◌++◌, [], IfOk, MatchResult, Ok, map, option_map, string_bytes};
ghost use Rattle.script_cli.specs.Lines.{is_solid, lines, onward};
ghost use Rattle.script_cli.specs.Grammar.{line_of};
ghost use Rattle.script_cli.specs.Options.{over as spec_over};
ghost use Rattle.script_cli.specs.Transcripts.{answer_of as spec_answer_of, behind_blank as spec_behind_blank, behind_sign, line_read as spec_line_read, no_answer, script_line as spec_script_line, line_text, told_line, told_of, told_text, transcript_of, with_above, with_below, with_line_above, Below, IsFaultOf, LineText};

use crate::fault::LineError;
use crate::grammar::read_line;
use crate::lines::split_line;
use crate::script::Line;
use crate::transcripts::fault::TranscriptFault;
use crate::transcripts::options::{OPTIONS, Options, SaidOptions, ScriptKind};
use std::alloc::{AllocError, Global};
use std::marker::Model;

/// A line that must be printed.
#[derive(Debug, Drop)]
pub struct PrintedLine {
    /// The number of its line in the transcript, from 1.
    pub number: u32,
    /// What must be printed, without the number of the step's line.
    pub text: String,
}

/// A line of the script, and what must be printed when it is played.
#[derive(Drop)]
pub struct Told {
    /// The number of its line in the transcript, from 1. It is 0 for what must be printed before any step.
    pub number: u32,
    /// What it is.
    pub line: Line,
    /// What must be printed, up to the next line of the script, and after the last one also the counts.
    pub answers: Vec<PrintedLine>,
}

/// A transcript. Contracts see it as the options that it says and the lines of its script with their answers.
#[derive(Drop)]
pub struct Transcript {
    said: SaidOptions,
    told: Vec<Told>,
}

impl Model for Transcript {
    ghost use Rattle.std.specs.Prelude.{map};
    ghost use Rattle.script_cli.specs.Transcripts.{TranscriptText, told_text};

    ghost Value = { TranscriptText };

    ghost view = { λ t. record { said = t.said; told = map told_text t.told.items } };
}

impl Transcript {
    /// What it is played over, where an option that it does not say is the usual one.
    pub fn options(&self) -> Options
        ensures { result ≡ spec_over self.now.said Options.USUAL }
    {
        self.options_over(Options::USUAL)
    }

    /// What it is played over, where an option that it does not say is one of these.
    pub fn options_over(&self, usual: Options) -> Options
        ensures { result ≡ spec_over self.now.said usual }
    {
        self.said.over(usual)
    }

    /// Its lines in order. The first is what must be printed before any step.
    pub fn told(&self) -> &[Told]
        ensures { map told_text result.now ≡ self.now.told }
    {
        &self.told
    }
}

/// What follows a blank.
fn behind_blank(text: &str) -> Option<&str>
    ensures { option_map (λ behind. behind.now) result ≡ spec_behind_blank text.now }
{
    match text.strip_prefix(' ') {
        Some(behind) => Some(behind),
        None => text.strip_prefix('\t'),
    }
}

/// A text without the blanks at its start.
#[tactic(auto, using(crate::proofs::Answers::goes_behind, crate::proofs::Answers::is_shorter, crate::proofs::Answers::stands))]
fn unindented(text: &str) -> &str
    ensures { result.now ≡ onward is_solid text.now }
{
    let mut rest = text;
    while let Some(behind) = behind_blank(rest) {
        rest = behind;
    }
    rest
}

/// What follows the sign of an answer and a blank, if a blank or nothing follows the sign.
fn behind_its_blank(behind: &str) -> Option<&str>
    ensures { option_map (λ text. text.now) result ≡ behind_sign behind.now }
{
    if behind.is_empty() {
        Some(behind)
    } else {
        behind_blank(behind)
    }
}

/// The text of an answer, if a line is one, whose first word is the sign: what follows that and a blank.
pub fn answer_of(line: &str) -> Option<&str>
    ensures { option_map (λ text. text.now) result ≡ spec_answer_of line.now }
{
    match unindented(line).strip_prefix('>') {
        Some(behind) => behind_its_blank(behind),
        None => None,
    }
}

/// What a line of a transcript is.
enum Read {
    /// An answer.
    Answer(String),
    /// A line of the script.
    Line(Line),
}

/// What a line of the script is.
fn script_line(alloc: Global, number: u32, line: &str) -> Result<Line, TranscriptFault>
    ensures { MatchResult result (λ what. spec_script_line number (line_of line.now) ≡ Ok (LineText.a_line what)) (IsFaultOf (spec_script_line number (line_of line.now))) }
{
    match read_line(alloc, line.as_bytes()) {
        Ok(line) => Ok(line),
        Err(LineError::Fault(fault)) => Err(TranscriptFault::Line { number, fault }),
        Err(LineError::Memory) => Err(TranscriptFault::Memory),
    }
}

/// What a line of this number is that is not an answer.
fn other_line(alloc: Global, number: u32, line: &str) -> Result<Line, TranscriptFault>
    ensures { MatchResult result (λ what. no_answer number line.now ≡ Ok (LineText.a_line what)) (IsFaultOf (no_answer number line.now)) }
{
    match line.as_bytes().strip_prefix(OPTIONS.as_bytes()) {
        None => script_line(alloc, number, line),
        Some(_) => {
            if number == 1 {
                Ok(Line::Nothing)
            } else {
                Err(TranscriptFault::BadOptions { number })
            }
        }
    }
}

/// What the line of this number is.
fn line_read(alloc: Global, number: u32, line: &str) -> Result<Read, TranscriptFault>
    ensures { MatchResult result (λ what. spec_line_read number line.now ≡ Ok (line_text what)) (IsFaultOf (spec_line_read number line.now)) }
{
    match answer_of(line) {
        Some(text) => match String::from_str(alloc, text) {
            Ok(text) => Ok(Read::Answer(text)),
            Err(_) => Err(TranscriptFault::Memory),
        },
        None => match other_line(alloc, number, line) {
            Ok(line) => Ok(Read::Line(line)),
            Err(fault) => Err(fault),
        },
    }
}

/// A line of the script, without answers.
fn told_at(alloc: Global, number: u32, line: Line) -> Told
    ensures { told_text result ≡ told_line number line [] }
{
    Told {
        number,
        line,
        answers: Vec::new(alloc),
    }
}

/// Puts an answer below the last line of the script.
fn add_answer(last: Told, number: u32, text: String) -> Result<Told, AllocError>
    ensures { IfOk result (λ more. (below : Below) → with_below (told_text more) below ≡ with_below (told_text last) (with_above number (LineText.an_answer (string_bytes text)) below)) }
{
    let mut last = last;
    last.answers.push(PrintedLine { number, text })?;
    Ok(last)
}

/// Adds the last line of the script after those so far, where another one that does something comes and is then the last.
fn add_line(
    alloc: Global,
    told: &mut Vec<Told>,
    last: Told,
    number: u32,
    line: Line,
) -> Result<Told, AllocError>
    ensures { IfOk result (λ more. (below : Below) → map told_text told.new.items ++ with_below (told_text more) below ≡ map told_text told.old.items ++ with_below (told_text last) (with_line_above number line below)) }
{
    match line {
        Line::Nothing => Ok(last),
        Line::Owners => {
            told.push(last)?;
            Ok(told_at(alloc, number, Line::Owners))
        }
        Line::Step(step) => {
            told.push(last)?;
            Ok(told_at(alloc, number, Line::Step(step)))
        }
    }
}

/// Adds what a line of a transcript is to the lines of the script so far and to the last of them.
fn add(
    alloc: Global,
    told: &mut Vec<Told>,
    last: Told,
    number: u32,
    read: Read,
) -> Result<Told, AllocError>
    ensures { IfOk result (λ more. (below : Below) → map told_text told.new.items ++ with_below (told_text more) below ≡ map told_text told.old.items ++ with_below (told_text last) (with_above number (line_text read) below)) }
{
    match read {
        Read::Answer(text) => add_answer(last, number, text),
        Read::Line(line) => add_line(alloc, told, last, number, line),
    }
}

/// Reads the lines of a transcript.
fn read_lines(alloc: Global, text: &str) -> Result<Vec<Told>, TranscriptFault>
    ensures { MatchResult result (λ told. told_of (lines text.now) ≡ Ok (map told_text told.items)) (IsFaultOf (told_of (lines text.now))) }
{
    let mut told = Vec::new(alloc);
    let mut last = told_at(alloc, 0, Line::Nothing);
    let mut number = 1u32;
    for line in text.lines() {
        let read = match line_read(alloc, number, line) {
            Ok(read) => read,
            Err(fault) => return Err(fault),
        };
        last = match add(alloc, &mut told, last, number, read) {
            Ok(last) => last,
            Err(_) => return Err(TranscriptFault::Memory),
        };
        number = number.saturating_add(1);
    }
    match told.push(last) {
        Ok(()) => Ok(told),
        Err(_) => Err(TranscriptFault::Memory),
    }
}

/// Reads a transcript.
///
/// # Errors
///
/// The first fault of the first line that has one, or that memory was refused.
pub fn read_transcript(alloc: Global, text: &str) -> Result<Transcript, TranscriptFault>
    ensures { MatchResult result (λ transcript. transcript_of text.now ≡ Ok transcript) (IsFaultOf (transcript_of text.now)) }
{
    let (first, _) = split_line(text.as_bytes());
    let said = match SaidOptions::of_line(ScriptKind::Steps, first) {
        Ok(said) => said,
        Err(_) => return Err(TranscriptFault::BadOptions { number: 1 }),
    };
    match read_lines(alloc, text) {
        Ok(told) => Ok(Transcript { said, told }),
        Err(fault) => Err(fault),
    }
}
