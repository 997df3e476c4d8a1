//! Files of transcripts, of steps and of jobs.

ghost use Rattle.std.specs.Prelude.{◌≡◌, ◌≤◌, IfOk, IfSome};
ghost use Rattle.program.specs.Statuses.{status_of_tally};
ghost use Rattle.script_cli.specs.Options.{AreFew};

use crate::below::{below_options, below_script, lines_or_none, place_of_option};
use crate::inputs::{Unread, transcript_bytes};
use crate::places::{STANDARD, column_of, put_head};
use job_cli::test_jobs;
use script_cli::transcripts::{
    BadOption, Difference, OpeningFault, Options, Outcome, SaidOptions, ScriptKind,
    TranscriptFault, out_of_range, test_transcript,
};
use script_cli::{ImageFault, LineFault, RunFault, flush, put, replace_file, split_line};
use std::alloc::{AllocError, AllocGlobal, Global};
use std::convert::AsStr;
use std::io::{Read, Write};
use std::rt::{Clock, Files};
use std::sync::Wait;
use std::thread::Threads;
use texts::faults::{Grammar, line_at};

/// How many files turned out in each way.
#[derive(Clone, Copy, Debug, Default, PartialEq, Eq)]
pub struct Tally {
    /// What is printed is what is there, or is now there.
    pub agreeing: u64,
    /// Something else is printed.
    pub differing: u64,
    /// It is unreadable, no transcript, or nothing was opened for it.
    pub faulty: u64,
    /// What came was not written into it.
    pub unwritten: u64,
}

impl Tally {
    /// The exit status that a program ends with: 3 where a file was not written, else 4 where one differs, else 1 where one is at fault.
    pub fn exit_status(self) -> u8
        ensures { result ≡ status_of_tally self }
    {
        if self.unwritten > 0 {
            3
        } else if self.differing > 0 {
            4
        } else if self.faulty > 0 {
            1
        } else {
            0
        }
    }

    /// Counts a file.
    fn count(&mut self, end: FileEnd) {
        let count = match end {
            FileEnd::Agrees => &mut self.agreeing,
            FileEnd::Differs => &mut self.differing,
            FileEnd::Fault => &mut self.faulty,
            FileEnd::Unwritten => &mut self.unwritten,
        };
        *count = count.saturating_add(1);
    }
}

/// How a file turned out.
#[derive(Clone, Copy, Debug, PartialEq, Eq)]
enum FileEnd {
    Agrees,
    Differs,
    Fault,
    Unwritten,
}

/// Says that what is printed is what is there; what is on standard input is said itself where it would be updated.
fn agree(
    path: &str,
    bytes: &[u8],
    updates: bool,
    line: &mut String,
) -> Result<FileEnd, AllocError> {
    match str::from_utf8(bytes) {
        Ok(text) if updates && path == STANDARD => line.push_str(text)?,
        _ => write!(line, "ok {path}\n")?,
    }
    Ok(FileEnd::Agrees)
}

/// Puts what came into a file that differs, and says so; of standard input it says what came, and nothing else.
fn update<R: AllocGlobal + Files>(
    rt: &R,
    path: &str,
    updated: &str,
    line: &mut String,
) -> Result<FileEnd, AllocError> {
    if path == STANDARD {
        line.push_str(updated)?;
        return Ok(FileEnd::Agrees);
    }
    match replace_file(rt, path, updated.as_bytes()) {
        Ok(()) => {
            write!(line, "updated {path}\n")?;
            Ok(FileEnd::Agrees)
        }
        Err(why) => {
            write!(line, "{path}: not written: {why}\n")?;
            Ok(FileEnd::Unwritten)
        }
    }
}

/// Says where something else is printed than is there.
fn differ(path: &str, difference: &Difference, line: &mut String) -> Result<FileEnd, AllocError> {
    let (number, column) = (difference.number, difference.column());
    let (wanted, came) = difference.texts();
    write!(
        line,
        "{path}:{number}:{column}: wanted {wanted}, came {came}\n"
    )?;
    Ok(FileEnd::Differs)
}

/// Says which line of a file is at fault, and what is wrong with it.
fn say_line(
    alloc: Global,
    grammar: Grammar,
    path: &str,
    bytes: &[u8],
    number: u32,
    fault: LineFault,
    line: &mut String,
) -> Result<(), AllocError> {
    let column = match line_at(bytes, number) {
        Some(faulty) => column_of(alloc, grammar, faulty)?,
        None => 1,
    };
    put_head(line, Some(path), number, column, fault)?;
    let fault = RunFault::Line { number, fault };
    line.push_str(&below_script(alloc, grammar, bytes, fault))
}

/// Says that a line of a file says invalid options, and what is wrong with them.
fn say_options(
    alloc: Global,
    path: &str,
    bytes: &[u8],
    number: u32,
    line: &mut String,
) -> Result<(), AllocError> {
    match line_said(bytes) {
        Err(bad) if number == 1 => {
            let column = place_of_option(bytes, bad).start.saturating_add(1);
            write!(line, "{path}:1:{column}: BadOptions\n")?;
            line.push_str(&below_options(alloc, bytes, bad))
        }
        _ => write!(
            line,
            "{path}:{number}:1: BadOptions\noptions stand in the first line\n"
        ),
    }
}

/// Says why a file is not a transcript.
fn say_fault(
    alloc: Global,
    grammar: Grammar,
    path: &str,
    bytes: &[u8],
    fault: TranscriptFault,
    line: &mut String,
) -> Result<FileEnd, AllocError> {
    match fault {
        TranscriptFault::Line { number, fault } => {
            say_line(alloc, grammar, path, bytes, number, fault, line)?;
        }
        TranscriptFault::BadOptions { number } => say_options(alloc, path, bytes, number, line)?,
        TranscriptFault::TooLong | TranscriptFault::Memory => write!(line, "{path}: {fault}\n")?,
    }
    Ok(FileEnd::Fault)
}

/// Says why nothing was opened for a file, with the options that are out of range.
fn say_opening(
    alloc: Global,
    path: &str,
    bytes: &[u8],
    usual: Options,
    why: OpeningFault,
    line: &mut String,
) -> Result<FileEnd, AllocError> {
    write!(line, "{path}: {why}\n")?;
    let options = match line_said(bytes) {
        Ok(said) => said.over(usual),
        Err(_) => usual,
    };
    match why {
        OpeningFault::World(RunFault::BadConfig) => {
            line.push_str(&lines_or_none(alloc, out_of_range(alloc, &options.sizes())))?;
        }
        OpeningFault::Image(ImageFault::BadLength) => {
            let blocks = [options.zero_blocks()];
            line.push_str(&lines_or_none(alloc, out_of_range(alloc, &blocks)))?;
        }
        _ => {}
    }
    Ok(FileEnd::Fault)
}

/// What the first line of a text says, of steps or of jobs.
fn line_said(bytes: &[u8]) -> Result<SaidOptions, BadOption<'_>>
    ensures few { IfOk result (λ said. AreFew said.submitters) }
{
    let (line, _) = split_line(bytes);
    SaidOptions::of_line(ScriptKind::Jobs, line)
}

/// The options that the first line of a text says, and how many submitters, if it says those: it is a script of jobs then.
fn jobs_said(bytes: &[u8]) -> Option<(SaidOptions, u16)>
    ensures some { IfSome result (λ said. 1 ≤ said.1) }
    ensures few { IfSome result (λ said. said.1 ≤ 16) }
{
    match line_said(bytes) {
        Ok(said) => match said.submitters {
            Some(submitters) => Some((said, submitters as u16)),
            None => None,
        },
        Err(_) => None,
    }
}

/// Plays the bytes of a file, by the steps of a bench or the jobs of submitters: how that turned out, and by which grammar they were read.
fn play<R: AllocGlobal + Clock + Eprint + Sync + Threads + Wait>(
    rt: &R,
    bytes: &[u8],
    usual: Options,
) -> Result<(Outcome, Grammar), AllocError> {
    let alloc = rt.alloc();
    match jobs_said(bytes) {
        Some((said, submitters)) => {
            let outcome = test_jobs(rt, alloc, bytes, usual, said, submitters)?;
            Ok((outcome, Grammar::Jobs(submitters)))
        }
        None => Ok((test_transcript(alloc, bytes, usual)?, Grammar::Steps)),
    }
}

/// Tests the bytes of a file, and says how that turned out.
fn test_bytes<R: AllocGlobal + Clock + Eprint + Files + Sync + Threads + Wait>(
    rt: &R,
    path: &str,
    bytes: &[u8],
    usual: Options,
    updates: bool,
    line: &mut String,
) -> Result<FileEnd, AllocError> {
    let alloc = rt.alloc();
    let (outcome, grammar) = play(rt, bytes, usual)?;
    match outcome {
        Outcome::Unsaid { updated } if updates => update(rt, path, &updated, line),
        Outcome::Agrees | Outcome::Unsaid { updated: _ } => agree(path, bytes, updates, line),
        Outcome::Differs {
            difference: _,
            updated,
        } if updates => update(rt, path, &updated, line),
        Outcome::Differs {
            difference,
            updated: _,
        } => differ(path, &difference, line),
        Outcome::Fault(fault) => say_fault(alloc, grammar, path, bytes, fault, line),
        Outcome::NotOpened(why) => say_opening(alloc, path, bytes, usual, why, line),
    }
}

/// Tests a file, and says how that turned out.
fn test_file<R: AllocGlobal + Clock + Eprint + Files + Sync + Threads + Wait, I: Read>(
    rt: &R,
    path: &str,
    usual: Options,
    updates: bool,
    reader: &mut I,
    line: &mut String,
) -> Result<FileEnd, AllocError> {
    match transcript_bytes(rt, path, reader) {
        Ok(bytes) => test_bytes(rt, path, &bytes, usual, updates, line),
        Err(Unread::Because(why)) => {
            write!(line, "{path}: unreadable: {why}\n")?;
            Ok(FileEnd::Fault)
        }
        Err(Unread::Unknown) => {
            write!(line, "{path}: unreadable\n")?;
            Ok(FileEnd::Fault)
        }
        Err(Unread::Memory) => Err(AllocError),
    }
}

/// Tests the transcripts of files, one after the other, and writes a line for each: `ok` and the path, or the place of the first difference or
/// fault. With `updates`, what came is written into each file that differs, and the line says so. `-` is the reader; with `updates` the transcript is
/// written in place of its line. An option that a transcript does not say is one of these; with `updates` it is written into the file. A file whose first line
/// says how many submitters there are is a script of jobs.
///
/// # Errors
///
/// `OutputFailed` where a line is not written, and `Memory` where memory is refused. The files after it are then not tested.
pub(crate) fn test_files<
    R: AllocGlobal + Clock + Eprint + Files + Sync + Threads + Wait,
    S: AsStr,
    I: Read,
    W: Write,
>(
    rt: &R,
    paths: &[S],
    usual: Options,
    updates: bool,
    reader: &mut I,
    writer: &mut W,
) -> Result<Tally, RunFault> {
    let mut tally = Tally::default();
    let mut line = String::new(rt.alloc());
    for path in paths {
        line.clear();
        tally.count(test_file(rt, path.as_str(), usual, updates, reader, &mut line)?);
        put(writer, line.as_bytes())?;
        flush(writer)?;
    }
    Ok(tally)
}
