//! A script of jobs with what is printed for them, done and compared.

ghost use Rattle.std.specs.Prelude.{◌≤◌, vec_len};

use crate::job_runs::{Orders, hand_out};
use crate::jobs::{JobLine, read_jobs};
use crate::rounds::{Pace, do_jobs};
use crate::telling::Form;
use block_image::{Image, ImageError};
use driver_threads::Server;
use page_ledger::Counts;
use script_cli::transcripts::{
    OPTIONS, OpeningFault, Options, Outcome, PrintedLine, SaidOptions, Told, TranscriptFault,
    answer_of, compared, text_of,
};
use script_cli::{ImageFault, Line, RunFault, ScriptFault, append_counts, not_opened};
use std::alloc::{AllocError, Global};
use std::rt::Clock;
use std::sync::Wait;
use std::thread::Threads;
use step_core::World;

/// How the jobs of a test are done: each in its turn. What is compared is the same whatever the pace is.
const PACE: Pace = Pace {
    depth: 1,
    server: Server::Ringer,
    log_limit: None,
    form: Form::Lines,
    shows: false,
};

/// Why nothing is compared.
#[derive(Clone, Copy)]
enum Undone {
    /// The text is not a script of jobs.
    Fault(TranscriptFault),
    /// No world was opened, or the threads did not end.
    NotOpened(OpeningFault),
    /// Memory was refused.
    Memory,
}

impl From<AllocError> for Undone {
    fn from(_fault: AllocError) -> Self {
        Undone::Memory
    }
}

impl From<TranscriptFault> for Undone {
    fn from(fault: TranscriptFault) -> Self {
        Undone::Fault(fault)
    }
}

/// Why a script of jobs is none.
fn no_jobs(why: ScriptFault) -> TranscriptFault {
    match why {
        ScriptFault::Line { number, fault } => TranscriptFault::Line { number, fault },
        ScriptFault::TooLong => TranscriptFault::TooLong,
        ScriptFault::Memory => TranscriptFault::Memory,
    }
}

/// The text without its answers: each stands for an empty line.
fn script_of(alloc: Global, text: &str) -> Result<String, AllocError> {
    let mut script = String::new(alloc);
    for line in text.lines() {
        if answer_of(line).is_none() {
            script.push_str(line)?;
        }
        script.push('\n')?;
    }
    Ok(script)
}

/// Checks that no line but the first says options.
fn check_options(text: &str) -> Result<(), TranscriptFault> {
    let mut number = 0u32;
    for line in text.lines() {
        number = number.saturating_add(1);
        if number > 1 && line.starts_with(OPTIONS) {
            return Err(TranscriptFault::BadOptions { number });
        }
    }
    Ok(())
}

/// The line of this number, of which nothing must be printed yet.
fn told_at(alloc: Global, number: u32) -> Told {
    Told {
        number,
        line: Line::Nothing,
        answers: Vec::new(alloc),
    }
}

/// What must be printed: before any job, and for each job.
fn told_of(alloc: Global, text: &str, jobs: &[JobLine]) -> Result<Vec<Told>, AllocError> {
    let mut told = Vec::new(alloc);
    told.push(told_at(alloc, 0))?;
    let mut next = jobs.iter().peekable();
    let mut number = 0u32;
    for line in text.lines() {
        number = number.saturating_add(1);
        if let Some(answer) = answer_of(line) {
            let text = String::from_str(alloc, answer)?;
            if let Some(last) = told.last_mut() {
                last.answers.push(PrintedLine { number, text })?;
            }
        } else if next.next_if(|job| job.number == number).is_some() {
            told.push(told_at(alloc, number))?;
        }
    }
    Ok(told)
}

/// Does jobs over a world that is opened for them: their lines, and the counts that they leave.
fn done_over<R: Clock + Eprint + Threads + Wait + Sync>(
    rt: &R,
    alloc: Global,
    options: Options,
    orders: Orders,
) -> Result<(Vec<u8>, Counts), OpeningFault>
    requires some { 1 ≤ vec_len orders.lists }
    requires few { vec_len orders.lists ≤ 16 }
{
    let image = match Image::zeroed(alloc, options.blocks) {
        Ok(image) => image,
        Err(ImageError::BadLength) => return Err(OpeningFault::Image(ImageFault::BadLength)),
        Err(ImageError::Memory) => return Err(OpeningFault::Image(ImageFault::Memory)),
    };
    let world = match World::open(alloc, options.config, image) {
        Ok(world) => world,
        Err(refused) => return Err(OpeningFault::World(not_opened(refused.why))),
    };
    let mut lines = Vec::new(alloc);
    match do_jobs(rt, alloc, world, orders, PACE, &mut lines) {
        Ok(done) => Ok((lines, done.world.counts())),
        // The lines are kept in memory.
        Err(RunFault::OutputFailed) => Err(OpeningFault::World(RunFault::Memory)),
        Err(why) => Err(OpeningFault::World(why)),
    }
}

/// What is printed before any job, and for each job without the number of its line; after the last one the counts.
fn printed(alloc: Global, lines: &[u8], counts: Counts) -> Result<Vec<String>, AllocError> {
    let mut texts = Vec::new(alloc);
    texts.push(String::new(alloc))?;
    for line in str::from_utf8(lines).unwrap_or("").lines() {
        let answer = line.split_once(' ').map_or("", |(_, answer)| answer);
        texts.push(format!(in alloc; "{answer}\n")?)?;
    }
    if let Some(last) = texts.last_mut() {
        append_counts(last, counts)?;
    }
    Ok(texts)
}

/// The line that says options and submitters, if a script does not say these.
fn options_line(
    alloc: Global,
    said: SaidOptions,
    options: Options,
    submitters: u16,
) -> Result<Option<String>, AllocError> {
    if said.over(Options::USUAL) == options {
        return Ok(None);
    }
    let mut line = options.line(alloc)?;
    write!(line, " --submitters {submitters}")?;
    Ok(Some(line))
}

/// Does the jobs of a text, and compares.
fn tested<R: Clock + Eprint + Threads + Wait + Sync>(
    rt: &R,
    alloc: Global,
    bytes: &[u8],
    usual: Options,
    said: SaidOptions,
    submitters: u16,
) -> Result<Outcome, Undone>
    requires some { 1 ≤ submitters }
    requires few { submitters ≤ 16 }
{
    let text = text_of(bytes)?;
    check_options(text)?;
    let script = script_of(alloc, text)?;
    let jobs = match read_jobs(alloc, script.as_bytes(), submitters) {
        Ok(script) => script.into_jobs(),
        Err(why) => return Err(Undone::Fault(no_jobs(why))),
    };
    let told = told_of(alloc, text, &jobs)?;
    let orders = hand_out(alloc, submitters, jobs)?;
    let options = said.over(usual);
    let (lines, counts) = match done_over(rt, alloc, options, orders) {
        Ok(done) => done,
        Err(why) => return Err(Undone::NotOpened(why)),
    };
    let printed = printed(alloc, &lines, counts)?;
    let line = options_line(alloc, said, options, submitters)?;
    Ok(compared(
        alloc,
        text,
        &told,
        &printed,
        line.as_ref().map(|line| line.as_str()),
    )?)
}

/// Does the jobs of a script with what is printed for them, as `threads` does, and compares what is printed with what is there after `>`: below each
/// job its line without its number, and below the last one the counts as well. The owners are left out. An option that the script does not say is one
/// of these.
///
/// # Errors
///
/// Where memory is refused for what surrounds the jobs.
pub fn test_jobs<R: Clock + Eprint + Threads + Wait + Sync>(
    rt: &R,
    alloc: Global,
    bytes: &[u8],
    usual: Options,
    said: SaidOptions,
    submitters: u16,
) -> Result<Outcome, AllocError>
    requires some { 1 ≤ submitters }
    requires few { submitters ≤ 16 }
{
    match tested(rt, alloc, bytes, usual, said, submitters) {
        Ok(outcome) => Ok(outcome),
        Err(Undone::Fault(fault)) => Ok(Outcome::Fault(fault)),
        Err(Undone::NotOpened(why)) => Ok(Outcome::NotOpened(why)),
        Err(Undone::Memory) => Err(AllocError),
    }
}
