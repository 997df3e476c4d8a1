//! Scripts of jobs, as the jobs that submitters are told to do.

ghost use Rattle.std.specs.Prelude.{◌≡◌, ◌≤◌, ◌<◌, All, IfOk, MatchResult, Ok, Err, OnOk, length};
ghost use Rattle.script_cli.specs.Grammar.{IsErrorOf, IsReadFrom};
ghost use Rattle.job_cli.specs.Jobs.{head_words, data_words, job_words, job_of_line, job_of_words, numbered_job as spec_numbered_job, with_job, jobs_in, jobs_of, IsReadAs};

use driver_threads::Job;
use io_commands::Kind;
use script_cli::{
    LineError, LineFault, MAX_LINES, MAX_SCRIPT, ScriptFault, Words, begins_comment, read_request,
    split_line, words_of,
};
use std::alloc::{AllocError, Global};
use std::marker::Model;
use step_core::Bytes;

/// A line of a script of jobs.
#[derive(Debug, Drop)]
pub struct JobLine {
    /// The number of its line, from 1.
    pub number: u32,
    /// Its submitter, from 0.
    pub submitter: u16,
    /// What the submitter is told to do.
    pub job: Job,
}

/// What is before the bytes and the pieces of a job.
#[derive(Clone, Copy, Debug)]
struct JobHead {
    submitter: u16,
    q: u16,
    kind: Kind,
    slba: u64,
    blocks: u32,
}

/// A script of jobs without faults. Contracts see it as the list of its jobs.
#[derive(Debug, Drop)]
pub struct JobScript {
    jobs: Vec<JobLine>,
}

impl Model for JobScript {
    ghost use Rattle.std.specs.Prelude.{List};
    ghost use Rattle.job_cli.specs.declared.jobs.JobLine.{JobLine};

    ghost Value = { List JobLine };

    ghost view = { λ s. s.jobs.items };
}

impl JobScript {
    /// The jobs, in the order of their lines.
    pub fn jobs(&self) -> &[JobLine]
        ensures { result.now ≡ self.now }
    {
        &self.jobs
    }

    /// The jobs, in the order of their lines.
    pub fn into_jobs(self) -> Vec<JobLine>
        ensures { result.items ≡ self }
    {
        self.jobs
    }
}

/// Takes what is before the bytes and the pieces of a job.
#[tactic(auto, unfolding(crate::specs::Jobs::head_words))]
fn job_head(submitters: u16, words: &mut Words<'_>) -> Result<JobHead, LineFault>
    ensures { MatchResult result (λ head. head_words submitters words.old ≡ Ok (head, words.new)) (λ fault. head_words submitters words.old ≡ Err fault) }
{
    let submitter = words.number_below(submitters)?;
    let q = words.number16()?;
    let kind = words.kind()?;
    let slba = words.number64()?;
    let blocks = words.number32()?;
    Ok(JobHead {
        submitter,
        q,
        kind,
        slba,
        blocks,
    })
}

/// Takes the bytes of a job.
#[tactic(auto, unfolding(crate::specs::Jobs::data_words))]
fn job_bytes(alloc: Global, kind: Kind, words: &mut Words<'_>) -> Result<Bytes, LineError>
    ensures { MatchResult result (λ b. data_words kind words.old ≡ Ok (b, words.new)) (IsErrorOf (data_words kind words.old)) }
{
    if kind.has_list() && !kind.brings_data() {
        words.bytes(alloc)
    } else {
        Ok(Bytes::from_vec(Vec::new(alloc)))
    }
}

/// What follows `job`.
#[tactic(auto, unfolding(crate::specs::Jobs::job_words))]
fn job_line(
    alloc: Global,
    submitters: u16,
    number: u32,
    words: &mut Words<'_>,
) -> Result<JobLine, LineError>
    ensures { IsReadFrom (job_words submitters number words.old) result }
{
    let head = job_head(submitters, words)?;
    let bytes = job_bytes(alloc, head.kind, words)?;
    let request = read_request(alloc, head.kind, head.slba, head.blocks, words)?;
    Ok(JobLine {
        number,
        submitter: head.submitter,
        job: Job {
            q: head.q,
            request,
            bytes,
        },
    })
}

/// The job of a line, by its words.
fn job_of_its_words(
    alloc: Global,
    submitters: u16,
    number: u32,
    words: &mut Words<'_>,
) -> Result<Option<JobLine>, LineError>
    ensures { IsReadFrom (job_of_words submitters number words.old) result }
{
    let Some(first) = words.take_first() else {
        return Ok(None);
    };
    if begins_comment(first) {
        return Ok(None);
    }
    if first != "job".as_bytes() {
        return Err(LineError::Fault(LineFault::UnknownVerb));
    }
    Ok(Some(job_line(alloc, submitters, number, words)?))
}

/// The job of a line.
fn read_job_line(
    alloc: Global,
    submitters: u16,
    number: u32,
    bytes: &[u8],
) -> Result<Option<JobLine>, LineError>
    ensures { IsReadFrom (job_of_line submitters number bytes.now) result }
{
    let mut words = words_of(bytes)?;
    job_of_its_words(alloc, submitters, number, &mut words)
}

/// The job of the line of this number.
fn numbered_job(
    alloc: Global,
    submitters: u16,
    number: u32,
    bytes: &[u8],
) -> Result<Option<JobLine>, ScriptFault>
    ensures { IsReadAs (spec_numbered_job submitters number bytes.now) result }
{
    if number > MAX_LINES {
        let fault = LineFault::TooManyLines;
        return Err(ScriptFault::Line { number, fault });
    }
    match read_job_line(alloc, submitters, number, bytes) {
        Ok(job) => Ok(job),
        Err(LineError::Fault(fault)) => Err(ScriptFault::Line { number, fault }),
        Err(LineError::Memory) => Err(ScriptFault::Memory),
    }
}

/// Adds a job after those so far, if there is one.
fn push_job(jobs: &mut Vec<JobLine>, job: Option<JobLine>) -> Result<(), AllocError>
    ensures { OnOk result (jobs.new.items ≡ with_job jobs.old.items job) }
{
    match job {
        Some(job) => Ok(jobs.push(job)?),
        None => Ok(()),
    }
}

/// The jobs of a text.
#[tactic(auto, using(script_cli::proofs::Texts::lines_are_cut, script_cli::proofs::Texts::after_is_shorter, crate::proofs::JobRuns::job_is_next))]
fn read_job_lines(alloc: Global, text: &[u8], submitters: u16) -> Result<JobScript, ScriptFault>
    requires { length text.now ≤ 1048576 }
    ensures { IsReadAs (jobs_in submitters text.now) result }
{
    let mut jobs = Vec::new(alloc);
    let mut number = 1u32;
    let mut rest = text;
    while !rest.is_empty() {
        let (bytes, after) = split_line(rest);
        let job = match numbered_job(alloc, submitters, number, bytes) {
            Ok(job) => job,
            Err(fault) => return Err(fault),
        };
        if push_job(&mut jobs, job).is_err() {
            return Err(ScriptFault::Memory);
        }
        number += 1;
        rest = after;
    }
    Ok(JobScript { jobs })
}

/// Reads a script of jobs for this many submitters: `job S Q read SLBA BLOCKS PIECE..`, and `job S Q KIND SLBA BLOCKS HEX PIECE..` where
/// KIND is `write` or `compare`, with S below their number. After the pieces may come what [`read_request`] reads there.
///
/// # Errors
///
/// [`ScriptFault::TooLong`] before any line is read, else the first fault of the first line that has one; and
/// [`ScriptFault::Memory`] where memory is refused.
#[tactic(auto, using(crate::proofs::JobRuns::jobs_are_read))]
pub fn read_jobs(alloc: Global, text: &[u8], submitters: u16) -> Result<JobScript, ScriptFault>
    ensures script { IsReadAs (jobs_of submitters text.now) result }
    ensures below { IfOk result (All (λ line. line.submitter < submitters)) }
{
    if text.len() > MAX_SCRIPT {
        return Err(ScriptFault::TooLong);
    }
    read_job_lines(alloc, text, submitters)
}
