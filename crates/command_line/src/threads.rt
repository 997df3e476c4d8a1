//! What `threads` is asked for.

ghost use Rattle.std.specs.Prelude.{◌≡◌, ◌⊎◌, Some, None, IfOk, IfErr, IsNone, IsSome, true, false};
ghost use Rattle.clap.specs.Words.{found_of, kind_of, rows_of};
ghost use Rattle.clap.specs.declared.error.kind.ErrorKind.TheVariants.{OutOfMemory};
ghost use Rattle.command_line.specs.Asked.{asked_of, FitsLine, FitsThreading, is_threading, jobs_by, threads_by};

use crate::arguments::{CommandLine, CommandOptions, amount, flag, out_of_range};
use crate::commands::{DEPTH, LOG_LIMIT, Number, SUBMITTERS, threads_command, told};
use crate::serving::{Serving, nobody, who_serves};
use clap::error::ErrorKind;
use clap::{ArgMatches, Error};
use std::alloc::{AllocError, Global};

/// How jobs are run.
#[derive(Clone, Copy, Debug, PartialEq, Eq)]
pub struct Threading {
    /// How many submitters there are, 1 to 16.
    pub submitters: u16,
    /// How many of its jobs each submitter has in flight at a time, 1 to 256.
    pub depth: u16,
    /// How many entries the log of a round may have, one at least, where the jobs are done in rounds.
    pub log_limit: Option<u32>,
}

/// The first number that lies outside of its range, and its option.
fn first_unfit(submitters: u32, depth: u32, log_limit: Option<u32>) -> Option<(Number, u32)>
    ensures fit { IsNone result → is_threading (record { submitters = submitters; depth = depth; log_limit = log_limit }) ≡ true }
    ensures unfit { IsSome result → is_threading (record { submitters = submitters; depth = depth; log_limit = log_limit }) ≡ false }
{
    if submitters < 1 || submitters > 16 {
        return Some((SUBMITTERS, submitters));
    }
    if depth < 1 || depth > 256 {
        return Some((DEPTH, depth));
    }
    match log_limit {
        Some(0) => Some((LOG_LIMIT, 0)),
        _ => None,
    }
}

/// Says of `threads` what is wrong with its words.
fn fault(alloc: Global, kind: ErrorKind, text: &str) -> Result<Error, AllocError> {
    told(
        threads_command(alloc)?.bin_name("nvmesgl threads")?,
        kind,
        text,
    )
}

/// Says that a number lies outside of its range.
fn unfit(alloc: Global, number: &Number, value: u32) -> Result<Error, AllocError> {
    let text = out_of_range(alloc, number, value)?;
    fault(alloc, ErrorKind::ValueValidation, text.as_str())
}

/// Says that nobody has the word that was given for who serves.
fn unserved(alloc: Global, given: &ArgMatches<'_>) -> Result<Error, AllocError> {
    let text = nobody(alloc, given)?;
    fault(alloc, ErrorKind::InvalidValue, text.as_str())
}

/// The jobs that are run so, and how they are told.
fn jobs_line<'a>(given: &ArgMatches<'a>, threading: Threading, serving: Serving) -> CommandLine<'a>
    requires { FitsThreading threading }
    ensures asked { asked_of result ≡ jobs_by (rows_of (found_of given.now)) threading serving }
    ensures fits { FitsLine result }
{
    let options = CommandOptions::of(given);
    if flag(given, "json") {
        CommandLine::ThreadObjects(options, threading, serving)
    } else {
        CommandLine::Threads(options, threading, serving)
    }
}

/// What `threads` with these words asks for.
pub(crate) fn threads_line<'a>(
    alloc: Global,
    given: &ArgMatches<'a>,
) -> Result<CommandLine<'a>, Error>
    ensures asked { IfOk result (λ line. threads_by (rows_of (found_of given.now)) ≡ Some (asked_of line)) }
    ensures fits { IfOk result FitsLine }
    ensures refused { IfErr result (λ e. (kind_of e ≡ OutOfMemory) ⊎ (threads_by (rows_of (found_of given.now)) ≡ None)) }
{
    let submitters = SUBMITTERS.value(given);
    let depth = DEPTH.value(given);
    let log_limit = amount(given, "log-limit");
    if let Some((number, value)) = first_unfit(submitters, depth, log_limit) {
        return Err(unfit(alloc, &number, value)?);
    }
    let Some(serving) = who_serves(given) else {
        return Err(unserved(alloc, given)?);
    };
    let threading = Threading {
        submitters: submitters as u16,
        depth: depth as u16,
        log_limit,
    };
    Ok(jobs_line(given, threading, serving))
}
