//! What `load` is asked for.

ghost use Rattle.std.specs.Prelude.{◌≡◌, ◌≤◌, ◌⊎◌, Some, None, IfOk, IfErr, IfSome, IsNone, IsSome, true, false, option_map, codes};
ghost use Rattle.std.specs.Result.{result_ok};
ghost use Rattle.clap.specs.Words.{first_of, found_of, kind_of, rows_of};
ghost use Rattle.clap.specs.declared.error.kind.ErrorKind.TheVariants.{OutOfMemory};
ghost use Rattle.command_line.specs.Asked.{amounts_in, are_load_numbers, asked_of, count_of as spec_count_of, FitsLine, format_in, interval_in, load_by, load_in, loaded_of, names_in, path_of, pattern_in, read_if_said};
ghost use Rattle.command_line.specs.Units.{seconds_within as spec_seconds_within, size_within as spec_size_within};
ghost use Rattle.script_cli.specs.Loads.{FitsLoad, FitsSize};

use crate::arguments::{CommandLine, CommandOptions, amount, flag, out_of_range};
use crate::commands::{LOG_LIMIT, Number, told};
use crate::load_options::{DEPTH, READS, SEED, SUBMITTERS, USUAL_COUNT, load_command};
use crate::serving::{Serving, nobody, who_serves};
use crate::units::{seconds_within, size_within};
use clap::error::ErrorKind;
use clap::{ArgMatches, Error};
use script_cli::workload::{Load, OutputFormat, Pattern};
use std::alloc::{AllocError, Global};

/// What is said with units.
#[derive(Clone, Copy)]
pub(crate) struct Amounts {
    pub(crate) command_blocks: u32,
    pub(crate) size: Option<u32>,
    pub(crate) runtime: Option<u32>,
    pub(crate) interval: Option<u32>,
}

/// What is said by names.
#[derive(Clone, Copy)]
pub(crate) struct Names {
    pub(crate) pattern: Pattern,
    pub(crate) format: OutputFormat,
    pub(crate) serving: Serving,
}

/// What is wrong with the words of `load`.
#[derive(Clone, Copy)]
enum Wrong<'a> {
    /// A number lies outside of its range.
    Number(Number, u32),
    /// An option's word says no blocks, or not 1 to this many.
    Blocks(&'static str, u32, &'a str),
    /// An option's word says no time, or one of fewer seconds than this.
    Time(&'static str, u32, &'a str),
    /// There is an interval, and no file that is written.
    NoStats,
    /// No pattern has the name.
    Pattern,
    /// No format has the name.
    Format,
    /// Nobody has the word for who serves.
    Server,
}

/// The first number that lies outside of its range, and its option.
fn first_unfit(
    submitters: u32,
    depth: u32,
    reads: u32,
    log_limit: Option<u32>,
) -> Option<(Number, u32)>
    ensures fit { IsNone result → are_load_numbers submitters depth reads log_limit ≡ true }
    ensures unfit { IsSome result → are_load_numbers submitters depth reads log_limit ≡ false }
{
    if submitters < 1 || submitters > 16 {
        return Some((SUBMITTERS, submitters));
    }
    if depth < 1 || depth > 256 {
        return Some((DEPTH, depth));
    }
    if reads > 100 {
        return Some((READS, reads));
    }
    match log_limit {
        Some(0) => Some((LOG_LIMIT, 0)),
        _ => None,
    }
}

/// A word that was given under a name, if there is one.
fn word<'a>(given: &ArgMatches<'a>, name: &str) -> Option<&'a str>
    ensures { path_of result ≡ first_of name.now (rows_of (found_of given.now)) }
{
    given.get_str(name)
}

/// The blocks that are said under a name, 1 to this many.
fn blocks_said<'a>(
    given: &ArgMatches<'a>,
    name: &'static str,
    most: u32,
) -> Result<Option<u32>, Wrong<'a>>
    ensures said { result_ok result ≡ read_if_said (spec_size_within most) (first_of name.now (rows_of (found_of given.now))) }
    ensures least { IfOk result (λ said. IfSome said (λ blocks. 1 ≤ blocks)) }
    ensures most { IfOk result (λ said. IfSome said (λ blocks. blocks ≤ most)) }
{
    let Some(text) = word(given, name) else {
        return Ok(None);
    };
    match size_within(text, most) {
        Some(blocks) => Ok(Some(blocks)),
        None => Err(Wrong::Blocks(name, most, text)),
    }
}

/// The time that is said under a name, of this many seconds at least.
fn time_said<'a>(
    given: &ArgMatches<'a>,
    name: &'static str,
    least: u32,
) -> Result<Option<u32>, Wrong<'a>>
    ensures { result_ok result ≡ read_if_said (spec_seconds_within least) (first_of name.now (rows_of (found_of given.now))) }
{
    let Some(text) = word(given, name) else {
        return Ok(None);
    };
    match seconds_within(text, least) {
        Some(seconds) => Ok(Some(seconds)),
        None => Err(Wrong::Time(name, least, text)),
    }
}

/// The interval after which the statistics are written anew.
fn interval<'a>(given: &ArgMatches<'a>) -> Result<Option<u32>, Wrong<'a>>
    ensures { result_ok result ≡ interval_in (rows_of (found_of given.now)) }
{
    if word(given, "status-interval").is_some() && word(given, "stats").is_none() {
        return Err(Wrong::NoStats);
    }
    time_said(given, "status-interval", 1)
}

/// What is said with units.
fn amounts_of<'a>(given: &ArgMatches<'a>) -> Result<Amounts, Wrong<'a>>
    ensures said { result_ok result ≡ amounts_in (rows_of (found_of given.now)) }
    ensures some { IfOk result (λ amounts. 1 ≤ amounts.command_blocks) }
    ensures few { IfOk result (λ amounts. amounts.command_blocks ≤ 256) }
    ensures size { IfOk result (λ amounts. FitsSize amounts.size) }
{
    let command_blocks = blocks_said(given, "bs", 256)?.unwrap_or(1);
    let size = blocks_said(given, "size", 65_536)?;
    let runtime = time_said(given, "runtime", 0)?;
    let interval = interval(given)?;
    Ok(Amounts {
        command_blocks,
        size,
        runtime,
        interval,
    })
}

/// How many commands there are.
fn count_of(count: Option<u32>, runtime: Option<u32>) -> Option<u32>
    ensures { result ≡ spec_count_of count runtime }
{
    match (count, runtime) {
        (None, None) => Some(USUAL_COUNT),
        (count, _) => count,
    }
}

/// The pattern that was named.
fn pattern_of(given: &ArgMatches<'_>) -> Option<Pattern>
    ensures { result ≡ pattern_in (rows_of (found_of given.now)) }
{
    match word(given, "rw") {
        Some(text) => Pattern::named(text),
        None => None,
    }
}

/// The format that was named.
fn format_of(given: &ArgMatches<'_>) -> Option<OutputFormat>
    ensures { result ≡ format_in (rows_of (found_of given.now)) }
{
    match word(given, "output-format") {
        Some(text) => OutputFormat::named(text),
        None => None,
    }
}

/// What is said by names.
fn names_of<'a>(given: &ArgMatches<'a>) -> Result<Names, Wrong<'a>>
    ensures { result_ok result ≡ names_in (rows_of (found_of given.now)) }
{
    let Some(pattern) = pattern_of(given) else {
        return Err(Wrong::Pattern);
    };
    let Some(format) = format_of(given) else {
        return Err(Wrong::Format);
    };
    let Some(serving) = who_serves(given) else {
        return Err(Wrong::Server);
    };
    Ok(Names {
        pattern,
        format,
        serving,
    })
}

/// The load that is asked for, and who serves it.
fn load_of<'a>(given: &ArgMatches<'a>) -> Result<(Load<'a>, Serving), Wrong<'a>>
    ensures said { option_map (λ said. (loaded_of said.0, said.1)) (result_ok result) ≡ load_in (rows_of (found_of given.now)) }
    ensures fits { IfOk result (λ said. FitsLoad said.0) }
{
    let submitters = SUBMITTERS.value(given);
    let depth = DEPTH.value(given);
    let reads = READS.value(given);
    let log_limit = amount(given, "log-limit");
    if let Some((number, value)) = first_unfit(submitters, depth, reads, log_limit) {
        return Err(Wrong::Number(number, value));
    }
    let amounts = amounts_of(given)?;
    let names = names_of(given)?;
    let load = Load {
        pattern: names.pattern,
        reads,
        command_blocks: amounts.command_blocks,
        size: amounts.size,
        submitters: submitters as u16,
        depth: depth as u16,
        log_limit,
        seed: SEED.value(given),
        count: count_of(amount(given, "count"), amounts.runtime),
        runtime: amounts.runtime,
        verify: flag(given, "verify"),
        quiet: flag(given, "quiet"),
        stats: word(given, "stats"),
        interval: amounts.interval,
        format: names.format,
    };
    Ok((load, names.serving))
}

/// The sentence that says what is wrong.
fn sentence(alloc: Global, given: &ArgMatches<'_>, wrong: Wrong<'_>) -> Result<String, AllocError> {
    match wrong {
        Wrong::Number(number, value) => out_of_range(alloc, &number, value),
        Wrong::Blocks(name, most, text) => format!(in alloc;
            "invalid value '{text}' for '--{name} <SIZE>': 1 to {most} blocks of 512 bytes are wanted, or as many bytes with a unit, as 512b or 4k"
        ),
        Wrong::Time(name, least, text) => format!(in alloc;
            "invalid value '{text}' for '--{name} <TIME>': {least} to 4294967295 seconds are wanted, or a number with a unit, as 90s, 10m or 2h"
        ),
        Wrong::NoStats => format!(in alloc;
            "--status-interval needs a file that is written: --stats <FILE>"
        ),
        Wrong::Pattern => {
            let name = given.get_str("rw").unwrap_or("");
            format!(in alloc;
                "invalid value '{name}' for '--rw <PATTERN>'\n  [possible values: read, write, rw, readwrite, randread, randwrite, randrw]"
            )
        }
        Wrong::Format => {
            let name = given.get_str("output-format").unwrap_or("");
            format!(in alloc;
                "invalid value '{name}' for '--output-format <FORMAT>'\n  [possible values: normal, json]"
            )
        }
        Wrong::Server => nobody(alloc, given),
    }
}

/// Says of `load` what is wrong with its words.
fn at_fault(alloc: Global, given: &ArgMatches<'_>, wrong: Wrong<'_>) -> Result<Error, AllocError> {
    let kind = match wrong {
        Wrong::Number(..) | Wrong::Blocks(..) | Wrong::Time(..) => ErrorKind::ValueValidation,
        Wrong::NoStats => ErrorKind::MissingRequiredArgument,
        Wrong::Pattern | Wrong::Format | Wrong::Server => ErrorKind::InvalidValue,
    };
    let text = sentence(alloc, given, wrong)?;
    told(
        load_command(alloc)?.bin_name("nvmesgl load")?,
        kind,
        text.as_str(),
    )
}

/// What `load` with these words asks for.
pub(crate) fn load_line<'a>(alloc: Global, given: &ArgMatches<'a>) -> Result<CommandLine<'a>, Error>
    ensures asked { IfOk result (λ line. load_by (rows_of (found_of given.now)) ≡ Some (asked_of line)) }
    ensures fits { IfOk result FitsLine }
    ensures refused { IfErr result (λ e. (kind_of e ≡ OutOfMemory) ⊎ (load_by (rows_of (found_of given.now)) ≡ None)) }
{
    match load_of(given) {
        Ok((load, serving)) => Ok(CommandLine::Load(CommandOptions::of(given), load, serving)),
        Err(wrong) => Err(at_fault(alloc, given, wrong)?),
    }
}
