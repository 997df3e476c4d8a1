//! What the words of a command line ask for.

ghost use Rattle.std.specs.Prelude.{◌≡◌, ◌≤◌, ◌⊎◌, Some, None, IfOk, IfErr, IfSome, IsNone, map, codes, false, true, length};
ghost use Rattle.clap.specs.Words.{found_of, kind_of, rows_of, subcommand_rows_of};
ghost use Rattle.command_line.specs.Asked.{asked, asked_by, asked_of, asked_of_name, check_by, given_in, given_of, FitsLine, all_under, amount_under, are_submitters, has_flag, has_jobs, has_trace, if_submitters, path_of, script_in, shown_of_name, steps_by, submitters_in, tested_in, tested_of, threads};
ghost use Rattle.clap.specs.declared.error.kind.ErrorKind.TheVariants.{OutOfMemory};

use crate::commands::{
    BLOCKS, ENTRIES, Number, PAGES, QUEUES, SEGMENT, SUBMITTERS, check_command, command, told,
};
use crate::load::load_line;
use crate::serving::Serving;
use crate::threads::{Threading, threads_line};
use clap::error::ErrorKind;
use clap::{ArgMatches, Error};
use host_core::Config;
use script_cli::workload::Load;
use std::alloc::{AllocError, AllocGlobal, Global};
use std::convert::AsStr;
use std::env::Env;
use std::io;

/// What is said of a word that is not text.
const NOT_TEXT: &str = "invalid UTF-8 was detected in one or more arguments";

/// What is said where no command is named.
const NO_COMMAND: &str = "a command is wanted";

/// The options that `steps`, `threads`, `load`, `shell` and `draw` have.
#[derive(Clone, Copy, Debug, PartialEq, Eq)]
pub struct CommandOptions<'a> {
    /// What the world is opened with.
    pub config: Config,
    /// The blocks of an image of zeros.
    pub blocks: u32,
    /// The path of an image.
    pub image: Option<&'a str>,
    /// The path of the script. Where there is none, or it is `-`, standard input has it.
    pub script: Option<&'a str>,
    /// The path of the file which the image is written into, once a run of `steps` has ended.
    pub save: Option<&'a str>,
    /// Whether a run of `steps` or `threads` in which something was refused, or ended with a status other than 0:00, is a fault.
    pub strict: bool,
}

/// What transcripts are tested with.
#[derive(Drop)]
pub struct Testing<'a> {
    /// What a world is opened with, where a transcript does not say otherwise.
    pub config: Config,
    /// The zero blocks of its image.
    pub blocks: u32,
    /// Whether what came is written into the files that differ.
    pub updates: bool,
    /// The paths of the files.
    pub files: Vec<&'a str>,
}

/// What a command line asks for.
#[derive(Drop)]
pub enum CommandLine<'a> {
    /// To play a script of steps.
    Steps(CommandOptions<'a>),
    /// To play a script of steps, and to tell what each moved, and whether as JSON.
    Traced(CommandOptions<'a>, bool),
    /// To run the jobs of submitters in threads.
    Threads(CommandOptions<'a>, Threading, Serving),
    /// The same, and to tell how each job ended as JSON.
    ThreadObjects(CommandOptions<'a>, Threading, Serving),
    /// To make jobs, and to run them in threads.
    Load(CommandOptions<'a>, Load<'a>, Serving),
    /// To tell the faults of a script of steps, by its path as in [`CommandOptions`].
    Check(Option<&'a str>),
    /// To tell the faults of a script of jobs, by its path, for this many submitters, 1 to 16.
    CheckJobs(Option<&'a str>, u16),
    /// To test transcripts.
    Test(Testing<'a>),
    /// To answer one line after the other, and whether each step tells what it moved.
    Shell(CommandOptions<'a>, bool),
    /// To draw a script of steps.
    Draw(CommandOptions<'a>),
    /// To explain a command, by the path of its case as in [`CommandOptions`], and whether as JSON.
    Explain(Option<&'a str>, bool),
    /// To decode bytes: what they are to be, and their digits; and whether as JSON.
    Show(Vec<&'a str>, bool),
    /// To print every verb with its form.
    Grammar,
}

impl<'a> CommandOptions<'a> {
    /// The options that were given to a command.
    pub(crate) fn of(given: &ArgMatches<'a>) -> CommandOptions<'a>
        ensures { given_of result ≡ given_in (rows_of (found_of given.now)) }
    {
        CommandOptions {
            config: Config {
                pages: PAGES.value(given),
                queues: QUEUES.value(given),
                entries: ENTRIES.value(given),
                segment: SEGMENT.value(given),
            },
            blocks: BLOCKS.value(given),
            image: given.get_str("image"),
            script: script(given),
            save: given.get_str("save"),
            strict: flag(given, "strict"),
        }
    }
}

/// The path of a script.
fn script<'a>(given: &ArgMatches<'a>) -> Option<&'a str>
    ensures { path_of result ≡ script_in (rows_of (found_of given.now)) }
{
    given.get_str("script")
}

/// Whether an option without a value was given.
pub(crate) fn flag(given: &ArgMatches<'_>, name: &str) -> bool
    ensures { result ≡ has_flag name.now (rows_of (found_of given.now)) }
{
    match given.get_str(name) {
        Some(text) => text == "true",
        None => false,
    }
}

/// A number that may be left out.
pub(crate) fn amount(given: &ArgMatches<'_>, name: &str) -> Option<u32>
    ensures { result ≡ amount_under name.now (rows_of (found_of given.now)) }
{
    given.get_one::<u32>(name)
}

/// The words that were given under a name.
fn words_under<'a>(
    alloc: Global,
    given: &ArgMatches<'a>,
    name: &str,
) -> Result<Vec<&'a str>, AllocError>
    ensures { IfOk result (λ words. map (λ w. w.now) words.items ≡ all_under name.now (rows_of (found_of given.now))) }
{
    match given.get_strs(name) {
        Some(words) => Vec::from_slice(alloc, words),
        None => Ok(Vec::new(alloc)),
    }
}

/// What `steps` with these words asks for.
fn steps_line<'a>(given: &ArgMatches<'a>) -> CommandLine<'a>
    ensures asked { asked_of result ≡ steps_by (rows_of (found_of given.now)) }
    ensures fits { FitsLine result }
{
    let options = CommandOptions::of(given);
    if flag(given, "json") {
        CommandLine::Traced(options, true)
    } else if flag(given, "trace") {
        CommandLine::Traced(options, false)
    } else {
        CommandLine::Steps(options)
    }
}

/// What `test` with these words asks for.
fn test_line<'a>(alloc: Global, given: &ArgMatches<'a>) -> Result<CommandLine<'a>, Error>
    ensures asked { IfOk result (λ line. asked_of_name (codes "test") (rows_of (found_of given.now)) ≡ Some (asked_of line)) }
    ensures fits { IfOk result FitsLine }
    ensures refused { IfErr result (λ e. kind_of e ≡ OutOfMemory) }
{
    let options = CommandOptions::of(given);
    Ok(CommandLine::Test(Testing {
        config: options.config,
        blocks: options.blocks,
        updates: flag(given, "update"),
        files: words_under(alloc, given, "files")?,
    }))
}

/// What `show` with these words asks for.
fn show_line<'a>(alloc: Global, given: &ArgMatches<'a>) -> Result<CommandLine<'a>, Error>
    ensures asked { IfOk result (λ line. asked_of_name (codes "show") (rows_of (found_of given.now)) ≡ Some (asked_of line)) }
    ensures fits { IfOk result FitsLine }
    ensures refused { IfErr result (λ e. kind_of e ≡ OutOfMemory) }
{
    let words = words_under(alloc, given, "words")?;
    Ok(CommandLine::Show(words, flag(given, "json")))
}

/// How many submitters there are, if they are 1 to 16.
fn submitters(given: &ArgMatches<'_>) -> Option<u16>
    ensures number { IfSome result (λ n. n ≡ submitters_in (rows_of (found_of given.now))) }
    ensures least { IfSome result (λ n. 1 ≤ n) }
    ensures most { IfSome result (λ n. n ≤ 16) }
    ensures none { IsNone result → are_submitters (submitters_in (rows_of (found_of given.now))) ≡ false }
{
    match u16::try_from(SUBMITTERS.value(given)) {
        Ok(n @ 1..=16) => Some(n),
        _ => None,
    }
}

/// What is said where the number of an option lies outside of its range.
pub(crate) fn out_of_range(
    alloc: Global,
    number: &Number,
    value: u32,
) -> Result<String, AllocError> {
    let name = number.name();
    let (least, most) = number.range;
    format!(in alloc;
        "invalid value '{value}' for '--{name} <N>': {value} is not in {least}..={most}"
    )
}

/// Says of `check` that there are too few submitters, or too many.
fn unfit_submitters(alloc: Global, given: &ArgMatches<'_>) -> Result<Error, AllocError> {
    let text = out_of_range(alloc, &SUBMITTERS, SUBMITTERS.value(given))?;
    let command = check_command(alloc)?.bin_name("nvmesgl check")?;
    told(command, ErrorKind::ValueValidation, text.as_str())
}

/// What `check` with these words asks for.
fn check_line<'a>(alloc: Global, given: &ArgMatches<'a>) -> Result<CommandLine<'a>, Error>
    ensures asked { IfOk result (λ line. check_by (rows_of (found_of given.now)) ≡ Some (asked_of line)) }
    ensures fits { IfOk result FitsLine }
    ensures refused { IfErr result (λ e. (kind_of e ≡ OutOfMemory) ⊎ (check_by (rows_of (found_of given.now)) ≡ None)) }
{
    let path = script(given);
    if !flag(given, "jobs") {
        return Ok(CommandLine::Check(path));
    }
    match submitters(given) {
        Some(n) => Ok(CommandLine::CheckJobs(path, n)),
        None => Err(unfit_submitters(alloc, given)?),
    }
}

/// Says of the program what is wrong with its words.
fn fault(alloc: Global, kind: ErrorKind, text: &str) -> Result<Error, AllocError> {
    told(command(alloc)?, kind, text)
}

/// Says that no command is named.
fn no_command(alloc: Global) -> Result<Error, AllocError> {
    fault(alloc, ErrorKind::MissingSubcommand, NO_COMMAND)
}

/// What a command asks for that shows something, or answers line by line.
fn shown_line<'a>(
    alloc: Global,
    name: &str,
    given: &ArgMatches<'a>,
) -> Result<CommandLine<'a>, Error>
    ensures asked { IfOk result (λ line. shown_of_name name.now (rows_of (found_of given.now)) ≡ Some (asked_of line)) }
    ensures fits { IfOk result FitsLine }
    ensures refused { IfErr result (λ e. (kind_of e ≡ OutOfMemory) ⊎ (shown_of_name name.now (rows_of (found_of given.now)) ≡ None)) }
{
    if name == "shell" {
        return Ok(CommandLine::Shell(CommandOptions::of(given), flag(given, "trace")));
    }
    if name == "draw" {
        return Ok(CommandLine::Draw(CommandOptions::of(given)));
    }
    if name == "explain" {
        return Ok(CommandLine::Explain(script(given), flag(given, "json")));
    }
    if name == "show" {
        return show_line(alloc, given);
    }
    if name == "grammar" {
        return Ok(CommandLine::Grammar);
    }
    Err(no_command(alloc)?)
}

/// What a command with these words asks for.
fn line_of<'a>(alloc: Global, name: &str, given: &ArgMatches<'a>) -> Result<CommandLine<'a>, Error>
    ensures asked { IfOk result (λ line. asked_of_name name.now (rows_of (found_of given.now)) ≡ Some (asked_of line)) }
    ensures fits { IfOk result FitsLine }
    ensures refused { IfErr result (λ e. (kind_of e ≡ OutOfMemory) ⊎ (asked_of_name name.now (rows_of (found_of given.now)) ≡ None)) }
{
    if name == "steps" {
        return Ok(steps_line(given));
    }
    if name == "threads" {
        return threads_line(alloc, given);
    }
    if name == "load" {
        return load_line(alloc, given);
    }
    if name == "check" {
        return check_line(alloc, given);
    }
    if name == "test" {
        return test_line(alloc, given);
    }
    shown_line(alloc, name, given)
}

/// What was found of words asks for.
fn line_found<'a>(alloc: Global, matches: &ArgMatches<'a>) -> Result<CommandLine<'a>, Error>
    ensures asked { IfOk result (λ line. asked_by (subcommand_rows_of matches.now) ≡ Some (asked_of line)) }
    ensures fits { IfOk result FitsLine }
    ensures refused { IfErr result (λ e. (kind_of e ≡ OutOfMemory) ⊎ (asked_by (subcommand_rows_of matches.now) ≡ None)) }
{
    match matches.subcommand() {
        Some((name, given)) => line_of(alloc, name, given),
        None => Err(no_command(alloc)?),
    }
}

impl<'a> CommandLine<'a> {
    /// What words ask for; the first is the program's name.
    ///
    /// # Errors
    ///
    /// `OutOfMemory` where memory is refused, and else only where the words ask for no command: where help or the version is
    /// asked for (`DisplayHelp`, `DisplayVersion`), or by the first fault that is found; numbers outside of their ranges and names of patterns last.
    pub fn parse<S: AsStr>(alloc: Global, words: &'a [S]) -> Result<CommandLine<'a>, Error>
        ensures asked { IfOk result (λ line. asked (map S.text words.now) ≡ Some (asked_of line)) }
        ensures fits { IfOk result FitsLine }
        ensures refused { IfErr result (λ e. (kind_of e ≡ OutOfMemory) ⊎ (asked (map S.text words.now) ≡ None)) }
    {
        let matches = command(alloc)?.try_get_matches_from(words)?;
        line_found(alloc, &matches)
    }
}

/// The words of the command line, the program's name first.
///
/// # Errors
///
/// `InvalidValue` where a word is not UTF-8, and `OutOfMemory` where memory is refused or the words cannot be had.
pub fn words<R: Env + AllocGlobal>(rt: &R) -> Result<Vec<String>, Error> {
    let alloc = rt.alloc();
    match std::env::args(rt) {
        Ok(words) => Ok(words.collect(alloc)?),
        Err(why) if why.kind() == io::ErrorKind::InvalidData => {
            Err(fault(alloc, ErrorKind::InvalidValue, NOT_TEXT)?)
        }
        Err(_) => Err(Error::from(AllocError)),
    }
}
