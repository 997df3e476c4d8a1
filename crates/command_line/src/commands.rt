//! The commands and their options.

ghost use Rattle.std.specs.Prelude.{◌≡◌, IfOk, IsOkAnd, false, codes, map};
ghost use Rattle.std.specs.List.{AllByRecursion};
ghost use Rattle.clap.specs.Words.{AddsSubcommand, app_of, found_of, rows_of, rule_of};
ghost use Rattle.clap.specs.declared.builder.command.Command.TheViews.{out-Command};
ghost use Rattle.command_line.specs.Commands.{check, draw, explain, grammar, number_rule, named, nvmesgl, option_rule, optional_number_rule, running, shell, show, size_rules, steps, test, threading_rules, threads, with_options, with_sizes, with_telling, with_threading, word_rule};
ghost use Rattle.command_line.specs.Asked.{number_under};

use crate::help::{
    ABOUT, AFTER, CHECK_ABOUT, CHECK_AFTER, DRAW_ABOUT, DRAW_AFTER, EXPLAIN_ABOUT, EXPLAIN_AFTER,
    SHELL_ABOUT, SHELL_AFTER, SHOW_ABOUT, SHOW_AFTER, STEPS_ABOUT, STEPS_AFTER, TEST_ABOUT,
    TEST_AFTER, THREADS_ABOUT, THREADS_AFTER,
};
use crate::load_options::load_command;
use crate::parts::{described, flag_arg, option_arg, text_arg, with_args, words_arg};
use crate::serving::serve_arg;
use clap::error::ErrorKind;
use clap::{Arg, ArgMatches, Command, Error, value_parser};
use std::alloc::{AllocError, Global};

/// What `nvmesgl --version` says after the program's name.
pub const VERSION: &str = "0.1.0";

const PROGRAM_ABOUT: &str =
    "An NVMe host driver and a modelled controller, played step by step or in threads";

/// An option that is a number.
#[derive(Clone, Copy)]
pub(crate) struct Number {
    pub(crate) name: &'static str,
    pub(crate) usual: u32,
    pub(crate) shown: &'static str,
    /// The least and the most that it may be.
    pub(crate) range: (u32, u32),
    pub(crate) help: &'static str,
}

pub(crate) const PAGES: Number = Number {
    name: "pages",
    usual: 16,
    shown: "16",
    range: (8, 65_536),
    help: "Pages of the pool, 4,096 bytes each: 8 to 65536",
};

pub(crate) const QUEUES: Number = Number {
    name: "queues",
    usual: 1,
    shown: "1",
    range: (1, 64),
    help: "I/O queues, beside the admin queue 0: 1 to 64",
};

pub(crate) const ENTRIES: Number = Number {
    name: "entries",
    usual: 4,
    shown: "4",
    range: (2, 1_024),
    help: "Entries of each queue: 2 to 1024",
};

pub(crate) const SEGMENT: Number = Number {
    name: "segment",
    usual: 256,
    shown: "256",
    range: (2, 256),
    help: "Descriptors of a full segment: 2 to 256",
};

pub(crate) const BLOCKS: Number = Number {
    name: "blocks",
    usual: 64,
    shown: "64",
    range: (1, 65_536),
    help: "Zero blocks of the image, 512 bytes each: 1 to 65536",
};

pub(crate) const SUBMITTERS: Number = Number {
    name: "submitters",
    usual: 2,
    shown: "2",
    range: (1, 16),
    help: "Submitters, each in a thread of its own: 1 to 16",
};

pub(crate) const DEPTH: Number = Number {
    name: "depth",
    usual: 1,
    shown: "1",
    range: (1, 256),
    help: "Jobs that each submitter has in flight at a time: 1 to 256",
};

/// It has no usual value.
pub(crate) const LOG_LIMIT: Number = Number {
    name: "log-limit",
    usual: 0,
    shown: "",
    range: (1, u32::MAX),
    help: "Entries of a log: jobs are done in rounds, and the log of each is dropped [threads: 65536]",
};

impl Number {
    /// The option, as the command line has it.
    pub(crate) fn arg<'a>(&self, alloc: Global) -> Arg<'a>
        ensures rule { rule_of result ≡ number_rule self.now.name.now self.now.shown.now }
        ensures local { result.global ≡ false }
    {
        text_arg(alloc, self.name, "N", self.shown, self.help).value_parser(value_parser!(u32))
    }

    /// The option where it has no usual value.
    pub(crate) fn optional_arg<'a>(&self, alloc: Global) -> Arg<'a>
        ensures rule { rule_of result ≡ optional_number_rule self.now.name.now }
        ensures local { result.global ≡ false }
    {
        option_arg(alloc, self.name, "N", self.help).value_parser(value_parser!(u32))
    }

    /// Its name on the command line, without the hyphens.
    pub(crate) fn name(&self) -> &'static str {
        self.name
    }

    /// Its value.
    pub(crate) fn value(&self, given: &ArgMatches<'_>) -> u32
        ensures { result ≡ number_under self.now.name.now self.now.usual (rows_of (found_of given.now)) }
    {
        given.get_one::<u32>(self.name).unwrap_or(self.usual)
    }
}

const STEPS_JSON: &str = "Prints a JSON object for each step, and one with the counts at the end";

const THREADS_JSON: &str = "Prints a JSON object for each job, and one with the counts at the end";

const EXPLAIN_JSON: &str = "Writes JSON, one object on each line";

const SHOW_JSON: &str = "Prints a JSON object in place of lines";

const IMAGE_HELP: &str = "The image's bytes, 1 to 65536 whole blocks, in place of --blocks";

const SAVE_HELP: &str =
    "Writes the image into this file, once the run has ended; - is standard output";

const JOBS_HELP: &str = "The script is one of jobs, for `threads`";

const FILES_HELP: &str =
    "The files of the transcripts; - is standard input, and standard output with --update";

const TRACE_HELP: &str = "Tells below each answer what the step moved, in bytes and decoded";

const STRICT_HELP: &str = "Ends with status 4 where something is refused, or a status is not 0:00";

const WORDS_HELP: &str = "`sqe`, `admin`, `cqe` or `sgl` and the bytes, or `status` and a status";

const UPDATE_HELP: &str = "Writes what came into each file that differs";

/// The option that names the file of an image.
pub(crate) fn image_arg<'a>(alloc: Global) -> Arg<'a>
    ensures rule { rule_of result ≡ option_rule (codes "image") }
    ensures local { result.global ≡ false }
{
    option_arg(alloc, "image", "FILE", IMAGE_HELP)
}

/// The word that names the file of a script.
fn script_arg<'a>(alloc: Global) -> Arg<'a>
    ensures rule { rule_of result ≡ word_rule (codes "script") }
    ensures local { result.global ≡ false }
{
    Arg::new(alloc, "script").value_name("FILE").help(
        "The script's file; standard input where there is none, or -",
    )
}

/// The numbers that a world is opened with.
fn size_args<'a>(alloc: Global) -> Result<Vec<Arg<'a>>, AllocError>
    ensures rules { IfOk result (λ args. map rule_of args.items ≡ size_rules) }
    ensures local { IfOk result (λ args. AllByRecursion (λ arg. arg.global ≡ false) args.items) }
{
    Ok(Vec::from_array(
        alloc,
        [
            PAGES.arg(alloc),
            QUEUES.arg(alloc),
            ENTRIES.arg(alloc),
            SEGMENT.arg(alloc),
            BLOCKS.arg(alloc),
        ],
    )?)
}

/// A command with the numbers that a world is opened with.
pub(crate) fn with_sizes<'a>(alloc: Global, command: Command<'a>) -> Result<Command<'a>, AllocError>
    ensures shape { IfOk result (λ whole. app_of whole ≡ with_sizes (app_of command.entry)) }
    ensures local { IfOk result (λ whole. (out-Command whole).has_globals ≡ (out-Command command.entry).has_globals) }
{
    with_args(command, size_args(alloc))
}

/// A command with these, an image, and the file of its lines.
fn with_options<'a>(alloc: Global, command: Command<'a>) -> Result<Command<'a>, AllocError>
    ensures shape { IfOk result (λ whole. app_of whole ≡ with_options (app_of command.entry)) }
    ensures local { IfOk result (λ whole. (out-Command whole).has_globals ≡ (out-Command command.entry).has_globals) }
{
    with_sizes(alloc, command)?
        .arg(image_arg(alloc))?
        .arg(script_arg(alloc))
}

/// A command that may tell objects in place of lines, and of which a refusal may be a fault.
fn with_telling<'a>(
    alloc: Global,
    command: Command<'a>,
    json: &'static str,
) -> Result<Command<'a>, AllocError>
    ensures shape { IfOk result (λ whole. app_of whole ≡ with_telling (app_of command.entry)) }
    ensures local { IfOk result (λ whole. (out-Command whole).has_globals ≡ (out-Command command.entry).has_globals) }
{
    command
        .arg(flag_arg(alloc, "json", json))?
        .arg(flag_arg(alloc, "strict", STRICT_HELP))
}

/// The command that plays a script of steps.
fn steps_command<'a>(alloc: Global) -> Result<Command<'a>, AllocError>
    ensures shape { IfOk result (λ command. app_of command ≡ steps) }
    ensures local { IfOk result (λ command. (out-Command command).has_globals ≡ false) }
{
    let command = described(alloc, "steps", "Plays a script", STEPS_ABOUT, STEPS_AFTER)
        .arg(option_arg(alloc, "save", "FILE", SAVE_HELP))?
        .arg(flag_arg(alloc, "trace", TRACE_HELP))?;
    with_options(alloc, with_telling(alloc, command, STEPS_JSON)?)
}

/// How jobs are run.
fn threading_args<'a>(alloc: Global) -> Result<Vec<Arg<'a>>, AllocError>
    ensures rules { IfOk result (λ args. map rule_of args.items ≡ threading_rules) }
    ensures local { IfOk result (λ args. AllByRecursion (λ arg. arg.global ≡ false) args.items) }
{
    Ok(Vec::from_array(
        alloc,
        [
            SUBMITTERS.arg(alloc),
            DEPTH.arg(alloc),
            LOG_LIMIT.optional_arg(alloc),
            serve_arg(alloc),
        ],
    )?)
}

/// A command with how jobs are run.
fn with_threading<'a>(alloc: Global, command: Command<'a>) -> Result<Command<'a>, AllocError>
    ensures shape { IfOk result (λ whole. app_of whole ≡ with_threading (app_of command.entry)) }
    ensures local { IfOk result (λ whole. (out-Command whole).has_globals ≡ (out-Command command.entry).has_globals) }
{
    with_args(command, threading_args(alloc))
}

/// The command that runs jobs in threads.
pub(crate) fn threads_command<'a>(alloc: Global) -> Result<Command<'a>, AllocError>
    ensures shape { IfOk result (λ command. app_of command ≡ threads) }
    ensures local { IfOk result (λ command. (out-Command command).has_globals ≡ false) }
{
    let command = described(
        alloc,
        "threads",
        "Runs the jobs of a script in threads",
        THREADS_ABOUT,
        THREADS_AFTER,
    );
    let command = with_telling(alloc, command, THREADS_JSON)?;
    with_options(alloc, with_threading(alloc, command)?)
}

/// The command that looks for the faults of a script.
pub(crate) fn check_command<'a>(alloc: Global) -> Result<Command<'a>, AllocError>
    ensures shape { IfOk result (λ command. app_of command ≡ check) }
    ensures local { IfOk result (λ command. (out-Command command).has_globals ≡ false) }
{
    described(
        alloc,
        "check",
        "Tells all faults of a script, and runs nothing",
        CHECK_ABOUT,
        CHECK_AFTER,
    )
    .arg(flag_arg(alloc, "jobs", JOBS_HELP))?
    .arg(SUBMITTERS.arg(alloc))?
    .arg(script_arg(alloc))
}

/// The command that tests transcripts.
fn test_command<'a>(alloc: Global) -> Result<Command<'a>, AllocError>
    ensures shape { IfOk result (λ command. app_of command ≡ test) }
    ensures local { IfOk result (λ command. (out-Command command).has_globals ≡ false) }
{
    let command = described(
        alloc,
        "test",
        "Plays transcripts, and tells which come out otherwise",
        TEST_ABOUT,
        TEST_AFTER,
    )
    .arg(flag_arg(alloc, "update", UPDATE_HELP))?
    .arg(words_arg(alloc, "files", "FILE", FILES_HELP))?;
    with_sizes(alloc, command)
}

/// The command that answers one line after the other.
fn shell_command<'a>(alloc: Global) -> Result<Command<'a>, AllocError>
    ensures shape { IfOk result (λ command. app_of command ≡ shell) }
    ensures local { IfOk result (λ command. (out-Command command).has_globals ≡ false) }
{
    let command = described(
        alloc,
        "shell",
        "Answers one line after the other, each at once",
        SHELL_ABOUT,
        SHELL_AFTER,
    )
    .arg(flag_arg(alloc, "trace", TRACE_HELP))?;
    with_options(alloc, command)
}

/// The command that draws a script.
fn draw_command<'a>(alloc: Global) -> Result<Command<'a>, AllocError>
    ensures shape { IfOk result (λ command. app_of command ≡ draw) }
    ensures local { IfOk result (λ command. (out-Command command).has_globals ≡ false) }
{
    let command = described(
        alloc,
        "draw",
        "Draws a script: one page of HTML with a picture of each step",
        DRAW_ABOUT,
        DRAW_AFTER,
    );
    with_options(alloc, command)
}

/// The command that explains a command.
fn explain_command<'a>(alloc: Global) -> Result<Command<'a>, AllocError>
    ensures shape { IfOk result (λ command. app_of command ≡ explain) }
    ensures local { IfOk result (λ command. (out-Command command).has_globals ≡ false) }
{
    described(
        alloc,
        "explain",
        "Tells what the controller makes of an entry and its list",
        EXPLAIN_ABOUT,
        EXPLAIN_AFTER,
    )
    .arg(flag_arg(alloc, "json", EXPLAIN_JSON))?
    .arg(script_arg(alloc))
}

/// The command that decodes bytes.
fn show_command<'a>(alloc: Global) -> Result<Command<'a>, AllocError>
    ensures shape { IfOk result (λ command. app_of command ≡ show) }
    ensures local { IfOk result (λ command. (out-Command command).has_globals ≡ false) }
{
    described(
        alloc,
        "show",
        "Decodes an entry or a descriptor",
        SHOW_ABOUT,
        SHOW_AFTER,
    )
    .arg(flag_arg(alloc, "json", SHOW_JSON))?
    .arg(words_arg(alloc, "words", "WORD", WORDS_HELP))
}

/// The command that prints what a script may say.
fn grammar_command<'a>(alloc: Global) -> Command<'a>
    ensures shape { app_of result ≡ grammar }
    ensures local { (out-Command result).has_globals ≡ false }
{
    Command::new(alloc, "grammar").about("Prints every verb of a script with its form")
}

/// The program without its commands.
fn program<'a>(alloc: Global) -> Result<Command<'a>, AllocError>
    ensures { IfOk result (λ command. app_of command ≡ named) }
{
    described(alloc, "nvmesgl", PROGRAM_ABOUT, ABOUT, AFTER)
        .version(VERSION)
        .subcommand_required(true)
        .bin_name("nvmesgl")
}

/// A command with one more below it, if both were made.
fn with_command<'a>(
    whole: Result<Command<'a>, AllocError>,
    added: Result<Command<'a>, AllocError>,
) -> Result<Command<'a>, AllocError>
    ensures { IfOk result (λ new. IsOkAnd whole.entry (λ old. IsOkAnd added.entry (λ command. AddsSubcommand old command new))) }
{
    whole?.subcommand(added?)
}

/// The program with the commands that play a script or a load.
fn running<'a>(alloc: Global) -> Result<Command<'a>, AllocError>
    ensures { IfOk result (λ command. app_of command ≡ running) }
{
    let whole = with_command(program(alloc), steps_command(alloc));
    let whole = with_command(whole, threads_command(alloc));
    with_command(whole, load_command(alloc))
}

/// The commands and their options.
pub(crate) fn command<'a>(alloc: Global) -> Result<Command<'a>, AllocError>
    ensures { IfOk result (λ command. app_of command ≡ nvmesgl) }
{
    let whole = with_command(running(alloc), check_command(alloc));
    let whole = with_command(whole, test_command(alloc));
    let whole = with_command(whole, shell_command(alloc));
    let whole = with_command(whole, draw_command(alloc));
    let whole = with_command(whole, explain_command(alloc));
    let whole = with_command(whole, show_command(alloc));
    with_command(whole, Ok(grammar_command(alloc)))
}

/// Says of a command what is wrong with its words.
pub(crate) fn told(command: Command<'_>, kind: ErrorKind, text: &str) -> Result<Error, AllocError> {
    let mut command = command;
    command.error(kind, text)
}
