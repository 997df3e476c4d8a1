//! The options of `load`.

ghost use Rattle.std.specs.Prelude.{◌≡◌, IfOk, false, codes, map};
ghost use Rattle.std.specs.List.{AllByRecursion};
ghost use Rattle.clap.specs.Words.{app_of, rule_of};
ghost use Rattle.clap.specs.declared.builder.command.Command.TheViews.{out-Command};
ghost use Rattle.command_line.specs.Commands.{amount_rules, check_rules, load, with_amounts, with_checks};

use crate::commands::{LOG_LIMIT, Number, image_arg, with_sizes};
use crate::help::{LOAD_ABOUT, LOAD_AFTER};
use crate::parts::{described, flag_arg, option_arg, text_arg, with_args};
use crate::serving::serve_arg;
use clap::{Arg, Command};
use std::alloc::{AllocError, Global};

pub(crate) const SUBMITTERS: Number = Number {
    name: "numjobs",
    usual: 1,
    shown: "1",
    range: (1, 16),
    help: "Submitters, each in a thread of its own: 1 to 16",
};

pub(crate) const DEPTH: Number = Number {
    name: "iodepth",
    usual: 1,
    shown: "1",
    range: (1, 256),
    help: "Commands that each submitter keeps outstanding: 1 to 256",
};

pub(crate) const READS: Number = Number {
    name: "rwmixread",
    usual: 50,
    shown: "50",
    range: (0, 100),
    help: "How many of a hundred commands of rw and randrw are reads",
};

pub(crate) const SEED: Number = Number {
    name: "seed",
    usual: 1,
    shown: "1",
    range: (0, u32::MAX),
    help: "What the order and the bytes are made of",
};

/// It has no usual value.
pub(crate) const COUNT: Number = Number {
    name: "count",
    usual: 0,
    shown: "",
    range: (0, u32::MAX),
    help: "Commands in all; 10000 where there is no --runtime either",
};

/// How many commands there are where neither their number nor a time is given.
pub(crate) const USUAL_COUNT: u32 = 10_000;

const PATTERN_HELP: &str = "read, write, rw (readwrite), randread, randwrite or randrw";

const BLOCKS_HELP: &str = "Blocks of each command, 1 to 256, or bytes: 512b, 4k";

const SIZE_HELP: &str =
    "Blocks that are used, from block 0, or bytes: 64k, 1m; else the whole image";

const RUNTIME_HELP: &str = "Seconds after which no more commands are begun; also 90s, 10m, 2h";

const VERIFY_HELP: &str = "Compares what is read with what was written";

const STATS_HELP: &str = "Writes what was measured into this file, as JSON; - is standard output";

const INTERVAL_HELP: &str = "Writes that file anew after so many seconds, again and again";

const FORMAT_HELP: &str = "What standard output gets: normal, a line, or json";

/// The options that say what is done, and how much.
fn amount_args<'a>(alloc: Global) -> Result<Vec<Arg<'a>>, AllocError>
    ensures rules { IfOk result (λ args. map rule_of args.items ≡ amount_rules) }
    ensures local { IfOk result (λ args. AllByRecursion (λ arg. arg.global ≡ false) args.items) }
{
    Ok(Vec::from_array(
        alloc,
        [
            text_arg(alloc, "rw", "PATTERN", "read", PATTERN_HELP),
            READS.arg(alloc),
            text_arg(alloc, "bs", "SIZE", "1", BLOCKS_HELP),
            option_arg(alloc, "size", "SIZE", SIZE_HELP),
            COUNT.optional_arg(alloc),
            option_arg(alloc, "runtime", "TIME", RUNTIME_HELP),
            SUBMITTERS.arg(alloc),
        ],
    )?)
}

/// A command with what is done, and how much.
fn with_amounts<'a>(alloc: Global, command: Command<'a>) -> Result<Command<'a>, AllocError>
    ensures shape { IfOk result (λ whole. app_of whole ≡ with_amounts (app_of command.entry)) }
    ensures local { IfOk result (λ whole. (out-Command whole).has_globals ≡ (out-Command command.entry).has_globals) }
{
    with_args(command, amount_args(alloc))
}

/// The options that say how it is run, what it checks and what it tells.
fn check_args<'a>(alloc: Global) -> Result<Vec<Arg<'a>>, AllocError>
    ensures rules { IfOk result (λ args. map rule_of args.items ≡ check_rules) }
    ensures local { IfOk result (λ args. AllByRecursion (λ arg. arg.global ≡ false) args.items) }
{
    Ok(Vec::from_array(
        alloc,
        [
            DEPTH.arg(alloc),
            LOG_LIMIT.optional_arg(alloc),
            serve_arg(alloc),
            SEED.arg(alloc),
            flag_arg(alloc, "verify", VERIFY_HELP),
            option_arg(alloc, "stats", "FILE", STATS_HELP),
            option_arg(alloc, "status-interval", "TIME", INTERVAL_HELP),
            text_arg(alloc, "output-format", "FORMAT", "normal", FORMAT_HELP),
            flag_arg(alloc, "quiet", "Tells no times on standard error"),
        ],
    )?)
}

/// A command with how it is run, what it checks and what it tells.
fn with_checks<'a>(alloc: Global, command: Command<'a>) -> Result<Command<'a>, AllocError>
    ensures shape { IfOk result (λ whole. app_of whole ≡ with_checks (app_of command.entry)) }
    ensures local { IfOk result (λ whole. (out-Command whole).has_globals ≡ (out-Command command.entry).has_globals) }
{
    with_args(command, check_args(alloc))
}

/// The command that makes its jobs.
pub(crate) fn load_command<'a>(alloc: Global) -> Result<Command<'a>, AllocError>
    ensures shape { IfOk result (λ command. app_of command ≡ load) }
    ensures local { IfOk result (λ command. (out-Command command).has_globals ≡ false) }
{
    let command = described(
        alloc,
        "load",
        "Makes commands, runs them in threads and measures",
        LOAD_ABOUT,
        LOAD_AFTER,
    );
    let command = with_checks(alloc, with_amounts(alloc, command)?)?;
    with_sizes(alloc, command)?.arg(image_arg(alloc))
}
