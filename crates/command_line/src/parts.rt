//! What commands and their options are made of.

ghost use Rattle.std.specs.Prelude.{◌≡◌, IfOk, IsOkAnd, false};
ghost use Rattle.clap.specs.Words.{AddsArg, AddsInTurn, app_of, new_app, rule_of};
ghost use Rattle.clap.specs.declared.builder.command.Command.TheViews.{out-Command};
ghost use Rattle.command_line.specs.Commands.{flag_rule, option_rule, text_rule, words_rule};

use clap::{Arg, ArgAction, Command};
use std::alloc::{AllocError, Global};

/// An option with a value.
pub(crate) fn option_arg<'a>(
    alloc: Global,
    name: &'static str,
    shape: &'static str,
    help: &'static str,
) -> Arg<'a>
    ensures rule { rule_of result ≡ option_rule name.now }
    ensures local { result.global ≡ false }
{
    Arg::new(alloc, name)
        .long(name)
        .value_name(shape)
        .help(help)
}

/// An option with a value, which has a usual one.
pub(crate) fn text_arg<'a>(
    alloc: Global,
    name: &'static str,
    shape: &'static str,
    usual: &'static str,
    help: &'static str,
) -> Arg<'a>
    ensures rule { rule_of result ≡ text_rule name.now usual.now }
    ensures local { result.global ≡ false }
{
    option_arg(alloc, name, shape, help).default_value(usual)
}

/// An option without a value.
pub(crate) fn flag_arg<'a>(alloc: Global, name: &'static str, help: &'static str) -> Arg<'a>
    ensures rule { rule_of result ≡ flag_rule name.now }
    ensures local { result.global ≡ false }
{
    Arg::new(alloc, name)
        .long(name)
        .action(ArgAction::SetTrue)
        .help(help)
}

/// Words that belong to no option, one or more.
pub(crate) fn words_arg<'a>(
    alloc: Global,
    name: &'static str,
    shape: &'static str,
    help: &'static str,
) -> Arg<'a>
    ensures rule { rule_of result ≡ words_rule name.now }
    ensures local { result.global ≡ false }
{
    Arg::new(alloc, name)
        .value_name(shape)
        .action(ArgAction::Append)
        .required(true)
        .help(help)
}

/// A command without options, with its help texts.
pub(crate) fn described<'a>(
    alloc: Global,
    name: &'static str,
    about: &'static str,
    long_about: &'static str,
    after_help: &'static str,
) -> Command<'a>
    ensures shape { app_of result ≡ new_app name.now }
    ensures local { (out-Command result).has_globals ≡ false }
{
    Command::new(alloc, name)
        .about(about)
        .long_about(long_about)
        .after_help(after_help)
}

/// A command with options, one after the other, if they were made.
pub(crate) fn with_args<'a>(
    command: Command<'a>,
    args: Result<Vec<Arg<'a>>, AllocError>,
) -> Result<Command<'a>, AllocError>
    ensures { IfOk result (λ whole. IsOkAnd args.entry (λ made. AddsInTurn AddsArg command.entry made.items whole)) }
{
    command.args(args?)
}
