//! All faults of a script.

ghost use Rattle.std.specs.Prelude.{◌≡◌, IfErr, IfOk, None, OnErr, OnOk, Some};
ghost use Rattle.program.specs.Checking.{AreJobs, AreNoJobs, AreNoSteps, AreSteps};
ghost use Rattle.program.specs.Performing.{line_said};
ghost use Rattle.script_cli.specs.Options.{AreFew};

use crate::below::{below_options, below_script, lines_or_none, place_of_option, put_mark};
use crate::fault::{Fault, FaultReport};
use crate::places::{column_of, place, put_head};
use job_cli::read_jobs;
use script_cli::transcripts::{BadOption, SaidOptions, ScriptKind};
use script_cli::{
    LineFault, MAX_LINES, RunFault, ScriptFault, read_script, script_at_fault, split_line,
};
use std::alloc::{AllocError, Global};
use texts::faults::{Grammar, explain, line_at};

/// The most lines that are told.
const MOST_TOLD: u32 = 20;

/// The first fault of a text.
fn first_fault(alloc: Global, grammar: Grammar, text: &[u8]) -> Option<ScriptFault> {
    match grammar {
        Grammar::Steps => read_script(alloc, text).err(),
        Grammar::Jobs(submitters) => read_jobs(alloc, text, submitters).err(),
    }
}

/// The fault of the line of this number.
fn fault_of_line(
    alloc: Global,
    grammar: Grammar,
    number: u32,
    line: &[u8],
) -> Result<Option<LineFault>, AllocError> {
    if number > MAX_LINES {
        return Ok(Some(LineFault::TooManyLines));
    }
    match first_fault(alloc, grammar, line) {
        Some(ScriptFault::Line { number: _, fault }) => Ok(Some(fault)),
        Some(ScriptFault::Memory) => Err(AllocError),
        Some(ScriptFault::TooLong) | None => Ok(None),
    }
}

/// All faults of a script's lines, but for the line that names the first, if that is the fault's own.
fn all_faults(
    alloc: Global,
    grammar: Grammar,
    path: Option<&str>,
    script: &[u8],
    names_first: bool,
) -> Result<String, AllocError> {
    let mut text = String::new(alloc);
    let mut told = 0u32;
    let mut more = 0u32;
    let mut rest = script;
    for number in 1..=MAX_LINES + 1 {
        if rest.is_empty() {
            break;
        }
        let (line, after) = split_line(rest);
        rest = after;
        let Some(fault) = fault_of_line(alloc, grammar, number, line)? else {
            continue;
        };
        if told >= MOST_TOLD {
            more = more.saturating_add(1);
            continue;
        }
        if told > 0 || names_first {
            let column = column_of(alloc, grammar, line)?;
            put_head(&mut text, path, number, column, fault)?;
        }
        let lines = explain(alloc, grammar, line, fault)?;
        text.push_str(lines.as_str())?;
        put_mark(&mut text, script, number, fault)?;
        told = told.saturating_add(1);
    }
    if more > 0 {
        write!(text, ".. and {more} more\n")?;
    }
    Ok(text)
}

/// The place of the line of this number, if the script is a file.
fn place_of_line(
    alloc: Global,
    grammar: Grammar,
    path: Option<&str>,
    script: &[u8],
    number: u32,
) -> Result<Option<String>, AllocError> {
    let Some(path) = path else {
        return Ok(None);
    };
    let column = match line_at(script, number) {
        Some(line) => column_of(alloc, grammar, line)?,
        None => 1,
    };
    Ok(Some(place(alloc, path, number, column)?))
}

/// What is told of a script with faults.
fn told_of(
    alloc: Global,
    grammar: Grammar,
    path: Option<&str>,
    script: &[u8],
    fault: RunFault,
) -> FaultReport<RunFault>
    ensures { result.fault ≡ fault }
{
    let (place, below) = match fault {
        RunFault::Line { number, .. } => (
            place_of_line(alloc, grammar, path, script, number).unwrap_or(None),
            lines_or_none(alloc, all_faults(alloc, grammar, path, script, false)),
        ),
        _ => (None, below_script(alloc, grammar, script, fault)),
    };
    FaultReport {
        fault,
        place,
        below,
    }
}

/// What is told of a word of the first line that says no option, and of the faults of the other lines.
fn told_of_options(
    alloc: Global,
    grammar: Grammar,
    path: Option<&str>,
    script: &[u8],
    bad: BadOption<'_>,
) -> Result<(Option<String>, String), AllocError> {
    let head = match path {
        Some(path) => {
            let column = place_of_option(script, bad).start.saturating_add(1);
            Some(place(alloc, path, 1, column)?)
        }
        None => None,
    };
    let mut below = below_options(alloc, script, bad);
    below.push_str(&all_faults(alloc, grammar, path, script, true)?)?;
    Ok((head, below))
}

/// What the first line of a script says of options. Where its words are not options, all faults of the script are told.
pub(crate) fn read_options(
    alloc: Global,
    kind: ScriptKind,
    grammar: Grammar,
    path: Option<&str>,
    script: &[u8],
) -> Result<SaidOptions, FaultReport<Fault>>
    ensures said { IfOk result (λ said. line_said kind script.now ≡ Some said) }
    ensures few { IfOk result (λ said. AreFew said.submitters) }
    ensures fault { IfErr result (λ told. told.fault ≡ Fault.BadOptions) }
    ensures none { OnErr result (line_said kind script.now ≡ None) }
{
    let (line, _) = split_line(script);
    match SaidOptions::of_line(kind, line) {
        Ok(said) => Ok(said),
        Err(bad) => {
            let (place, below) = told_of_options(alloc, grammar, path, script, bad).unwrap_or((
                None,
                String::new(alloc),
            ));
            Err(FaultReport {
                fault: Fault::BadOptions,
                place,
                below,
            })
        }
    }
}

/// Sees whether a text is a script of steps. All its faults are told.
pub(crate) fn check_steps(
    alloc: Global,
    path: Option<&str>,
    script: &[u8],
) -> Result<(), FaultReport<RunFault>>
    ensures steps { OnOk result (AreSteps script.now) }
    ensures fault { IfErr result (λ told. AreNoSteps script.now told.fault) }
{
    match read_script(alloc, script) {
        Ok(_) => Ok(()),
        Err(why) => {
            let fault = script_at_fault(why);
            Err(told_of(alloc, Grammar::Steps, path, script, fault))
        }
    }
}

/// Sees whether a text is a script of jobs for this many submitters. All its faults are told.
pub(crate) fn check_jobs(
    alloc: Global,
    path: Option<&str>,
    script: &[u8],
    submitters: u16,
) -> Result<(), FaultReport<RunFault>>
    ensures jobs { OnOk result (AreJobs submitters script.now) }
    ensures fault { IfErr result (λ told. AreNoJobs submitters script.now told.fault) }
{
    match read_jobs(alloc, script, submitters) {
        Ok(_) => Ok(()),
        Err(why) => {
            let fault = script_at_fault(why);
            let grammar = Grammar::Jobs(submitters);
            Err(told_of(alloc, grammar, path, script, fault))
        }
    }
}
