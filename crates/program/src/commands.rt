//! The program's commands.

ghost use Rattle.std.specs.Prelude.{◌≡◌, ◌≤◌, Some, IfErr, OnErr, OnOk, false, map, true};
ghost use Rattle.command_line.specs.Asked.{asked, draw, given_of, path_of, shell, steps, thread_objects, threads, traced};
ghost use Rattle.job_cli.specs.declared.telling.Form.TheVariants.{Lines};
ghost use Rattle.program.specs.Performing.{FailsWith, is_file, IsEndFault, IsNoGrammar, IsNoJobScript, IsNoSteps, IsRunFault, IsTestFault, IsUnwell, LooksAtJobs, LooksAtSteps, Performs, script_told, told_as};

use crate::below::below_run;
use crate::bytes::{explain_case, show_words};
use crate::checking::{check_jobs, check_steps, read_options};
use crate::fault::{Fault, FaultReport};
use crate::inputs::{Begun, begin_jobs, begin_steps, open_image, script_text};
use crate::loading::load_image;
use crate::pipe::Pipe;
use crate::places::file_of;
use crate::printing::print_text;
use crate::saving::save_image;
use crate::serving::server_of;
use crate::testing::test_files;
use command_line::{CommandLine, CommandOptions, Serving, Testing, Threading, words};
use job_cli::{Form, Pace, run_jobs};
use script_cli::transcripts::ScriptKind;
use script_cli::{MAX_SCRIPT, Played, RunFault, play_steps, transcripts};
use shell::{Telling, meanings_text, run_shell, tell_steps};
use std::alloc::{AllocError, AllocGlobal, Global};
use std::convert::AsStr;
use std::env::Env;
use std::io;
use std::io::{Input, Read, Write};
use std::process::ExitCode;
use std::rt::{Clock, Files};
use std::sync::Wait;
use std::thread::Threads;
use texts::faults::{Grammar, grammar_text};
use views::draw::draw_steps;
use views::explain::Layout;
use world_bench::Bench;

/// Which of the standard files are terminals.
#[derive(Clone, Copy)]
pub struct Terminals {
    /// Standard input, and standard output too: the shell prompts.
    pub input: bool,
    /// Standard error: a load, and jobs, say how far they are.
    pub error: bool,
}

impl Terminals {
    /// None is.
    pub const NONE: Terminals = Terminals {
        input: false,
        error: false,
    };
}

/// Does what the command line asks for, over standard input and output. A fault is told on standard error.
pub fn run<R: AllocGlobal + Clock + Env + Eprint + Files + Input + Print + Sync + Threads + Wait>(
    rt: &R,
    terminals: Terminals,
) -> ExitCode {
    match start(rt, terminals) {
        Ok(()) => ExitCode::SUCCESS,
        Err(told) => {
            // Where standard error is closed, the exit status alone tells.
            let _ = eprint!(rt; "{told}");
            ExitCode::from(told.fault.exit_status())
        }
    }
}

/// Performs the words of the command line.
fn start<R: AllocGlobal + Clock + Env + Eprint + Files + Input + Print + Sync + Threads + Wait>(
    rt: &R,
    terminals: Terminals,
) -> Result<(), FaultReport<Fault>> {
    let words = match words(rt) {
        Ok(words) => words,
        Err(why) => return Fault::shown(rt, why),
    };
    let mut reader = rt.reader();
    let mut writer = Pipe::over(io::writer(rt));
    let end = perform(rt, words.as_slice(), &mut reader, &mut writer, terminals);
    match end {
        Err(
            FaultReport {
                fault: Fault::Run(RunFault::OutputFailed),
                place: _,
                below,
            },
        ) if writer.is_closed() => Err(FaultReport::of(Fault::PipeClosed, below)),
        end => end,
    }
}

/// Does what words ask for, with the script of a reader where no file has it. What a run prints goes to the writer, a help text and a file that is
/// named `-` to standard output, and the times of a load to standard error.
///
/// # Errors
///
/// The first fault, of the words, the image, the script, the opening and the run, in this order; `Run(Memory)` also where memory is refused before.
pub fn perform<
    R: AllocGlobal + Clock + Eprint + Files + Print + Sync + Threads + Wait,
    S: AsStr,
    I: Read,
    W: Write,
>(
    rt: &R,
    words: &[S],
    reader: &mut I,
    writer: &mut W,
    terminals: Terminals,
) -> Result<(), FaultReport<Fault>>
    ensures ran { OnOk result (Performs (I.remaining reader.old) (asked (map S.text words.now)) (W.contents writer.old) (W.contents writer.new)) }
    ensures failed { IfErr result (λ told. FailsWith (I.remaining reader.old) (asked (map S.text words.now)) (W.contents writer.old) (W.contents writer.new) told.fault) }
{
    let shows = terminals.error;
    match CommandLine::parse(rt.alloc(), words) {
        Ok(CommandLine::Steps(options)) => play(rt, options, reader, writer),
        Ok(CommandLine::Traced(options, objects)) => {
            trace_script(rt, options, objects, reader, writer)
        }
        Ok(CommandLine::Threads(options, threading, serving)) => {
            let form = Form::Lines;
            run_threads(rt, options, threading, serving, form, shows, reader, writer)
        }
        Ok(CommandLine::ThreadObjects(options, threading, serving)) => {
            let form = Form::Objects;
            run_threads(rt, options, threading, serving, form, shows, reader, writer)
        }
        Ok(CommandLine::Load(options, load, serving)) => {
            load_image(rt, options, load, serving, writer, shows)
        }
        Ok(CommandLine::Check(path)) => look_at_steps(rt, path, reader),
        Ok(CommandLine::CheckJobs(path, submitters)) => {
            look_at_jobs(rt, path, submitters, reader)
        }
        Ok(CommandLine::Test(testing)) => test(rt, &testing, reader, writer),
        Ok(CommandLine::Shell(options, traces)) => {
            talk(rt, options, traces, reader, writer, terminals.input)
        }
        Ok(CommandLine::Draw(options)) => draw_script(rt, options, reader, writer),
        Ok(CommandLine::Explain(path, objects)) => {
            explain_case(rt, path, layout_of(objects), reader, writer)
        }
        Ok(CommandLine::Show(words, objects)) => {
            show_words(rt, &words, layout_of(objects), writer)
        }
        Ok(CommandLine::Grammar) => print_grammar(rt.alloc(), writer),
        Err(why) => Fault::shown(rt, why),
    }
}

/// How bytes are told, where that is asked for as objects or not.
fn layout_of(objects: bool) -> Layout {
    if objects {
        Layout::Objects
    } else {
        Layout::Lines
    }
}

/// The end of a run in which this many answers were not well: a fault, where that is asked for.
fn end_strictly(
    alloc: Global,
    options: CommandOptions<'_>,
    unwell: u64,
) -> Result<(), FaultReport<Fault>>
    ensures unwell { IfErr result (λ told. IsUnwell (given_of options.entry) told.fault) }
    ensures some { OnErr result (unwell ≡ 0 → ⊥) }
    ensures well { OnOk result ((given_of options.entry).strict ≡ true → unwell ≡ 0) }
{
    if options.strict && unwell > 0 {
        return Err(FaultReport::alone(alloc, Fault::Unwell));
    }
    Ok(())
}

/// The end of a run that left a bench, and in which this many answers were not well: its image is saved.
fn end_steps<R: AllocGlobal + Files + Print>(
    rt: &R,
    options: CommandOptions<'_>,
    bench: Bench,
    unwell: u64,
) -> Result<(), FaultReport<Fault>>
    ensures end { IfErr result (λ told. IsEndFault (given_of options.entry) told.fault) }
    ensures some { IfErr result (λ told. told.fault ≡ Fault.Unwell → unwell ≡ 0 → ⊥) }
    ensures well { OnOk result ((given_of options.entry).strict ≡ true → unwell ≡ 0) }
{
    let saved = save_image(rt, options.save, bench.image());
    let _ended = bench.end();
    match saved {
        Ok(()) => end_strictly(rt.alloc(), options, unwell),
        Err(told) => Err(told),
    }
}

/// What is told of a run of a script that ended with a fault.
fn told_of_run(
    alloc: Global,
    grammar: Grammar,
    text: &[u8],
    options: &CommandOptions<'_>,
    fault: RunFault,
) -> FaultReport<Fault>
    ensures { result.fault ≡ Fault.Run fault }
{
    let below = below_run(alloc, grammar, text, options, fault);
    FaultReport::of(Fault::Run(fault), below)
}

/// Plays a script of steps.
fn play<R: AllocGlobal + Files + Print, I: Read, W: Write>(
    rt: &R,
    options: CommandOptions<'_>,
    reader: &mut I,
    writer: &mut W,
) -> Result<(), FaultReport<Fault>>
    ensures ran { OnOk result (Performs (I.remaining reader.old) (Some (steps (given_of options.entry))) (W.contents writer.old) (W.contents writer.new)) }
    ensures failed { IfErr result (λ told. FailsWith (I.remaining reader.old) (Some (steps (given_of options.entry))) (W.contents writer.old) (W.contents writer.new) told.fault) }
{
    let Begun { text, said, image } = match begin_steps(rt, options, reader) {
        Ok(begun) => begun,
        Err(told) => return Err(told),
    };
    let alloc = rt.alloc();
    let mut script = text.as_slice();
    match play_steps(alloc, said.config, image, &mut script, writer) {
        Ok(Played { bench, unwell }) => end_steps(rt, options, bench, unwell),
        Err(fault) => Err(told_of_run(alloc, Grammar::Steps, &text, &said, fault)),
    }
}

/// What is told of a script of steps besides its answers, or in their stead.
fn telling_of(objects: bool) -> Telling
    ensures { result ≡ told_as objects }
{
    if objects {
        Telling::Objects
    } else {
        Telling::Traces
    }
}

/// Plays a script of steps, and tells what each moved, in lines or as objects.
fn trace_script<R: AllocGlobal + Files + Print, I: Read, W: Write>(
    rt: &R,
    options: CommandOptions<'_>,
    objects: bool,
    reader: &mut I,
    writer: &mut W,
) -> Result<(), FaultReport<Fault>>
    ensures ran { OnOk result (Performs (I.remaining reader.old) (Some (traced (given_of options.entry) objects)) (W.contents writer.old) (W.contents writer.new)) }
    ensures failed { IfErr result (λ told. FailsWith (I.remaining reader.old) (Some (traced (given_of options.entry) objects)) (W.contents writer.old) (W.contents writer.new) told.fault) }
{
    let Begun { text, said, image } = match begin_steps(rt, options, reader) {
        Ok(begun) => begun,
        Err(told) => return Err(told),
    };
    let alloc = rt.alloc();
    match tell_steps(
        alloc,
        said.config,
        image,
        telling_of(objects),
        &text,
        writer,
    ) {
        Ok(Played { bench, unwell }) => end_steps(rt, options, bench, unwell),
        Err(fault) => Err(told_of_run(alloc, Grammar::Steps, &text, &said, fault)),
    }
}

/// How many entries the log of a round of jobs may have where nothing is said: few enough that the lines of a long script come while it runs.
const USUAL_LOG: u32 = 65_536;

/// How the jobs of submitters are run, and what is written of them.
fn pace_of(threading: Threading, serving: Serving, form: Form, shows: bool) -> Pace
    ensures depth { result.depth ≡ threading.depth }
    ensures form { result.form ≡ form }
{
    Pace {
        depth: threading.depth,
        server: server_of(serving),
        log_limit: Some(threading.log_limit.unwrap_or(USUAL_LOG)),
        form,
        shows,
    }
}

/// Runs a script of jobs, and tells how they ended, in lines or as objects.
fn run_threads<R: AllocGlobal + Clock + Eprint + Files + Sync + Threads + Wait, I: Read, W: Write>(
    rt: &R,
    options: CommandOptions<'_>,
    threading: Threading,
    serving: Serving,
    form: Form,
    shows: bool,
    reader: &mut I,
    writer: &mut W,
) -> Result<(), FaultReport<Fault>>
    requires some { 1 ≤ threading.submitters }
    requires few { threading.submitters ≤ 16 }
    requires at_least_one { 1 ≤ threading.depth }
    requires at_most { threading.depth ≤ 256 }
    ensures ran { form ≡ Lines → OnOk result (Performs (I.remaining reader.old) (Some (threads (given_of options.entry) threading serving)) (W.contents writer.old) (W.contents writer.new)) }
    ensures failed { form ≡ Lines → IfErr result (λ told. FailsWith (I.remaining reader.old) (Some (threads (given_of options.entry) threading serving)) (W.contents writer.old) (W.contents writer.new) told.fault) }
    ensures objects { IfErr result (λ told. FailsWith (I.remaining reader.old) (Some (thread_objects (given_of options.entry) threading serving)) (W.contents writer.old) (W.contents writer.new) told.fault) }
{
    let (begun, submitters) = match begin_jobs(rt, options, threading.submitters, reader) {
        Ok(begun) => begun,
        Err(told) => return Err(told),
    };
    let Begun { text, said, image } = begun;
    let alloc = rt.alloc();
    let mut script = text.as_slice();
    let pace = pace_of(threading, serving, form, shows);
    match run_jobs(
        rt,
        alloc,
        said.config,
        image,
        submitters,
        pace,
        &mut script,
        writer,
    ) {
        Ok(unwell) => end_strictly(alloc, options, unwell),
        Err(fault) => {
            let grammar = Grammar::Jobs(submitters);
            Err(told_of_run(alloc, grammar, &text, &said, fault))
        }
    }
}

/// Tells the faults of a script of steps.
fn look_at_steps<R: AllocGlobal + Files, I: Read>(
    rt: &R,
    path: Option<&str>,
    reader: &mut I,
) -> Result<(), FaultReport<Fault>>
    ensures steps { OnOk result (LooksAtSteps (script_told (path_of path.entry) (I.remaining reader.old))) }
    ensures fault { IfErr result (λ told. IsNoSteps (script_told (path_of path.entry) (I.remaining reader.old)) told.fault) }
{
    let text = script_text(rt, path, reader)?;
    let (alloc, file) = (rt.alloc(), file_of(path));
    read_options(alloc, ScriptKind::Steps, Grammar::Steps, file, &text)?;
    check_steps(alloc, file, &text)?;
    Ok(())
}

/// Tells the faults of a script of jobs.
fn look_at_jobs<R: AllocGlobal + Files, I: Read>(
    rt: &R,
    path: Option<&str>,
    submitters: u16,
    reader: &mut I,
) -> Result<(), FaultReport<Fault>>
    ensures jobs { OnOk result (LooksAtJobs (script_told (path_of path.entry) (I.remaining reader.old)) submitters) }
    ensures fault { IfErr result (λ told. IsNoJobScript (script_told (path_of path.entry) (I.remaining reader.old)) submitters told.fault) }
{
    let text = script_text(rt, path, reader)?;
    let (alloc, file) = (rt.alloc(), file_of(path));
    let grammar = Grammar::Jobs(submitters);
    let said = read_options(alloc, ScriptKind::Jobs, grammar, file, &text)?;
    check_jobs(alloc, file, &text, said.submitters_or(submitters))?;
    Ok(())
}

/// Tests the transcripts of files.
fn test<R: AllocGlobal + Clock + Eprint + Files + Sync + Threads + Wait, I: Read, W: Write>(
    rt: &R,
    testing: &Testing<'_>,
    reader: &mut I,
    writer: &mut W,
) -> Result<(), FaultReport<Fault>>
    ensures fault { IfErr result (λ told. IsTestFault told.fault) }
{
    let usual = transcripts::Options {
        config: testing.config,
        blocks: testing.blocks,
    };
    let fault = match test_files(rt, &testing.files, usual, testing.updates, reader, writer) {
        Ok(tally) if tally.exit_status() == 0 => return Ok(()),
        Ok(tally) => Fault::Transcripts(tally),
        Err(fault) => Fault::Run(fault),
    };
    Err(FaultReport::alone(rt.alloc(), fault))
}

/// Answers the lines of a file, whose first may say the options.
fn answer_file<R: AllocGlobal + Files + Print, I: Read, W: Write>(
    rt: &R,
    options: CommandOptions<'_>,
    traces: bool,
    reader: &mut I,
    writer: &mut W,
) -> Result<(), FaultReport<Fault>>
    requires file { is_file (path_of options.script) ≡ true }
    ensures failed { IfErr result (λ told. FailsWith (I.remaining reader.old) (Some (shell (given_of options.entry) traces)) (W.contents writer.old) (W.contents writer.new) told.fault) }
{
    let Begun { text, said, image } = match begin_steps(rt, options, reader) {
        Ok(begun) => begun,
        Err(told) => return Err(told),
    };
    let end = if text.len() > MAX_SCRIPT {
        Err(RunFault::TooLong)
    } else {
        let mut lines = text.as_slice();
        run_shell(rt, said.config, image, traces, &mut lines, writer, false)
    };
    match end {
        Ok(()) => Ok(()),
        Err(fault) => Err(told_of_run(rt.alloc(), Grammar::Steps, &[], &said, fault)),
    }
}

/// Answers the lines of a reader.
fn answer_reader<R: AllocGlobal + Files + Print, I: Read, W: Write>(
    rt: &R,
    options: CommandOptions<'_>,
    traces: bool,
    reader: &mut I,
    writer: &mut W,
    is_terminal: bool,
) -> Result<(), FaultReport<Fault>>
    requires reader { is_file (path_of options.script) ≡ false }
    ensures failed { IfErr result (λ told. FailsWith (I.remaining reader.old) (Some (shell (given_of options.entry) traces)) (W.contents writer.old) (W.contents writer.new) told.fault) }
{
    let image = open_image(rt, &options)?;
    match run_shell(
        rt,
        options.config,
        image,
        traces,
        reader,
        writer,
        is_terminal,
    ) {
        Ok(()) => Ok(()),
        Err(fault) => Err(told_of_run(rt.alloc(), Grammar::Steps, &[], &options, fault)),
    }
}

/// Answers the lines of a file, or of a reader where none is named.
pub(crate) fn talk<R: AllocGlobal + Files + Print, I: Read, W: Write>(
    rt: &R,
    options: CommandOptions<'_>,
    traces: bool,
    reader: &mut I,
    writer: &mut W,
    is_terminal: bool,
) -> Result<(), FaultReport<Fault>>
    ensures failed { IfErr result (λ told. FailsWith (I.remaining reader.old) (Some (shell (given_of options.entry) traces)) (W.contents writer.old) (W.contents writer.new) told.fault) }
{
    match file_of(options.script) {
        Some(_) => answer_file(rt, options, traces, reader, writer),
        None => answer_reader(rt, options, traces, reader, writer, is_terminal),
    }
}

/// Draws a script of steps.
fn draw_script<R: AllocGlobal + Files, I: Read, W: Write>(
    rt: &R,
    options: CommandOptions<'_>,
    reader: &mut I,
    writer: &mut W,
) -> Result<(), FaultReport<Fault>>
    ensures failed { IfErr result (λ told. FailsWith (I.remaining reader.old) (Some (draw (given_of options.entry))) (W.contents writer.old) (W.contents writer.new) told.fault) }
{
    let Begun { text, said, image } = match begin_steps(rt, options, reader) {
        Ok(begun) => begun,
        Err(told) => return Err(told),
    };
    let alloc = rt.alloc();
    match draw_steps(alloc, said.config, image, &text, writer) {
        Ok(()) => Ok(()),
        Err(fault) => Err(told_of_run(alloc, Grammar::Steps, &text, &said, fault)),
    }
}

/// What a script may say, and what its steps and faults are called.
fn all_of_grammar(alloc: Global) -> Result<String, AllocError> {
    let mut text = grammar_text(alloc)?;
    text.push_str(&meanings_text(alloc)?)?;
    Ok(text)
}

/// Prints what a script may say.
fn print_grammar<W: Write>(alloc: Global, writer: &mut W) -> Result<(), FaultReport<Fault>>
    ensures fault { IfErr result (λ told. IsRunFault told.fault IsNoGrammar) }
{
    print_text(alloc, all_of_grammar(alloc), writer)
}
