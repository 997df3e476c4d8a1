//! A load, and what is told of it.

ghost use Rattle.std.specs.Prelude.{◌≡◌, IfErr, IsSome, None, OnOk, Some};
ghost use Rattle.command_line.specs.Asked.{given_of, load, loaded_of};
ghost use Rattle.script_cli.specs.Loads.{FitsLoad};
ghost use Rattle.program.specs.Loading.{Adds};
ghost use Rattle.program.specs.Performing.{FailsWith, fault_of_load, Performs};

use crate::below::{below_run, lines_or_none};
use crate::fault::{Fault, FaultReport};
use crate::inputs::open_image;
use crate::serving::server_of;
use command_line::{CommandOptions, Serving, VERSION};
use load::{Bad, Figures, LoadFault, LoadResult, ProgressReport, run_load};
use script_cli::workload::{Load, OutputFormat};
use script_cli::{RunFault, flush, not_written, put, write_out};
use std::alloc::{AllocGlobal, Global};
use std::io::Write;
use std::rt::{Clock, Files};
use std::sync::Wait;
use std::thread::Threads;
use texts::faults::Grammar;

/// Says on standard error what was measured.
fn tell_times<R: AllocGlobal + Eprint>(rt: &R, ran: &LoadResult) {
    let text = lines_or_none(rt.alloc(), ran.summary(rt.alloc()));
    // Where standard error is closed, nothing is told.
    let _ = eprint!(rt; "{text}");
}

/// The file of the statistics, if one is named, and what is told of it where it was not written.
#[derive(Drop)]
struct StatsFile<'a, R: AllocGlobal + Files + Print> {
    rt: &'a R,
    path: Option<&'a str>,
    /// Whole lines, of the first time that it was not written.
    lost: Option<String>,
}

impl<R: AllocGlobal + Files + Print> ProgressReport for StatsFile<'_, R> {
    fn take(&mut self, so_far: &Figures<'_>) {
        let Some(path) = self.path else {
            return;
        };
        let lost = not_saved(self.rt, path, so_far);
        if self.lost.is_none() {
            self.lost = lost;
        }
    }
}

/// Writes what was measured into a file, and says why where it is not written.
fn not_saved<R: AllocGlobal + Files + Print>(
    rt: &R,
    path: &str,
    figures: &Figures<'_>,
) -> Option<String> {
    let alloc = rt.alloc();
    let Ok(text) = figures.json(alloc, VERSION) else {
        return Some(String::new(alloc));
    };
    match write_out(rt, path, text.as_bytes()) {
        Ok(()) => None,
        Err(why) => Some(lines_or_none(alloc, not_written(alloc, path, &why))),
    }
}

/// The fault of a file that is named and was not written once, with what is told of it.
fn stats_end(path: Option<&str>, lost: Option<String>) -> Result<(), FaultReport<Fault>>
    ensures fault { IfErr result (λ told. told.fault ≡ Fault.NoStats) }
    ensures asked { IfErr result (λ told. IsSome path.entry) }
{
    match (path, lost) {
        (Some(_), Some(below)) => Err(FaultReport::of(Fault::NoStats, below)),
        _ => Ok(()),
    }
}

/// Writes what was measured on standard output, where that gets JSON.
fn write_json<W: Write>(
    alloc: Global,
    format: OutputFormat,
    ran: &LoadResult,
    writer: &mut W,
) -> Result<(), RunFault>
    ensures { Adds format (W.contents writer.old) (W.contents writer.new) }
{
    match format {
        OutputFormat::Normal => Ok(()),
        OutputFormat::Json => {
            let text = ran.figures().json(alloc, VERSION)?;
            put(writer, text.as_bytes())?;
            flush(writer)
        }
    }
}

/// The line of the first command that did not end well.
fn first_bad(alloc: Global, bad: Option<Bad>) -> String {
    match bad {
        Some(bad) => lines_or_none(alloc, format!(in alloc; "first: {bad}\n")),
        None => String::new(alloc),
    }
}

/// What is told of a load that did not run to its end.
fn not_loaded(alloc: Global, options: &CommandOptions<'_>, why: LoadFault) -> FaultReport<Fault>
    ensures { result.fault ≡ fault_of_load why }
{
    match why {
        LoadFault::Run(fault) => {
            let below = below_run(alloc, Grammar::Steps, &[], options, fault);
            FaultReport::of(Fault::Run(fault), below)
        }
        why => FaultReport::alone(alloc, Fault::Load(why)),
    }
}

/// Makes commands, and runs them in threads.
pub(crate) fn load_image<
    R: AllocGlobal + Clock + Eprint + Files + Print + Sync + Threads + Wait,
    W: Write,
>(
    rt: &R,
    options: CommandOptions<'_>,
    what: Load<'_>,
    serving: Serving,
    writer: &mut W,
    is_terminal: bool,
) -> Result<(), FaultReport<Fault>>
    requires fits { FitsLoad what }
    ensures ran { OnOk result (Performs None (Some (load (given_of options.entry) (loaded_of what.entry) serving)) (W.contents writer.old) (W.contents writer.new)) }
    ensures failed { IfErr result (λ told. FailsWith None (Some (load (given_of options.entry) (loaded_of what.entry) serving)) (W.contents writer.old) (W.contents writer.new) told.fault) }
{
    let alloc = rt.alloc();
    let image = open_image(rt, &options)?;
    let shows = is_terminal && !what.quiet;
    let server = server_of(serving);
    let mut file = StatsFile {
        rt,
        path: what.stats,
        lost: None,
    };
    let ran = match run_load(
        rt,
        options.config,
        image,
        &what,
        server,
        shows,
        &mut file,
        writer,
    ) {
        Ok(ran) => ran,
        Err(why) => return Err(not_loaded(alloc, &options, why)),
    };
    file.take(&ran.figures());
    if !what.quiet {
        tell_times(rt, &ran);
    }
    if let Err(fault) = write_json(alloc, what.format, &ran, writer) {
        return Err(not_loaded(alloc, &options, LoadFault::Run(fault)));
    }
    let saved = stats_end(what.stats, file.lost);
    if ran.tally.is_good() {
        return saved;
    }
    Err(FaultReport::of(Fault::Loaded(ran.tally), first_bad(alloc, ran.bad)))
}
