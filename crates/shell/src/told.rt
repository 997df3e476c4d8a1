//! A script that is played, with more told of each step than `steps` tells, or in another form.

ghost use Rattle.std.specs.Prelude.{◌≡◌, ◌⊎◌, [], Err, Ok, OnErr, OnOk, Some, IfErr, IfOk, string_bytes};
ghost use Rattle.machine_model.specs.Claims.{counts_of};
ghost use Rattle.script_cli.specs.Faults.{fault_of_script};
ghost use Rattle.script_cli.specs.Inputs.{Gains};
ghost use Rattle.script_cli.specs.Runs.{Writes};
ghost use Rattle.script_cli.specs.Scripts.{IsReading, script_of};
ghost use Rattle.script_cli.specs.declared.fault.RunFault.TheVariants as run;
ghost use Rattle.script_cli.specs.declared.fault.ScriptFault.{ScriptFault};
ghost use Rattle.script_cli.specs.declared.script.Line.TheVariants as line;
ghost use Rattle.shell.specs.Told.{EndsTold, IsFrontOfTold, IsToldTo, TellsAnswer, TellsCounts, TellsLine};

use script_cli::{
    Line, Numbered, Played, RunFault, Script, Verb, append_counts, first_owners, flush, is_well,
    open_bench, play_step, put, put_owners, read_script, script_at_fault,
};
use std::alloc::{AllocError, Global};
use std::io::Write;
use step_core::{Config, Image, Reply, Step};
use texts::objects::{put_counts_object, put_owners_object, put_reply_object};
use texts::traces::{Traced, put_trace};
use world_bench::Bench;

/// What is told of a script that is played.
#[derive(Clone, Copy, Debug, PartialEq, Eq)]
pub enum Telling {
    /// The lines of `steps`, and below each answer what the step moved: `steps --trace`.
    Traces,
    /// An object of JSON for each answer, and one with the counts at the end, each on a line: `steps --json`.
    Objects,
}

/// What tells of the lines of a script.
#[derive(Clone, Copy)]
struct Teller {
    alloc: Global,
    telling: Telling,
    /// How many entries each queue has.
    entries: u16,
}

impl Teller {
    /// Does a step, puts its line into an empty text, and below it what the step moved.
    fn trace_step(
        self,
        bench: &mut Bench,
        number: u32,
        step: Step,
        out: &mut String,
    ) -> Result<Reply, AllocError>
        requires empty { string_bytes out.old ≡ [] }
        ensures { IfOk result (λ reply. TellsAnswer Telling.Traces bench.old.table number step reply (string_bytes out.new) bench.new.table) }
    {
        let traced = Traced::of(&step);
        let reply = play_step(bench, number, step, out)?;
        let mut below = String::new(self.alloc);
        put_trace(&mut below, bench, self.entries, traced, &reply)?;
        out.push_str(&below)?;
        Ok(reply)
    }

    /// Does a step, and puts what is told of it into an empty text.
    fn tell_step(
        self,
        bench: &mut Bench,
        number: u32,
        step: Step,
        out: &mut String,
    ) -> Result<Reply, AllocError>
        requires empty { string_bytes out.old ≡ [] }
        ensures { IfOk result (λ reply. TellsAnswer self.telling bench.old.table number step reply (string_bytes out.new) bench.new.table) }
    {
        match self.telling {
            Telling::Traces => self.trace_step(bench, number, step, out),
            Telling::Objects => {
                let verb = Verb::of(&step);
                let reply = bench.step(step);
                put_reply_object(self.alloc, out, number, verb, &reply)?;
                Ok(reply)
            }
        }
    }

    /// Puts the owners of all pages into an empty text.
    fn tell_owners(self, bench: &Bench, number: u32, out: &mut String) -> Result<(), AllocError>
        requires empty { string_bytes out.old ≡ [] }
        ensures { OnOk result (TellsLine self.telling bench.now.table number line.Owners (string_bytes out.new) 0 bench.now.table) }
    {
        match self.telling {
            Telling::Traces => put_owners(self.alloc, bench, out),
            Telling::Objects => {
                let owners = first_owners(self.alloc, bench, bench.pages())?;
                put_owners_object(self.alloc, out, number, &owners)
            }
        }
    }

    /// Does what a line says, puts what is told of it into an empty text, and answers how many of its answers are not well.
    fn tell_line(
        self,
        bench: &mut Bench,
        numbered: Numbered,
        out: &mut String,
    ) -> Result<u64, AllocError>
        requires empty { string_bytes out.old ≡ [] }
        ensures { IfOk result (λ unwell. TellsLine self.telling bench.old.table numbered.number numbered.line (string_bytes out.new) unwell bench.new.table) }
    {
        let number = numbered.number;
        match numbered.line {
            Line::Step(step) => {
                let reply = self.tell_step(bench, number, step, out)?;
                Ok(u64::from(!is_well(&reply)))
            }
            Line::Owners => {
                self.tell_owners(bench, number, out)?;
                Ok(0)
            }
            Line::Nothing => Ok(0),
        }
    }

    /// Puts the counts of a bench into an empty text.
    fn tell_counts(self, bench: &Bench, out: &mut String) -> Result<(), AllocError>
        requires empty { string_bytes out.old ≡ [] }
        ensures { OnOk result (TellsCounts self.telling (counts_of bench.now.table.world.host) (string_bytes out.new)) }
    {
        match self.telling {
            Telling::Traces => append_counts(out, bench.counts()),
            Telling::Objects => put_counts_object(self.alloc, out, bench.counts()),
        }
    }

    /// Plays a script, writes what is told of it, and answers how many answers are not well.
    fn tell<W: Write>(
        self,
        bench: &mut Bench,
        script: Script,
        writer: &mut W,
    ) -> Result<u64, RunFault>
        ensures ran { IfOk result (λ unwell. Gains (W.contents writer.old) (W.contents writer.new) (IsToldTo self.telling bench.new.table unwell bench.old.table script)) }
        ensures cut { OnErr result (Gains (W.contents writer.old) (W.contents writer.new) (IsFrontOfTold self.telling bench.old.table script)) }
        ensures fault { IfErr result (λ fault. (fault ≡ run.Memory) ⊎ (fault ≡ run.OutputFailed)) }
    {
        let mut out = String::new(self.alloc);
        let mut unwell = 0u64;
        for numbered in script.into_lines() {
            out.clear();
            let more = self.tell_line(bench, numbered, &mut out)?;
            unwell = unwell.saturating_add(more);
            put(writer, out.as_bytes())?;
        }
        out.clear();
        self.tell_counts(bench, &mut out)?;
        put(writer, out.as_bytes())?;
        flush(writer)?;
        Ok(unwell)
    }
}

/// Reads a script.
fn script_in(alloc: Global, text: &[u8]) -> Result<Script, RunFault>
    ensures script { IfOk result (λ script. script_of text.now ≡ Ok script) }
    ensures fault { IfErr result (λ fault. (why : ScriptFault) × (fault ≡ fault_of_script why) × IsReading text.now (Err why)) }
{
    match read_script(alloc, text) {
        Ok(script) => Ok(script),
        Err(why) => Err(script_at_fault(why)),
    }
}

/// Plays a script over a world that it opens, and writes more of each step than its answer, or its answer in another form. The bench is as the last step
/// left it.
///
/// # Errors
///
/// A fault of the script, and then one of the opening; nothing is written then. [`RunFault::Memory`] where memory is refused, and not
/// inside a step; [`RunFault::OutputFailed`] where a write or the flush fails. What was written by then is a prefix of what is written otherwise.
pub fn tell_steps<W: Write>(
    alloc: Global,
    config: Config,
    image: Image,
    telling: Telling,
    text: &[u8],
    writer: &mut W,
) -> Result<Played, RunFault>
    ensures ran { IfOk result (λ played. Writes (Some text.now) config image (W.contents writer.old) (W.contents writer.new) (IsToldTo telling played.bench.table played.unwell)) }
    ensures failed { IfErr result (λ fault. EndsTold telling (Some text.now) config image (W.contents writer.old) (W.contents writer.new) fault) }
{
    let script = script_in(alloc, text)?;
    let mut bench = open_bench(alloc, config, image)?;
    let teller = Teller {
        alloc,
        telling,
        entries: u16::try_from(config.entries).unwrap_or(u16::MAX),
    };
    match teller.tell(&mut bench, script, writer) {
        Ok(unwell) => Ok(Played { bench, unwell }),
        Err(fault) => {
            let _ended = bench.end();
            Err(fault)
        }
    }
}
