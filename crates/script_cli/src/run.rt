//! A script, played over a world that it opens.

ghost use Rattle.std.specs.Prelude.{◌≡◌, ◌≤◌, ◌⊎◌, [], length, OnOk, OnErr, IfOk, IfErr, None, string_bytes};
ghost use Rattle.block_image.specs.Blocks.{IsImage};
ghost use Rattle.machine_model.specs.Claims.{counts_of};
ghost use Rattle.machine_model.specs.Script.{table};
ghost use Rattle.script_cli.specs.Inputs.{Gains};
ghost use Rattle.script_cli.specs.Owners.{counts_line};
ghost use Rattle.script_cli.specs.Runs.{AreFirstOwners, PrintsAnswer, PrintsLine, unwell_by as spec_unwell_by, IsRunText, IsRunTo, IsFrontOfFirst, HasScript, IsNoScript, IsNoOpening, Writes, EndsWith};
ghost use Rattle.script_cli.specs.declared.fault.RunFault.TheVariants as run;
ghost use Rattle.script_cli.specs.declared.script.Line.TheVariants as line;
ghost use Rattle.host_core.specs.Opening.{refusal_of_config};
ghost use Rattle.step_core.specs.Opening.{opening_of};

use crate::fault::{RunFault, not_opened, script_at_fault};
use crate::input::{ReadFault, read_first};
use crate::output::{flush, put};
use crate::owners::{append_counts, append_owners};
use crate::reply::append_reply;
use crate::script::{Line, MAX_SCRIPT, Numbered, Script, read_script};
use crate::verb::Verb;
use crate::well::is_well;
use block_image::Image;
use page_ledger::Owner;
use page_memory::PageNo;
use std::alloc::{AllocError, Global};
use std::io::{Read, Write};
use step_core::{Config, Reply, Step};
use world_bench::Bench;

/// Reads a script.
fn load<R: Read>(alloc: Global, reader: &mut R) -> Result<Script, RunFault>
    ensures script { IfOk result (λ script. HasScript (R.remaining reader.old) script) }
    ensures fault { IfErr result (λ fault. IsNoScript (R.remaining reader.old) fault) }
{
    let text = match read_first(alloc, reader, MAX_SCRIPT) {
        Ok(text) => text,
        Err(ReadFault::Unreadable) => return Err(RunFault::Unreadable),
        Err(ReadFault::Memory) => return Err(RunFault::Memory),
    };
    match read_script(alloc, &text) {
        Ok(script) => Ok(script),
        Err(why) => Err(script_at_fault(why)),
    }
}

/// Opens a bench over this image.
///
/// # Errors
///
/// A configuration that is out of range, or [`RunFault::Memory`]. The image is gone then.
pub fn open_bench(alloc: Global, config: Config, image: Image) -> Result<Bench, RunFault>
    ensures fits { IfOk result (λ bench. refusal_of_config config ≡ None) }
    ensures opened { IfOk result (λ bench. bench.table ≡ table (opening_of config image)) }
    ensures image { IsImage image }
    ensures fault { IfErr result (λ fault. IsNoOpening config fault) }
{
    prove!(image.blocks() > 0);
    match Bench::open(alloc, config, image) {
        Ok(bench) => Ok(bench),
        Err(refused) => Err(not_opened(refused.why)),
    }
}

/// Does a step, puts what it answered into an empty text, and answers that.
pub fn play_step(
    bench: &mut Bench,
    number: u32,
    step: Step,
    text: &mut String,
) -> Result<Reply, AllocError>
    requires empty { string_bytes text.old ≡ [] }
    ensures { IfOk result (λ reply. PrintsAnswer bench.old.table number step reply (string_bytes text.new) bench.new.table) }
{
    let verb = Verb::of(&step);
    let reply = bench.step(step);
    append_reply(text, number, verb, &reply)?;
    Ok(reply)
}

/// The owners of the first pages of a bench, this many, in their order.
pub fn first_owners(alloc: Global, bench: &Bench, pages: u32) -> Result<Vec<Owner>, AllocError>
    requires { pages ≤ length bench.now.table.world.memory }
    ensures many { IfOk result (λ owners. length owners.items ≡ pages) }
    ensures owners { IfOk result (λ owners. AreFirstOwners bench.now.table.world owners.items) }
{
    let mut owners = Vec::with_capacity(alloc, pages as usize)?;
    for p in 0..pages {
        owners.push_reserved(bench.owner(PageNo(p)));
    }
    Ok(owners)
}

/// Puts the owners of all pages of a bench into an empty text.
pub fn put_owners(alloc: Global, bench: &Bench, text: &mut String) -> Result<(), AllocError>
    requires empty { string_bytes text.old ≡ [] }
    ensures { OnOk result (PrintsLine bench.now.table 0 line.Owners (string_bytes text.new) 0 bench.now.table) }
{
    let owners = first_owners(alloc, bench, bench.pages())?;
    append_owners(text, &owners)
}

/// How many of an answer are not well: one, or none.
fn unwell_by(reply: &Reply) -> u64
    ensures { result ≡ spec_unwell_by reply.now }
{
    if is_well(reply) { 0 } else { 1 }
}

/// Does what a line says, leaves what it prints in an empty text, and answers how many of its answers are not well.
fn play_line(
    alloc: Global,
    bench: &mut Bench,
    numbered: Numbered,
    text: &mut String,
) -> Result<u64, AllocError>
    requires empty { string_bytes text.old ≡ [] }
    ensures { IfOk result (λ unwell. PrintsLine bench.old.table numbered.number numbered.line (string_bytes text.new) unwell bench.new.table) }
{
    let number = numbered.number;
    match numbered.line {
        Line::Step(step) => {
            let reply = play_step(bench, number, step, text)?;
            Ok(unwell_by(&reply))
        }
        Line::Owners => {
            put_owners(alloc, bench, text)?;
            Ok(0)
        }
        Line::Nothing => Ok(0),
    }
}

/// Plays a script, writes what it prints, and answers how many answers are not well.
fn play<W: Write>(
    alloc: Global,
    bench: &mut Bench,
    script: Script,
    writer: &mut W,
) -> Result<u64, RunFault>
    ensures ran { IfOk result (λ unwell. Gains (W.contents writer.old) (W.contents writer.new) (IsRunTo bench.new.table unwell bench.old.table script)) }
    ensures cut { OnErr result (Gains (W.contents writer.old) (W.contents writer.new) (IsFrontOfFirst bench.old.table script)) }
    ensures fault { IfErr result (λ fault. (fault ≡ run.Memory) ⊎ (fault ≡ run.OutputFailed)) }
{
    let mut text = String::new(alloc);
    let mut unwell = 0u64;
    for numbered in script.into_lines() {
        text.clear();
        let more = play_line(alloc, bench, numbered, &mut text)?;
        unwell = unwell.saturating_add(more);
        put(writer, text.as_bytes())?;
    }
    text.clear();
    append_counts(&mut text, bench.counts())?;
    put(writer, text.as_bytes())?;
    flush(writer)?;
    Ok(unwell)
}

/// What a script leaves that was played.
pub struct Played {
    /// The bench, as the last step left it.
    pub bench: Bench,
    /// How many answers are not well ([`is_well`]).
    pub unwell: u64,
}

/// Plays a script, line after line, over a world that it opens, and writes what each step answered.
///
/// # Errors
///
/// A fault of the script, and then one of the opening; nothing is written then. [`RunFault::Memory`] where memory is refused, and
/// not inside a step; [`RunFault::OutputFailed`] where a write or the flush fails. What was written by then is a prefix of a run's text.
pub fn play_steps<R: Read, W: Write>(
    alloc: Global,
    config: Config,
    image: Image,
    reader: &mut R,
    writer: &mut W,
) -> Result<Played, RunFault>
    ensures ran { IfOk result (λ played. Writes (R.remaining reader.old) config image (W.contents writer.old) (W.contents writer.new) (IsRunTo played.bench.table played.unwell)) }
    ensures failed { IfErr result (λ fault. EndsWith (R.remaining reader.old) config image (W.contents writer.old) (W.contents writer.new) fault) }
{
    let script = load(alloc, reader)?;
    let mut bench = open_bench(alloc, config, image)?;
    match play(alloc, &mut bench, script, writer) {
        Ok(unwell) => Ok(Played { bench, unwell }),
        Err(fault) => {
            let _ended = bench.end();
            Err(fault)
        }
    }
}

/// Plays a script as [`play_steps`] does, and ends its world: the command `steps`.
///
/// # Errors
///
/// As [`play_steps`].
pub fn run_steps<R: Read, W: Write>(
    alloc: Global,
    config: Config,
    image: Image,
    reader: &mut R,
    writer: &mut W,
) -> Result<(), RunFault>
    ensures ran { OnOk result (Writes (R.remaining reader.old) config image (W.contents writer.old) (W.contents writer.new) IsRunText) }
    ensures failed { IfErr result (λ fault. EndsWith (R.remaining reader.old) config image (W.contents writer.old) (W.contents writer.new) fault) }
{
    let Played { bench, unwell: _ } = play_steps(alloc, config, image, reader, writer)?;
    let _ended = bench.end();
    Ok(())
}
