//! A load, from its opening to its line.

ghost use Rattle.std.specs.Prelude.{◌≡◌, ◌≤◌, ◌*◌, All, IfErr, IfOk, IfSome, OnErr, OnOk, Some, length, map, option_map, true, vec_len};
ghost use Rattle.std.specs.Io.KnownBytes.{Appends};
ghost use Rattle.block_image.specs.Blocks.{block_count, blocks_at};
ghost use Rattle.script_cli.specs.Loads.{FitsLoad};
ghost use Rattle.load.specs.Course.{commands_left as spec_commands_left};
ghost use Rattle.driver_book.specs.State.{AreOfJobs};
ghost use Rattle.driver_threads.specs.Ends.{AllAgree};
ghost use Rattle.driver_threads.specs.Jobs.{AllWentBy};
ghost use Rattle.driver_threads.specs.Runs.{EndsRound};
ghost use Rattle.load.specs.Layouts.{IsLayoutFor, too_few};
ghost use Rattle.load.specs.declared.fault.LoadFault.TheVariants.{TooFewBlocks};
ghost use Rattle.load.specs.Lines.{IsLineFront, Tells, line_text};
ghost use Rattle.load.specs.Loaded.{HasRun, IsFirst, IsReadAgain, IsSettingFor, setting_of, standing_of, start};
ghost use Rattle.load.specs.Planning.{IsInside, bytes_for};
ghost use Rattle.load.specs.Rounds.{AreDone, GoesOn, HasGoneOn, HasReadAgain, ReadsOn, all_noted, commands_of as spec_commands_of};
ghost use Rattle.load.specs.Tallies.{KeepsFound, no_tally, tallies_from};
ghost use Rattle.step_core.specs.Opening.{opening_of};
ghost use Rattle.script_cli.specs.Inputs.{Gains, IsFront};

use crate::content::Content;
use crate::course::Course;
use crate::fault::LoadFault;
use crate::figures::ProgressReport;
use crate::layout::Layout;
use crate::line::append_line;
use crate::plan::Planned;
use crate::progress::Interval;
use crate::ran::LoadResult;
use crate::tally::Tally;
use crate::task::{Found, Task, TaskEnds, TaskJob};
use crate::timing::Timing;
use block_image::Image;
use driver_book::BlankBook;
use driver_threads::{Gate, Open, Round, Server, run_round};
use script_cli::progress::{Progress, Standing, Stopwatch};
use script_cli::workload::{Load, OutputFormat, Pattern};
use script_cli::{RunFault, flush, not_opened, put};
use std::alloc::{AllocError, AllocGlobal, Global};
use std::io::Write;
use std::marker::Brand;
use std::rt::Clock;
use std::sync::Wait;
use std::thread::Threads;
use step_core::{Config, World};

/// Runs jobs over a world, by a book of their own.
fn play<G: Gate + Sync, R: Threads + Wait + Sync>(
    rt: &R,
    alloc: Global,
    world: World,
    jobs: Vec<Vec<TaskJob<'_>>>,
    depth: usize,
    server: Server,
    gate: &G,
    blank: BlankBook,
) -> Result<Round<Global, Found>, LoadFault>
    requires number { blank.ledger.parts ≡ 65536 }
    requires some { 1 ≤ vec_len jobs }
    requires few { vec_len jobs ≤ 16 }
    requires some_depth { 1 ≤ depth }
    requires little_depth { depth ≤ 256 }
    ensures ended { IfOk result (λ round. EndsRound world.state round.log round.report round.world) }
    ensures all_jobs { IfOk result (λ round. map length round.jobs ≡ map (λ list. length list.items) jobs.entry.items) }
    ensures agree { IfOk result (λ round. AllAgree round.report.receipts round.jobs) }
    ensures went { IfOk result (λ round. AllWentBy bytes_for KeepsFound world.state (map (λ list. list.items) jobs.entry.items) round.report.receipts round.jobs) }
    ensures jobs { IfOk result (λ round. AreOfJobs round.log.entries) }
{
    match run_round::<Brand, Global, G, R, Found, Task<'_>>(
        rt, alloc, world, jobs, depth, server, gate, blank,
    ) {
        Ok(round) => Ok(round),
        Err(why) => Err(LoadFault::Round(why)),
    }
}

/// What the commands of a round left.
#[derive(Drop)]
struct Left {
    world: World,
    ends: TaskEnds,
    /// How many ended how.
    tally: Tally,
}

/// Runs the commands of a round, and looks at how they ended.
fn run_plans<G: Gate + Sync, R: Threads + Wait + Sync>(
    rt: &R,
    alloc: Global,
    world: World,
    course: &mut Course,
    depth: usize,
    gate: &G,
    plans: &[Vec<Planned>],
) -> Result<Left, LoadFault>
    requires all { length plans.now ≡ course.old.layout.submitters }
    requires inside { All (λ plan. All (IsInside course.old.layout) plan.items) plans.now }
    requires some_depth { 1 ≤ depth }
    requires little_depth { depth ≤ 256 }
    ensures done { IfOk result (λ left. AreDone (setting_of course.old) world.state (map (λ plan. plan.items) plans.now) left.ends left.world) }
    ensures told { IfOk result (λ left. left.tally ≡ tallies_from no_tally (map (λ plan. plan.items) plans.now) left.ends) }
    ensures noted { IfOk result (λ left. course.new.generations.items ≡ all_noted course.old.generations.items (map (λ plan. plan.items) plans.now) left.ends) }
    ensures setting { setting_of course.new ≡ setting_of course.old }
    ensures tally { course.new.tally ≡ course.old.tally }
{
    let jobs = course.jobs(alloc, plans)?;
    let server = course.server();
    let blank = BlankBook::new();
    let Round {
        world,
        jobs: ends,
        ..
    } = play(rt, alloc, world, jobs, depth, server, gate, blank)?;
    let tally = course.look(plans, &ends);
    Ok(Left { world, ends, tally })
}

/// How many commands plans have.
fn commands_of(plans: &[Vec<Planned>]) -> u64
    ensures { result ≡ spec_commands_of (map (λ plan. plan.items) plans.now) }
{
    let mut many = 0u64;
    for plan in plans {
        many = many.saturating_add(plan.len() as u64);
    }
    many
}

/// How many more commands may be begun, after this many and this long; time ends it too where the clock cannot be read.
fn commands_left(load: &Load<'_>, begun: u64, nanos: Option<u64>) -> u64
    ensures { result ≡ spec_commands_left load.now begun nanos }
{
    if let Some(seconds) = load.runtime {
        let until = u64::from(seconds) * 1_000_000_000;
        match nanos {
            Some(nanos) if nanos < until => {}
            _ => return 0,
        }
    }
    match load.count {
        Some(count) => u64::from(count).saturating_sub(begun),
        None => u64::MAX,
    }
}

/// How far a load is, after this many commands and this long.
fn standing_of(load: &Load<'_>, done: u64, nanos: Option<u64>) -> Standing {
    Standing {
        done,
        all: load.count.map(u64::from),
        in_flight: u64::from(load.submitters) * u64::from(load.depth),
        nanos: nanos.unwrap_or(0),
        until: load
            .runtime
            .map(|seconds| u64::from(seconds) * 1_000_000_000),
    }
}

/// Makes the next commands of a load, this many at most, and runs, counts and measures them: the world that they leave, and how many they were.
fn run_some<R: Clock + Threads + Wait + Sync>(
    rt: &R,
    alloc: Global,
    world: World,
    course: &mut Course,
    depth: u16,
    timing: &Timing<'_, R>,
    most: u64,
) -> Result<(World, u64), LoadFault>
    requires some_depth { 1 ≤ depth }
    requires little_depth { depth ≤ 256 }
    ensures done { IfOk result (λ done. GoesOn (setting_of course.old) most (standing_of course.old world.state) done.1 (standing_of course.new done.0.state)) }
    ensures setting { setting_of course.new ≡ setting_of course.old }
{
    let plans = course.plan(alloc, most)?;
    let left = run_plans(rt, alloc, world, course, usize::from(depth), timing, &plans)?;
    course.count(left.tally, true);
    course.measure(&plans, &left.ends, &timing.take(alloc)?);
    Ok((left.world, commands_of(&plans)))
}

/// The bytes of each command.
fn command_bytes(load: &Load<'_>) -> u64
    requires { FitsLoad load.now }
{
    512 * u64::from(load.command_blocks)
}

/// Runs the commands of a load, in rounds. Between rounds it tells how far it is, and what it came to so far.
fn run_commands<R: Clock + Eprint + Threads + Wait + Sync, P: ProgressReport>(
    rt: &R,
    alloc: Global,
    world: World,
    course: &mut Course,
    load: &Load<'_>,
    watch: Stopwatch,
    shows: bool,
    report: &mut P,
) -> Result<World, LoadFault>
    requires { FitsLoad load.now }
    ensures gone_on { IfOk result (λ left. HasGoneOn load.now (setting_of course.old) (standing_of course.old world.state) (standing_of course.new left.state)) }
    ensures setting { setting_of course.new ≡ setting_of course.old }
{
    let timing = Timing::new(rt, alloc, load.submitters)?;
    let mut progress = Progress::new(shows);
    let mut interval = Interval::new(load.interval);
    let mut begun = 0u64;
    let mut world = world;
    for _ in rt.forever() {
        let nanos = watch.nanos(rt);
        let more = commands_left(load, begun, nanos);
        if more == 0 {
            break;
        }
        let standing = standing_of(load, begun, nanos);
        progress.tell(rt, alloc, standing)?;
        if interval.is_due(standing.nanos) {
            report.take(&course.figures(command_bytes(load), standing.nanos));
            if !load.quiet {
                progress.note(rt, alloc, standing)?;
            }
        }
        let (after, many) = run_some(rt, alloc, world, course, load.depth, &timing, more)?;
        world = after;
        begun = begun.saturating_add(many);
    }
    progress.end(rt);
    Ok(world)
}

/// Reads again slots that were written, of each submitter those of a round, starting at this one.
fn read_some<R: Threads + Wait + Sync>(
    rt: &R,
    alloc: Global,
    world: World,
    course: &mut Course,
    depth: usize,
    from: usize,
) -> Result<World, LoadFault>
    requires some_depth { 1 ≤ depth }
    requires little_depth { depth ≤ 256 }
    ensures done { IfOk result (λ left. ReadsOn (setting_of course.old) from (standing_of course.old world.state) (standing_of course.new left.state)) }
    ensures setting { setting_of course.new ≡ setting_of course.old }
{
    let plans = course.plan_reads(alloc, from)?;
    let left = run_plans(rt, alloc, world, course, depth, &Open, &plans)?;
    course.count(left.tally, false);
    Ok(left.world)
}

/// Reads each written slot again, in rounds.
fn read_again<R: Threads + Wait + Sync>(
    rt: &R,
    alloc: Global,
    world: World,
    course: &mut Course,
    depth: usize,
) -> Result<World, LoadFault>
    requires some_depth { 1 ≤ depth }
    requires little_depth { depth ≤ 256 }
    ensures { IfOk result (λ left. HasReadAgain (setting_of course.old) (standing_of course.old world.state) (standing_of course.new left.state)) }
{
    let mut world = world;
    let mut from = 0;
    while from < course.slots() {
        world = read_some(rt, alloc, world, course, depth, from)?;
        from += course.round_slots();
    }
    Ok(world)
}

/// Reads again what was written, where that is compared.
fn read_if_verified<R: Threads + Wait + Sync>(
    rt: &R,
    alloc: Global,
    world: World,
    course: &mut Course,
    load: &Load<'_>,
) -> Result<World, LoadFault>
    requires { FitsLoad load.now }
    ensures { IfOk result (λ left. IsReadAgain load.now.verify (setting_of course.old) (standing_of course.old world.state) (standing_of course.new left.state)) }
{
    if load.verify {
        read_again(rt, alloc, world, course, usize::from(load.depth))
    } else {
        Ok(world)
    }
}

/// How a load shares out the blocks of an image that it uses.
fn share_out(blocks: u32, load: &Load<'_>) -> Result<Layout, LoadFault>
    requires few { blocks ≤ 65536 }
    requires fits { FitsLoad load.now }
    ensures shared { IfOk result (IsLayoutFor load.now blocks) }
    ensures refused { IfErr result (λ why. option_map (λ few. TooFewBlocks few.0 few.1) (too_few load.now blocks) ≡ Some why) }
{
    let used = load.size.unwrap_or(blocks);
    if used > blocks {
        return Err(LoadFault::TooFewBlocks { need: used, blocks });
    }
    match Layout::of(used, load.submitters, load.command_blocks) {
        Some(layout) => Ok(layout),
        None => Err(LoadFault::TooFewBlocks {
            need: u32::from(load.submitters) * load.command_blocks,
            blocks: used,
        }),
    }
}

/// What this many blocks of an image hold at first, where that is compared.
fn first_content(
    alloc: Global,
    image: &Image,
    load: &Load<'_>,
    blocks: u32,
) -> Result<Option<Content>, AllocError>
    requires { blocks ≤ block_count image.now }
    ensures first { IfOk result (λ content. IsFirst load.now.verify load.now.seed (blocks_at image.now 0 blocks) content) }
    ensures whole { IfOk result (λ content. IfSome content (λ content. vec_len content.first ≡ 512 * blocks)) }
{
    if !load.verify {
        return Ok(None);
    }
    let first = Vec::from_slice(alloc, image.blocks_from(0, blocks))?;
    Ok(Some(Content {
        seed: load.seed,
        first,
    }))
}

/// Opens a world over an image, and what goes on over it.
fn open(
    alloc: Global,
    config: Config,
    image: Image,
    load: &Load<'_>,
    server: Server,
) -> Result<(World, Course), LoadFault>
    requires { FitsLoad load.now }
    ensures setting { IfOk result (λ opened. IsSettingFor load.now config.queues image (setting_of opened.1)) }
    ensures start { IfOk result (λ opened. standing_of opened.1 opened.0.state ≡ start (setting_of opened.1) (opening_of config image)) }
{
    let layout = share_out(image.blocks(), load)?;
    let content = first_content(alloc, &image, load, layout.blocks)?;
    let world = match World::open(alloc, config, image) {
        Ok(world) => world,
        Err(refused) => return Err(LoadFault::Run(not_opened(refused.why))),
    };
    let queues = config.queues as u16;
    let course = Course::new(alloc, load, layout, queues, server, content)?;
    Ok((world, course))
}

/// Writes the line that says how a load went.
fn write_line<W: Write>(
    alloc: Global,
    pattern: Pattern,
    tally: Tally,
    writer: &mut W,
) -> Result<(), RunFault>
    ensures written { OnOk result (Appends (W.contents writer.old) (W.contents writer.new) (line_text pattern tally)) }
    ensures cut { OnErr result (Gains (W.contents writer.old) (W.contents writer.new) (λ front. IsFront front (line_text pattern tally))) }
{
    let mut line = String::new(alloc);
    append_line(&mut line, pattern, tally)?;
    put(writer, line.as_bytes())?;
    flush(writer)
}

/// Tells standard output how a load went: by its line, or not at all where JSON is wanted.
fn tell_end<W: Write>(
    alloc: Global,
    load: &Load<'_>,
    tally: Tally,
    writer: &mut W,
) -> Result<(), RunFault>
    ensures told { OnOk result (Tells load.now.format load.now.pattern tally (W.contents writer.old) (W.contents writer.new)) }
    ensures cut { OnErr result (Gains (W.contents writer.old) (W.contents writer.new) (λ front. IsFront front (line_text load.now.pattern tally))) }
{
    match load.format {
        OutputFormat::Normal => write_line(alloc, load.pattern, tally, writer),
        OutputFormat::Json => Ok(()),
    }
}

/// Opens a world over an image, runs the commands of a load over it, reads again what they wrote where that is asked for, and writes the line
/// that says how it went, unless standard output gets JSON: then nothing is written. Where it shows, standard error says how far it is. `server` says who serves as
/// the submitters ring, and `report` is told what it came to so far, between rounds, each time that the load's interval has gone by: then standard error has a line that stays too, unless the load is quiet.
///
/// # Errors
///
/// [`LoadFault::TooFewBlocks`]; then why the opening is refused; then why a round did not run to its end. Nothing is written then. `Memory` where memory is refused, and
/// `OutputFailed` where a write or the flush fails: a prefix of the line may then be written.
#[tactic(auto, using(crate::proofs::Loads::nothing_written, crate::proofs::Loads::front_written))]
pub fn run_load<
    R: AllocGlobal + Clock + Eprint + Threads + Wait + Sync,
    P: ProgressReport,
    W: Write,
>(
    rt: &R,
    config: Config,
    image: Image,
    load: &Load<'_>,
    server: Server,
    shows: bool,
    report: &mut P,
    writer: &mut W,
) -> Result<LoadResult, LoadFault>
    requires fits { FitsLoad load.now }
    ensures ran { IfOk result (λ ran. HasRun config image load.now ran.tally) }
    ensures told { IfOk result (λ ran. Tells load.now.format load.now.pattern ran.tally (W.contents writer.old) (W.contents writer.new)) }
    ensures cut { OnErr result (Gains (W.contents writer.old) (W.contents writer.new) (λ front. IsLineFront load.now.pattern front)) }
{
    let alloc = rt.alloc();
    let (world, mut course) = open(alloc, config, image, load, server)?;
    let watch = Stopwatch::new(rt);
    let world = run_commands(rt, alloc, world, &mut course, load, watch, shows, report)?;
    let nanos = watch.nanos(rt).unwrap_or(0);
    let world = read_if_verified(rt, alloc, world, &mut course, load)?;
    let _ended = world.end();
    let tally = course.tally();
    tell_end(alloc, load, tally, writer)?;
    let (bad, measured) = course.end();
    Ok(LoadResult {
        tally,
        bad,
        measured,
        command_bytes: command_bytes(load),
        nanos,
    })
}
