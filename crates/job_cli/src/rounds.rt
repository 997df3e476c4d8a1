//! Jobs in rounds: each opens a book over the world that the one before left, and its log is dropped.

ghost use Rattle.std.specs.Prelude.{◌≡◌, ◌≤◌, ◌==◌, ◌++◌, [], not, map, length, take, vec_len, IfOk, IfErr, IfSome, IfNone};
ghost use Rattle.std.specs.List.{list_any};
ghost use Rattle.driver_book.specs.State.{AreOfJobs};
ghost use Rattle.driver_threads.specs.Behind.{behind};
ghost use Rattle.driver_threads.specs.Ends.{AllAgree};
ghost use Rattle.driver_threads.specs.Jobs.{AllWent};
ghost use Rattle.driver_threads.specs.Runs.{EndsRound};
ghost use Rattle.job_cli.specs.JobRuns.{IsWanting};
ghost use Rattle.job_cli.specs.GoneOn.{Fit, HasGoneOn, entries_for};
ghost use Rattle.job_cli.specs.Headings.{headed_so_far, IsCutShort};
ghost use Rattle.job_cli.specs.declared.telling.Form.TheVariants.{Lines};
ghost use Rattle.std.specs.Io.KnownBytes.{Appends};

use crate::fault::not_run;
use crate::job_runs::Orders;
use crate::telling::{Form, write_ended};
use driver_book::BlankBook;
use driver_threads::{Job, JobEnds, Open, Round, Server, run_round};
use script_cli::RunFault;
use script_cli::progress::{Progress, Standing, Stopwatch};
use std::alloc::{AllocError, Global};
use std::collections::VecDeque;
use std::io::Write;
use std::marker::Brand;
use std::rt::Clock;
use std::sync::Wait;
use std::thread::Threads;
use step_core::{Bytes, World};

/// How jobs are done.
#[derive(Clone, Copy, Debug, PartialEq, Eq)]
pub struct Pace {
    /// How many jobs each submitter may have in flight at a time, 1 to 256.
    pub depth: u16,
    /// Who serves as the submitters ring.
    pub server: Server,
    /// How many entries the log of a round of jobs may have, as far as that is known before: the jobs are done in rounds, of each submitter
    /// one job at least, and the log of a round is dropped at its end. `None`: all jobs are one round.
    pub log_limit: Option<u32>,
    /// What is written of the jobs.
    pub form: Form,
    /// Whether standard error says how far the jobs are, between rounds.
    pub shows: bool,
}

impl Pace {
    /// How many entries of the log of a round each of this many submitters may write.
    pub(crate) fn share(self, submitters: usize) -> Option<u32>
        requires some { 1 ≤ submitters }
        requires few { submitters ≤ 16 }
    {
        match self.log_limit {
            None => None,
            Some(limit) => Some(limit / submitters as u32),
        }
    }

    /// How far a run of this many jobs is after this long, of which these are left.
    fn standing(self, nanos: Option<u64>, jobs: usize, left: &[VecDeque<Job>]) -> Standing {
        let all = jobs as u64;
        Standing {
            done: all.saturating_sub(count_left(left)),
            all: Some(all),
            in_flight: (left.len() as u64).saturating_mul(u64::from(self.depth)),
            nanos: nanos.unwrap_or(0),
            until: None,
        }
    }
}

/// The most pieces of a request that is not refused.
const MOST_PIECES: usize = 1024;

/// How many entries of a log a job writes at most, where no step of it is refused.
fn entries_of(job: &Job) -> u64
    ensures { result ≡ entries_for job.now }
{
    let pieces = job.request.pieces().len();
    8 + 3 * pieces.min(MOST_PIECES) as u64
}

/// How many of a submitter's next jobs write no more entries than a share of a log has; one at least, where there is one.
fn fitting(left: &VecDeque<Job>, share: u32) -> usize
    ensures most { result ≤ length left.now.items }
    ensures least { result ≡ 0 → left.now.items ≡ [] }
    ensures fit { Fit share (take result left.now.items) }
{
    let mut entries = 0;
    for place in 0..left.len() {
        entries += entries_of(&left[place]);
        if place > 0 && entries > u64::from(share) {
            return place;
        }
    }
    left.len()
}

/// Takes a submitter's next jobs.
fn take_next(alloc: Global, left: &mut VecDeque<Job>, count: usize) -> Result<Vec<Job>, AllocError>
    requires { count ≤ length left.old.items }
    ensures next { IfOk result (λ jobs. jobs.items ++ left.new.items ≡ left.old.items) }
    ensures count { IfOk result (λ jobs. length jobs.items ≡ count) }
{
    let mut jobs = Vec::with_capacity(alloc, count)?;
    while jobs.len() < count {
        let Some(job) = left.pop_front() else {
            break;
        };
        jobs.push_reserved(job);
    }
    Ok(jobs)
}

/// Takes the jobs that a submitter does in the next round: all, or those that fit into its share of a log.
fn next_jobs(
    alloc: Global,
    left: &mut VecDeque<Job>,
    share: Option<u32>,
) -> Result<Vec<Job>, AllocError>
    ensures next { IfOk result (λ jobs. jobs.items ++ left.new.items ≡ left.old.items) }
    ensures fit { IfOk result (λ jobs. IfSome share (λ share. Fit share jobs.items)) }
    ensures all { IfNone share (IfOk result (λ jobs. jobs.items ≡ left.old.items)) }
{
    let count = match share {
        None => left.len(),
        Some(share) => fitting(left, share),
    };
    take_next(alloc, left, count)
}

/// Takes the jobs of the next round, of each submitter its own.
fn next_round(
    alloc: Global,
    left: &mut Vec<VecDeque<Job>>,
    share: Option<u32>,
) -> Result<Vec<Vec<Job>>, AllocError>
    ensures next { IfOk result (λ round. behind (map (λ list. list.items) round.items) (map (λ queue. queue.items) left.new.items) ≡ map (λ queue. queue.items) left.old.items) }
    ensures count { IfOk result (λ round. vec_len round ≡ vec_len left.old) }
    ensures left { vec_len left.new ≡ vec_len left.old }
{
    let count = left.len();
    let mut round = Vec::with_capacity(alloc, count)?;
    for place in 0..count {
        let jobs = next_jobs(alloc, &mut left[place], share)?;
        round.push_reserved(jobs);
    }
    Ok(round)
}

/// Whether some submitter has jobs left.
fn some_has_jobs(left: &[VecDeque<Job>]) -> bool
    ensures { result ≡ list_any (λ queue. not (length queue.items == 0)) left.now }
{
    left.iter().any(|queue| !queue.is_empty())
}

/// What rounds of jobs left.
#[derive(Drop)]
pub(crate) struct Done {
    /// How the jobs ended.
    pub(crate) ends: JobEnds,
    /// The world to which the last round led.
    pub(crate) world: World,
}

/// Does a round of jobs over a world.
fn one_round<R: Threads + Wait + Sync>(
    rt: &R,
    alloc: Global,
    world: World,
    jobs: Vec<Vec<Job>>,
    pace: Pace,
) -> Result<Round, RunFault>
    requires some { 1 ≤ vec_len jobs }
    requires few { vec_len jobs ≤ 16 }
    requires at_least_one { 1 ≤ pace.depth }
    requires at_most { pace.depth ≤ 256 }
    ensures ended { IfOk result (λ round. EndsRound world.state round.log round.report round.world) }
    ensures all_jobs { IfOk result (λ round. map length round.jobs ≡ map (λ list. length list.items) jobs.items) }
    ensures agree { IfOk result (λ round. AllAgree round.report.receipts round.jobs) }
    ensures went { IfOk result (λ round. AllWent world.state (map (λ list. list.items) jobs.items) round.report.receipts round.jobs) }
    ensures jobs { IfOk result (λ round. AreOfJobs round.log.entries) }
    ensures fault { IfErr result IsWanting }
{
    let blank = BlankBook::new();
    match run_round::<Brand, Global, Open, R, Bytes, Bytes>(
        rt,
        alloc,
        world,
        jobs,
        usize::from(pace.depth),
        pace.server,
        &Open,
        blank,
    ) {
        Ok(round) => Ok(round),
        Err(why) => Err(not_run(why)),
    }
}

/// How many jobs are left.
fn count_left(left: &[VecDeque<Job>]) -> u64 {
    left.iter()
        .fold(0, |count, queue| count.saturating_add(queue.len() as u64))
}

/// Does jobs over a world, in rounds, and writes after each round how the jobs ended whose turn came.
fn tell_rounds<R: Clock + Eprint + Threads + Wait + Sync, W: Write>(
    rt: &R,
    alloc: Global,
    world: World,
    orders: Orders,
    pace: Pace,
    progress: &mut Progress,
    writer: &mut W,
) -> Result<Done, RunFault>
    requires some { 1 ≤ vec_len orders.lists }
    requires few { vec_len orders.lists ≤ 16 }
    requires at_least_one { 1 ≤ pace.depth }
    requires at_most { pace.depth ≤ 256 }
    ensures gone_on { IfOk result (λ done. HasGoneOn world.state (map (λ queue. queue.items) orders.lists.items) done.ends done.world.state) }
    ensures ended { IfOk result (λ done. map length done.ends ≡ map (λ queue. length queue.items) orders.lists.items) }
    ensures written { pace.form ≡ Lines → IfOk result (λ done. Appends (W.contents writer.old) (W.contents writer.new) (headed_so_far done.ends orders.headings.items)) }
    ensures failed { pace.form ≡ Lines → IfErr result (λ why. IsCutShort world.state (map (λ queue. queue.items) orders.lists.items) orders.headings.items (W.contents writer.old) (W.contents writer.new) why) }
{
    let Orders { headings, lists } = orders;
    let watch = Stopwatch::new(rt);
    let share = pace.share(lists.len());
    let mut untold = headings.as_slice();
    let mut left = lists;
    let mut world = world;
    let mut ends = JobEnds::none(alloc);
    for _ in rt.forever() {
        let round = next_round(alloc, &mut left, share)?;
        let round = one_round(rt, alloc, world, round, pace)?;
        world = round.world;
        ends.append(round.jobs)?;
        progress.end(rt);
        untold = write_ended(alloc, pace.form, untold, &ends, writer)?;
        if !some_has_jobs(&left) {
            break;
        }
        progress.tell(
            rt,
            alloc,
            pace.standing(watch.nanos(rt), headings.len(), &left),
        )?;
    }
    Ok(Done { ends, world })
}

/// Does the jobs of submitters over a world, in rounds, and writes after each round how the jobs ended whose turn came: in the order of the headings, up to the first that
/// has not ended. Where the pace shows it, standard error says how far they are.
pub(crate) fn do_jobs<R: Clock + Eprint + Threads + Wait + Sync, W: Write>(
    rt: &R,
    alloc: Global,
    world: World,
    orders: Orders,
    pace: Pace,
    writer: &mut W,
) -> Result<Done, RunFault>
    requires some { 1 ≤ vec_len orders.lists }
    requires few { vec_len orders.lists ≤ 16 }
    requires at_least_one { 1 ≤ pace.depth }
    requires at_most { pace.depth ≤ 256 }
    ensures gone_on { IfOk result (λ done. HasGoneOn world.state (map (λ queue. queue.items) orders.lists.items) done.ends done.world.state) }
    ensures ended { IfOk result (λ done. map length done.ends ≡ map (λ queue. length queue.items) orders.lists.items) }
    ensures written { pace.form ≡ Lines → IfOk result (λ done. Appends (W.contents writer.old) (W.contents writer.new) (headed_so_far done.ends orders.headings.items)) }
    ensures failed { pace.form ≡ Lines → IfErr result (λ why. IsCutShort world.state (map (λ queue. queue.items) orders.lists.items) orders.headings.items (W.contents writer.old) (W.contents writer.new) why) }
{
    let mut progress = Progress::new(pace.shows);
    let done = tell_rounds(rt, alloc, world, orders, pace, &mut progress, writer);
    progress.end(rt);
    done
}
