//! A script of jobs, done by threads over a book that they share.

ghost use Rattle.std.specs.Prelude.{◌≡◌, ◌≤◌, ◌<◌, ◌++◌, [], ◌∷◌, All, IfOk, IfErr, OnOk, None, length, map, slice_index_or, slice_set, vec_len};
ghost use Rattle.std.specs.Io.KnownBytes.{Appends};
ghost use Rattle.block_image.specs.Blocks.{IsImage};
ghost use Rattle.host_core.specs.Opening.{refusal_of_config};
ghost use Rattle.job_cli.specs.GoneOn.{HasGoneOn};
ghost use Rattle.job_cli.specs.Headings.{headed_so_far, headings_of, IsNoRun};
ghost use Rattle.job_cli.specs.JobRuns.{AreListsOf, EndsJobsWith, HasJobs, IsCountedText, IsNoJobs, WritesJobs};
ghost use Rattle.job_cli.specs.declared.telling.Form.TheVariants.{Lines};
ghost use Rattle.step_core.specs.Opening.{opening_of};

use crate::job_lines::unwell_jobs;
use crate::jobs::{JobLine, JobScript, read_jobs};
use crate::rounds::{Done, Pace, do_jobs};
use crate::telling::write_closing;
use block_image::Image;
use driver_threads::Job;
use io_commands::Kind;
use script_cli::{MAX_SCRIPT, ReadFault, RunFault, not_opened, read_first, script_at_fault};
use std::alloc::{AllocError, Global};
use std::collections::VecDeque;
use std::io::{Read, Write};
use std::rt::Clock;
use std::sync::Wait;
use std::thread::Threads;
use step_core::{Config, World};

/// What the line of a job begins with, and which of its submitter's jobs it is.
#[derive(Clone, Copy, Debug)]
pub(crate) struct Heading {
    pub(crate) number: u32,
    pub(crate) submitter: u16,
    pub(crate) kind: Kind,
    /// How many jobs the submitter does before it.
    pub(crate) place: usize,
}

/// The jobs of a script, as they are handed out.
#[derive(Drop)]
pub(crate) struct Orders {
    /// One for each job, in the order of the lines.
    pub(crate) headings: Vec<Heading>,
    /// One list for each submitter, in the order of the lines.
    pub(crate) lists: Vec<VecDeque<Job>>,
}

/// Reads a script of jobs.
fn load_jobs<I: Read>(alloc: Global, submitters: u16, reader: &mut I) -> Result<JobScript, RunFault>
    ensures script { IfOk result (λ script. HasJobs (I.remaining reader.old) submitters script) }
    ensures below { IfOk result (λ script. All (λ line. line.submitter < submitters) script) }
    ensures fault { IfErr result (λ fault. IsNoJobs (I.remaining reader.old) submitters fault) }
{
    let text = match read_first(alloc, reader, MAX_SCRIPT) {
        Ok(text) => text,
        Err(ReadFault::Unreadable) => return Err(RunFault::Unreadable),
        Err(ReadFault::Memory) => return Err(RunFault::Memory),
    };
    match read_jobs(alloc, &text, submitters) {
        Ok(script) => Ok(script),
        Err(why) => Err(script_at_fault(why)),
    }
}

/// An empty list for each submitter.
#[tactic(auto, using(crate::proofs::JobRuns::lists_of_none))]
fn no_jobs(alloc: Global, submitters: u16) -> Result<Vec<VecDeque<Job>>, AllocError>
    ensures count { IfOk result (λ lists. vec_len lists ≡ submitters) }
    ensures empty { IfOk result (λ lists. AreListsOf submitters [] (map (λ list. list.items) lists.items)) }
{
    let count = usize::from(submitters);
    let mut lists = Vec::with_capacity(alloc, count)?;
    while lists.len() < count {
        lists.push_reserved(VecDeque::new(alloc));
    }
    Ok(lists)
}

/// Hands a job to its submitter, and answers how many the submitter had before.
fn give(lists: &mut Vec<VecDeque<Job>>, submitter: u16, job: Job) -> Result<usize, AllocError>
    requires { submitter < vec_len lists.old }
    ensures count { vec_len lists.new ≡ vec_len lists.old }
    ensures given { OnOk result (map (λ list. list.items) lists.new.items ≡ slice_set (map (λ list. list.items) lists.old.items) submitter (slice_index_or (map (λ list. list.items) lists.old.items) submitter [] ++ job ∷ [])) }
    ensures place { IfOk result (λ place. place ≡ length (slice_index_or (map (λ list. list.items) lists.old.items) submitter [])) }
{
    let list = &mut lists[usize::from(submitter)];
    let place = list.len();
    list.push_back(job)?;
    Ok(place)
}

/// Hands each job to its submitter.
pub(crate) fn hand_out(
    alloc: Global,
    submitters: u16,
    lines: Vec<JobLine>,
) -> Result<Orders, AllocError>
    requires { All (λ line. line.submitter < submitters) lines.items }
    ensures headings { IfOk result (λ orders. orders.headings.items ≡ headings_of lines.items) }
    ensures lists { IfOk result (λ orders. AreListsOf submitters lines.items (map (λ list. list.items) orders.lists.items)) }
    ensures count { IfOk result (λ orders. vec_len orders.lists ≡ submitters) }
{
    let mut headings = Vec::new(alloc);
    let mut lists = no_jobs(alloc, submitters)?;
    for line in lines {
        let JobLine {
            number,
            submitter,
            job,
        } = line;
        let kind = job.request.kind;
        let place = give(&mut lists, submitter, job)?;
        headings.push(Heading {
            number,
            submitter,
            kind,
            place,
        })?;
    }
    Ok(Orders { headings, lists })
}

/// Does jobs over a world that is opened for them, and writes how they ended.
fn run_world<R: Clock + Eprint + Threads + Wait + Sync, W: Write>(
    rt: &R,
    alloc: Global,
    config: Config,
    image: Image,
    orders: Orders,
    pace: Pace,
    writer: &mut W,
) -> Result<Done, RunFault>
    requires some { 1 ≤ vec_len orders.lists }
    requires few { vec_len orders.lists ≤ 16 }
    requires at_least_one { 1 ≤ pace.depth }
    requires at_most { pace.depth ≤ 256 }
    ensures opened { IfOk result (λ done. refusal_of_config config ≡ None) }
    ensures image { IsImage image }
    ensures gone_on { IfOk result (λ done. HasGoneOn (opening_of config image) (map (λ queue. queue.items) orders.lists.items) done.ends done.world.state) }
    ensures ended { IfOk result (λ done. map length done.ends ≡ map (λ queue. length queue.items) orders.lists.items) }
    ensures written { pace.form ≡ Lines → IfOk result (λ done. Appends (W.contents writer.old) (W.contents writer.new) (headed_so_far done.ends orders.headings.items)) }
    ensures failed { pace.form ≡ Lines → IfErr result (λ why. IsNoRun config image (map (λ queue. queue.items) orders.lists.items) orders.headings.items (W.contents writer.old) (W.contents writer.new) why) }
{
    prove!({
        image.blocks();
        true
    });
    match World::open(alloc, config, image) {
        Ok(world) => do_jobs(rt, alloc, world, orders, pace, writer),
        Err(refused) => Err(not_opened(refused.why)),
    }
}

/// Runs a script of jobs: each submitter does its jobs in a thread of its own, one after the other in the order of their lines, over a
/// world that is opened for them: the command `threads`. It writes the line of each job, in the order of the script's lines, then the owners of all pages and the
/// counts; or objects of JSON, where the pace's form is that. There are 1 to 16 submitters. Where the pace has a limit for logs, the jobs are done in rounds: each goes
/// on over the world that the one before left, and its log is dropped at its end. After each round the lines of those jobs are written and handed on whose turn came:
/// up to the first that has not ended. What is written in all is the same. The answer is how many jobs were refused or have a status other than 0:00.
///
/// # Errors
///
/// A fault of the script, and then one of the opening; nothing is written then. [`RunFault::NoThread`] where a thread cannot be made and [`RunFault::Close`] where the
/// book of a round is not closed: the lines of the rounds before are written then. [`RunFault::Memory`] where memory is refused, to a submitter too;
/// [`RunFault::OutputFailed`] where a write or the flush fails. What was written by then is a prefix of a run's text.
pub fn run_jobs<R: Clock + Eprint + Threads + Wait + Sync, I: Read, W: Write>(
    rt: &R,
    alloc: Global,
    config: Config,
    image: Image,
    submitters: u16,
    pace: Pace,
    reader: &mut I,
    writer: &mut W,
) -> Result<u64, RunFault>
    requires some { 1 ≤ submitters }
    requires few { submitters ≤ 16 }
    requires at_least_one { 1 ≤ pace.depth }
    requires at_most { pace.depth ≤ 256 }
    ensures ran { pace.form ≡ Lines → IfOk result (λ unwell. WritesJobs (I.remaining reader.old) submitters config image (W.contents writer.old) (W.contents writer.new) (IsCountedText unwell)) }
    ensures failed { pace.form ≡ Lines → IfErr result (λ fault. EndsJobsWith (I.remaining reader.old) submitters config image (W.contents writer.old) (W.contents writer.new) fault) }
{
    let script = load_jobs(alloc, submitters, reader)?;
    let orders = hand_out(alloc, submitters, script.into_jobs())?;
    let done = run_world(rt, alloc, config, image, orders, pace, writer)?;
    match write_closing(alloc, pace.form, &done.world, writer) {
        Ok(()) => Ok(unwell_jobs(&done.ends)),
        Err(why) => Err(why),
    }
}
