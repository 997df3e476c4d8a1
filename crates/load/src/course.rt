//! What goes on from round to round.

ghost use Rattle.load.specs.Planning.{IsInside};
ghost use Rattle.std.specs.Prelude.{◌≡◌, ◌≤◌, ◌<◌, ◌*◌, ◌/◌, All, IfOk, IfSome, length, map, max, min, replicate, vec_len};
ghost use Rattle.std.proofs.Props.{props};
ghost use Rattle.load.specs.Course.{AreJobs, ArePlans, commands_for as spec_commands_for, share_of as spec_share_of};
ghost use Rattle.load.specs.Rounds.{AreReads, all_noted};
ghost use Rattle.load.specs.Tallies.{both, counted, no_tally, tallies_from};
ghost use Rattle.script_cli.specs.Loads.{FitsLoad};

use crate::bad::Bad;
use crate::content::Content;
use crate::figures::Figures;
use crate::layout::Layout;
use crate::look::{look_at, note_writes};
use crate::measured::Measured;
use crate::picks::Picks;
use crate::plan::{Planned, jobs_of, plan_some, reads_of};
use crate::tally::Tally;
use crate::task::{TaskEnds, TaskJob};
use driver_threads::Server;
use script_cli::workload::Load;
use std::alloc::{AllocError, Global};

/// The most commands of a round whose log is not limited and which has few submitters: this many leave a log of some thousand entries.
const USUAL_ROUND: u64 = 800;

/// The most commands of each submitter in such a round where there are more: each round starts their threads.
const USUAL_SHARE: u64 = 200;

/// The most blocks that the commands of such a round read or write in all: 100 MiB.
const MOST_BLOCKS: u64 = 204_800;

/// What goes on from round to round, besides the world.
#[derive(Drop)]
pub(crate) struct Course {
    layout: Layout,
    seed: u32,
    /// How many I/O queues there are.
    queues: u16,
    /// Who serves as the submitters ring.
    server: Server,
    /// The most commands of a round.
    round: u64,
    picks: Vec<Picks>,
    /// How often each slot was written.
    generations: Vec<u32>,
    /// What the slots hold, where that is compared.
    content: Option<Content>,
    tally: Tally,
    bad: Option<Bad>,
    measured: Measured,
    ghost some_queues: { 1 ≤ queues },
    ghost all_picks: { vec_len picks ≡ layout.submitters },
    ghost all_slots: { vec_len generations ≡ layout.submitters * layout.slots },
    ghost whole: { IfSome content (λ c. vec_len c.first ≡ 512 * layout.blocks) } by { Prim.hlevel props },
}

/// The most commands of a round, each of this many blocks: so many that its log has no more entries than it may have, and one at least.
fn commands_for(command_blocks: u32, submitters: u16, log_limit: Option<u32>) -> u64
    requires some { 1 ≤ command_blocks }
    requires few { command_blocks ≤ 256 }
    ensures { result ≡ spec_commands_for command_blocks submitters log_limit }
{
    let Some(entries) = log_limit else {
        let usual = USUAL_ROUND.max(USUAL_SHARE * u64::from(submitters));
        return usual.min(MOST_BLOCKS / u64::from(command_blocks));
    };
    let pages = u64::from(command_blocks).div_ceil(8);
    (u64::from(entries) / (8 + 3 * pages)).max(1)
}

/// How many of a given number of commands a submitter does.
fn share_of(commands: u64, submitters: u16, submitter: u16) -> u64
    requires { submitter < submitters }
    ensures { result ≡ spec_share_of commands submitters submitter }
{
    let all = u64::from(submitters);
    let more = if u64::from(submitter) < commands % all {
        1
    } else {
        0
    };
    commands / all + more
}

impl Course {
    /// Before the first round, over an image of these bytes where reads are compared.
    pub(crate) fn new(
        alloc: Global,
        load: &Load<'_>,
        layout: Layout,
        queues: u16,
        server: Server,
        content: Option<Content>,
    ) -> Result<Course, AllocError>
        requires fits { FitsLoad load.now }
        requires queues { 1 ≤ queues }
        requires whole { IfSome content (λ c. vec_len c.first ≡ 512 * layout.blocks) }
        ensures layout { IfOk result (λ course. course.layout ≡ layout) }
        ensures seed { IfOk result (λ course. course.seed ≡ load.now.seed) }
        ensures queues { IfOk result (λ course. course.queues ≡ queues) }
        ensures round { IfOk result (λ course. course.round ≡ spec_commands_for load.now.command_blocks layout.submitters load.now.log_limit) }
        ensures content { IfOk result (λ course. course.content ≡ content) }
        ensures generations { IfOk result (λ course. course.generations.items ≡ replicate (layout.submitters * layout.slots) 0) }
        ensures tally { IfOk result (λ course. course.tally ≡ no_tally) }
    {
        let mut picks = Vec::with_capacity(alloc, usize::from(layout.submitters))?;
        for submitter in 0..layout.submitters {
            picks.push(Picks::new(load.pattern, load.reads, load.seed, submitter))?;
        }
        Ok(Course {
            layout,
            seed: load.seed,
            queues,
            server,
            round: commands_for(load.command_blocks, layout.submitters, load.log_limit),
            picks,
            generations: vec![in alloc; 0; layout.all_slots()]?,
            content,
            tally: Tally::NONE,
            bad: None,
            measured: Measured::new(alloc)?,
        })
    }

    /// Who serves as the submitters ring.
    pub(crate) fn server(&self) -> Server {
        self.server
    }

    /// How many commands ended how.
    pub(crate) fn tally(&self) -> Tally
        ensures { result ≡ self.now.tally }
    {
        self.tally
    }

    /// The next commands of the load, this many at most.
    pub(crate) fn plan(&mut self, alloc: Global, most: u64) -> Result<Vec<Vec<Planned>>, AllocError>
        ensures all { IfOk result (λ plans. vec_len plans ≡ self.new.layout.submitters) }
        ensures inside { IfOk result (λ plans. All (λ plan. All (IsInside self.new.layout) plan.items) plans.items) }
        ensures planned { IfOk result (λ plans. ArePlans self.old.layout self.old.generations.items (min most self.old.round) (map (λ plan. plan.items) plans.items)) }
        ensures layout { self.new.layout ≡ self.old.layout }
        ensures seed { self.new.seed ≡ self.old.seed }
        ensures queues { self.new.queues ≡ self.old.queues }
        ensures round { self.new.round ≡ self.old.round }
        ensures content { self.new.content ≡ self.old.content }
        ensures generations { self.new.generations ≡ self.old.generations }
        ensures tally { self.new.tally ≡ self.old.tally }
    {
        let commands = most.min(self.round);
        let layout = self.layout;
        let mut plans = Vec::with_capacity(alloc, usize::from(layout.submitters))?;
        for submitter in 0..layout.submitters {
            let share = share_of(commands, layout.submitters, submitter) as usize;
            let picks = &mut self.picks[usize::from(submitter)];
            let plan = plan_some(alloc, layout, submitter, picks, &self.generations, share)?;
            plans.push(plan)?;
        }
        Ok(plans)
    }

    /// Reads of slots that were written, of each submitter those starting at a slot, and the slot that is next.
    pub(crate) fn plan_reads(
        &self,
        alloc: Global,
        from: usize,
    ) -> Result<Vec<Vec<Planned>>, AllocError>
        ensures all { IfOk result (λ plans. vec_len plans ≡ self.now.layout.submitters) }
        ensures inside { IfOk result (λ plans. All (λ plan. All (IsInside self.now.layout) plan.items) plans.items) }
        ensures reads { IfOk result (λ plans. AreReads self.now.layout self.now.generations.items from (min self.now.layout.slots (max (self.now.round / self.now.layout.submitters) 1)) (map (λ plan. plan.items) plans.items)) }
    {
        let layout = self.layout;
        let begin = from.min(layout.slots);
        let many = self.round_slots().min(layout.slots - begin);
        let mut plans = Vec::with_capacity(alloc, usize::from(layout.submitters))?;
        for submitter in 0..layout.submitters {
            let first = layout.first_slot(submitter) + begin;
            plans.push(reads_of(alloc, layout, &self.generations, first, many)?)?;
        }
        Ok(plans)
    }

    /// How many slots each submitter has.
    pub(crate) fn slots(&self) -> usize
        ensures { result ≡ self.now.layout.slots }
    {
        self.layout.slots
    }

    /// How many slots of each submitter are read again in a round.
    pub(crate) fn round_slots(&self) -> usize
        ensures { result ≡ min self.now.layout.slots (max (self.now.round / self.now.layout.submitters) 1) }
    {
        let many = self.round / u64::from(self.layout.submitters);
        self.layout.slots.min(many.max(1) as usize)
    }

    /// The jobs of a round, for which no bytes are made yet. A submitter has one queue, and submitters share queues where there are fewer.
    pub(crate) fn jobs(
        &self,
        alloc: Global,
        plans: &[Vec<Planned>],
    ) -> Result<Vec<Vec<TaskJob<'_>>>, AllocError>
        requires all { length plans.now ≡ self.now.layout.submitters }
        requires inside { All (λ plan. All (IsInside self.now.layout) plan.items) plans.now }
        ensures jobs { IfOk result (λ lists. AreJobs self.now.layout self.now.seed self.now.content self.now.queues (map (λ plan. plan.items) plans.now) (map (λ list. list.items) lists.items)) }
        ensures some { IfOk result (λ lists. 1 ≤ vec_len lists) }
        ensures few { IfOk result (λ lists. vec_len lists ≤ 16) }
    {
        let mut lists = Vec::with_capacity(alloc, plans.len())?;
        for submitter in 0..self.layout.submitters {
            let plan = plans[usize::from(submitter)].as_slice();
            let q = 1 + submitter % self.queues;
            lists.push(jobs_of(alloc, self.layout, self.seed, &self.content, q, plan)?)?;
        }
        Ok(lists)
    }

    /// Looks at how the commands of a round ended, and notes what they wrote.
    pub(crate) fn look(&mut self, plans: &[Vec<Planned>], ends: &TaskEnds) -> Tally
        requires inside { All (λ plan. All (IsInside self.old.layout) plan.items) plans.now }
        ensures told { result ≡ tallies_from no_tally (map (λ plan. plan.items) plans.now) ends.now }
        ensures layout { self.new.layout ≡ self.old.layout }
        ensures seed { self.new.seed ≡ self.old.seed }
        ensures queues { self.new.queues ≡ self.old.queues }
        ensures round { self.new.round ≡ self.old.round }
        ensures content { self.new.content ≡ self.old.content }
        ensures tally { self.new.tally ≡ self.old.tally }
        ensures noted { self.new.generations.items ≡ all_noted self.old.generations.items (map (λ plan. plan.items) plans.now) ends.now }
    {
        let layout = self.layout;
        let mut tally = Tally::NONE;
        for (plan, list) in plans.iter().zip(ends.as_slice()) {
            let looked = look_at(layout, plan, list);
            tally = tally.and(looked.tally);
            self.bad = self.bad.or(looked.bad);
            note_writes(&mut self.generations, plan, list);
        }
        tally
    }

    /// Counts commands of the load, or reads after them.
    pub(crate) fn count(&mut self, tally: Tally, of_load: bool)
        ensures counted { self.new.tally ≡ both self.old.tally (counted of_load tally) }
        ensures layout { self.new.layout ≡ self.old.layout }
        ensures seed { self.new.seed ≡ self.old.seed }
        ensures queues { self.new.queues ≡ self.old.queues }
        ensures round { self.new.round ≡ self.old.round }
        ensures content { self.new.content ≡ self.old.content }
        ensures generations { self.new.generations ≡ self.old.generations }
    {
        self.tally = self.tally.and(tally.counted(of_load));
    }

    /// Counts how long the commands of a round took.
    pub(crate) fn measure(&mut self, plans: &[Vec<Planned>], ends: &TaskEnds, times: &[Vec<u64>])
        ensures layout { self.new.layout ≡ self.old.layout }
        ensures seed { self.new.seed ≡ self.old.seed }
        ensures queues { self.new.queues ≡ self.old.queues }
        ensures round { self.new.round ≡ self.old.round }
        ensures content { self.new.content ≡ self.old.content }
        ensures generations { self.new.generations ≡ self.old.generations }
        ensures tally { self.new.tally ≡ self.old.tally }
    {
        for ((plan, list), took) in plans.iter().zip(ends.as_slice()).zip(times) {
            self.measured.add(plan, list, took);
        }
    }

    /// What it came to so far, in this many nanoseconds, of commands of this many bytes.
    pub(crate) fn figures(&self, command_bytes: u64, nanos: u64) -> Figures<'_> {
        Figures {
            tally: self.tally,
            measured: &self.measured,
            command_bytes,
            nanos,
        }
    }

    /// What is left at the end: the first command that did not end well, and how long commands took.
    pub(crate) fn end(self) -> (Option<Bad>, Measured) {
        (self.bad, self.measured)
    }
}
