//! What a device may do with which page now: for an IOMMU, which then holds the device to it.

ghost use Rattle.std.specs.Prelude.{◌≡◌, ◌<◌, ℕ};
ghost use Rattle.host_core.specs.Halves.{half_of};
ghost use Rattle.host_core.specs.Parts.{record_of, records_of};
ghost use Rattle.host_core.specs.Rights.{following, memory_of_queue, queue_memory_at, right_at, right_of_data, right_of_owner, right_of_role, ring_of, runs_of_command, FirstRun};
ghost use Rattle.host_core.specs.Tables.{host_queue_of};

use crate::host::Host;
use crate::queue::Queue;
use crate::record::Record;
use crate::reset::has_half;
use crate::tables::HostTables;
use io_commands::Kind;
use machine_model::words::Work;
use page_ledger::{Owner, Role};
use page_memory::{Half, PageNo};
use queue_pair::{HostPair, half_pages};
use std::alloc::Allocator;
use std::marker::Model;

/// What a device may do with a page.
#[derive(Clone, Copy, Debug, PartialEq, Eq)]
pub enum Right {
    /// Nothing: it may neither read nor write it.
    Nothing,
    /// It may read it.
    Read,
    /// It may write it.
    Write,
}

/// Consecutive pages with one right.
#[derive(Clone, Copy, Debug, PartialEq, Eq)]
pub struct Run {
    /// The first page.
    pub first: PageNo,
    /// How many pages there are, at least one.
    pub count: usize,
    /// What a device may do with each of them.
    pub right: Right,
}

/// The memory of a queue's rings.
#[derive(Clone, Copy, Debug, PartialEq, Eq)]
pub struct QueueMemory {
    /// The submission queue, which a device may read; none while the host has no such half of the queue.
    pub submission: Option<Run>,
    /// The completion queue, which a device may write; none while the host has no such half of the queue.
    pub completion: Option<Run>,
}

/// What a device may do with the data of such a command.
fn right_of(kind: Kind) -> Right
    ensures { result ≡ right_of_data kind }
{
    if kind.brings_data() {
        Right::Write
    } else {
        Right::Read
    }
}

impl<A: Allocator> Record<A> {
    /// What a device may do with a page of the command.
    fn right(&self, role: Role) -> Right
        ensures { (q cid : ℕ) → result ≡ right_of_role (record_of q cid self.now) role }
    {
        if !self.is_submitted() {
            return Right::Nothing;
        }
        match (&self.work, role) {
            (Work::Io(request), Role::Data) => right_of(request.kind),
            (Work::Io(_), Role::Chain) => Right::Read,
            (Work::Management(_), Role::Data | Role::Chain) => Right::Nothing,
        }
    }
}

/// How many of the pages follow one, each the next.
fn followers(first: PageNo, pages: &[PageNo]) -> usize
    ensures { result ≡ following first pages.now }
{
    let mut last = first;
    let mut count = 0;
    for page in pages {
        if page.0 == 0 || page.0 - 1 != last.0 {
            return count;
        }
        last = *page;
        count += 1;
    }
    count
}

/// The first run of some pages.
fn first_run(pages: &[PageNo], right: Right) -> Option<Run>
    ensures { FirstRun right pages.now result }
{
    let first = *pages.first()?;
    Some(Run {
        first,
        count: followers(first, &pages[1..]) + 1,
        right,
    })
}

/// The pages of a command as runs, first those of its data and then those of its chain. Contracts see the runs that are left.
#[derive(Drop)]
pub struct Runs<'a> {
    data_pages: &'a [PageNo],
    data_right: Right,
    chain_pages: &'a [PageNo],
    chain_right: Right,
}

impl<'a> Model for Runs<'a> {
    ghost use Rattle.std.specs.Prelude.{List, ◌++◌};
    ghost use Rattle.host_core.specs.Rights.{runs_of};
    ghost use Rattle.host_core.specs.declared.rights.Run.{Run};

    ghost Value = { List Run };

    ghost view = { λ r. runs_of r.data_right r.data_pages.now ++ runs_of r.chain_right r.chain_pages.now };
}

impl<'a> Iterator for Runs<'a> {
    ghost use Rattle.std.specs.Iterator.{item_count};
    ghost use Rattle.host_core.specs.Rights.{GivesRun};

    type Item = Run;

    ghost next_gives = { GivesRun };

    ghost remaining = { item_count (λ runs. runs) };

    fn next(&mut self) -> Option<Run> {
        if let Some(run) = first_run(self.data_pages, self.data_right) {
            self.data_pages = &self.data_pages[run.count..];
            return Some(run);
        }
        let run = first_run(self.chain_pages, self.chain_right)?;
        self.chain_pages = &self.chain_pages[run.count..];
        Some(run)
    }
}

/// The memory of one ring of a queue, while the host has it.
fn ring_memory<A: Allocator>(
    queue: &Queue<HostPair<A>>,
    entries: u16,
    half: Half,
    right: Right,
) -> Option<Run>
    requires entries { queue.now.host.entries ≡ entries }
    requires some { 0 < entries }
    ensures { result ≡ ring_of right (half_of half queue.now) }
{
    if !has_half(queue.state, half) {
        return None;
    }
    Some(Run {
        first: queue.host.first_page(half),
        count: half_pages(entries, half) as usize,
        right,
    })
}

/// The memory of a queue's rings.
fn memory_of<A: Allocator>(queue: &Queue<HostPair<A>>, entries: u16) -> QueueMemory
    requires entries { queue.now.host.entries ≡ entries }
    requires some { 0 < entries }
    ensures { result ≡ memory_of_queue (host_queue_of queue.now) }
{
    QueueMemory {
        submission: ring_memory(queue, entries, Half::Submission, Right::Read),
        completion: ring_memory(queue, entries, Half::Completion, Right::Write),
    }
}

impl<A: Allocator> HostTables<A> {
    /// What a device may do with a page of this owner.
    fn right(&self, owner: Owner) -> Right
        ensures { result ≡ right_of_owner (records_of self.now.records.rows) owner }
    {
        match owner {
            Owner::Free => Right::Nothing,
            Owner::Queue {
                half: Half::Submission,
                ..
            } => Right::Read,
            Owner::Queue {
                half: Half::Completion,
                ..
            } => Right::Write,
            Owner::Command { q, cid, role } => match self.records.get(q, cid) {
                Some(entry) => entry.right(role),
                None => Right::Nothing,
            },
        }
    }
}

impl<A: Allocator> Host<A> {
    /// What a device may do with a page now: of each command that is submitted and not yet reaped read the chain, and write the data
    /// where it brings data ([`Kind::brings_data`]) and else read it; read the submission rings, write the completion rings; and nothing
    /// else. Outside the pool nothing.
    pub fn may(&self, p: PageNo) -> Right
        ensures { result ≡ right_at self.now.host p }
    {
        if p.0 >= self.parts.ledger.pages() {
            return Right::Nothing;
        }
        self.parts.right(self.parts.ledger.owner(p))
    }

    /// The pages of a command as runs, with what a device may do with them now; none where no such command is outstanding.
    pub fn runs(&self, q: u16, cid: u16) -> Runs<'_>
        ensures { result ≡ runs_of_command self.now.host q cid }
    {
        match self.parts.records.get(q, cid) {
            Some(entry) => Runs {
                data_pages: &entry.data_pages,
                data_right: entry.right(Role::Data),
                chain_pages: &entry.chain_pages,
                chain_right: entry.right(Role::Chain),
            },
            None => Runs {
                data_pages: &[],
                data_right: Right::Nothing,
                chain_pages: &[],
                chain_right: Right::Nothing,
            },
        }
    }

    /// The memory of a queue's rings, if there is a queue of this number.
    pub fn queue_memory(&self, q: u16) -> Option<QueueMemory>
        ensures { result ≡ queue_memory_at self.now.host q }
    {
        if usize::from(q) >= self.parts.queues.len() {
            return None;
        }
        let queue = &self.parts.queues[usize::from(q)];
        Some(memory_of(queue, self.parts.entries))
    }
}
