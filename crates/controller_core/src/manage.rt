//! What an entry of queue 0 does as it is fetched.

ghost use Rattle.std.specs.Prelude.{◌≡◌, ◌<◌, ◌≤◌, find, false, is_none, length};
ghost use Rattle.std.specs.Option.{option_map_or};
ghost use Rattle.controller_core.specs.Contents.{verdict_of_work, is_command};
ghost use Rattle.controller_core.specs.Managing.{view_for, stopped_work, stopped_with_queue, status_of_verdict, dw0_of_verdict, commands_after, queues_after, NamesPages};

use crate::command::{FetchedCommand, FetchedWork};
use crate::commands::Commands;
use crate::queue::ControllerQueue;
use admin_commands::{AdminVerdict, DeviceView, SqState, command_of, queue_of};
use entry_codec::{Status, SubEntry};
use io_commands::Job;
use std::alloc::Allocator;

/// Whether a queue has a command of this identifier that has no verdict.
fn is_walking<A: Allocator>(commands: &Commands<A>, q: u16, cid: u16) -> bool
    ensures { result ≡ option_map_or (λ k. is_none (verdict_of_work k.work)) (find (is_command q cid) commands.now.list) false }
{
    match commands.get(q, cid) {
        Some(command) => command.work.verdict().is_none(),
        None => false,
    }
}

/// What the rule of an admin entry looks at, over a pool of this many pages.
pub(crate) fn view_of<A: Allocator>(
    pages: u32,
    queues: &[ControllerQueue],
    commands: &Commands<A>,
    entry: &SubEntry,
) -> DeviceView
    requires some { 0 < length queues.now }
    requires few { length queues.now ≤ 65536 }
    ensures { result ≡ view_for pages queues.now commands.now.list entry.now }
{
    let q = queue_of(entry);
    let target_walks = is_walking(commands, q, command_of(entry));
    let (sq, cq_there, entries) = match queues.get(usize::from(q)) {
        Some(queue) => (queue.state, queue.cq_there, queue.controller.entries()),
        None => (SqState::Absent, false, 0),
    };
    DeviceView {
        sq,
        cq_there,
        target_walks,
        queues: (queues.len() - 1) as u16,
        entries,
        pages,
    }
}

impl<A: Allocator> FetchedWork<Job<A>> {
    /// Ends a command that has no verdict.
    pub(crate) fn stop(&mut self, status: Status)
        ensures { self.new ≡ stopped_work status self.old }
    {
        match self {
            FetchedWork::Io(job) => {
                if job.verdict().is_none() {
                    job.stop(status);
                }
            }
            FetchedWork::Admin { .. } => {}
        }
    }
}

impl<A: Allocator> FetchedCommand<Job<A>> {
    /// Stops the command where it is one of a queue that is deleted.
    pub(crate) fn stop_with_queue(&mut self, q: u16)
        ensures { self.new ≡ stopped_with_queue q self.old }
    {
        if self.q == q {
            self.work.stop(Status::ABORTED_SQ_DELETION);
        }
    }
}

/// How a command ends that has this verdict: its status, and the command specific double word of its completion.
pub(crate) fn end_of(verdict: AdminVerdict) -> (Status, u32)
    ensures status { result.0 ≡ status_of_verdict verdict }
    ensures dw0 { result.1 ≡ dw0_of_verdict verdict }
{
    match verdict {
        AdminVerdict::Answer { status, dw0 } => (status, dw0),
        _ => (Status::SUCCESS, 0),
    }
}

/// Does what the verdict of a command of this identifier says, to a queue where there is such a queue.
#[tactic(auto, using(crate::proofs::Lists::change_at, crate::proofs::Lists::change_past))]
pub(crate) fn act<A: Allocator>(
    queues: &mut Vec<ControllerQueue, A>,
    commands: &mut Commands<A>,
    abort: u16,
    verdict: AdminVerdict,
)
    requires pages { NamesPages verdict }
    ensures queues { queues.new.items ≡ queues_after verdict queues.old.items }
    ensures commands { commands.new ≡ record commands.old { list = commands_after abort verdict commands.old.list } }
{
    match verdict {
        AdminVerdict::Answer { .. } => {}
        AdminVerdict::AbortJob { q, cid } => commands.abort(q, cid, abort),
        AdminVerdict::StopQueue { q } => {
            commands.stop_queue(q);
            if usize::from(q) < queues.len() {
                queues[usize::from(q)].state = SqState::Stopping;
            }
        }
        AdminVerdict::DropCompletion { q } => {
            if usize::from(q) < queues.len() {
                queues[usize::from(q)].cq_there = false;
            }
        }
        AdminVerdict::MakeCompletion { q, base } => {
            if usize::from(q) < queues.len() {
                queues[usize::from(q)].renew_completion(base);
            }
        }
        AdminVerdict::MakeSubmission { q, base } => {
            if usize::from(q) < queues.len() {
                queues[usize::from(q)].renew_submission(base);
            }
        }
    }
}
