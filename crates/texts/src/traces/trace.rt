//! Which step is traced, and what it moved.

ghost use Rattle.std.specs.Prelude.{◌≡◌};
ghost use Rattle.texts.specs.Traces.{traced_of};

use crate::traces::entries::{put_completion, put_submission};
use crate::traces::rings::{put_doorbell, slot_before};
use std::alloc::AllocError;
use step_core::{Half, Owner, PageNo, Reaped, Reply, Rings, Role, Step};
use world_bench::Bench;

/// What its trace needs of a step, while the step itself is spent.
#[derive(Clone, Copy, Debug, PartialEq, Eq)]
pub enum Traced {
    /// An entry is put into a submission queue.
    Entry(u16),
    /// A tail doorbell is written.
    Ring(u16),
    /// The controller fetches an entry.
    Fetch(u16),
    /// It posts a completion.
    Complete(u16),
    /// A completion is taken.
    Reap(u16),
    /// Another step; the pages that the controller touches are told.
    Other,
}

impl Traced {
    /// What its trace needs of a step.
    pub fn of(step: &Step) -> Traced
        ensures { result ≡ traced_of step.now }
    {
        match step {
            Step::Submit { q, .. } => Traced::Entry(*q),
            Step::Ring { q } => Traced::Ring(*q),
            Step::Fetch { q } => Traced::Fetch(*q),
            Step::Complete { q, .. } => Traced::Complete(*q),
            Step::Reap { q } => Traced::Reap(*q),
            Step::Abort { .. }
            | Step::DeleteSq { .. }
            | Step::DeleteCq { .. }
            | Step::CreateCq { .. }
            | Step::CreateSq { .. } => Traced::Entry(0),
            _ => Traced::Other,
        }
    }
}

/// Puts who owns a page.
fn put_owner(out: &mut String, owner: Owner) -> Result<(), AllocError> {
    match owner {
        Owner::Free => out.push_str("free"),
        Owner::Queue {
            q,
            half: Half::Submission,
        } => write!(out, "queue {q} sq"),
        Owner::Queue {
            q,
            half: Half::Completion,
        } => write!(out, "queue {q} cq"),
        Owner::Command {
            q,
            cid,
            role: Role::Data,
        } => write!(out, "command {q} {cid} data"),
        Owner::Command {
            q,
            cid,
            role: Role::Chain,
        } => write!(out, "command {q} {cid} chain"),
    }
}

/// Puts the pages that a step of the controller touched, with their owners.
fn put_touched(out: &mut String, bench: &Bench, touched: &[PageNo]) -> Result<(), AllocError> {
    for page in touched {
        let p = page.0;
        if p < bench.pages() {
            write!(out, "  touched page {p}: ")?;
            put_owner(out, bench.owner(*page))?;
            out.push_str("\n")?;
        }
    }
    Ok(())
}

/// Puts what the host wrote.
fn put_host(
    out: &mut String,
    bench: &mut Bench,
    entries: u16,
    traced: Traced,
    q: u16,
    rings: &Rings,
) -> Result<(), AllocError>
    ensures same { bench.new.table ≡ bench.old.table }
{
    let (tail, head) = (rings.host.submission_tail, rings.host.completion_head);
    match traced {
        Traced::Entry(_) => put_submission(out, bench, q, slot_before(entries, tail), true),
        Traced::Ring(_) => put_doorbell(out, q, Half::Submission, tail),
        Traced::Reap(_) => {
            put_completion(out, bench, q, slot_before(entries, head))?;
            put_doorbell(out, q, Half::Completion, head)
        }
        _ => Ok(()),
    }
}

/// Puts what the controller read or wrote in a queue.
fn put_controller(
    out: &mut String,
    bench: &mut Bench,
    entries: u16,
    traced: Traced,
    q: u16,
    rings: &Rings,
) -> Result<(), AllocError>
    ensures same { bench.new.table ≡ bench.old.table }
{
    match (traced, rings.submission, rings.completion) {
        (Traced::Fetch(_), Some(at), _) => {
            put_submission(out, bench, q, slot_before(entries, at.head), false)
        }
        (Traced::Complete(_), _, Some(at)) => {
            put_completion(out, bench, q, slot_before(entries, at.tail))
        }
        _ => Ok(()),
    }
}

/// The queue of a step that has one.
fn queue_of(traced: Traced) -> Option<u16> {
    match traced {
        Traced::Entry(q)
        | Traced::Ring(q)
        | Traced::Fetch(q)
        | Traced::Complete(q)
        | Traced::Reap(q) => Some(q),
        Traced::Other => None,
    }
}

/// Whether a step was done that moves something.
fn was_done(reply: &Reply) -> bool {
    match reply {
        Reply::Accepted
        | Reply::Sent { .. }
        | Reply::Fetched { .. }
        | Reply::Walked { .. }
        | Reply::Completed { .. } => true,
        Reply::Reaps(found) => *found != Reaped::Empty,
        _ => false,
    }
}

/// Puts what a step moved, from what the bench shows after it: the entry that was put into a queue, with the segments of its list; the completion that
/// was posted or taken; the value that was written to a doorbell; the pages that the controller touched. For a refused step there is
/// nothing. It looks at each page, to find those of a queue.
///
/// # Errors
///
/// Where memory is refused.
pub fn put_trace(
    out: &mut String,
    bench: &mut Bench,
    entries: u16,
    traced: Traced,
    reply: &Reply,
) -> Result<(), AllocError>
    ensures same { bench.new.table ≡ bench.old.table }
{
    if !was_done(reply) {
        return Ok(());
    }
    if let Some(q) = queue_of(traced) {
        if let Some(rings) = bench.rings(q) {
            put_host(out, bench, entries, traced, q, &rings)?;
            put_controller(out, bench, entries, traced, q, &rings)?;
        }
    }
    match reply {
        Reply::Fetched { touched, .. }
        | Reply::Walked { touched, .. }
        | Reply::Completed { touched } => put_touched(out, bench, touched.pages()),
        _ => Ok(()),
    }
}
