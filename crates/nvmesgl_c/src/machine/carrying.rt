//! A whole command, from its reservation to its release.

ghost use Rattle.std.specs.Prelude.{◌≡◌, false, IfOk, IfErr, IfSome, IfNone, OnErr, length};
ghost use Rattle.machine_model.specs.Script.{finished_at};
ghost use Rattle.nvmesgl_c.specs.MachineCarried.{IsCarried, IsLaid, IsListedFor, brought_in, outcome_of};
ghost use Rattle.nvmesgl_c.specs.MachineWhole as whole;
ghost use Rattle.nvmesgl_c.specs.MachineWhole.{AllDone, FirstFails, Finishes, Goes, ReapsUntil, ComesOut, Carries, begin_steps, end_steps, submit_steps};
ghost use Rattle.step_core.specs.Bench.{Does};
ghost use Rattle.step_core.specs.declared.step.Reply.TheVariants as reply;
ghost use Rattle.step_core.specs.declared.step.Step.TheVariants as step;

use crate::machine::desk::Desk;
use crate::machine::serve::serve;
use machine_model::words::Reaped;
use step_core::{Bytes, Hints, Reply, Request, Status, Step};

/// The most completions that are reaped for a command: as many as a ring has.
const MOST_REAPS: u32 = 1_024;

/// What a Read brought.
#[derive(Drop)]
pub enum Brought {
    /// This many bytes, at the start of the buffer.
    Laid(usize),
    /// These, as a list: the buffer is as it was.
    Listed(Bytes),
}

/// How a whole command turned out.
#[derive(Drop)]
pub enum Carried {
    /// It ended, and was released.
    Ended {
        /// Its status.
        status: Status,
        /// What was hinted at.
        hints: Hints,
        /// What a Read brought.
        brought: Brought,
    },
    /// It was not reserved: what the reservation answered.
    NotReserved(Reply),
    /// It could not be submitted, and was cancelled: what the step answered that was not done.
    GivenUp(Reply),
    /// It was submitted and could not be finished, and is outstanding.
    Left {
        /// Its identifier.
        cid: u16,
        /// What the step answered that was not done.
        why: Reply,
    },
}

/// Whether a step was done that has nothing to tell.
fn is_accepted(reply: &Reply) -> bool
    ensures { result ≡ whole.is_accepted reply.now }
{
    matches!(reply, Reply::Accepted)
}

/// How a command that was collected ended, and what was hinted at.
fn collected(answer: Reply) -> Result<(Status, Hints), Reply>
    ensures end { IfOk result (λ end. answer ≡ reply.Collected end.0 end.1) }
    ensures back { IfErr result (λ why. why ≡ answer) }
    ensures other { IfErr result (λ why. whole.is_collected why ≡ false) }
{
    match answer {
        Reply::Collected { status, hints } => Ok((status, hints)),
        other => Err(other),
    }
}

/// The bytes that were gathered.
fn gathered(answer: Reply) -> Result<Bytes, Reply>
    ensures bytes { IfOk result (λ bytes. answer ≡ reply.Gathered bytes) }
    ensures back { IfErr result (λ why. why ≡ answer) }
    ensures other { IfErr result (λ why. whole.is_gathered why ≡ false) }
{
    match answer {
        Reply::Gathered(bytes) => Ok(bytes),
        other => Err(other),
    }
}

/// The identifier of a command that was reserved.
fn reserved(answer: Reply) -> Result<u16, Reply>
    ensures identifier { IfOk result (λ cid. whole.Names cid answer) }
    ensures back { IfErr result (λ why. why ≡ answer) }
    ensures other { IfErr result (λ why. whole.is_reserved why ≡ false) }
{
    match answer {
        Reply::Reserved { cid, .. } => Ok(cid),
        other => Err(other),
    }
}

/// Builds a draft and submits it. What the step answered that was not done, if one was not.
fn submit(desk: &mut Desk, q: u16, cid: u16) -> Option<Reply>
    ensures done { IfNone result (AllDone desk.old (submit_steps q cid) desk.new) }
    ensures failed { IfSome result (λ why. FirstFails desk.old (submit_steps q cid) why desk.new) }
{
    let built = desk.step(Step::Build { q, cid });
    if !is_accepted(&built) {
        return Some(built);
    }
    let submitted = desk.step(Step::Submit { q, cid });
    if !is_accepted(&submitted) {
        return Some(submitted);
    }
    None
}

/// Fills a draft, where there are bytes, builds it and submits it. What the step answered that was not done, if one was not.
fn begin(desk: &mut Desk, q: u16, cid: u16, bytes: Option<Bytes>) -> Option<Reply>
    ensures done { IfNone result (AllDone desk.old (begin_steps q cid bytes) desk.new) }
    ensures failed { IfSome result (λ why. FirstFails desk.old (begin_steps q cid bytes) why desk.new) }
{
    match bytes {
        Some(bytes) => {
            let filled = desk.step(Step::Fill { q, cid, bytes });
            if !is_accepted(&filled) {
                return Some(filled);
            }
            submit(desk, q, cid)
        }
        None => submit(desk, q, cid),
    }
}

/// Whether nothing more is reaped for a command.
fn stops(cid: u16, reply: &Reply) -> bool
    ensures { result ≡ whole.stops cid reply.now }
{
    match reply {
        Reply::Reaps(Reaped::Done { cid: ended, .. }) => *ended == cid,
        Reply::Reaps(Reaped::AdminDone { .. } | Reaped::Rejected(_)) => false,
        _ => true,
    }
}

/// Reaps a queue until a command has ended, or there is no completion.
fn reap_until(desk: &mut Desk, q: u16, cid: u16)
    ensures { ReapsUntil q cid desk.old desk.new }
{
    for taken in 0..MOST_REAPS {
        let reply = desk.step(Step::Reap { q });
        if stops(cid, &reply) {
            return;
        }
    }
}

/// Rings the queue of a submitted command, has the controller serve, and reaps until the command has ended.
fn wait(desk: &mut Desk, q: u16, cid: u16)
    ensures { Goes q cid desk.old desk.new }
{
    drop(desk.step(Step::Ring { q }));
    serve(desk);
    reap_until(desk, q, cid);
}

/// Gathers what a collected command brought as a list.
///
/// # Errors
///
/// What the step answered that was not done.
fn list(desk: &mut Desk, q: u16, cid: u16) -> Result<Bytes, Reply>
    ensures gathered { IfOk result (λ bytes. Does desk.old (step.Gather q cid) (reply.Gathered bytes) desk.new) }
    ensures failed { IfErr result (λ why. Does desk.old (step.Gather q cid) why desk.new) }
    ensures other { IfErr result (λ why. whole.is_gathered why ≡ false) }
{
    gathered(desk.step(Step::Gather { q, cid }))
}

/// Gathers what a collected command brought: to the start of a buffer where it fits, and else as a list.
///
/// # Errors
///
/// What the step answered that was not done; then nothing was laid.
fn gather(desk: &mut Desk, q: u16, cid: u16, buffer: &mut [u8]) -> Result<Brought, Reply>
    ensures gathered { IfOk result (λ brought. Does desk.old (step.Gather q cid) (reply.Gathered (brought_in brought buffer.new)) desk.new) }
    ensures laid { IfOk result (λ brought. IsLaid brought buffer.old buffer.new) }
    ensures listed { IfOk result (λ brought. IsListedFor (finished_at q cid desk.old.finished) (length buffer.old) brought) }
    ensures failed { IfErr result (λ why. Does desk.old (step.Gather q cid) why desk.new) }
    ensures other { IfErr result (λ why. whole.is_gathered why ≡ false) }
    ensures kept { OnErr result (buffer.new ≡ buffer.old) }
{
    if let Some(count) = desk.gather_into(q, cid, buffer) {
        return Ok(Brought::Laid(count));
    }
    Ok(Brought::Listed(list(desk, q, cid)?))
}

/// Collects a command that has ended, gathers its bytes, and releases it: once it is collected and gathered, its release is sure.
///
/// # Errors
///
/// What the first step answered that was not done; then nothing was laid.
fn finish(
    desk: &mut Desk,
    q: u16,
    cid: u16,
    buffer: &mut [u8],
) -> Result<(Status, Hints, Brought), Reply>
    ensures finished { IfOk result (λ end. Finishes desk.old q cid end.0 end.1 (brought_in end.2 buffer.new) desk.new) }
    ensures laid { IfOk result (λ end. IsLaid end.2 buffer.old buffer.new) }
    ensures failed { IfErr result (λ why. FirstFails desk.old (end_steps q cid) why desk.new) }
    ensures kept { OnErr result (buffer.new ≡ buffer.old) }
{
    let (status, hints) = collected(desk.step(Step::Collect { q, cid }))?;
    let brought = gather(desk, q, cid, buffer)?;
    let released = desk.step(Step::Release { q, cid });
    if !is_accepted(&released) {
        return Err(released);
    }
    Ok((status, hints, brought))
}

/// Carries a reserved command on to its release. What a Read brought is laid at the start of the buffer, where it fits.
fn carry_reserved(
    desk: &mut Desk,
    q: u16,
    cid: u16,
    bytes: Option<Bytes>,
    buffer: &mut [u8],
) -> Carried
    ensures comes { ComesOut desk.old q cid bytes (outcome_of result buffer.new) desk.new }
    ensures laid { IsCarried result buffer.old buffer.new }
{
    if let Some(why) = begin(desk, q, cid, bytes) {
        drop(desk.step(Step::Cancel { q, cid }));
        return Carried::GivenUp(why);
    }
    wait(desk, q, cid);
    match finish(desk, q, cid, buffer) {
        Ok((status, hints, brought)) => Carried::Ended {
            status,
            hints,
            brought,
        },
        Err(why) => Carried::Left { cid, why },
    }
}

/// Carries a command from its reservation to its release. What a Read brought is laid at the start of the buffer, where it fits.
pub(crate) fn carry(
    desk: &mut Desk,
    q: u16,
    request: Request,
    bytes: Option<Bytes>,
    buffer: &mut [u8],
) -> Carried
    ensures carries { Carries desk.old q request bytes (outcome_of result buffer.new) desk.new }
    ensures laid { IsCarried result buffer.old buffer.new }
{
    match reserved(desk.step(Step::Reserve { q, request })) {
        Ok(cid) => carry_reserved(desk, q, cid, bytes, buffer),
        Err(why) => Carried::NotReserved(why),
    }
}
