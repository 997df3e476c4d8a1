//! The completions of a queue, as many as there is room for, in one call.

ghost use Rattle.std.specs.Prelude.{◌≡◌, false, IfErr, IfOk};
ghost use Rattle.host_bench.specs.Calls.{Does};
ghost use Rattle.host_bench.specs.declared.call.Call.TheVariants as call;
ghost use Rattle.nvmesgl_c.specs.HostKept.{kept_in};
ghost use Rattle.nvmesgl_c.specs.HostPolling as polling;
ghost use Rattle.nvmesgl_c.specs.HostPolling.{Ends, Polls, PollsKept, Takes};

use crate::host::answer::{CDoorbell, shown_bell, told_of};
use crate::host::code::code_of_answer;
use crate::host::handle::Handle;
use crate::host::tagged::{Tagged, tag_of};
use crate::words::code::DONE;
use crate::words::{Answer, nothing, or_code, reaped};
use host_bench::{Call, Doorbell, Reaped, Reply};
use std::alloc::Global;

/// A completion that was taken.
#[repr(C)]
#[derive(Clone, Copy)]
pub struct CEnded {
    /// The tag that a command of an I/O queue that has ended was sent with, and else 0.
    pub tag: u64,
    /// What it was: 5 a command of an I/O queue has ended, 6 one of queue 0 has, 7 to 9 it was rejected for its queue, its head or its identifier.
    pub state: u32,
    /// The code of the collection of a command of an I/O queue that has ended, and else 0.
    pub code: u32,
    /// The command specific double word of a completion of queue 0.
    pub dw0: u32,
    /// The identifier of a command that has ended.
    pub cid: u16,
    /// The status code type.
    pub sct: u8,
    /// The status code.
    pub sc: u8,
    /// The retry delay that was hinted at of a command of an I/O queue that was collected.
    pub retry_delay: u8,
    /// Whether there is more on it in the controller's log.
    pub more: bool,
    /// Whether it is expected to fail again.
    pub do_not_retry: bool,
    /// Zeros.
    pub reserved: [u8; 13],
}

/// How a poll went.
#[derive(Drop)]
struct Polled {
    /// How many completions it took.
    count: usize,
    /// The value for the head doorbell, where it took one.
    bell: Option<Doorbell>,
    /// What the reap answered that took none, if it came to one.
    end: Option<Reply>,
}

/// A completion, as C sees it.
fn shown(found: Answer, code: u32, tag: u64) -> CEnded
    ensures { result ≡ polling.shown found code tag }
{
    CEnded {
        tag,
        state: found.state,
        code,
        dw0: found.dw0,
        cid: found.cid,
        sct: found.sct,
        sc: found.sc,
        retry_delay: 0,
        more: false,
        do_not_retry: false,
        reserved: [0; 13],
    }
}

/// A completion with what the collection of its command tells that was hinted at.
fn with_hints(collected: &Reply, entry: CEnded) -> CEnded
    ensures { result ≡ polling.with_hints collected.now entry }
{
    match collected {
        Reply::Collected { status: _, hints } => CEnded {
            retry_delay: hints.retry_delay,
            more: hints.more,
            do_not_retry: hints.do_not_retry,
            ..entry
        },
        _ => entry,
    }
}

/// Whether a reap took a completion.
fn is_taken(reply: &Reply) -> bool
    ensures { result ≡ polling.is_taken reply.now }
{
    match reply {
        Reply::Reaps { found, bell: _ } => !matches!(found, Reaped::Empty),
        _ => false,
    }
}

/// Collects the command that a completion ends, if it is one of an I/O queue.
fn end(kept: &mut Tagged, q: u16, found: Reaped) -> CEnded
    ensures ends { Ends kept.old.bench kept.old.tags q found result kept.new.bench }
    ensures tags { kept.new.tags ≡ kept.old.tags }
{
    match found {
        Reaped::Done { cid, status: _ } => {
            let collected = kept.bench.call(Call::Collect { q, cid });
            let tag = tag_of(&kept.tags, q, cid);
            let entry = shown(reaped(found), code_of_answer(&collected), tag);
            with_hints(&collected, entry)
        }
        _ => shown(reaped(found), DONE, 0),
    }
}

/// Takes a completion, and collects the command that it ends.
///
/// # Errors
///
/// What the reap answered, where it took none.
fn take(kept: &mut Tagged, q: u16) -> Result<(CEnded, Option<Doorbell>), Reply>
    ensures taken { IfOk result (λ taken. Takes kept.old.bench kept.old.tags q taken.0 taken.1 kept.new.bench) }
    ensures none { IfErr result (λ why. Does kept.old.bench (call.Reap q) why kept.new.bench) }
    ensures tags { kept.new.tags ≡ kept.old.tags }
    ensures stops { IfErr result (λ why. polling.is_taken why ≡ false) }
{
    let reply = kept.bench.call(Call::Reap { q });
    if !is_taken(&reply) {
        return Err(reply);
    }
    match reply {
        Reply::Reaps { found, bell } => Ok((end(kept, q, found), bell)),
        other => Err(other),
    }
}

/// Takes completions, as many as there is room for.
fn poll(kept: &mut Tagged, q: u16, into: &mut [CEnded]) -> Polled
    ensures polls { Polls kept.old.bench kept.old.tags q into.old into.new result.count result.bell result.end kept.new.bench }
    ensures tags { kept.new.tags ≡ kept.old.tags }
{
    let mut bell = None;
    for count in 0..into.len() {
        match take(kept, q) {
            Ok((entry, rung)) => {
                into[count] = entry;
                bell = rung;
            }
            Err(why) => {
                let end = Some(why);
                return Polled { count, bell, end };
            }
        }
    }
    Polled {
        count: into.len(),
        bell,
        end: None,
    }
}

/// The code of how a poll went.
fn code_of_end(end: &Option<Reply>) -> u32
    ensures { result ≡ polling.code_of_end end.now }
{
    match end {
        Some(why) => code_of_answer(why),
        None => DONE,
    }
}

/// What C is told of how a poll went.
fn told_of_end(end: &Option<Reply>) -> Answer
    ensures { result ≡ polling.told_of_end end.now }
{
    match end {
        Some(why) => told_of(why),
        None => nothing(),
    }
}

/// Takes the completions of a queue, as many as there is room for, and collects each command that they end. How many there were is told, and the value for the head doorbell.
#[unsafe(no_mangle)]
pub extern "C" fn nvmehost_poll(
    alloc: Global,
    handle: &mut Handle,
    q: u16,
    ended: &mut [CEnded],
    count: &mut usize,
    bell: &mut CDoorbell,
    answer: &mut Answer,
) -> u32
    ensures { PollsKept (kept_in handle.old) q result ended.old ended.new count.new bell.new answer.new (kept_in handle.new) }
{
    *count = 0;
    *bell = shown_bell(None);
    *answer = nothing();
    let mut kept = or_code!(handle.take(alloc));
    let polled = poll(&mut kept, q, ended);
    handle.put(kept);
    *count = polled.count;
    *bell = shown_bell(polled.bell);
    *answer = told_of_end(&polled.end);
    code_of_end(&polled.end)
}
