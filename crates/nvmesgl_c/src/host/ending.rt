//! The calls that find the end of a command: a reap and a collection.

ghost use Rattle.std.specs.Prelude.{◌≡◌};
ghost use Rattle.nvmesgl_c.specs.HostEnding as ending;
ghost use Rattle.nvmesgl_c.specs.HostEnding.{Collects, Reaps};
ghost use Rattle.nvmesgl_c.specs.HostKept.{kept_in};

use crate::host::answer::{CDoorbell, bell_in, shown_bell, told_of};
use crate::host::code::code_of_answer;
use crate::host::handle::Handle;
use crate::host::tagged::tag_of;
use crate::words::{Answer, nothing, or_code};
use host_bench::{Call, Reaped, Reply};
use slot_table::LinkedTable;
use std::alloc::Global;

/// The identifier of the command of an I/O queue that a reap found ended.
fn found_in(reply: &Reply) -> Option<u16>
    ensures { result ≡ ending.found_in reply.now }
{
    match reply {
        Reply::Reaps {
            found: Reaped::Done { cid, status: _ },
            bell: _,
        } => Some(*cid),
        _ => None,
    }
}

/// The identifier of a command, where it was collected.
fn collected_in(cid: u16, reply: &Reply) -> Option<u16>
    ensures { result ≡ ending.collected_in cid reply.now }
{
    match reply {
        Reply::Collected { .. } => Some(cid),
        _ => None,
    }
}

/// What a reply tells; of the command that has ended its tag too.
fn told_ended(tags: &LinkedTable<u64>, q: u16, ended: Option<u16>, reply: &Reply) -> Answer
    ensures { result ≡ ending.told_ended tags.now q ended reply.now }
{
    match ended {
        Some(cid) => Answer {
            tag: tag_of(tags, q, cid),
            ..told_of(reply)
        },
        None => told_of(reply),
    }
}

/// Takes a completion from a queue. What was found is told, with the tag of a command of an I/O queue that has ended, and the value for the head doorbell.
#[unsafe(no_mangle)]
pub extern "C" fn nvmehost_reap(
    alloc: Global,
    handle: &mut Handle,
    q: u16,
    bell: &mut CDoorbell,
    answer: &mut Answer,
) -> u32
    ensures { Reaps (kept_in handle.old) q result bell.new answer.new (kept_in handle.new) }
{
    *bell = shown_bell(None);
    *answer = nothing();
    let mut kept = or_code!(handle.take(alloc));
    let reply = kept.bench.call(Call::Reap { q });
    *bell = bell_in(&reply);
    *answer = told_ended(&kept.tags, q, found_in(&reply), &reply);
    handle.put(kept);
    code_of_answer(&reply)
}

/// Collects a command that has ended. Its status, what was hinted at and its tag are told.
#[unsafe(no_mangle)]
pub extern "C" fn nvmehost_collect(
    alloc: Global,
    handle: &mut Handle,
    q: u16,
    cid: u16,
    answer: &mut Answer,
) -> u32
    ensures { Collects (kept_in handle.old) q cid result answer.new (kept_in handle.new) }
{
    *answer = nothing();
    let mut kept = or_code!(handle.take(alloc));
    let reply = kept.bench.call(Call::Collect { q, cid });
    *answer = told_ended(&kept.tags, q, collected_in(cid, &reply), &reply);
    handle.put(kept);
    code_of_answer(&reply)
}
