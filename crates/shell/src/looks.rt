//! What rings look like.

ghost use Rattle.std.specs.Prelude.{◌≡◌, ◌+◌, ◌-◌, ◌++◌, OnOk, string_bytes};
ghost use Rattle.shell.specs.Rings.{completion_text, fetching_text, host_completion_text, host_submission_text, posting_text, ring_text, SaysAllRings, SaysRings, state_text, submission_text};

use std::alloc::AllocError;
use step_core::{FetchPositions, HostPositions, PostPositions, Rings};
use world_bench::Bench;

/// Says where the controller stands in a submission ring, if it has one.
fn say_fetching(out: &mut String, controller: Option<FetchPositions>) -> Result<(), AllocError>
    ensures { OnOk result (string_bytes out.new ≡ string_bytes out.old ++ fetching_text controller) }
{
    match controller {
        Some(at) => {
            let (head, bell) = (at.head, at.tail_doorbell);
            write!(out, "head {head}, tail doorbell {bell}\n")
        }
        None => out.push_str("has none\n"),
    }
}

/// Says where the host stands in a submission ring.
fn say_host_submission(out: &mut String, host: HostPositions) -> Result<(), AllocError>
    ensures { OnOk result (string_bytes out.new ≡ string_bytes out.old ++ host_submission_text host) }
{
    let (tail, known) = (host.submission_tail, host.submission_head);
    write!(
        out,
        "  sq: host tail {tail}, knows head {known}; controller "
    )
}

/// Says where both sides stand in a submission ring.
fn say_submission(
    out: &mut String,
    host: HostPositions,
    controller: Option<FetchPositions>,
) -> Result<(), AllocError>
    ensures { OnOk result (string_bytes out.new ≡ string_bytes out.old ++ submission_text host controller) }
{
    say_host_submission(out, host)?;
    say_fetching(out, controller)
}

/// Says where the controller stands in a completion ring, if it has one.
fn say_posting(out: &mut String, controller: Option<PostPositions>) -> Result<(), AllocError>
    ensures { OnOk result (string_bytes out.new ≡ string_bytes out.old ++ posting_text controller) }
{
    match controller {
        Some(at) => {
            let (tail, phase, bell) = (at.tail, u8::from(at.phase), at.head_doorbell);
            write!(out, "tail {tail}, phase {phase}, head doorbell {bell}\n")
        }
        None => out.push_str("has none\n"),
    }
}

/// Says where the host stands in a completion ring.
fn say_host_completion(out: &mut String, host: HostPositions) -> Result<(), AllocError>
    ensures { OnOk result (string_bytes out.new ≡ string_bytes out.old ++ host_completion_text host) }
{
    let (head, phase) = (host.completion_head, u8::from(host.phase));
    write!(out, "  cq: host head {head}, phase {phase}; controller ")
}

/// Says where both sides stand in a completion ring.
fn say_completion(
    out: &mut String,
    host: HostPositions,
    controller: Option<PostPositions>,
) -> Result<(), AllocError>
    ensures { OnOk result (string_bytes out.new ≡ string_bytes out.old ++ completion_text host controller) }
{
    say_host_completion(out, host)?;
    say_posting(out, controller)
}

/// Says the state of a queue by its name, and how many of its commands are outstanding.
fn say_state(out: &mut String, q: u16, name: &str, outstanding: usize) -> Result<(), AllocError>
    ensures { OnOk result (string_bytes out.new ≡ string_bytes out.old ++ state_text name.now q outstanding) }
{
    write!(out, "queue {q}: {name}, outstanding {outstanding}\n")
}

/// Says where both sides stand in the rings of a queue, whose state has this name.
fn say_ring(out: &mut String, q: u16, name: &str, rings: &Rings) -> Result<(), AllocError>
    ensures { OnOk result (string_bytes out.new ≡ string_bytes out.old ++ ring_text name.now q rings.now) }
{
    say_state(out, q, name, rings.outstanding)?;
    say_submission(out, rings.host, rings.submission)?;
    say_completion(out, rings.host, rings.completion)
}

/// Says where both sides stand in the rings of a queue, as far as it is there.
fn say_queue(bench: &Bench, q: u16, out: &mut String) -> Result<(), AllocError>
    ensures { OnOk result (SaysRings bench.now.table.world q (string_bytes out.old) (string_bytes out.new)) }
{
    let Some(rings) = bench.rings(q) else {
        return write!(out, "there is no queue {q}\n");
    };
    say_ring(out, q, rings.state.name(), &rings)
}

/// Says where both sides stand in the rings of these queues.
pub(crate) fn say_rings(
    bench: &Bench,
    first: u16,
    last: u16,
    out: &mut String,
) -> Result<(), AllocError>
    ensures { OnOk result (SaysAllRings bench.now.table.world (last + 1 - first) first (string_bytes out.old) (string_bytes out.new)) }
{
    for q in first..=last {
        say_queue(bench, q, out)?;
    }
    Ok(())
}
