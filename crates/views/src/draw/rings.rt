//! The rings of the queues: a strip of slots for each half, and where both sides stand in it.

use std::alloc::AllocError;
use step_core::Rings;
use world_bench::Bench;

/// The most slots that a strip has; of longer rings the positions are told in words alone.
const MOST_SLOTS: u16 = 64;

/// Whether a slot lies at or after one position and before another, around the end of the ring.
fn lies_between(slot: u16, from: u16, to: u16) -> bool {
    if from <= to {
        from <= slot && slot < to
    } else {
        slot >= from || slot < to
    }
}

/// A half of a queue: the slots at and after `from` and before `to` hold what was posted and not taken; before `told` the other side was told of it.
#[derive(Clone, Copy)]
struct Strip {
    name: &'static str,
    from: u16,
    to: u16,
    told: u16,
}

/// Puts the strip of a ring of this many slots.
fn put_strip(out: &mut String, strip: &Strip, entries: u16) -> Result<(), AllocError> {
    if entries > MOST_SLOTS {
        return Ok(());
    }
    let Strip {
        name,
        from,
        to,
        told,
    } = *strip;
    write!(out, "<div class=\"ring\" title=\"{name}\">")?;
    for slot in 0..entries {
        let class = match (lies_between(slot, from, to), lies_between(slot, from, told)) {
            (true, true) => "p",
            (true, false) => "w",
            (false, _) => "",
        };
        let head = if slot == from { " h" } else { "" };
        let tail = if slot == to { " e" } else { "" };
        write!(out, "<b class=\"{class}{head}{tail}\">{slot}</b>")?;
    }
    out.push_str("</div>")
}

/// Puts what the table says of a submission ring.
fn put_submission(out: &mut String, rings: &Rings, entries: u16) -> Result<(), AllocError> {
    let tail = rings.host.submission_tail;
    match rings.submission {
        Some(at) => {
            let (head, doorbell) = (at.head, at.tail_doorbell);
            let strip = Strip {
                name: "submission ring",
                from: head,
                to: tail,
                told: doorbell,
            };
            put_strip(out, &strip, entries)?;
            write!(
                out,
                "controller: head {head}, tail doorbell {doorbell}; host: tail {tail}"
            )
        }
        None => write!(out, "host: tail {tail}; the controller has none"),
    }
}

/// Puts what it says of a completion ring.
fn put_completion(out: &mut String, rings: &Rings, entries: u16) -> Result<(), AllocError> {
    let head = rings.host.completion_head;
    let phase = u8::from(rings.host.phase);
    match rings.completion {
        Some(at) => {
            let (tail, posted, doorbell) = (at.tail, u8::from(at.phase), at.head_doorbell);
            let strip = Strip {
                name: "completion ring",
                from: head,
                to: tail,
                told: tail,
            };
            put_strip(out, &strip, entries)?;
            write!(
                out,
                "host: head {head}, phase {phase}; controller: tail {tail}, phase {posted}, head doorbell {doorbell}"
            )
        }
        None => write!(
            out,
            "host: head {head}, phase {phase}; the controller has none"
        ),
    }
}

/// Puts a table of the queues of a bench, whose rings have this many slots.
pub(crate) fn put_rings(out: &mut String, bench: &Bench, entries: u16) -> Result<(), AllocError> {
    out.push_str(
        "<table><tr><th>queue</th><th>submission ring</th><th>completion ring</th><th>outstanding</th></tr>\n",
    )?;
    for q in 0..=u16::MAX {
        let Some(rings) = bench.rings(q) else {
            break;
        };
        let state = rings.state.name();
        write!(out, "<tr><td>{q}<br>{state}</td><td>")?;
        put_submission(out, &rings, entries)?;
        out.push_str("</td><td>")?;
        put_completion(out, &rings, entries)?;
        let outstanding = rings.outstanding;
        write!(out, "</td><td>{outstanding}</td></tr>\n")?;
    }
    out.push_str("</table>\n")
}
