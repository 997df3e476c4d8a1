//! Positions in a ring, and where its slots lie.

ghost use Rattle.std.specs.Prelude.{◌≡◌, ◌<◌, ◌≤◌};
ghost use Rattle.queue_pair.specs.Slots.{next_slot, is_in_range, distance};
ghost use Rattle.queue_pair.specs.Rings.{next_phase};
ghost use Rattle.queue_pair.specs.Memory.{submission_place, completion_place};

use page_memory::PageNo;

/// The slot after another, in ring order.
pub(crate) fn slot_after(entries: u16, slot: u16) -> u16
    requires { slot < entries }
    ensures value { result ≡ next_slot entries slot }
    ensures below { result < entries }
{
    if slot + 1 == entries { 0 } else { slot + 1 }
}

/// The phase after the move from a slot: it turns at the wrap.
pub(crate) fn phase_after(entries: u16, slot: u16, phase: bool) -> bool
    requires { slot < entries }
    ensures { result ≡ next_phase entries slot phase }
{
    if slot + 1 == entries { !phase } else { phase }
}

/// How many slots lie from one position to another.
fn slots_apart(entries: u16, from: u16, to: u16) -> u16
    requires size { entries ≤ 1024 }
    requires start { from < entries }
    requires end { to < entries }
    ensures { result ≡ distance entries from to }
{
    if from <= to {
        to - from
    } else {
        to + entries - from
    }
}

/// Whether a position lies from one to another in ring order, both ends inside. One of `entries` or more lies outside.
pub(crate) fn lies_between(entries: u16, from: u16, to: u16, slot: u16) -> bool
    requires size { entries ≤ 1024 }
    requires start { from < entries }
    requires end { to < entries }
    ensures { result ≡ is_in_range entries from to slot }
{
    slot < entries && slots_apart(entries, from, slot) <= slots_apart(entries, from, to)
}

/// The address of a submission slot of a half that begins at a page.
pub(crate) fn submission_address(sq: PageNo, slot: u16) -> u64
    ensures { result ≡ submission_place sq slot }
{
    4096 * u64::from(sq.0) + 64 * u64::from(slot)
}

/// The address of a completion slot of a half that begins at a page.
pub(crate) fn completion_address(cq: PageNo, slot: u16) -> u64
    ensures { result ≡ completion_place cq slot }
{
    4096 * u64::from(cq.0) + 16 * u64::from(slot)
}
