//! Positions of rings.

use queue_pair::doorbell;
use std::alloc::AllocError;
use step_core::Half;

/// The slot before another one.
pub(crate) fn slot_before(entries: u16, slot: u16) -> u16 {
    match slot.checked_sub(1) {
        Some(before) => before,
        None => entries.saturating_sub(1),
    }
}

/// Puts the value that is written to a doorbell.
pub(crate) fn put_doorbell(
    out: &mut String,
    q: u16,
    half: Half,
    value: u16,
) -> Result<(), AllocError> {
    let offset = doorbell(q, half);
    let name = match half {
        Half::Submission => "submission tail",
        Half::Completion => "completion head",
    };
    write!(out, "  {name} doorbell {offset:X}h: {value}\n")
}
