//! Slots of rings: where they lie, and what is in them.

ghost use Rattle.std.specs.Prelude.{◌≡◌, ◌<◌, ◌++◌, IfOk, IfSome, OnOk, MatchOption, string_bytes};
ghost use Rattle.page_memory.specs.declared.page.Half.TheVariants as of_half;
ghost use Rattle.texts.specs.Slots.{HasNoPage, IsFirstPage, IsSlot, SaysSlot, slot_text};

use crate::traces::bytes::{put_bytes, put_place, sixteen_at, sixty_four_at};
use std::alloc::AllocError;
use step_core::{Half, Owner, PageNo};
use world_bench::Bench;

/// The bytes of a page.
const PAGE: u64 = 4_096;

/// The first page that a half of a queue has. The host has a half in pages that follow each other.
fn first_page(bench: &Bench, q: u16, half: Half) -> Option<u32>
    ensures page { MatchOption result (HasNoPage bench.now.table.world q half) (λ p. IsFirstPage bench.now.table.world q half p) }
    ensures few { IfSome result (λ p. p < 65536) }
{
    let wanted = Owner::Queue { q, half };
    for p in 0..bench.pages() {
        if bench.owner(PageNo(p)) == wanted {
            return Some(p);
        }
    }
    None
}

/// The address of a slot of a ring, where the host has that half.
fn slot_address(bench: &Bench, q: u16, half: Half, slot: u16) -> Option<u64>
    ensures { MatchOption result (HasNoPage bench.now.table.world q half) (λ addr. IsSlot bench.now.table.world q half slot addr) }
{
    let first = u64::from(first_page(bench, q, half)?);
    let behind = match half {
        Half::Submission => 64 * u64::from(slot),
        Half::Completion => 16 * u64::from(slot),
    };
    Some(PAGE * first + behind)
}

/// Puts a slot of a ring with its bytes.
fn put_slot(
    out: &mut String,
    half: Half,
    q: u16,
    slot: u16,
    addr: u64,
    bytes: &[u8],
) -> Result<(), AllocError>
    ensures { OnOk result (string_bytes out.new ≡ string_bytes out.old ++ slot_text half q slot addr bytes.now) }
{
    match half {
        Half::Submission => write!(out, "  submission queue {q} slot {slot}, ")?,
        Half::Completion => write!(out, "  completion queue {q} slot {slot}, ")?,
    }
    put_place(out, addr)?;
    out.push_str("\n")?;
    put_bytes(out, bytes)
}

/// Puts the slot of a submission ring with the bytes that are there, and answers them.
pub(crate) fn put_submission_slot(
    out: &mut String,
    bench: &mut Bench,
    q: u16,
    slot: u16,
) -> Result<Option<[u8; 64]>, AllocError>
    ensures said { IfOk result (λ found. SaysSlot bench.old.table.world q of_half.Submission slot found (string_bytes out.old) (string_bytes out.new)) }
    ensures same { bench.new.table ≡ bench.old.table }
{
    let Some(addr) = slot_address(bench, q, Half::Submission, slot) else {
        return Ok(None);
    };
    let Some(bytes) = sixty_four_at(bench, addr) else {
        return Ok(None);
    };
    put_slot(out, Half::Submission, q, slot, addr, &bytes)?;
    Ok(Some(bytes))
}

/// Puts the slot of a completion ring with the bytes that are there, and answers them.
pub(crate) fn put_completion_slot(
    out: &mut String,
    bench: &mut Bench,
    q: u16,
    slot: u16,
) -> Result<Option<[u8; 16]>, AllocError>
    ensures said { IfOk result (λ found. SaysSlot bench.old.table.world q of_half.Completion slot found (string_bytes out.old) (string_bytes out.new)) }
    ensures same { bench.new.table ≡ bench.old.table }
{
    let Some(addr) = slot_address(bench, q, Half::Completion, slot) else {
        return Ok(None);
    };
    let Some(bytes) = sixteen_at(bench, addr) else {
        return Ok(None);
    };
    put_slot(out, Half::Completion, q, slot, addr, &bytes)?;
    Ok(Some(bytes))
}
