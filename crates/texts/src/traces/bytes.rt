//! Bytes of the pool, and how they are shown.

ghost use Rattle.std.specs.Prelude.{◌≡◌, ◌/◌, ◌++◌, ◌∷◌, [], codes, None, Some, MatchOption, OnOk, length, string_bytes};
ghost use Rattle.page_memory.specs.Memory.{bytes_at};
ghost use Rattle.page_memory.specs.Pages.{byte_at};
ghost use Rattle.texts.specs.Slots.{byte_text, place_text, row_bytes_text, rows_text};

use std::alloc::AllocError;
use world_bench::Bench;

/// How many bytes are in a line.
const WIDTH: usize = 16;

/// The bytes of a page.
const PAGE: u64 = 4_096;

/// The 16 bytes at an address, where none of them is missing.
pub(crate) fn sixteen_at(bench: &mut Bench, addr: u64) -> Option<[u8; 16]>
    ensures bytes { MatchOption result (bytes_at (byte_at bench.old.table.world.memory) addr 16 ≡ None) (λ bytes. bytes_at (byte_at bench.old.table.world.memory) addr 16 ≡ Some bytes) }
    ensures same { bench.new.table ≡ bench.old.table }
{
    let mut bytes = [0; 16];
    bench.read(addr, &mut bytes).ok()?;
    Some(bytes)
}

/// The 64 bytes at an address, where none of them is missing.
pub(crate) fn sixty_four_at(bench: &mut Bench, addr: u64) -> Option<[u8; 64]>
    ensures bytes { MatchOption result (bytes_at (byte_at bench.old.table.world.memory) addr 64 ≡ None) (λ bytes. bytes_at (byte_at bench.old.table.world.memory) addr 64 ≡ Some bytes) }
    ensures same { bench.new.table ≡ bench.old.table }
{
    let mut bytes = [0; 64];
    bench.read(addr, &mut bytes).ok()?;
    Some(bytes)
}

/// Puts a byte, after a space.
pub(crate) fn put_byte(out: &mut String, byte: u8) -> Result<(), AllocError>
    ensures { OnOk result (string_bytes out.new ≡ string_bytes out.old ++ byte_text byte) }
{
    write!(out, " {byte:02X}")
}

/// Puts the bytes of a row, a line.
fn put_row(out: &mut String, row: &[u8]) -> Result<(), AllocError>
    ensures { OnOk result (string_bytes out.new ≡ string_bytes out.old ++ (codes "   " ++ (row_bytes_text row.now ++ (10 ∷ [])))) }
{
    out.push_str("   ")?;
    for byte in row {
        put_byte(out, *byte)?;
    }
    out.push('\n')
}

/// Puts bytes, sixteen in a line.
pub(crate) fn put_bytes(out: &mut String, bytes: &[u8]) -> Result<(), AllocError>
    ensures { OnOk result (string_bytes out.new ≡ string_bytes out.old ++ rows_text (length bytes.now / 16) bytes.now) }
{
    let mut rest = bytes;
    while let Some((row, behind)) = rest.split_first_chunk::<WIDTH>() {
        put_row(out, row)?;
        rest = behind;
    }
    Ok(())
}

/// Puts an address as a page and an offset in it.
pub(crate) fn put_place(out: &mut String, addr: u64) -> Result<(), AllocError>
    ensures { OnOk result (string_bytes out.new ≡ string_bytes out.old ++ place_text addr) }
{
    let (page, at) = (addr / PAGE, addr % PAGE);
    write!(out, "page {page} + {at:X}h")
}
