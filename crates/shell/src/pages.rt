//! What pages look like.

ghost use Rattle.std.specs.Prelude.{◌≡◌, ◌++◌, [], IfOk, OnOk, string_bytes};
ghost use Rattle.shell.specs.Pages.{before_next, byte_text, bytes_text, is_zeros as spec_is_zeros, out_text, row_said, row_text, SaysPage};

use std::alloc::AllocError;
use step_core::{Owner, PageNo};
use world_bench::Bench;

/// How many bytes are in a line.
const WIDTH: usize = 16;

/// What a row of bytes follows.
#[derive(Clone, Copy)]
struct Before {
    /// Whether the row before is of zeros.
    zeros: bool,
    /// Whether `*` stands for it.
    starred: bool,
}

/// Says a byte.
fn say_byte(out: &mut String, byte: u8) -> Result<(), AllocError>
    ensures { OnOk result (string_bytes out.new ≡ string_bytes out.old ++ byte_text byte) }
{
    write!(out, " {byte:02X}")
}

/// Says some bytes of a page, after their offset in it.
fn say_row(out: &mut String, at: usize, row: &[u8]) -> Result<(), AllocError>
    ensures { OnOk result (string_bytes out.new ≡ string_bytes out.old ++ row_text at row.now) }
{
    write!(out, "{at:03X} ")?;
    for byte in row {
        say_byte(out, *byte)?;
    }
    out.push('\n')
}

/// Whether all bytes of a row are 0.
fn is_zeros(row: &[u8; WIDTH]) -> bool
    ensures { result ≡ spec_is_zeros row.now }
{
    row.iter().all(|byte| *byte == 0)
}

/// Says a row of bytes; for the second of rows of zeros that follow each other it says `*`, and nothing for those after it.
fn say_next(
    out: &mut String,
    at: usize,
    row: &[u8; WIDTH],
    before: Before,
) -> Result<Before, AllocError>
    ensures said { OnOk result (string_bytes out.new ≡ string_bytes out.old ++ row_said before at row.now) }
    ensures next { IfOk result (λ next. next ≡ before_next before row.now) }
{
    let zeros = is_zeros(row);
    let starred = zeros && before.zeros;
    if !starred {
        say_row(out, at, row)?;
    } else if !before.starred {
        out.push_str("*\n")?;
    }
    Ok(Before { zeros, starred })
}

/// Says the bytes of a page.
fn say_bytes(out: &mut String, bytes: &[u8; 4096]) -> Result<(), AllocError>
    ensures { OnOk result (string_bytes out.new ≡ string_bytes out.old ++ bytes_text bytes.now) }
{
    let mut rest: &[u8] = bytes;
    let mut at = 0;
    let mut before = Before {
        zeros: false,
        starred: false,
    };
    while let Some((row, behind)) = rest.split_first_chunk::<WIDTH>() {
        before = say_next(out, at, row, before)?;
        at += WIDTH;
        rest = behind;
    }
    Ok(())
}

/// Says that a page is out, and which command has it.
fn say_out(out: &mut String, p: u32, owner: Owner) -> Result<(), AllocError>
    ensures { OnOk result (string_bytes out.new ≡ string_bytes out.old ++ out_text p owner) }
{
    match owner {
        Owner::Command { q, cid, .. } => write!(
            out,
            "page {p} is out of the pool: command {q} {cid} has it\n"
        ),
        Owner::Queue { .. } | Owner::Free => write!(out, "page {p} is out of the pool\n"),
    }
}

/// Says the bytes of a page that is in, and of others why there are none, in an empty text.
pub(crate) fn say_page(bench: &mut Bench, p: PageNo, out: &mut String) -> Result<(), AllocError>
    requires empty { string_bytes out.old ≡ [] }
    ensures said { OnOk result (SaysPage bench.old.table.world p (string_bytes out.new)) }
    ensures same { bench.new.table ≡ bench.old.table }
{
    let pages = bench.pages();
    let number = p.0;
    if number >= pages {
        let last = pages - 1;
        return write!(out, "there is no page {number}; the last one is {last}\n");
    }
    let mut bytes = [0; 4096];
    match bench.read(4096 * u64::from(number), &mut bytes) {
        Ok(()) => say_bytes(out, &bytes),
        Err(_) => say_out(out, number, bench.owner(p)),
    }
}
