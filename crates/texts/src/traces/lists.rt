//! Scatter-gather lists.

ghost use Rattle.std.specs.Prelude.{◌≡◌};

use crate::traces::bytes::{put_place, sixteen_at};
use crate::traces::descriptors::put_descriptor;
use sgl_descriptor::Descriptor;
use std::alloc::AllocError;
use world_bench::Bench;

/// The bytes of a descriptor.
const DESCRIPTOR: u64 = 16;

/// The most segments of a list that are shown; one of 1,024 pieces in full segments has five.
const MOST_SEGMENTS: u32 = 1_024;

/// A segment, by the descriptor that names it.
#[derive(Clone, Copy)]
struct Segment {
    addr: u64,
    len: u32,
}

/// The segment that a descriptor names, if it is one that names a segment.
fn segment_of(bytes: &[u8; 16]) -> Option<Segment> {
    match Descriptor::read(bytes) {
        Ok(Descriptor::Segment { addr, len } | Descriptor::LastSegment { addr, len }) => {
            Some(Segment { addr, len })
        }
        _ => None,
    }
}

/// Puts the descriptors of a segment, and answers the next segment.
fn put_segment(
    out: &mut String,
    bench: &mut Bench,
    segment: Segment,
) -> Result<Option<Segment>, AllocError>
    ensures same { bench.new.table ≡ bench.old.table }
{
    out.push_str("  segment at ")?;
    put_place(out, segment.addr)?;
    out.push_str("\n")?;
    let mut next = None;
    for i in 0..u64::from(segment.len) / DESCRIPTOR {
        let Some(addr) = segment.addr.checked_add(i * DESCRIPTOR) else {
            return Ok(None);
        };
        let Some(bytes) = sixteen_at(bench, addr) else {
            out.push_str("    a descriptor that is out of the pool\n")?;
            return Ok(None);
        };
        write!(out, "    {i}: ")?;
        put_descriptor(out, &bytes)?;
        out.push('\n')?;
        next = segment_of(&bytes);
    }
    Ok(next)
}

/// Puts the segments of a list that begins with a descriptor.
pub(crate) fn put_list(
    out: &mut String,
    bench: &mut Bench,
    first: &[u8; 16],
) -> Result<(), AllocError>
    ensures same { bench.new.table ≡ bench.old.table }
{
    let mut next = segment_of(first);
    for _ in 0..MOST_SEGMENTS {
        let Some(segment) = next else {
            break;
        };
        next = put_segment(out, bench, segment)?;
    }
    Ok(())
}
