//! Memory that C lends as regions, each at addresses of its own.
//!
//! At an address is the byte of the first region that has one there. A range may lie in several regions, one after the other: it is
//! moved in runs, each as long as one region serves.

ghost use Rattle.std.specs.Prelude.{◌≡◌, ◌≢◌, ◌+◌, ◌<◌, ◌≤◌, ℕ, true, false, IfNone, IfSome, IsSome, None, OnErr, OnOk, Some, length, max, slice_index};
ghost use Rattle.nvmesgl_c.specs.Regions.{IsMissing, IsRun, IsShare, byte_in, hidden_in, memory_of, pages_of, pages_up_to, table_of};
ghost use Rattle.page_memory.specs.Memory.{bytes_at, written};
ghost use Rattle.page_memory.specs.Pages.{with_bytes};

use crate::words::lent::{is_inside, put};
use page_memory::Unreadable;

/// The first address that is not reached: the number of its page has more than 32 bits.
const PAST_PAGES: usize = 17_592_186_044_416;

/// Bytes of C's, and the address of the first of them.
#[repr(C)]
pub struct CRegion<'a> {
    /// The address of the first byte.
    pub addr: u64,
    /// The bytes.
    pub bytes: &'a mut [u8],
}

/// Bytes that one region has, one after the other.
#[derive(Clone, Copy)]
pub struct Run {
    /// The index of the region in the table.
    pub place: usize,
    /// Where the bytes begin in it.
    pub at: usize,
    /// How many they are.
    pub count: usize,
}

/// What one region has of a range.
#[derive(Clone, Copy)]
enum Share {
    /// This many bytes from the start of the range, which begin there in the region.
    Front { at: usize, count: usize },
    /// None of this many bytes from the start of the range.
    Clear { count: usize },
}

/// What a region has of a range.
fn share_of(region: &CRegion<'_>, addr: u64, most: usize) -> Share
    requires { 0 < most }
    ensures { IsShare region.now addr most result }
{
    let len = region.bytes.len();
    if addr < region.addr {
        let count = (region.addr - addr).min(most as u64) as usize;
        return Share::Clear { count };
    }
    let offset = addr - region.addr;
    if offset < len as u64 {
        let at = offset as usize;
        return Share::Front {
            at,
            count: most.min(len - at),
        };
    }
    Share::Clear { count: most }
}

/// The bytes starting at an address, at most this many, that the first region with one there serves. None where none is wanted, or none is there.
fn run_at(regions: &[CRegion<'_>], addr: u64, most: usize) -> Option<Run>
    ensures run { IfSome result (λ run. IsRun regions.now addr most run) }
    ensures none { IfNone result (0 < most → byte_in regions.now addr ≡ None) }
{
    if most == 0 {
        return None;
    }
    let mut left = most;
    for place in 0..regions.len() {
        match share_of(&regions[place], addr, left) {
            Share::Front { at, count } => return Some(Run { place, at, count }),
            Share::Clear { count } => left = count,
        }
    }
    None
}

/// Whether each byte of a range is there.
fn is_there(regions: &[CRegion<'_>], addr: u64, count: usize) -> bool
    requires low { addr + count ≤ 17592186044416 }
    ensures there { result ≡ true → (k : ℕ) → k < count → IsSome (byte_in regions.now (addr + k)) }
    ensures missing { result ≡ false → IsMissing regions.now addr count }
{
    let mut done = 0;
    while let Some(run) = run_at(regions, addr + done as u64, count - done) {
        done += run.count;
    }
    done == count
}

/// Copies the bytes of a range, all of which are there.
fn copy_from(regions: &[CRegion<'_>], addr: u64, into: &mut [u8])
    requires low { addr + length into.old ≤ 17592186044416 }
    requires there { (k : ℕ) → k < length into.old → IsSome (byte_in regions.now (addr + k)) }
    ensures len { length into.new ≡ length into.old }
    ensures copied { (k : ℕ) → k < length into.new → byte_in regions.now (addr + k) ≡ Some (slice_index into.new k) }
{
    let mut done = 0;
    while let Some(run) = run_at(regions, addr + done as u64, into.len() - done) {
        let region = &regions[run.place];
        put(into, done, &region.bytes[run.at..run.at + run.count]);
        done += run.count;
    }
}

/// Overwrites bytes of one region starting at a position.
fn put_into(region: &mut CRegion<'_>, at: usize, bytes: &[u8])
    requires { at + length bytes.now ≤ length region.old.bytes.now }
    ensures addr { region.new.addr ≡ region.old.addr }
    ensures lies { region.new.bytes.ghost_name ≡ region.old.bytes.ghost_name }
    ensures len { length region.new.bytes.now ≡ length region.old.bytes.now }
    ensures bytes { region.new.bytes.now ≡ with_bytes region.old.bytes.now at bytes.now }
{
    put(region.bytes, at, bytes);
}

/// Overwrites the bytes of a range, all of which are there.
fn copy_to(regions: &mut [CRegion<'_>], addr: u64, bytes: &[u8])
    requires low { addr + length bytes.now ≤ 17592186044416 }
    requires there { (k : ℕ) → k < length bytes.now → IsSome (byte_in regions.old (addr + k)) }
    ensures table { table_of regions.new ≡ table_of regions.old }
    ensures hidden { hidden_in regions.new ≡ hidden_in regions.old }
    ensures written { byte_in regions.new ≡ written (byte_in regions.old) addr bytes.now }
{
    let mut done = 0;
    while let Some(run) = run_at(regions, addr + done as u64, bytes.len() - done) {
        let end = done + run.count;
        put_into(&mut regions[run.place], run.at, &bytes[done..end]);
        done = end;
    }
}

/// Fills a buffer with the bytes of a range, or answers `Unreadable` exactly where one is missing.
pub(crate) fn read_range(
    regions: &[CRegion<'_>],
    addr: u64,
    into: &mut [u8],
) -> Result<(), Unreadable>
    requires { 0 < length into.old }
    ensures low { OnOk result (addr + length into.old ≤ 17592186044416) }
    ensures read { OnOk result (bytes_at (memory_of regions.now) addr (length into.old) ≡ Some into.new) }
    ensures missing { OnErr result (bytes_at (memory_of regions.now) addr (length into.old) ≡ None) }
    ensures refused { OnErr result (into.new ≡ into.old) }
{
    if !is_inside(addr, into.len(), PAST_PAGES) {
        return Err(Unreadable);
    }
    if !is_there(regions, addr, into.len()) {
        return Err(Unreadable);
    }
    copy_from(regions, addr, into);
    Ok(())
}

/// Puts bytes starting at an address, or answers `Unreadable` exactly where one is missing. All others stay, and so does the table.
pub(crate) fn write_range(
    regions: &mut [CRegion<'_>],
    addr: u64,
    bytes: &[u8],
) -> Result<(), Unreadable>
    requires { 0 < length bytes.now }
    ensures table { table_of regions.new ≡ table_of regions.old }
    ensures hidden { hidden_in regions.new ≡ hidden_in regions.old }
    ensures low { OnOk result (addr + length bytes.now ≤ 17592186044416) }
    ensures there { OnOk result (bytes_at (memory_of regions.old) addr (length bytes.now) ≢ None) }
    ensures written { OnOk result (memory_of regions.new ≡ written (memory_of regions.old) addr bytes.now) }
    ensures missing { OnErr result (bytes_at (memory_of regions.old) addr (length bytes.now) ≡ None) }
    ensures refused { OnErr result (regions.new ≡ regions.old) }
{
    if !is_inside(addr, bytes.len(), PAST_PAGES) {
        return Err(Unreadable);
    }
    if !is_there(regions, addr, bytes.len()) {
        return Err(Unreadable);
    }
    copy_to(regions, addr, bytes);
    Ok(())
}

/// How many pages there are up to the end of a region.
fn pages_to_end(region: &CRegion<'_>) -> u32
    ensures { result ≡ pages_up_to region.now }
{
    let end = region.addr.saturating_add(region.bytes.len() as u64);
    (end / 4096).min(4_294_967_295) as u32
}

/// The larger of this many pages and those up to the end of a region.
fn pages_with(pages: u32, region: &CRegion<'_>) -> u32
    ensures { result ≡ max pages (pages_up_to region.now) }
{
    pages.max(pages_to_end(region))
}

/// How many pages there are up to the end of the region that ends last.
pub fn pages_in(regions: &[CRegion<'_>]) -> u32
    ensures { result ≡ pages_of regions.now }
{
    let mut pages = 0;
    for region in regions {
        pages = pages_with(pages, region);
    }
    pages
}
