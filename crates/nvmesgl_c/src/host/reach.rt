//! What a device may do with which page now, and where the data of commands lies.

ghost use Rattle.std.specs.Prelude.{◌≡◌};
ghost use Rattle.nvmesgl_c.specs.HostKept.{kept_in};
ghost use Rattle.nvmesgl_c.specs.HostReach as reach;
ghost use Rattle.nvmesgl_c.specs.HostReach.{LaysRuns, TellsPlace, TellsRight, TellsRuns};

use crate::host::code::NO_PIECE;
use crate::host::handle::Handle;
use crate::words::code::{DONE, TOO_SHORT};
use crate::words::or_code;
use host_bench::{DataPlace, PageNo, Right, Run, Runs};
use std::alloc::Global;

/// Consecutive pages with one right.
#[repr(C)]
#[derive(Clone, Copy)]
pub struct CRun {
    /// The first page.
    pub first: u32,
    /// What a device may do with each: 0 nothing, 1 read it, 2 write it.
    pub right: u32,
    /// How many pages there are.
    pub count: usize,
    /// Zeros.
    pub reserved: [u32; 4],
}

/// Where the bytes of a data piece lie.
#[repr(C)]
#[derive(Clone, Copy)]
pub struct CPlace {
    /// The page.
    pub page: u32,
    /// Where in the page the bytes begin.
    pub offset: u32,
    /// How many bytes there are.
    pub len: u32,
    /// Zeros.
    pub reserved: [u32; 4],
}

/// The number of a right.
fn number_of(right: Right) -> u32
    ensures { result ≡ reach.number_of right }
{
    match right {
        Right::Nothing => 0,
        Right::Read => 1,
        Right::Write => 2,
    }
}

/// A run, as C sees it.
pub(crate) fn run_of(run: Run) -> CRun
    ensures { result ≡ reach.run_of run }
{
    CRun {
        first: run.first.0,
        right: number_of(run.right),
        count: run.count,
        reserved: [0; 4],
    }
}

/// A place, as C sees it.
fn place_of(place: DataPlace) -> CPlace
    ensures { result ≡ reach.place_of place }
{
    CPlace {
        page: place.page.0,
        offset: place.offset,
        len: place.len,
        reserved: [0; 4],
    }
}

/// Lays runs into the start of a buffer, as many as it holds: how many were laid, and whether they are all.
fn lay(runs: Runs<'_>, into: &mut [CRun]) -> (usize, bool)
    ensures { LaysRuns runs.entry into.old into.new result.0 result.1 }
{
    let mut left = runs;
    let mut count = 0;
    while let Some(run) = left.next() {
        if count == into.len() {
            return (count, false);
        }
        into[count] = run_of(run);
        count += 1;
    }
    (count, true)
}

/// Tells what a device may do with a page now.
#[unsafe(no_mangle)]
pub extern "C" fn nvmehost_may(
    alloc: Global,
    handle: &mut Handle,
    page: u32,
    right: &mut u32,
) -> u32
    ensures { TellsRight (kept_in handle.old) page result right.old right.new (kept_in handle.new) }
{
    let kept = or_code!(handle.take(alloc));
    *right = number_of(kept.bench.may(PageNo(page)));
    handle.put(kept);
    DONE
}

/// Lays the pages of a command as runs, with what a device may do with them now, into the start of a buffer. How many were laid is told.
#[unsafe(no_mangle)]
pub extern "C" fn nvmehost_runs(
    alloc: Global,
    handle: &mut Handle,
    q: u16,
    cid: u16,
    buffer: &mut [CRun],
    count: &mut usize,
) -> u32
    ensures { TellsRuns (kept_in handle.old) q cid result buffer.old buffer.new count.old count.new (kept_in handle.new) }
{
    let kept = or_code!(handle.take(alloc));
    let (laid, all) = lay(kept.bench.runs(q, cid), buffer);
    *count = laid;
    handle.put(kept);
    if all { DONE } else { TOO_SHORT }
}

/// Tells where a data piece of an outstanding command lies.
#[unsafe(no_mangle)]
pub extern "C" fn nvmehost_data_place(
    alloc: Global,
    handle: &mut Handle,
    q: u16,
    cid: u16,
    piece: u32,
    place: &mut CPlace,
) -> u32
    ensures { TellsPlace (kept_in handle.old) q cid piece result place.old place.new (kept_in handle.new) }
{
    let kept = or_code!(handle.take(alloc));
    let found = kept.bench.place(q, cid, piece as usize);
    handle.put(kept);
    let Some(found) = found else {
        return NO_PIECE;
    };
    *place = place_of(found);
    DONE
}
