//! The calls that are lent regions of memory.

ghost use Rattle.std.specs.Prelude.{◌≡◌};
ghost use Rattle.nvmesgl_c.specs.ControllerKept.{kept_in, lends_in, own_in};
ghost use Rattle.nvmesgl_c.specs.ControllerCalls.{FetchesBy, WalksBy, CompletesBy};
ghost use Rattle.nvmesgl_c.specs.ControllerOver.{LentOver, TellsNextOver};
ghost use Rattle.nvmesgl_c.specs.Regions.{hidden_in, table_of};

use crate::controller::handle::Handle;
use crate::controller::next::{CStep, step_of};
use crate::controller::regions::{complete, fetch, look, walk};
use crate::words::code::DONE;
use crate::words::{Answer, CRegion, LentRegions, nothing, or_code, pages_in};
use arrayvec::ArrayVec;
use std::alloc::Global;

/// The controller fetches an entry. Its identifier is told.
#[unsafe(no_mangle)]
pub extern "C" fn nvmectl_fetch_over(
    alloc: Global,
    handle: &mut Handle,
    q: u16,
    regions: &mut [CRegion<'_>],
    answer: &mut Answer,
) -> u32
    ensures calls { LentOver (FetchesBy q) (own_in handle.old) regions.old result answer.new (own_in handle.new) regions.new }
    ensures table { table_of regions.new ≡ table_of regions.old }
    ensures hidden { hidden_in regions.new ≡ hidden_in regions.old }
{
    *answer = nothing();
    let mut controller = or_code!(handle.take_own(alloc));
    let pages = pages_in(regions);
    let mut memory = LentRegions {
        regions,
        pages,
        touched: ArrayVec::new(),
    };
    let code = fetch(&mut controller, q, &mut memory, answer);
    handle.put(controller);
    code
}

/// The controller does a unit of a command's list. How the list stands is told.
#[unsafe(no_mangle)]
pub extern "C" fn nvmectl_walk_over(
    alloc: Global,
    handle: &mut Handle,
    q: u16,
    cid: u16,
    regions: &mut [CRegion<'_>],
    answer: &mut Answer,
) -> u32
    ensures calls { LentOver (WalksBy q cid) (kept_in handle.old) regions.old result answer.new (kept_in handle.new) regions.new }
    ensures kind { lends_in handle.new ≡ lends_in handle.old }
    ensures table { table_of regions.new ≡ table_of regions.old }
    ensures hidden { hidden_in regions.new ≡ hidden_in regions.old }
{
    *answer = nothing();
    let mut controller = or_code!(handle.take(alloc));
    let pages = pages_in(regions);
    let mut memory = LentRegions {
        regions,
        pages,
        touched: ArrayVec::new(),
    };
    let code = walk(&mut controller, q, cid, &mut memory, answer);
    handle.put(controller);
    code
}

/// The controller completes a command.
#[unsafe(no_mangle)]
pub extern "C" fn nvmectl_complete_over(
    alloc: Global,
    handle: &mut Handle,
    q: u16,
    cid: u16,
    regions: &mut [CRegion<'_>],
    answer: &mut Answer,
) -> u32
    ensures calls { LentOver (CompletesBy q cid) (own_in handle.old) regions.old result answer.new (own_in handle.new) regions.new }
    ensures table { table_of regions.new ≡ table_of regions.old }
    ensures hidden { hidden_in regions.new ≡ hidden_in regions.old }
{
    *answer = nothing();
    let mut controller = or_code!(handle.take_own(alloc));
    let pages = pages_in(regions);
    let mut memory = LentRegions {
        regions,
        pages,
        touched: ArrayVec::new(),
    };
    let code = complete(&mut controller, q, cid, &mut memory, answer);
    handle.put(controller);
    code
}

/// Tells what the controller can do, if there is anything. It does nothing.
#[unsafe(no_mangle)]
pub extern "C" fn nvmectl_next_over(
    alloc: Global,
    handle: &mut Handle,
    regions: &mut [CRegion<'_>],
    step: &mut CStep,
) -> u32
    ensures tells { TellsNextOver (kept_in handle.old) regions.old result step.old step.new (kept_in handle.new) regions.new }
    ensures kind { lends_in handle.new ≡ lends_in handle.old }
    ensures table { table_of regions.new ≡ table_of regions.old }
    ensures hidden { hidden_in regions.new ≡ hidden_in regions.old }
{
    let controller = or_code!(handle.take(alloc));
    let pages = pages_in(regions);
    let mut memory = LentRegions {
        regions,
        pages,
        touched: ArrayVec::new(),
    };
    *step = step_of(look(&controller, &mut memory));
    handle.put(controller);
    DONE
}
