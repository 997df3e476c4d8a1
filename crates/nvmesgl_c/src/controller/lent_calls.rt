//! The calls of a controller whose blocks are lent.

ghost use Rattle.std.specs.Prelude.{◌≡◌, ◌==◌, IfOk, IfErr, length, true, if◌then◌else◌};
ghost use Rattle.nvmesgl_c.specs.ControllerKept.{kept_in, lends_in, lent_in};
ghost use Rattle.nvmesgl_c.specs.ControllerLent.{CompletesBlocks, FetchesBlocks, StaysUnlent, OpensLent, IsOpenedLent, IsWhyLent};
ghost use Rattle.nvmesgl_c.specs.ControllerOver.{LentOver};
ghost use Rattle.nvmesgl_c.specs.Regions.{hidden_in, table_of};

use crate::controller::any_controller::AnyController;
use crate::controller::handle::Handle;
use crate::controller::lent_over::{CWanted, complete, fetch};
use crate::controller::options::{CQueue, Options, entries_of, pages_of};
use crate::words::code::DONE;
use crate::words::{
    Answer, CRegion, LentRegions, NotOpened, code_of_not_opened, nothing, or_code, pages_in,
};
use arrayvec::ArrayVec;
use controller_core::Controller;
use std::alloc::Global;

/// A controller whose blocks are lent, in a box.
fn open_controller(
    alloc: Global,
    given: &Options,
    queues: &[CQueue],
) -> Result<Box<AnyController, Global>, NotOpened>
    ensures opened { IfOk result (λ controller. IsOpenedLent given.now queues.now controller.value.contents) }
    ensures kind { IfOk result (λ controller. controller.value.lends ≡ true) }
    ensures not_opened { IfErr result (λ why. IsWhyLent given.now (length queues.now) why) }
{
    let entries = entries_of(given, queues)?;
    let blocks = given.blocks;
    if blocks == 0 {
        return Err(NotOpened::BadImage);
    }
    let Ok(pages) = pages_of(alloc, queues) else {
        return Err(NotOpened::Memory);
    };
    match Controller::open_over(alloc, entries, &pages, blocks) {
        Ok(controller) => match Box::new(alloc, AnyController::lending(controller)) {
            Ok(controller) => Ok(controller),
            Err(_) => Err(NotOpened::Memory),
        },
        Err(_) => Err(NotOpened::Memory),
    }
}

/// Opens a handle that is closed, with queues that begin at these pages, over a namespace of as many blocks as the options say, which are lent to
/// each call that reads or writes them.
#[unsafe(no_mangle)]
pub extern "C" fn nvmectl_open_lent(
    alloc: Global,
    handle: &mut Handle,
    given: &Options,
    queues: &[CQueue],
) -> u32
    ensures opens { OpensLent (kept_in handle.old) given.now queues.now result (kept_in handle.new) }
    ensures kind { lends_in handle.new ≡ (if result == 0 then true else lends_in handle.old) }
{
    if let Some(code) = handle.cause() {
        return code;
    }
    match open_controller(alloc, given, queues) {
        Ok(controller) => {
            handle.put(controller);
            DONE
        }
        Err(why) => code_of_not_opened(why),
    }
}

/// The controller fetches an entry, over blocks that are lent, from `slba` on. Its identifier is told, or which blocks are wanted.
#[unsafe(no_mangle)]
pub extern "C" fn nvmectl_fetch_lent(
    alloc: Global,
    handle: &mut Handle,
    q: u16,
    regions: &mut [CRegion<'_>],
    slba: u64,
    blocks: &mut [u8],
    wanted: &mut CWanted,
    answer: &mut Answer,
) -> u32
    ensures calls { LentOver (FetchesBlocks q slba blocks.old blocks.new wanted.old wanted.new) (lent_in handle.old) regions.old result answer.new (lent_in handle.new) regions.new }
    ensures unlent { StaysUnlent (lent_in handle.old) blocks.old blocks.new wanted.old wanted.new }
    ensures table { table_of regions.new ≡ table_of regions.old }
    ensures hidden { hidden_in regions.new ≡ hidden_in regions.old }
{
    *answer = nothing();
    let mut controller = or_code!(handle.take_lent(alloc));
    let pages = pages_in(regions);
    let mut memory = LentRegions {
        regions,
        pages,
        touched: ArrayVec::new(),
    };
    let code = fetch(
        &mut controller,
        q,
        &mut memory,
        slba,
        blocks,
        wanted,
        answer,
    );
    handle.put(controller);
    code
}

/// The controller completes a command, over blocks that are lent, from `slba` on. A Write's bytes are in them afterwards. Which blocks are wanted is told.
#[unsafe(no_mangle)]
pub extern "C" fn nvmectl_complete_lent(
    alloc: Global,
    handle: &mut Handle,
    q: u16,
    cid: u16,
    regions: &mut [CRegion<'_>],
    slba: u64,
    blocks: &mut [u8],
    wanted: &mut CWanted,
    answer: &mut Answer,
) -> u32
    ensures calls { LentOver (CompletesBlocks q cid slba blocks.old blocks.new wanted.old wanted.new) (lent_in handle.old) regions.old result answer.new (lent_in handle.new) regions.new }
    ensures unlent { StaysUnlent (lent_in handle.old) blocks.old blocks.new wanted.old wanted.new }
    ensures table { table_of regions.new ≡ table_of regions.old }
    ensures hidden { hidden_in regions.new ≡ hidden_in regions.old }
{
    *answer = nothing();
    let mut controller = or_code!(handle.take_lent(alloc));
    let pages = pages_in(regions);
    let mut memory = LentRegions {
        regions,
        pages,
        touched: ArrayVec::new(),
    };
    let code = complete(
        &mut controller,
        q,
        cid,
        &mut memory,
        slba,
        blocks,
        wanted,
        answer,
    );
    handle.put(controller);
    code
}
