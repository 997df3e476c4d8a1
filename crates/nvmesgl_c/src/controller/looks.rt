//! What a handle shows of its controller.

ghost use Rattle.std.specs.Prelude.{◌≡◌};
ghost use Rattle.nvmesgl_c.specs.ControllerKept.{kept_in, lends_in, own_in};
ghost use Rattle.nvmesgl_c.specs.ControllerLooks as looks;
ghost use Rattle.nvmesgl_c.specs.ControllerLooks.{TellsCommand, TellsBlocks};

use crate::controller::code::{NO_BLOCKS, NO_JOB};
use crate::controller::handle::Handle;
use crate::words::code::DONE;
use crate::words::or_code;
use block_image::Image;
use controller_core::FetchedCommand;
use std::alloc::Global;

/// A command that was fetched and not completed.
#[repr(C)]
#[derive(Clone, Copy)]
pub struct CCommand {
    /// How many units of its list were done.
    pub units: u32,
    /// Whether it has its verdict: nothing of its list is left to walk, and it may be completed.
    pub ended: bool,
    /// The status code type of its verdict, or 0.
    pub sct: u8,
    /// The status code of its verdict, or 0.
    pub sc: u8,
    /// Zeros.
    pub reserved: [u32; 4],
}

/// A command, as C sees it.
fn command_of(command: &FetchedCommand) -> CCommand
    ensures { result ≡ looks.command_of command.now }
{
    let (ended, sct, sc) = match command.work.verdict() {
        Some(status) => (true, status.sct, status.sc),
        None => (false, 0, 0),
    };
    CCommand {
        units: command.units_done,
        ended,
        sct,
        sc,
        reserved: [0; 4],
    }
}

/// Copies blocks into a buffer, where the image has them.
fn copy_blocks(image: &Image, slba: u64, buffer: &mut [u8]) -> u32
    ensures { looks.Copies image.now slba result buffer.old buffer.new }
{
    if buffer.len() % 512 != 0 {
        return NO_BLOCKS;
    }
    let count = (buffer.len() / 512) as u64;
    let blocks = u64::from(image.blocks());
    if slba > blocks || count > blocks - slba {
        return NO_BLOCKS;
    }
    image.copy_out(slba, buffer);
    DONE
}

/// Tells of a command that was fetched and not completed.
#[unsafe(no_mangle)]
pub extern "C" fn nvmectl_command(
    alloc: Global,
    handle: &mut Handle,
    q: u16,
    cid: u16,
    command: &mut CCommand,
) -> u32
    ensures tells { TellsCommand (kept_in handle.old) q cid result command.old command.new (kept_in handle.new) }
    ensures kind { lends_in handle.new ≡ lends_in handle.old }
{
    let controller = or_code!(handle.take(alloc));
    let code = match controller.command(q, cid) {
        Some(found) => {
            *command = command_of(found);
            DONE
        }
        None => NO_JOB,
    };
    handle.put(controller);
    code
}

/// Copies blocks of the image into a buffer, starting at `slba`.
#[unsafe(no_mangle)]
pub extern "C" fn nvmectl_blocks(
    alloc: Global,
    handle: &mut Handle,
    slba: u64,
    buffer: &mut [u8],
) -> u32
    ensures { TellsBlocks (own_in handle.old) slba result buffer.old buffer.new (own_in handle.new) }
{
    let controller = or_code!(handle.take_own(alloc));
    let code = copy_blocks(controller.image(), slba, buffer);
    handle.put(controller);
    code
}
