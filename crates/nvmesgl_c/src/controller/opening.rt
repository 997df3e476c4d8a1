//! The opening and the closing of a handle, and the reset.

ghost use Rattle.std.specs.Prelude.{◌≡◌, ◌≤◌, false, IfOk, IfErr, length};
ghost use Rattle.nvmesgl_c.specs.ControllerKept.{Closes, kept_in, lends_in};
ghost use Rattle.nvmesgl_c.specs.ControllerCalls.{Resets};
ghost use Rattle.nvmesgl_c.specs.ControllerOptions.{Opens, IsOpened, IsWhy};

use crate::controller::any_controller::AnyController;
use crate::controller::handle::Handle;
use crate::controller::options::{CQueue, Options, entries_of, pages_of};
use crate::words::code::DONE;
use crate::words::{NotOpened, code_of_not_opened, image_for, or_code};
use block_image::ImageError;
use controller_core::Controller;
use std::alloc::Global;

/// A controller with an image, in a box.
fn open_controller(
    alloc: Global,
    given: &Options,
    queues: &[CQueue],
    bytes: &[u8],
) -> Result<Box<AnyController, Global>, NotOpened>
    ensures opened { IfOk result (λ controller. IsOpened given.now queues.now bytes.now controller.value.contents) }
    ensures kind { IfOk result (λ controller. controller.value.lends ≡ false) }
    ensures not_opened { IfErr result (λ why. IsWhy given.now (length queues.now) bytes.now why) }
{
    let entries = entries_of(given, queues)?;
    let image = match image_for(alloc, given.blocks, bytes) {
        Ok(image) => image,
        Err(ImageError::BadLength) => return Err(NotOpened::BadImage),
        Err(ImageError::Memory) => return Err(NotOpened::Memory),
    };
    let Ok(pages) = pages_of(alloc, queues) else {
        return Err(NotOpened::Memory);
    };
    match Controller::open(alloc, entries, &pages, image) {
        Ok(controller) => match Box::new(alloc, AnyController::holding(controller)) {
            Ok(controller) => Ok(controller),
            Err(_) => Err(NotOpened::Memory),
        },
        Err(_) => Err(NotOpened::Memory),
    }
}

/// Opens a handle that is closed, with queues that begin at these pages: over the bytes of an image, or over blocks of zeros where no byte is given.
#[unsafe(no_mangle)]
pub extern "C" fn nvmectl_open(
    alloc: Global,
    handle: &mut Handle,
    given: &Options,
    queues: &[CQueue],
    image: &[u8],
) -> u32
    ensures opens { Opens (kept_in handle.old) given.now queues.now image.now result (kept_in handle.new) }
    ensures kind { lends_in handle.new ≡ lends_in handle.old }
{
    if let Some(code) = handle.cause() {
        return code;
    }
    match open_controller(alloc, given, queues, image) {
        Ok(controller) => {
            handle.put(controller);
            DONE
        }
        Err(why) => code_of_not_opened(why),
    }
}

/// Closes a handle, if it is open, and else leaves it: all that it holds is let go, whatever is fetched.
#[unsafe(no_mangle)]
pub extern "C" fn nvmectl_close(alloc: Global, handle: &mut Handle)
    ensures { Closes (kept_in handle.old) (kept_in handle.new) }
{
    if let Ok(controller) = handle.take(alloc) {
        drop(controller);
    }
}

/// Resets the controller: no command is left, and only queue 0 is there.
#[unsafe(no_mangle)]
pub extern "C" fn nvmectl_reset(alloc: Global, handle: &mut Handle) -> u32
    ensures resets { Resets (kept_in handle.old) result (kept_in handle.new) }
    ensures kind { lends_in handle.new ≡ lends_in handle.old }
{
    let mut controller = or_code!(handle.take(alloc));
    controller.reset();
    handle.put(controller);
    DONE
}
