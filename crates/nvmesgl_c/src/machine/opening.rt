//! The opening and the closing of a handle.

ghost use Rattle.std.specs.Prelude.{◌≡◌, IfOk, IfErr};
ghost use Rattle.host_core.specs.Opening.{RefusesOpening};
ghost use Rattle.nvmesgl_c.specs.MachineKept.{Closes, kept_in};
ghost use Rattle.nvmesgl_c.specs.MachineOptions.{Opens, IsOpened, IsWhy};

use crate::machine::desk::Desk;
use crate::machine::handle::Handle;
use crate::machine::options::{Options, SIZE};
use crate::words::code::DONE;
use crate::words::{
    Answer, NotOpened, code_of_not_opened, fault_of_form, image_for, nothing, told_not_opened,
};
use host_core::Host;
use machine_model::words::Peer;
use std::alloc::Global;
use step_core::{Config, ImageError, OpenRefusal};

/// Why nothing opens where memory is refused for the image: what the configuration is refused for, if it is, comes first.
fn why_without_image(alloc: Global, config: Config) -> OpenRefusal
    ensures { RefusesOpening config result }
{
    match Host::open(alloc, config, Peer::Modelled) {
        Ok(opened) => {
            drop(opened);
            OpenRefusal::Memory
        }
        Err(why) => why,
    }
}

/// A desk in a box.
fn open_desk(alloc: Global, given: &Options, bytes: &[u8]) -> Result<Box<Desk, Global>, NotOpened>
    ensures opened { IfOk result (λ desk. IsOpened given.now bytes.now desk.value) }
    ensures not_opened { IfErr result (λ why. IsWhy given.now bytes.now why) }
{
    if let Some(why) = fault_of_form(given.size, SIZE, &given.reserved) {
        return Err(why);
    }
    let config = Config {
        pages: given.pages,
        queues: given.queues,
        entries: given.entries,
        segment: given.segment,
    };
    let image = match image_for(alloc, given.blocks, bytes) {
        Ok(image) => image,
        Err(ImageError::BadLength) => return Err(NotOpened::BadImage),
        Err(ImageError::Memory) => {
            return Err(NotOpened::Refused(why_without_image(alloc, config)));
        }
    };
    match Desk::open(alloc, config, image) {
        Ok(desk) => match Box::new(alloc, desk) {
            Ok(desk) => Ok(desk),
            Err(_) => Err(NotOpened::Memory),
        },
        Err(refused) => Err(NotOpened::Refused(refused.why)),
    }
}

/// Opens a handle that is closed: over the bytes of an image, or over blocks of zeros where no byte is given.
#[unsafe(no_mangle)]
pub extern "C" fn nvmesgl_open(
    alloc: Global,
    handle: &mut Handle,
    given: &Options,
    image: &[u8],
    answer: &mut Answer,
) -> u32
    ensures { Opens (kept_in handle.old) given.now image.now result answer.new (kept_in handle.new) }
{
    *answer = nothing();
    if let Some(code) = handle.cause() {
        return code;
    }
    match open_desk(alloc, given, image) {
        Ok(desk) => {
            handle.put(desk);
            DONE
        }
        Err(why) => {
            *answer = told_not_opened(why);
            code_of_not_opened(why)
        }
    }
}

/// Closes a handle, if it is open, and else leaves it: all that it holds is let go, whatever is outstanding.
#[unsafe(no_mangle)]
pub extern "C" fn nvmesgl_close(alloc: Global, handle: &mut Handle)
    ensures { Closes (kept_in handle.old) (kept_in handle.new) }
{
    if let Ok(desk) = handle.take(alloc) {
        drop(desk);
    }
}
