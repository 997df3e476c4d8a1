//! The image that a run leaves, as a file.

ghost use Rattle.std.specs.Prelude.{◌≡◌, IfErr, IsSome};

use crate::below::lines_or_none;
use crate::fault::{Fault, FaultReport};
use block_image::Image;
use script_cli::{not_written, write_out};
use std::alloc::AllocGlobal;
use std::rt::Files;

/// Writes an image into what is named for it, if something is. Where this fails, a file is as it was.
pub(crate) fn save_image<R: AllocGlobal + Files + Print>(
    rt: &R,
    path: Option<&str>,
    image: &Image,
) -> Result<(), FaultReport<Fault>>
    ensures fault { IfErr result (λ told. told.fault ≡ Fault.NotSaved) }
    ensures asked { IfErr result (λ told. IsSome path.entry) }
{
    let Some(path) = path else {
        return Ok(());
    };
    match write_out(rt, path, image.blocks_from(0, image.blocks())) {
        Ok(()) => Ok(()),
        Err(why) => {
            let alloc = rt.alloc();
            let below = lines_or_none(alloc, not_written(alloc, path, &why));
            let fault = Fault::NotSaved;
            Err(FaultReport::of(fault, below))
        }
    }
}
