//! The image that C gives.

ghost use Rattle.std.specs.Prelude.{◌≡◌, IfOk, IfErr, OnOk};
ghost use Rattle.nvmesgl_c.specs.Images.{image_of, IsGoodImage, IsNoImage};

use block_image::{BLOCK_SIZE, Image, ImageError, MAX_BYTES};
use std::alloc::Global;

/// The image of the bytes, or of this many blocks of zeros where no byte is given.
///
/// # Errors
///
/// The first that holds: `BadLength` where the bytes, or else the blocks, are none or too many, or a block is cut short; `Memory` where memory is refused.
pub fn image_for(alloc: Global, blocks: u32, bytes: &[u8]) -> Result<Image, ImageError>
    ensures made { IfOk result (λ image. image ≡ image_of blocks bytes.now) }
    ensures good { OnOk result (IsGoodImage blocks bytes.now) }
    ensures not_made { IfErr result (λ why. IsNoImage blocks bytes.now why) }
{
    if bytes.is_empty() {
        return Image::zeroed(alloc, blocks);
    }
    if bytes.len() > MAX_BYTES || bytes.len() % BLOCK_SIZE != 0 {
        return Err(ImageError::BadLength);
    }
    let Ok(copied) = Vec::from_slice(alloc, bytes) else {
        return Err(ImageError::Memory);
    };
    match Image::from_bytes(copied) {
        Ok(image) => Ok(image),
        Err(_) => Err(ImageError::BadLength),
    }
}
