//! What is read: a script's text and an image.

ghost use Rattle.std.specs.Prelude.{◌≡◌, ◌<◌, ◌≤◌, ◌++◌, ◌^◌, ℕ, List, length, IfOk, IfErr};
ghost use Rattle.std.specs.Io.KnownBytes.{Consumes, IsAtEnd};
ghost use Rattle.script_cli.specs.Faults.{status_of_image};
ghost use Rattle.script_cli.specs.Inputs.{IsTold, AreFirstOf, GivesNoImage};

use block_image::Image;
use std::alloc::{AllocError, Global};
use std::io::Read;
use thiserror::Error;

/// The most bytes of an image.
const MAX_IMAGE: usize = 33_554_432;

/// How many bytes are asked for at once.
const CHUNK: usize = 4096;

/// Why a reader gave no image.
#[derive(Clone, Copy, Debug, PartialEq, Eq, Error)]
pub enum ImageFault {
    /// A read failed.
    #[error("image: unreadable")]
    Unreadable,
    /// The bytes are not 1 to 65,536 whole blocks.
    #[error("image: BadLength")]
    BadLength,
    /// Memory was refused.
    #[error("memory")]
    Memory,
}

impl ImageFault {
    /// The exit status that a program ends with.
    pub fn exit_status(self) -> u8
        ensures { result ≡ status_of_image self }
    {
        match self {
            ImageFault::Unreadable | ImageFault::BadLength => 2,
            ImageFault::Memory => 3,
        }
    }
}

/// Why bytes were not read.
#[derive(Clone, Copy, Debug, PartialEq, Eq)]
pub enum ReadFault {
    /// A read failed.
    Unreadable,
    /// Memory was refused.
    Memory,
}

impl From<AllocError> for ReadFault {
    fn from(_fault: AllocError) -> Self {
        ReadFault::Memory
    }
}

/// Reads some bytes after those so far, this many at most, and answers how many; none only where the reader has none left.
fn read_some<R: Read>(reader: &mut R, most: usize, bytes: &mut Vec<u8>) -> Result<usize, ReadFault>
    requires { 0 < most }
    ensures bytes { IfOk result (λ n. (new : List ℕ) × (bytes.new.items ≡ bytes.old.items ++ new) × (length new ≡ n) × Consumes (R.remaining reader.old) (R.remaining reader.new) new) }
    ensures most { IfOk result (λ n. n ≤ most) }
    ensures end { IfOk result (λ n. n ≡ 0 → IsAtEnd (R.remaining reader.new)) }
{
    let mut chunk = [0u8; CHUNK];
    let room = most.min(CHUNK);
    match reader.read(&mut chunk[..room]) {
        Ok(n) => {
            bytes.extend_from_slice(&chunk[..n])?;
            Ok(n)
        }
        Err(_) => Err(ReadFault::Unreadable),
    }
}

/// Reads to the reader's end, or until it gave one byte more than the limit. It asks at most once more than it is given bytes.
pub fn read_first<R: Read>(
    alloc: Global,
    reader: &mut R,
    limit: usize,
) -> Result<Vec<u8>, ReadFault>
    requires { limit < 2 ^ 32 }
    ensures { IfOk result (λ bytes. AreFirstOf limit (R.remaining reader.old) bytes.items) }
{
    let mut bytes = Vec::new(alloc);
    while bytes.len() <= limit {
        let room = limit + 1 - bytes.len();
        if read_some(reader, room, &mut bytes)? == 0 {
            return Ok(bytes);
        }
    }
    Ok(bytes)
}

/// Reads an image: all bytes of a reader.
///
/// # Errors
///
/// `Unreadable` where a read fails, whatever was read before. `BadLength` where the bytes are not 1 to 65,536 whole blocks; a reader
/// that gave 33,554,433 bytes is not asked again. `Memory` where memory is refused.
pub fn read_image<R: Read>(alloc: Global, reader: &mut R) -> Result<Image, ImageFault>
    ensures image { IfOk result (λ image. IsTold (R.remaining reader.old) image) }
    ensures no_image { IfErr result (λ fault. GivesNoImage (R.remaining reader.old) fault) }
{
    let bytes = match read_first(alloc, reader, MAX_IMAGE) {
        Ok(bytes) => bytes,
        Err(ReadFault::Unreadable) => return Err(ImageFault::Unreadable),
        Err(ReadFault::Memory) => return Err(ImageFault::Memory),
    };
    match Image::from_bytes(bytes) {
        Ok(image) => Ok(image),
        Err(_) => Err(ImageFault::BadLength),
    }
}
