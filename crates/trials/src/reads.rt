//! The Reads, and the world over which they are carried through.

use io_commands::{BlockSize, Flags, Kind, Piece, Pieces, Request};
use std::alloc::{AllocError, Global};
use step_core::Config;

/// The most Reads of a submitter.
pub const MOST_JOBS: u32 = 1_000_000;

/// The most Reads that a submitter has in flight.
pub const MOST_DEPTH: u32 = 256;

/// The most blocks of a Read: 64 KiB.
pub const MOST_BLOCKS: u32 = 128;

/// The blocks of the image: sixteen Reads of the largest size.
pub const IMAGE_BLOCKS: u32 = 2_048;

/// A pool and a queue on which sixteen submitters wait for no page and no identifier.
pub const ROOMY: Config = Config {
    pages: 1_024,
    queues: 1,
    entries: 64,
    segment: 256,
};

/// How many submitters there are, and the Reads of each.
#[derive(Clone, Copy)]
pub struct Shape {
    /// How many submitters there are, 1 to 16.
    pub submitters: u32,
    /// How many Reads each carries through.
    pub jobs: u32,
    /// How many blocks of 512 bytes a Read has, 1 to 128.
    pub blocks: u32,
}

/// What was done.
#[derive(Clone, Copy)]
pub struct Done {
    /// How many Reads were carried through.
    pub commands: u64,
    /// How many entries the log has.
    pub entries: usize,
    /// How many bytes were read.
    pub bytes: u64,
}

/// A submitter's Read of so many blocks, in pieces of whole pages and a rest. Submitters read different blocks.
pub fn request(alloc: Global, worker: u16, blocks: u32) -> Result<Request, AllocError> {
    let mut pieces = Pieces::new(alloc);
    for _ in 0..blocks / 8 {
        pieces.push(Piece::Data {
            offset: 0,
            len: 4_096,
        })?;
    }
    if blocks % 8 > 0 {
        pieces.push(Piece::Data {
            offset: 0,
            len: 512 * (blocks % 8),
        })?;
    }
    Ok(Request {
        kind: Kind::Read,
        nsid: 1,
        flags: Flags::NONE,
        block_size: BlockSize::Bytes512,
        slba: u64::from(worker) * u64::from(MOST_BLOCKS),
        blocks,
        pieces,
    })
}
