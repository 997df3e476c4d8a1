//! A command as C asks for it: a struct, besides the pieces of its data.

ghost use Rattle.std.specs.Prelude.{◌≡◌};
ghost use Rattle.nvmesgl_c.specs.Requests as requests;

use crate::words::code::{BAD_OPTION, BAD_PIECE, BAD_SIZE, MEMORY, NO_KIND};
use crate::words::piece::{CPiece, NoPieces, kind_of, pieces_of};
use crate::words::reserved::has_set_word;
use io_commands::{BlockSize, Flags, Request};
use std::alloc::Global;

/// How many bytes [`CRequest`] has.
const SIZE: u32 = 48;

/// The bit of Force Unit Access.
const FORCE_UNIT_ACCESS: u32 = 1;

/// The bit of Limited Retry.
const LIMITED_RETRY: u32 = 2;

/// What a command asks for, besides its pieces. A later version may give a meaning to a word that is reserved now.
#[repr(C)]
#[derive(Clone, Copy)]
pub struct CRequest {
    /// How many bytes the struct has, 48.
    pub size: u32,
    /// 0: a Read. 1: a Write. 2: a Compare. 3: a Write Zeroes. 4: a Verify. 5: a Flush. 6: a Deallocate.
    pub kind: u32,
    /// The namespace; 0: namespace 1.
    pub nsid: u32,
    /// Bit 0: Force Unit Access. Bit 1: Limited Retry.
    pub flags: u32,
    /// The first block.
    pub slba: u64,
    /// How many blocks, or ranges.
    pub blocks: u32,
    /// How many bytes a block has; 0: 512.
    pub block_bytes: u32,
    /// Zeros.
    pub reserved: [u32; 4],
}

/// What is asked for in namespace 1, with no flag, in blocks of 512 bytes.
pub fn plain(kind: u32, slba: u64, blocks: u32) -> CRequest
    ensures { result ≡ requests.plain kind slba blocks }
{
    CRequest {
        size: SIZE,
        kind,
        nsid: 1,
        flags: 0,
        slba,
        blocks,
        block_bytes: 0,
        reserved: [0; 4],
    }
}

/// The flags of a number, if it has no other bit.
fn flags_of(number: u32) -> Option<Flags>
    ensures { result ≡ requests.flags_of number }
{
    if number > FORCE_UNIT_ACCESS + LIMITED_RETRY {
        return None;
    }
    Some(Flags {
        force_unit_access: number & FORCE_UNIT_ACCESS != 0,
        limited_retry: number & LIMITED_RETRY != 0,
    })
}

/// The block size of this many bytes, if there is one.
fn size_of(bytes: u32) -> Option<BlockSize>
    ensures { result ≡ requests.size_of_bytes bytes }
{
    if bytes == 0 {
        return Some(BlockSize::Bytes512);
    }
    BlockSize::of(u64::from(bytes))
}

/// The request that C asks for. Of more pieces than a command has, one more than that is read.
///
/// # Errors
///
/// The code of the first that holds: the struct has another size; a reserved word is not 0, or a flag or the block size is unknown; the kind is none; the kind of a piece is
/// none; memory is refused.
pub fn asked_of(alloc: Global, asked: &CRequest, pieces: &[CPiece]) -> Result<Request, u32>
    ensures { requests.IsMade (requests.asked_of asked.now (requests.looked_at pieces.now)) result }
{
    if asked.size != SIZE {
        return Err(BAD_SIZE);
    }
    if has_set_word(&asked.reserved) {
        return Err(BAD_OPTION);
    }
    let Some(flags) = flags_of(asked.flags) else {
        return Err(BAD_OPTION);
    };
    let Some(block_size) = size_of(asked.block_bytes) else {
        return Err(BAD_OPTION);
    };
    let Some(kind) = kind_of(asked.kind) else {
        return Err(NO_KIND);
    };
    let pieces = match pieces_of(alloc, pieces) {
        Ok(pieces) => pieces,
        Err(NoPieces::BadPiece) => return Err(BAD_PIECE),
        Err(NoPieces::Memory) => return Err(MEMORY),
    };
    Ok(Request {
        kind,
        nsid: asked.nsid.max(1),
        flags,
        slba: asked.slba,
        block_size,
        blocks: asked.blocks,
        pieces,
    })
}
