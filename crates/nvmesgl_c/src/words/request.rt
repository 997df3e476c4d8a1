//! The request of this many bytes in a row.

ghost use Rattle.std.specs.Prelude.{◌≡◌, ◌≤◌, IfOk};
ghost use Rattle.nvmesgl_c.specs.Requests as requests;

use io_commands::{BlockSize, Flags, Kind, Piece, Pieces, Request};
use std::alloc::{AllocError, Global};

/// The most bytes that a command moves.
pub const MOST_MOVED: usize = 1_048_576;

/// How many bytes a page has.
const PAGE: usize = 4_096;

/// A piece for each page that this many bytes fill, and one for what is left.
///
/// # Errors
///
/// Where memory is refused.
fn pieces_for(alloc: Global, len: usize) -> Result<Pieces, AllocError>
    ensures { IfOk result (λ made. made ≡ requests.pieces_of_length len) }
{
    let mut pieces = Pieces::with_capacity(alloc, len / PAGE + 1)?;
    for _ in 0..len / PAGE {
        pieces.push(Piece::Data {
            offset: 0,
            len: 4_096,
        })?;
    }
    let rest = (len % PAGE) as u32;
    if rest != 0 {
        pieces.push(Piece::Data {
            offset: 0,
            len: rest,
        })?;
    }
    Ok(pieces)
}

/// The request of this many bytes in a row.
///
/// # Errors
///
/// Where memory is refused.
pub fn request_for(alloc: Global, kind: Kind, slba: u64, len: usize) -> Result<Request, AllocError>
    requires { len ≤ 1048576 }
    ensures { IfOk result (λ request. request ≡ requests.request_of kind slba len) }
{
    let pieces = pieces_for(alloc, len)?;
    Ok(Request {
        kind,
        nsid: 1,
        flags: Flags::NONE,
        block_size: BlockSize::Bytes512,
        slba,
        blocks: (len / 512) as u32,
        pieces,
    })
}
