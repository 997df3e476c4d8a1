//! A command as C names it: its kind by a number, and the pieces of its data.

ghost use Rattle.std.specs.List.{list_any};
ghost use Rattle.std.specs.Prelude.{◌≡◌, false, IfErr, IfOk, OnOk, map};
ghost use Rattle.nvmesgl_c.specs.Requests as requests;

use io_commands::{Kind, Piece, Pieces};
use std::alloc::Global;

/// `len` bytes starting at `offset` in a page of their own, or this many that a Read discards.
#[repr(C)]
#[derive(Clone, Copy)]
pub struct CPiece {
    /// Where the bytes begin in the page.
    pub offset: u32,
    /// How many there are.
    pub len: u32,
    /// 0: data. 1: they are discarded.
    pub kind: u32,
}

/// The most pieces that are read: one more than a command has.
const MOST_SEEN: usize = 1_025;

/// Why C's pieces are none.
#[derive(Clone, Copy)]
pub enum NoPieces {
    /// The kind of a piece is neither.
    BadPiece,
    /// Memory was refused.
    Memory,
}

/// Whether the kind of some piece is neither.
fn has_no_piece(pieces: &[CPiece]) -> bool
    ensures { result ≡ list_any requests.is_no_piece pieces.now }
{
    pieces.iter().any(|piece| piece.kind > 1)
}

/// The piece that C means.
fn piece_of(piece: CPiece) -> Piece
    ensures { result ≡ requests.piece_of piece }
{
    if piece.kind == 0 {
        Piece::Data {
            offset: piece.offset,
            len: piece.len,
        }
    } else {
        Piece::Bucket { len: piece.len }
    }
}

/// The pieces that C means, all of which are read.
///
/// # Errors
///
/// The first that holds: the kind of a piece is neither; memory is refused.
fn made_of(alloc: Global, pieces: &[CPiece]) -> Result<Pieces, NoPieces>
    ensures made { IfOk result (λ made. made ≡ map requests.piece_of pieces.now) }
    ensures good { OnOk result (list_any requests.is_no_piece pieces.now ≡ false) }
    ensures not_made { IfErr result (λ why. requests.IsWhy pieces.now why) }
{
    if has_no_piece(pieces) {
        return Err(NoPieces::BadPiece);
    }
    let Ok(mut made) = Pieces::with_capacity(alloc, pieces.len()) else {
        return Err(NoPieces::Memory);
    };
    for piece in pieces {
        match made.push(piece_of(*piece)) {
            Ok(()) => {}
            Err(_) => return Err(NoPieces::Memory),
        }
    }
    Ok(made)
}

/// The pieces that C means. Of more than a command has, one more than that is read.
///
/// # Errors
///
/// The first that holds: the kind of a piece is neither; memory is refused.
pub fn pieces_of(alloc: Global, pieces: &[CPiece]) -> Result<Pieces, NoPieces>
    ensures made { IfOk result (λ made. made ≡ map requests.piece_of (requests.looked_at pieces.now)) }
    ensures good { OnOk result (list_any requests.is_no_piece (requests.looked_at pieces.now) ≡ false) }
    ensures not_made { IfErr result (λ why. requests.IsWhy (requests.looked_at pieces.now) why) }
{
    if pieces.len() > MOST_SEEN {
        made_of(alloc, &pieces[..MOST_SEEN])
    } else {
        made_of(alloc, pieces)
    }
}

/// The kind of a number: 0 a Read, 1 a Write, 2 a Compare, 3 a Write Zeroes, 4 a Verify, 5 a Flush, 6 a Deallocate.
pub fn kind_of(number: u32) -> Option<Kind>
    ensures { result ≡ requests.kind_of number }
{
    match number {
        0 => Some(Kind::Read),
        1 => Some(Kind::Write),
        2 => Some(Kind::Compare),
        3 => Some(Kind::WriteZeroes),
        4 => Some(Kind::Verify),
        5 => Some(Kind::Flush),
        6 => Some(Kind::Deallocate),
        _ => None,
    }
}
