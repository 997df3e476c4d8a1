//! An admin command as C asks for it.

ghost use Rattle.std.specs.Prelude.{◌≡◌};
ghost use Rattle.nvmesgl_c.specs.AdminRequests as requests;

use crate::words::code::{BAD_OPTION, BAD_SIZE, MEMORY, NO_KIND};
use io_commands::{AdminCommand, BlockSize, Flags, Kind, PageUse, Piece, Pieces, Request};
use std::alloc::Global;

/// How many bytes [`CAdmin`] has.
const SIZE: u32 = 48;

/// What an admin command asks for. A later version may give a meaning to the word that is reserved now.
#[repr(C)]
#[derive(Clone, Copy)]
pub struct CAdmin {
    /// How many bytes the struct has, 48.
    pub size: u32,
    /// The opcode, 0 to 255.
    pub opcode: u32,
    /// The namespace.
    pub nsid: u32,
    /// 0: it has no page. 1: data comes to its page. 2: data is taken from its page.
    pub page: u32,
    /// How many bytes of data the page has, from its start.
    pub bytes: u32,
    /// Command Dword 10.
    pub cdw10: u32,
    /// Command Dword 11.
    pub cdw11: u32,
    /// Command Dword 12.
    pub cdw12: u32,
    /// Command Dword 13.
    pub cdw13: u32,
    /// Command Dword 14.
    pub cdw14: u32,
    /// Command Dword 15.
    pub cdw15: u32,
    /// Zero.
    pub reserved: u32,
}

/// What a number says of a page, if it says anything.
fn use_of(number: u32) -> Option<PageUse>
    ensures { result ≡ requests.use_of number }
{
    match number {
        0 => Some(PageUse::Nothing),
        1 => Some(PageUse::In),
        2 => Some(PageUse::Out),
        _ => None,
    }
}

/// The pieces of this many bytes from the start of a page: none of no bytes.
///
/// # Errors
///
/// Memory is refused.
fn pieces_of(alloc: Global, bytes: u32) -> Result<Pieces, u32>
    ensures { requests.AreMade (requests.pieces_of bytes) result }
{
    let mut pieces = Pieces::new(alloc);
    if bytes == 0 {
        return Ok(pieces);
    }
    let piece = Piece::Data {
        offset: 0,
        len: bytes,
    };
    match pieces.push(piece) {
        Ok(()) => Ok(pieces),
        Err(_) => Err(MEMORY),
    }
}

/// The command of these words.
fn command_of(asked: &CAdmin, opcode: u8, page: PageUse) -> AdminCommand
    ensures { result ≡ requests.command_of asked.now opcode page }
{
    AdminCommand {
        opcode,
        page,
        cdw10: asked.cdw10,
        cdw11: asked.cdw11,
        cdw12: asked.cdw12,
        cdw13: asked.cdw13,
        cdw14: asked.cdw14,
        cdw15: asked.cdw15,
    }
}

/// The request that C asks for.
///
/// # Errors
///
/// The code of the first that holds: the struct has another size; its reserved word is not 0; there is no such opcode, or no such use of a page; memory is refused.
pub fn admin_of(alloc: Global, asked: &CAdmin) -> Result<Request, u32>
    ensures { requests.IsMade (requests.admin_of asked.now) result }
{
    if asked.size != SIZE {
        return Err(BAD_SIZE);
    }
    if asked.reserved != 0 {
        return Err(BAD_OPTION);
    }
    let Ok(opcode) = u8::try_from(asked.opcode) else {
        return Err(NO_KIND);
    };
    let Some(page) = use_of(asked.page) else {
        return Err(NO_KIND);
    };
    Ok(Request {
        kind: Kind::Admin(command_of(asked, opcode, page)),
        nsid: asked.nsid,
        flags: Flags::NONE,
        slba: 0,
        block_size: BlockSize::Bytes512,
        blocks: 0,
        pieces: pieces_of(alloc, asked.bytes)?,
    })
}
