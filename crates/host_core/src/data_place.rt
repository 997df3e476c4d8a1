//! Where the data of an outstanding command lies in the pool.

ghost use Rattle.std.specs.Prelude.{◌≡◌, slice_get};
ghost use Rattle.host_core.specs.DataPlaces.{places, place_at};

use crate::host::Host;
use io_commands::Piece;
use machine_model::words::Work;
use page_memory::PageNo;
use std::alloc::Allocator;

/// Where the bytes of a data piece lie.
#[derive(Clone, Copy, Debug, PartialEq, Eq)]
pub struct DataPlace {
    /// The page.
    pub page: PageNo,
    /// Where in the page the bytes begin.
    pub offset: u32,
    /// How many bytes there are.
    pub len: u32,
}

/// Where the data piece `i` of these pieces lies, each of which has the next page.
fn place_among(pieces: &[Piece], pages: &[PageNo], i: usize) -> Option<DataPlace>
    ensures { result ≡ slice_get (places pieces.now pages.now) i }
{
    let mut rest = pages;
    let mut left = i;
    for piece in pieces {
        if let Piece::Data { offset, len } = *piece {
            let page = *rest.first()?;
            if left == 0 {
                return Some(DataPlace { page, offset, len });
            }
            left -= 1;
            rest = &rest[1..];
        }
    }
    None
}

impl<A: Allocator> Host<A> {
    /// Where data piece `i` of an outstanding command lies; pieces are counted from 0, and buckets are skipped. None where no such
    /// command is outstanding, or it has no such piece.
    pub fn place(&self, q: u16, cid: u16, i: usize) -> Option<DataPlace>
        ensures { result ≡ place_at self.now.host q cid i }
    {
        let entry = self.parts.records.get(q, cid)?;
        match &entry.work {
            Work::Io(request) => place_among(request.pieces(), &entry.data_pages, i),
            Work::Management(_) => None,
        }
    }
}
