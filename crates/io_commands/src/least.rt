//! How many pages a request takes: the fewest, and those of its chain in the pages that it has.

ghost use Rattle.std.specs.Prelude.{◌≡◌, ◌≤◌, ◌<◌, ◌∷◌, [], length, false, MatchOption, IfSome};
ghost use Rattle.std.specs.List.{list_any};
ghost use Rattle.sgl_chain.specs.Chains.{pages_needed};
ghost use Rattle.sgl_chain.specs.Joining.{joined};
ghost use Rattle.io_commands.specs.Requests.{crosses_page, data_count, parts_of, joined_parts};
ghost use Rattle.io_commands.specs.Values.{IsGood};
ghost use Rattle.io_commands.specs.Least.{parts_in_a_run, least_pages as spec_least_pages};

use crate::layout::data_in;
use crate::request::{Piece, Request};
use page_memory::PageNo;
use sgl_chain::{Part, join, pages_needed};
use std::alloc::Allocator;

/// How many parts the pieces are where each data piece stands in the page after that of the one before, once parts that
/// join are one. A data piece joins the piece before it where that is data up to the end of its page, and it begins its own.
fn joined_count(pieces: &[Piece]) -> usize
    requires few { length pieces.now ≤ 1024 }
    requires inside { list_any crosses_page pieces.now ≡ false }
    ensures count { result ≡ length (joined (parts_in_a_run pieces.now 0)) }
    ensures few { result ≤ length pieces.now }
{
    let mut count = 0;
    let mut fills = false;
    for piece in pieces {
        match *piece {
            Piece::Data { offset, len } => {
                if !fills || offset > 0 {
                    count += 1;
                }
                fills = u64::from(offset) + u64::from(len) == 4096;
            }
            Piece::Bucket { .. } => {
                count += 1;
                fills = false;
            }
        }
    }
    count
}

/// The part of the first piece, with the pieces and the pages after it; `None` where there is no piece, or no page for it.
fn next_part<'a>(
    pieces: &'a [Piece],
    pages: &'a [PageNo],
) -> Option<(Part, &'a [Piece], &'a [PageNo])>
    ensures first { MatchOption result (parts_of pieces.now pages.now ≡ []) (λ next. parts_of pieces.now pages.now ≡ next.0 ∷ parts_of next.1.now next.2.now) }
    ensures fewer { IfSome result (λ next. length next.1.now < length pieces.now) }
{
    let (piece, others) = pieces.split_first()?;
    match *piece {
        Piece::Bucket { len } => Some((Part::Bucket { len }, others, pages)),
        Piece::Data { offset, len } => {
            let (page, behind) = pages.split_first()?;
            Some((data_in(*page, offset, len), others, behind))
        }
    }
}

/// How many parts the pieces are where each data piece stands in the next of these pages, once parts that join are one.
fn count_from(pieces: &[Piece], pages: &[PageNo]) -> usize
    ensures count { result ≡ length (joined_parts pieces.now pages.now) }
    ensures few { result ≤ length pieces.now }
{
    let Some((mut last, mut pieces, mut pages)) = next_part(pieces, pages) else {
        return 0;
    };
    let mut before = 0;
    while let Some((part, others, behind)) = next_part(pieces, pages) {
        match join(last, part) {
            Some(one) => last = one,
            None => {
                before += 1;
                last = part;
            }
        }
        pieces = others;
        pages = behind;
    }
    before + 1
}

impl<A: Allocator> Request<A> {
    /// The fewest pages that the request takes with segments of up to this many descriptors, 2 to 256: one for each data
    /// piece, and those of the chain of its parts where the data pages are consecutive ones, so that parts join. It takes
    /// no memory.
    pub fn least_pages(&self, segment: u16) -> u32
        requires good { IsGood self.now }
        requires low { 2 ≤ segment }
        requires high { segment ≤ 256 }
        ensures { result ≡ spec_least_pages self.now.pieces segment }
    {
        let parts = joined_count(self.pieces());
        let chain = pages_needed(parts, usize::from(segment));
        (self.data_pages() + chain) as u32
    }

    /// How many chain pages the request takes where its data pieces stand in these pages, one for each, with segments of
    /// up to this many descriptors, 2 to 256: parts that join are one. It takes no memory.
    pub fn chain_pages(&self, pages: &[PageNo], segment: u16) -> u32
        requires good { IsGood self.now }
        requires pages { length pages.now ≡ data_count self.now.pieces }
        requires low { 2 ≤ segment }
        requires high { segment ≤ 256 }
        ensures count { result ≡ pages_needed (length (joined_parts self.now.pieces pages.now)) segment }
        ensures few { result ≤ pages_needed (length self.now.pieces) segment }
    {
        pages_needed(count_from(self.pieces(), pages), usize::from(segment)) as u32
    }
}
