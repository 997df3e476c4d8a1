//! The parts of a command in its pages, and its chain laid in them.

ghost use Rattle.std.specs.Prelude.{◌≡◌, ◌≤◌, ◌<◌, ◌+◌, ◌*◌, ◌++◌, ◌∷◌, [], true, length, take, drop, IfOk, IfSome, MatchOption};
ghost use Rattle.io_commands.specs.Requests.{has_list, joined_parts, parts_of};
ghost use Rattle.io_commands.specs.Values.{numbers_of as spec_numbers_of, IsGood, data_part, chain_part};
ghost use Rattle.io_commands.specs.Least.{pages_with};
ghost use Rattle.sgl_descriptor.specs.declared.Part.TheVariants as part;
ghost use Rattle.sgl_chain.specs.Chains.{pages_needed, first_of, segments_on, segments_from};
ghost use Rattle.sgl_chain.specs.Spells.{SpellsWhereLaid};
ghost use Rattle.io_commands.specs.Drafts.{laid};

use crate::request::{Piece, Request};
use page_memory::{Page, PageNo};
use sgl_chain::{Chain, Part, Segment, join};
use std::alloc::{AllocError, Allocator};

/// The part that data is in its page.
pub(crate) fn data_in(page: PageNo, offset: u32, len: u32) -> Part
    ensures { result ≡ part.Data (4096 * page + offset) len }
{
    let addr = 4096 * u64::from(page.0) + u64::from(offset);
    Part::Data { addr, len }
}

/// The part of the first piece, with the pieces and the pages after it; `None` where there is no piece, or no page for it.
fn first_part<'a, B: Allocator>(
    pieces: &'a [Piece],
    pages: &'a [Page<B>],
) -> Option<(Part, &'a [Piece], &'a [Page<B>])>
    ensures first { MatchOption result (parts_of pieces.now (spec_numbers_of pages.now) ≡ []) (λ next. parts_of pieces.now (spec_numbers_of pages.now) ≡ next.0 ∷ parts_of next.1.now (spec_numbers_of next.2.now)) }
    ensures fewer { IfSome result (λ next. length next.1.now < length pieces.now) }
{
    let (piece, others) = pieces.split_first()?;
    match *piece {
        Piece::Bucket { len } => Some((Part::Bucket { len }, others, pages)),
        Piece::Data { offset, len } => {
            let (page, behind) = pages.split_first()?;
            Some((data_in(page.number(), offset, len), others, behind))
        }
    }
}

/// The numbers of pages.
fn numbers_of<A: Allocator, B: Allocator>(
    alloc: A,
    pages: &[Page<B>],
) -> Result<Vec<PageNo, A>, AllocError>
    ensures { IfOk result (λ numbers. numbers.items ≡ spec_numbers_of pages.now) }
{
    let mut numbers = Vec::with_capacity(alloc, pages.len())?;
    for page in pages {
        numbers.push_reserved(page.number());
    }
    Ok(numbers)
}

/// Lays a segment and those after it in pages, one in each.
fn lay_from<A: Allocator, B: Allocator>(segment: &Segment<A>, pages: &mut [Page<B>])
    requires { length pages.old ≡ length (segments_from segment.now) }
    ensures { pages.new ≡ laid (segments_from segment.now) pages.old }
{
    if let Some((page, behind)) = pages.split_first_mut() {
        segment.lay(page);
        if let Some(next) = &segment.next {
            lay_from(next, behind);
        }
    }
}

/// Lays the segments of a chain in the pages from one on, one in each.
pub(crate) fn lay_all<A: Allocator, B: Allocator>(
    chain: &Chain<A>,
    pages: &mut Vec<Page<B>, B>,
    from: usize,
)
    requires { length pages.old.items ≡ from + length chain.now.segments }
    ensures { pages.new.items ≡ take from pages.old.items ++ laid chain.now.segments (drop from pages.old.items) }
{
    if let Some(segment) = chain.head() {
        let all = pages.as_mut_slice();
        lay_from(segment, &mut all[from..]);
    }
}

impl<P: Allocator> Request<P> {
    /// The parts of the request in its data pages, one page for each data piece; neighbours that join are one. It takes memory once.
    ///
    /// # Errors
    ///
    /// Where memory is refused.
    pub fn parts_in<A: Allocator, B: Allocator>(
        &self,
        alloc: A,
        pages: &[Page<B>],
    ) -> Result<Vec<Part, A>, AllocError>
        ensures { IfOk result (λ parts. parts.items ≡ joined_parts self.now.pieces (spec_numbers_of pages.now)) }
    {
        let mut parts = Vec::with_capacity(alloc, self.pieces().len())?;
        let Some((mut last, mut pieces, mut pages)) = first_part(self.pieces(), pages) else {
            return Ok(parts);
        };
        while let Some((part, others, behind)) = first_part(pieces, pages) {
            match join(last, part) {
                Some(one) => last = one,
                None => {
                    parts.push_reserved(last);
                    last = part;
                }
            }
            pieces = others;
            pages = behind;
        }
        parts.push_reserved(last);
        Ok(parts)
    }
}

/// The chain of a request with a list in its pages, of which those of the data pieces come first.
pub(crate) fn chain_of<A: Allocator + Clone, B: Allocator>(
    alloc: A,
    request: &Request<B>,
    pages: &[Page<B>],
    segment: usize,
) -> Result<Chain<A>, AllocError>
    requires good { IsGood request.now }
    requires list { has_list request.now.kind ≡ true }
    requires low { 2 ≤ segment }
    requires high { segment ≤ 256 }
    requires pages { length pages.now ≡ pages_with request.now.pieces segment (joined_parts request.now.pieces (spec_numbers_of (data_part request.now pages.now))) }
    ensures first { IfOk result (λ chain. chain.first ≡ first_of segment (spec_numbers_of (chain_part request.now pages.now)) (joined_parts request.now.pieces (spec_numbers_of (data_part request.now pages.now)))) }
    ensures segments { IfOk result (λ chain. chain.segments ≡ segments_on segment (spec_numbers_of (chain_part request.now pages.now)) (joined_parts request.now.pieces (spec_numbers_of (data_part request.now pages.now)))) }
    ensures count { IfOk result (λ chain. length chain.segments ≡ pages_needed (length (joined_parts request.now.pieces (spec_numbers_of (data_part request.now pages.now)))) segment) }
    ensures spells { IfOk result (λ chain. SpellsWhereLaid (spec_numbers_of (chain_part request.now pages.now)) chain (joined_parts request.now.pieces (spec_numbers_of (data_part request.now pages.now)))) }
{
    let (front, behind) = pages.split_at(request.data_pages());
    let parts = request.parts_in(alloc.clone()?, front)?;
    let numbers = numbers_of(alloc.clone()?, behind)?;
    match Chain::build(alloc, parts.as_slice(), numbers.as_slice(), segment) {
        Ok(chain) => Ok(chain),
        Err(_) => Err(AllocError),
    }
}
