//! Chains: built, laid in pages, flattened.

ghost use Rattle.std.specs.Prelude.{◌≡◌, ◌<◌, ◌≤◌, ◌↔◌, ◌^◌, ◌+◌, [], Err, IfOk, IsOk, MatchOption, length, drop};
ghost use Rattle.page_memory.specs.Pages.{with_bytes};
ghost use Rattle.sgl_chain.specs.Chains.{AllFit, pages_needed, segments_within, link, segments_on, segments_from, first_of, segment_at, segment_bytes, parts_of};
ghost use Rattle.sgl_chain.specs.Spells.{SpellsWhereLaid};
ghost use Rattle.sgl_chain.specs.Laws.{HasPages};

use crate::segment::{Descs, Segment, push_part_of};
use page_memory::{Page, PageNo};
use sgl_descriptor::{Descriptor, Part};
use std::alloc::{AllocError, Allocator};
use std::marker::Model;
use thiserror::Error;

/// The most parts that a chain is built of (own).
pub const MAX_PARTS: usize = 1024;

/// Why a chain was not built.
#[derive(Clone, Copy, Debug, PartialEq, Eq, Error)]
pub enum BuildFault {
    /// There are over 1,024 parts.
    #[error("a chain has at most 1,024 parts")]
    TooManyParts,
    /// Memory was refused.
    #[error("out of memory")]
    Memory,
}

impl From<AllocError> for BuildFault {
    ghost use Rattle.sgl_chain.specs.declared.chain.BuildFault.{BuildFault};
    ghost use Rattle.std.specs.Prelude.{◌≡◌};

    ghost from_gives = { λ _ fault. fault ≡ BuildFault.Memory };

    fn from(_: AllocError) -> Self {
        BuildFault::Memory
    }
}

/// How many pages a chain of this many parts needs, one for each segment, with segments of up to `segment_size`
/// descriptors: none for one part.
pub fn pages_needed(parts: usize, segment_size: usize) -> usize
    requires { 2 ≤ segment_size }
    ensures count { result ≡ pages_needed parts segment_size }
    ensures few { result ≤ parts }
{
    if parts <= 1 {
        0
    } else {
        (parts - 2) / (segment_size - 1) + 1
    }
}

/// The link to the segments of this many parts, the first of which is on this page.
fn link(segment_size: usize, page: PageNo, parts: usize) -> Descriptor
    requires small { segment_size ≤ 256 }
    requires most { parts ≤ 1024 }
    ensures { result ≡ link segment_size page parts }
{
    let addr = u64::from(page.0) * 4096;
    if parts <= segment_size {
        let len = parts as u32 * 16;
        Descriptor::LastSegment { addr, len }
    } else {
        let len = segment_size as u32 * 16;
        Descriptor::Segment { addr, len }
    }
}

/// The segments of parts, each in memory of its own.
fn build_segments<A: Allocator + Clone>(
    alloc: &A,
    parts: &[Part],
    pages: &[PageNo],
    segment_size: usize,
) -> Result<Segment<A>, AllocError>
    requires some { 0 < length parts.now }
    requires most { length parts.now ≤ 1024 }
    requires low { 2 ≤ segment_size }
    requires high { segment_size ≤ 256 }
    requires pages { length pages.now ≡ segments_within (length parts.now) (length parts.now) segment_size }
    ensures segments { IfOk result (λ segment. segments_from segment ≡ segments_on segment_size pages.now parts.now) }
    ensures fits { IfOk result (λ segment. AllFit (segments_from segment)) }
{
    if parts.len() <= segment_size {
        let descs = Descs::of_parts(alloc.clone()?, parts)?;
        Ok(Segment { descs, next: None })
    } else {
        let (front, rest) = parts.split_at(segment_size - 1);
        let later = &pages[1..];
        let descs = Descs::linked(
            alloc.clone()?,
            front,
            link(segment_size, later[0], rest.len()),
        )?;
        let next = build_segments(alloc, rest, later, segment_size)?;
        let next = Some(Box::new(alloc.clone()?, next)?);
        Ok(Segment { descs, next })
    }
}

/// An SGL: its first descriptor, which a command carries as SGL1, and the segments after it. Contracts see it as that
/// descriptor and the list of the segments, each a list of descriptors.
#[derive(Drop)]
pub struct Chain<A: Allocator> {
    first: Descriptor,
    segments: Option<Segment<A>>,
}

impl<A: Allocator> Model for Chain<A> {
    ghost use Rattle.std.specs.Prelude.{◌≤◌, [], length};
    ghost use Rattle.std.specs.Option.{option_map_or};
    ghost use Rattle.sgl_chain.specs.Chains.{Sgl, segments_from};

    ghost Value = { Sgl };

    ghost view = { λ a. record { first = a.first; segments = option_map_or segments_from a.segments [] } };

    ghost invariant = { λ a. length (option_map_or segments_from a.segments []) ≤ 1024 };
}

impl<A: Allocator + Clone> Chain<A> {
    /// Builds the chain of 1 to 1,024 parts, with a segment on each of the pages and up to `segment_size` descriptors,
    /// 2 to 256, in each. The allocator is cloned for each segment, and once more for each after the first.
    ///
    /// Segments laid on one page overwrite each other, so a caller gives distinct pages. What is proved of the chain needs
    /// no such premise. A chain that is not built gives back the memory it took.
    ///
    /// # Errors
    ///
    /// 1. `TooManyParts` exactly where there are over 1,024 parts. 2. `Memory` where memory is refused.
    pub fn build(
        alloc: A,
        parts: &[Part],
        pages: &[PageNo],
        segment_size: usize,
    ) -> Result<Chain<A>, BuildFault>
        requires some { 0 < length parts.now }
        requires low { 2 ≤ segment_size }
        requires high { segment_size ≤ 256 }
        requires pages { length pages.now ≡ pages_needed (length parts.now) segment_size }

        // SGL1 and the segments
        ensures first { IfOk result (λ chain. chain.first ≡ first_of segment_size pages.now parts.now) }
        ensures segments { IfOk result (λ chain. chain.segments ≡ segments_on segment_size pages.now parts.now) }
        ensures count { IfOk result (λ chain. length chain.segments ≡ pages_needed (length parts.now) segment_size) }

        // Wherever the segments are laid in their pages, they spell the parts, and these are what flatten gives.
        ensures spells { IfOk result (λ chain. SpellsWhereLaid pages.now chain parts.now) }
        ensures parts { IfOk result (λ chain. parts_of chain ≡ parts.now) }

        ensures too_many_parts { (result ≡ Err BuildFault.TooManyParts) ↔ (1024 < length parts.now) }
        ensures one_part_takes_no_memory { length parts.now ≡ 1 → IsOk result }
    {
        if parts.len() > MAX_PARTS {
            return Err(BuildFault::TooManyParts);
        }
        let chain = build_chain(&alloc, parts, pages, segment_size)?;
        Ok(chain)
    }
}

/// The chain of at most 1,024 parts.
fn build_chain<A: Allocator + Clone>(
    alloc: &A,
    parts: &[Part],
    pages: &[PageNo],
    segment_size: usize,
) -> Result<Chain<A>, AllocError>
    requires most { length parts.now ≤ 1024 }
    requires has { HasPages segment_size pages.now parts.now }
    ensures first { IfOk result (λ chain. chain.first ≡ first_of segment_size pages.now parts.now) }
    ensures segments { IfOk result (λ chain. chain.segments ≡ segments_on segment_size pages.now parts.now) }
    ensures fits { IfOk result (λ chain. AllFit chain.segments) }
    ensures one { length parts.now ≡ 1 → IsOk result }
{
    if let [part] = parts {
        let first = part.descriptor();
        return Ok(Chain {
            first,
            segments: None,
        });
    }
    let first = link(segment_size, pages[0], parts.len());
    let segments = Some(build_segments(alloc, parts, pages, segment_size)?);
    Ok(Chain { first, segments })
}

impl<A: Allocator> Chain<A> {
    /// The first descriptor, for a command's SGL1.
    pub fn first(&self) -> Descriptor
        ensures { result ≡ self.now.first }
    {
        self.first
    }

    /// The first segment, which shows those after it; `None` where the chain is one part.
    ///
    /// Whoever lays each segment in its page goes from here along [`Segment::next`], and not by [`Chain::lay`], which goes to
    /// its segment from the start each time.
    pub fn head(&self) -> Option<&Segment<A>>
        ensures { MatchOption result (self.now.segments ≡ []) (λ segment. self.now.segments ≡ segments_from segment.now) }
    {
        self.segments.as_ref()
    }

    /// How many segments the chain has: as many as it was built on pages.
    pub fn segments(&self) -> usize
        ensures { result ≡ length self.now.segments }
    {
        match &self.segments {
            None => 0,
            Some(segment) => segment.count(),
        }
    }

    /// Segment `i`, counted from 0.
    pub fn image_of(&self, i: usize) -> &Segment<A>
        requires { i < length self.now.segments }
        ensures descriptors { result.now.descriptors ≡ segment_at self.now.segments i }
        ensures behind { result.now.behind ≡ drop (i + 1) self.now.segments }
    {
        let first = self.segments.as_ref().unwrap();
        first.nth(i)
    }

    /// Writes the bytes of segment `i`, counted from 0, at the start of a page. The rest of the page stays.
    pub fn lay<B: Allocator>(&self, i: usize, page: &mut Page<B>)
        requires { i < length self.now.segments }
        ensures bytes { page.new ≡ (page.old.0, with_bytes page.old.1 0 (segment_bytes (segment_at self.now.segments i))) }
        ensures len { length page.new.1 ≡ 4096 }
    {
        self.image_of(i).lay(page);
    }

    /// The parts that the chain was built of, in order.
    ///
    /// # Errors
    ///
    /// Where memory is refused.
    pub fn flatten<B: Allocator>(&self, alloc: B) -> Result<Vec<Part, B>, AllocError>
        ensures { IfOk result (λ parts. parts.items ≡ parts_of self.now) }
    {
        let mut parts = Vec::new(alloc);
        match &self.segments {
            Some(segment) => segment.push_into(&mut parts)?,
            None => push_part_of(&mut parts, self.first)?,
        }
        Ok(parts)
    }
}
