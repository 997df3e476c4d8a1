//! Segments, and the descriptors in each.

ghost use Rattle.std.specs.Prelude.{◌≡◌, ◌<◌, ◌≤◌, ◌+◌, ◌^◌, ◌++◌, ◌∷◌, [], IfOk, OnOk, All, length, map, drop};
ghost use Rattle.std.specs.List.{filter_map};
ghost use Rattle.sgl_descriptor.specs.Spelling.{Fits};
ghost use Rattle.sgl_descriptor.specs.Targets.{descriptor_of_part};
ghost use Rattle.page_memory.specs.Pages.{with_bytes};
ghost use Rattle.sgl_chain.specs.Chains.{part_of, parts_in, segment_bytes, segments_from};

use page_memory::{PAGE_BYTES, Page};
use sgl_descriptor::{Descriptor, Part};
use std::alloc::{AllocError, Allocator};
use std::marker::Model;

/// How many bytes a descriptor takes (Base 2.0, section 4.1.2).
const DESCRIPTOR_BYTES: usize = 16;

/// The descriptors of one segment, at most 256. Contracts see them as a list.
#[derive(Drop)]
pub struct Descs<A: Allocator> {
    items: Vec<Descriptor, A>,
}

impl<A: Allocator> Model for Descs<A> {
    ghost use Rattle.std.specs.Prelude.{List};
    ghost use Rattle.sgl_descriptor.specs.declared.Descriptor.{Descriptor};
    ghost use Rattle.sgl_chain.specs.Chains.{FitsPage};

    ghost Value = { List Descriptor };

    ghost view = { λ d. d.items.items };

    ghost invariant = { λ d. FitsPage d.items.items };
}

impl<A: Allocator> Descs<A> {
    /// No descriptors, with room for this many.
    fn with_capacity(alloc: A, capacity: usize) -> Result<Self, AllocError>
        ensures { IfOk result (λ descs. descs ≡ []) }
    {
        Ok(Descs {
            items: Vec::with_capacity(alloc, capacity)?,
        })
    }

    /// Adds a descriptor at the end.
    fn push(&mut self, descriptor: Descriptor) -> Result<(), AllocError>
        requires { length self.old < 256 }
        ensures pushed { OnOk result (self.new ≡ self.old ++ descriptor ∷ []) }
        ensures fits { OnOk result (All Fits self.new) }
    {
        self.items.push(descriptor)?;
        Ok(())
    }

    /// Adds the descriptors of parts at the end, in order.
    fn push_parts(&mut self, parts: &[Part]) -> Result<(), AllocError>
        requires { length self.old + length parts.now ≤ 256 }
        ensures pushed { OnOk result (self.new ≡ self.old ++ map descriptor_of_part parts.now) }
        ensures fits { OnOk result (All Fits self.old → All Fits self.new) }
    {
        for part in parts {
            self.push(part.descriptor())?;
        }
        Ok(())
    }

    /// The descriptors of parts.
    pub(crate) fn of_parts(alloc: A, parts: &[Part]) -> Result<Self, AllocError>
        requires { length parts.now ≤ 256 }
        ensures descs { IfOk result (λ descs. descs ≡ map descriptor_of_part parts.now) }
        ensures fits { IfOk result (λ descs. All Fits descs) }
    {
        let mut descs = Descs::with_capacity(alloc, parts.len())?;
        descs.push_parts(parts)?;
        Ok(descs)
    }

    /// The descriptors of parts, and after them a link.
    pub(crate) fn linked(alloc: A, parts: &[Part], link: Descriptor) -> Result<Self, AllocError>
        requires { length parts.now < 256 }
        ensures descs { IfOk result (λ descs. descs ≡ map descriptor_of_part parts.now ++ link ∷ []) }
        ensures fits { IfOk result (λ descs. All Fits descs) }
    {
        let mut descs = Descs::with_capacity(alloc, parts.len() + 1)?;
        descs.push_parts(parts)?;
        descs.push(link)?;
        Ok(descs)
    }

    /// The descriptors, in order.
    pub fn as_slice(&self) -> &[Descriptor]
        ensures value { result.now ≡ self.now }
        ensures few { length self.now ≤ 256 }
        ensures fits { All Fits self.now }
    {
        self.items.as_slice()
    }
}

/// A segment, and after it the one that its last descriptor names. Contracts see it as its descriptors, and those of
/// each segment after it.
#[derive(Drop)]
pub struct Segment<A: Allocator> {
    /// The descriptors of this segment.
    pub descs: Descs<A>,
    /// The segment after it, `None` at the last.
    pub next: Option<Box<Segment<A>, A>>,
}

impl<A: Allocator> Model for Segment<A> {
    ghost use Rattle.std.specs.Prelude.{◌+◌, [], length};
    ghost use Rattle.std.specs.Option.{option_map_or};
    ghost use Rattle.sgl_chain.specs.Chains.{Linked, segments_from};
    ghost use Rattle.std.proofs.Common.{arith};

    ghost Value = { Linked };

    ghost view = { λ a. record { descriptors = a.descs; behind = option_map_or (λ b. segments_from b.value) a.next [] } };

    ghost size = { λ v. length v.behind };

    ghost size_decreases = { λ a h. Prim.grind arith };
}

impl<A: Allocator> Segment<A> {
    /// How many segments there are, starting at this one.
    pub(crate) fn count(&self) -> usize
        requires { length (segments_from self.now) < 2 ^ 32 }
        ensures { result ≡ length (segments_from self.now) }
    {
        match &self.next {
            None => 1,
            Some(next) => next.count() + 1,
        }
    }

    /// The segment `i` links further on.
    pub(crate) fn nth(&self, i: usize) -> &Segment<A>
        requires { i < length (segments_from self.now) }
        ensures { segments_from result.now ≡ drop i (segments_from self.now) }
    {
        match &self.next {
            Some(next) if i > 0 => next.nth(i - 1),
            _ => self,
        }
    }

    /// Writes the bytes of this segment's descriptors at the start of a page. The rest of the page stays.
    pub fn lay<B: Allocator>(&self, page: &mut Page<B>)
        ensures bytes { page.new ≡ (page.old.0, with_bytes page.old.1 0 (segment_bytes self.now.descriptors)) }
        ensures len { length page.new.1 ≡ 4096 }
    {
        lay_descriptors(self.descs.as_slice(), page);
    }

    /// Adds the parts of this segment and of those after it.
    pub(crate) fn push_into<B: Allocator>(&self, out: &mut Vec<Part, B>) -> Result<(), AllocError>
        ensures { OnOk result (out.new.items ≡ out.old.items ++ parts_in (segments_from self.now)) }
    {
        push_parts_of(out, self.descs.as_slice())?;
        match &self.next {
            None => Ok(()),
            Some(next) => next.push_into(out),
        }
    }
}

/// Writes the bytes of descriptors at the start of a page. The rest of the page stays.
fn lay_descriptors<B: Allocator>(descriptors: &[Descriptor], page: &mut Page<B>)
    requires { length descriptors.now ≤ 256 }
    ensures bytes { page.new ≡ (page.old.0, with_bytes page.old.1 0 (segment_bytes descriptors.now)) }
    ensures len { length page.new.1 ≡ 4096 }
{
    for (i, descriptor) in descriptors.iter().enumerate() {
        page.set(DESCRIPTOR_BYTES * i, &descriptor.write());
    }
    prove!(page.bytes().len() == PAGE_BYTES);
}

/// The part that a descriptor is. `None` is a link.
fn part_of(descriptor: Descriptor) -> Option<Part>
    ensures { result ≡ part_of descriptor }
{
    match descriptor {
        Descriptor::DataBlock { addr, len } => Some(Part::Data { addr, len }),
        Descriptor::BitBucket { len } => Some(Part::Bucket { len }),
        Descriptor::Segment { .. } | Descriptor::LastSegment { .. } => None,
    }
}

/// Adds the part that a descriptor is, if it is no link.
pub(crate) fn push_part_of<B: Allocator>(
    out: &mut Vec<Part, B>,
    descriptor: Descriptor,
) -> Result<(), AllocError>
    ensures { OnOk result (out.new.items ≡ out.old.items ++ filter_map part_of (descriptor ∷ [])) }
{
    match part_of(descriptor) {
        Some(part) => Ok(out.push(part)?),
        None => Ok(()),
    }
}

/// Adds the parts that descriptors are, but for links.
fn push_parts_of<B: Allocator>(
    out: &mut Vec<Part, B>,
    descriptors: &[Descriptor],
) -> Result<(), AllocError>
    ensures { OnOk result (out.new.items ≡ out.old.items ++ filter_map part_of descriptors.now) }
{
    for descriptor in descriptors {
        push_part_of(out, *descriptor)?;
    }
    Ok(())
}
