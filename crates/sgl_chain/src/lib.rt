//! Scatter-gather lists as chains of segments (NVM Express Base Specification 2.0, "Scatter Gather List (SGL)", section 4.1.2):
//! built of a list of parts under any allocator, laid in pages of memory, and flattened back into the parts.
//!
//! A segment holds up to a given number of descriptors, the segment size, 2 to 256, and is at the start of a page of
//! its own (own: a page has 4,096 bytes, and so room for 256 descriptors). One part is in the command's first
//! descriptor, SGL1, itself and needs no page. Up to as many parts as the segment size are in one segment, which a
//! Last Segment descriptor names. Of more parts, one less than the segment size are in the first segment, with the
//! link to the segments of the rest in its last position, and a Segment descriptor names that segment.
//!
//! [`join`] makes one part of two neighbours that join, before a chain is built of them: `specs/Joining.antt`.
//!
//! `specs/Chains.antt` says which descriptors each segment has, and `specs/Spells.antt` what a list of segments says
//! over a memory. [`Chain::build`] ensures that a chain whose segments are laid in its pages, in whatever memory, spells exactly
//! the parts that it was built of. The laws in [`laws`] say the same of the definitions, and [`worked`] runs them on known parts.
#![tactic(auto)]

mod chain;
mod joining;
pub mod laws;
mod segment;
pub mod worked;

pub use chain::{BuildFault, Chain, MAX_PARTS, pages_needed};
pub use joining::join;
pub use segment::{Descs, Segment};
pub use sgl_descriptor::Part;
