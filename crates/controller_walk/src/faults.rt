//! The faults of a descriptor that was read.

ghost use Rattle.std.specs.Prelude.{◌≡◌};
ghost use Rattle.controller_walk.specs.Units.{first_cause as spec_first_cause, names_no_segment as spec_names_no_segment, passes_end as spec_passes_end, address, size};

use crate::cause::FaultCause;
use crate::cursor::{Cursor, Named};
use sgl_descriptor::Descriptor;

/// The first fault of a descriptor of a valid type, however many bytes are wanted. The order is that of the table of faults.
pub fn first_cause(cursor: Cursor, descriptor: Descriptor) -> Option<FaultCause>
    ensures { result ≡ spec_first_cause cursor descriptor }
{
    let link = descriptor.is_link();
    if link && matches!(cursor.named, Named::ByLastSegment) {
        Some(FaultCause::LinkInLastSegment)
    } else if link && cursor.left > 1 {
        Some(FaultCause::LinkNotLast)
    } else if link && names_no_segment(descriptor) {
        Some(FaultCause::MalformedLink)
    } else if !link && matches!(cursor.named, Named::BySegment) && cursor.left == 1 {
        Some(FaultCause::MissingLink)
    } else if passes_end(descriptor) {
        Some(FaultCause::PastEndOfAddresses)
    } else {
        None
    }
}

/// The address and the length of a descriptor, in bytes; a Bit Bucket has no address.
fn range(descriptor: Descriptor) -> (u64, u32)
    ensures { result ≡ (address descriptor, size descriptor) }
{
    match descriptor {
        Descriptor::DataBlock { addr, len }
        | Descriptor::Segment { addr, len }
        | Descriptor::LastSegment { addr, len } => (addr, len),
        Descriptor::BitBucket { len } => (0, len),
    }
}

/// Whether a link's length is zero or no multiple of 16, or its address no multiple of 8.
fn names_no_segment(descriptor: Descriptor) -> bool
    ensures { result ≡ spec_names_no_segment descriptor }
{
    let (addr, len) = range(descriptor);
    len == 0 || len % 16 != 0 || addr % 8 != 0
}

/// Whether a range ends above 2^64.
fn passes_end(descriptor: Descriptor) -> bool
    ensures { result ≡ spec_passes_end descriptor }
{
    let (addr, len) = range(descriptor);
    len > 0 && u64::MAX - addr < u64::from(len) - 1
}
