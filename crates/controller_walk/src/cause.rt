//! What a walk tells of the fault that ended it.

ghost use Rattle.std.specs.Prelude.{◌≡◌};
ghost use Rattle.controller_walk.specs.Units.{cause_status};

use entry_codec::Status;
use std::fmt;

/// Why a list is refused: the table of faults, in the order in which they are looked for at each descriptor (this project's own), and then
/// a list that ends too early. A *link* is a Segment or a Last Segment descriptor.
#[derive(Clone, Copy, Debug, PartialEq, Eq)]
pub enum FaultCause {
    /// It would be descriptor 4,097 of the list: 0:0E.
    TooManyDescriptors,
    /// One of the descriptor's 16 bytes is unreadable: 0:04.
    UnreadableDescriptor,
    /// The descriptor's type is above 3, or its subtype is not 0: 0:11.
    UnknownType,
    /// A link, in a segment that a Last Segment descriptor names: 0:0D.
    LinkInLastSegment,
    /// A link before the last place of its segment: 0:0E.
    LinkNotLast,
    /// A link whose length is zero or no multiple of 16, or whose address is no multiple of 8: 0:0D.
    MalformedLink,
    /// No link, in the last place of a segment that a Segment descriptor names: 0:0D.
    MissingLink,
    /// A Data Block or a link whose address plus length is above 2^64: 0:0F.
    PastEndOfAddresses,
    /// A wanted byte of the descriptor's data is unreadable: 0:04.
    UnreadableData,
    /// The descriptor is the last of the list, and bytes are still wanted after it: 0:0F.
    ListTooShort,
}

impl FaultCause {
    /// The status that a command gets for it (NVM Express Base Specification 2.0, Generic Command Status Values).
    pub fn status(self) -> Status
        ensures { result ≡ cause_status self }
    {
        match self {
            FaultCause::TooManyDescriptors | FaultCause::LinkNotLast => Status::INVALID_SGL_COUNT,
            FaultCause::UnreadableDescriptor | FaultCause::UnreadableData => {
                Status::DATA_TRANSFER_ERROR
            }
            FaultCause::UnknownType => Status::SGL_TYPE_INVALID,
            FaultCause::LinkInLastSegment | FaultCause::MalformedLink | FaultCause::MissingLink =>
                Status::INVALID_SGL_SEGMENT,
            FaultCause::PastEndOfAddresses | FaultCause::ListTooShort => {
                Status::DATA_SGL_LENGTH_INVALID
            }
        }
    }
}

/// A sentence for people, without a full stop, as `it is a link, in a segment that a Last Segment descriptor names`; `it` is the descriptor.
impl fmt::Display for FaultCause {
    fn fmt<W: fmt::Write>(&self, f: &mut fmt::Formatter<W>) -> fmt::Result {
        f.write_str(match self {
            FaultCause::TooManyDescriptors =>
                "it would be descriptor 4,097 of the list, and 4,096 are the most",
            FaultCause::UnreadableDescriptor => "one of its 16 bytes is unreadable",
            FaultCause::UnknownType => "its type is above 3h, or its subtype is not 0h",
            FaultCause::LinkInLastSegment =>
                "it is a link, in a segment that a Last Segment descriptor names",
            FaultCause::LinkNotLast => "it is a link, and not in the last place of its segment",
            FaultCause::MalformedLink =>
                "it is a link whose length is zero or no multiple of 16, or whose address is no multiple of 8",
            FaultCause::MissingLink =>
                "it is no link, in the last place of a segment that a Segment descriptor names",
            FaultCause::PastEndOfAddresses => "its address plus its length is above 2^64",
            FaultCause::UnreadableData => "a wanted byte of its data is unreadable",
            FaultCause::ListTooShort => "it ends the list, and bytes are still wanted",
        })
    }
}

/// Which descriptor of a list, and where it is.
#[derive(Clone, Copy, Debug, PartialEq, Eq)]
pub struct DescriptorAt {
    /// Its number in the list; the entry's own, SGL1, is 1.
    pub number: u32,
    /// The address of its 16 bytes; `None` for SGL1, which is not read from memory.
    pub place: Option<u64>,
}

/// The fault that ended a walk.
#[derive(Clone, Copy, Debug, PartialEq, Eq)]
pub struct WalkFault {
    /// Why the list is refused.
    pub cause: FaultCause,
    /// The descriptor that has the fault, or whose data has it.
    pub at: DescriptorAt,
}
