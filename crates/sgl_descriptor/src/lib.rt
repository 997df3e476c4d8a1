//! SGL descriptors (NVM Express Base Specification 2.0, "Scatter Gather List (SGL)", section 4.1.2):
//! their 16 bytes, the parts of a data transfer, and where the bytes of parts go to or come from.
//!
//! `specs/Spelling.antt` says which bytes spell a descriptor, `specs/Targets.antt` where each byte of a list of
//! parts goes to or comes from. The laws in [`laws`] tie the definitions to one another, and [`worked`] runs them
//! on known bytes and parts. Nothing here takes memory.
#![tactic(auto)]

pub mod laws;
pub mod worked;

ghost use Rattle.std.specs.Prelude.{◌≡◌, ◌↔◌, IfOk, IsErr, Ok};
ghost use Rattle.std.specs.Result.{result_ok};
ghost use Rattle.sgl_descriptor.specs.declared.Descriptor.{Descriptor};
ghost use Rattle.sgl_descriptor.specs.Spelling.{descriptor_bytes as spec_descriptor_bytes, IsSpelling, spelling, descriptor_of, HasInvalidType, is_link as spec_is_link};
ghost use Rattle.sgl_descriptor.specs.Targets.{descriptor_of_part};

use thiserror::Error;

/// Byte 15 of a Data Block: its type times 16, with subtype 0.
const DATA_BLOCK: u8 = 0x00;

/// Byte 15 of a Bit Bucket.
const BIT_BUCKET: u8 = 0x10;

/// Byte 15 of a Segment descriptor.
const SEGMENT: u8 = 0x20;

/// Byte 15 of a Last Segment descriptor.
const LAST_SEGMENT: u8 = 0x30;

/// An SGL descriptor (Base 2.0, section 4.1.2) of one of this profile's four types, each with subtype 0.
///
/// Addresses are those of bytes in host memory, and lengths count bytes.
#[derive(Clone, Copy, Debug, PartialEq, Eq)]
pub enum Descriptor {
    /// Data in memory: `len` bytes starting at `addr`. A length of zero is valid and moves nothing.
    DataBlock {
        /// Where the data begins, with no alignment (own).
        addr: u64,
        /// How many bytes there are.
        len: u32,
    },
    /// `len` bytes that a destination discards. A source skips the descriptor.
    BitBucket {
        /// How many bytes are discarded.
        len: u32,
    },
    /// A link to the next segment, which is not the last one.
    Segment {
        /// Where the segment begins.
        addr: u64,
        /// The segment's length in bytes, 16 for each of its descriptors.
        len: u32,
    },
    /// A link to the last segment.
    LastSegment {
        /// Where the segment begins.
        addr: u64,
        /// The segment's length in bytes, 16 for each of its descriptors.
        len: u32,
    },
}

/// The descriptor's type is above 3, or its subtype is not 0 (Base 2.0, "SGL Descriptor Type Invalid").
#[derive(Clone, Copy, Debug, PartialEq, Eq, Error)]
#[error("the SGL descriptor's type is above 3, or its subtype is not 0")]
pub struct TypeInvalid;

impl Descriptor {
    /// The descriptor's 16 bytes (Base 2.0, section 4.1.2), with zeros in those that are reserved (own).
    pub fn write(self) -> [u8; 16]
        ensures { result ≡ spelling self }
    {
        match self {
            Descriptor::DataBlock { addr, len } => descriptor_bytes(addr, len, DATA_BLOCK),
            Descriptor::BitBucket { len } => descriptor_bytes(0, len, BIT_BUCKET),
            Descriptor::Segment { addr, len } => descriptor_bytes(addr, len, SEGMENT),
            Descriptor::LastSegment { addr, len } => descriptor_bytes(addr, len, LAST_SEGMENT),
        }
    }

    /// The descriptor that 16 bytes spell (Base 2.0, section 4.1.2), whatever is in those that are reserved (own).
    ///
    /// # Errors
    ///
    /// [`TypeInvalid`] exactly where the type, byte 15's high half, is above 3, or the subtype, its low half, is not 0.
    #[tactic(auto, unfolding(crate::specs::Spelling::descriptor_of))]
    pub fn read(bytes: &[u8; 16]) -> Result<Descriptor, TypeInvalid>
        ensures spelled { IfOk result (λ d. IsSpelling d bytes.now) }
        ensures only { (d : Descriptor) → IsSpelling d bytes.now → result ≡ Ok d }
        ensures exact { result_ok result ≡ descriptor_of bytes.now }
        ensures invalid { IsErr result ↔ HasInvalidType bytes.now }
    {
        let addr = u64::from_le_bytes([
            bytes[0], bytes[1], bytes[2], bytes[3], bytes[4], bytes[5], bytes[6], bytes[7],
        ]);
        let len = u32::from_le_bytes([bytes[8], bytes[9], bytes[10], bytes[11]]);
        match bytes[15] {
            DATA_BLOCK => Ok(Descriptor::DataBlock { addr, len }),
            BIT_BUCKET => Ok(Descriptor::BitBucket { len }),
            SEGMENT => Ok(Descriptor::Segment { addr, len }),
            LAST_SEGMENT => Ok(Descriptor::LastSegment { addr, len }),
            _ => Err(TypeInvalid),
        }
    }

    /// Whether the descriptor names a segment: a Segment or a Last Segment descriptor does.
    pub fn is_link(self) -> bool
        ensures { result ≡ spec_is_link self }
    {
        matches!(
            self,
            Descriptor::Segment { .. } | Descriptor::LastSegment { .. }
        )
    }
}

/// A part of a command's data, as one descriptor says it. Addresses are those of host memory, lengths count bytes.
#[derive(Clone, Copy, Debug, PartialEq, Eq)]
pub enum Part {
    /// `len` bytes of memory, starting at `addr`.
    Data {
        /// Where the bytes begin.
        addr: u64,
        /// How many there are.
        len: u32,
    },
    /// `len` bytes of a destination that are discarded. It is not part of a source's bytes.
    Bucket {
        /// How many bytes are discarded.
        len: u32,
    },
}

impl Part {
    /// The part's descriptor: a Data Block or a Bit Bucket (Base 2.0, section 4.1.2).
    pub fn descriptor(self) -> Descriptor
        ensures { result ≡ descriptor_of_part self }
    {
        match self {
            Part::Data { addr, len } => Descriptor::DataBlock { addr, len },
            Part::Bucket { len } => Descriptor::BitBucket { len },
        }
    }
}

/// Which way an SGL's data goes (Base 2.0, "Scatter Gather List (SGL)", destination and source data buffers).
#[derive(Clone, Copy, Debug, PartialEq, Eq)]
pub enum Direction {
    /// The data goes to host memory, as a Read's does.
    Destination,
    /// The data comes from host memory, as a Write's and a Compare's do.
    Source,
}

/// Address and length, three reserved bytes of zero, and byte 15.
fn descriptor_bytes(addr: u64, len: u32, last: u8) -> [u8; 16]
    ensures { result ≡ spec_descriptor_bytes addr len last }
{
    let a = addr.to_le_bytes();
    let l = len.to_le_bytes();
    [
        a[0], a[1], a[2], a[3], a[4], a[5], a[6], a[7], l[0], l[1], l[2], l[3], 0, 0, 0, last,
    ]
}
