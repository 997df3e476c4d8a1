//! The fields of a controller.

ghost use Rattle.std.specs.Prelude.{◌≡◌, slice_index, slice_range};
ghost use Rattle.admin_commands.specs.Identify.{halfword_at, word_at, has_bit, list_support as spec_list_support, most_pages as spec_most_pages};

/// Which lists (SGLs) a controller takes with I/O commands.
#[derive(Clone, Copy, Debug, PartialEq, Eq)]
pub enum ListSupport {
    /// None.
    No,
    /// Those whose addresses and lengths are any number of bytes.
    Bytes,
    /// Those whose addresses and lengths are multiples of four bytes.
    Words,
}

/// The serial number (SN), in ASCII and padded with blanks.
pub fn serial_number(bytes: &[u8; 4096]) -> &[u8]
    ensures { result.now ≡ slice_range bytes.now 4 24 }
{
    &bytes[4..24]
}

/// The model number (MN), in ASCII and padded with blanks.
pub fn model_number(bytes: &[u8; 4096]) -> &[u8]
    ensures { result.now ≡ slice_range bytes.now 24 64 }
{
    &bytes[24..64]
}

/// The firmware revision (FR), in ASCII and padded with blanks.
pub fn firmware_revision(bytes: &[u8; 4096]) -> &[u8]
    ensures { result.now ≡ slice_range bytes.now 64 72 }
{
    &bytes[64..72]
}

/// The most pages of data of a command (MDTS), in units of the smallest page that the controller takes (CAP.MPSMIN); none where it sets no limit, or
/// one of 2^32 pages or more.
pub fn most_pages(bytes: &[u8; 4096]) -> Option<u32>
    ensures { result ≡ spec_most_pages bytes.now }
{
    let power = bytes[77];
    if power == 0 || power > 31 {
        None
    } else {
        Some(1 << u32::from(power))
    }
}

/// How many namespaces there may be (NN).
pub fn namespaces(bytes: &[u8; 4096]) -> u32
    ensures { result ≡ word_at bytes.now 516 }
{
    u32::from_le_bytes([bytes[516], bytes[517], bytes[518], bytes[519]])
}

/// The optional I/O commands that it has (ONCS), by bits.
fn optional_commands(bytes: &[u8; 4096]) -> u16
    ensures { result ≡ halfword_at bytes.now 520 }
{
    u16::from_le_bytes([bytes[520], bytes[521]])
}

/// Whether it has Compare (ONCS, bit 0).
pub fn compares(bytes: &[u8; 4096]) -> bool
    ensures { result ≡ has_bit (halfword_at bytes.now 520) 0 }
{
    optional_commands(bytes) % 2 == 1
}

/// Whether it has Write Zeroes (ONCS, bit 3).
pub fn writes_zeroes(bytes: &[u8; 4096]) -> bool
    ensures { result ≡ has_bit (halfword_at bytes.now 520) 3 }
{
    optional_commands(bytes) / 8 % 2 == 1
}

/// Whether it has Verify (ONCS, bit 7).
pub fn verifies(bytes: &[u8; 4096]) -> bool
    ensures { result ≡ has_bit (halfword_at bytes.now 520) 7 }
{
    optional_commands(bytes) / 128 % 2 == 1
}

/// Whether it has a volatile write cache (VWC, bit 0), which Flush empties.
pub fn has_volatile_cache(bytes: &[u8; 4096]) -> bool
    ensures { result ≡ has_bit (slice_index bytes.now 525) 0 }
{
    bytes[525] % 2 == 1
}

/// Which lists it takes (SGLS, bits 1:0).
pub fn list_support(bytes: &[u8; 4096]) -> ListSupport
    ensures { result ≡ spec_list_support (slice_index bytes.now 536) }
{
    match bytes[536] % 4 {
        1 => ListSupport::Bytes,
        2 => ListSupport::Words,
        _ => ListSupport::No,
    }
}

/// Whether a list may have Bit Bucket descriptors (SGLS, bit 16).
pub fn takes_buckets(bytes: &[u8; 4096]) -> bool
    ensures { result ≡ has_bit (slice_index bytes.now 538) 0 }
{
    bytes[538] % 2 == 1
}
