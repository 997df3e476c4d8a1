//! The fields of a namespace.

ghost use Rattle.std.specs.Prelude.{◌≡◌, ◌<◌, ◌%◌, slice_index};
ghost use Rattle.admin_commands.specs.Identify.{block_bytes as spec_block_bytes, double_word_at, format_at, halfword_at};

/// A format of a namespace's blocks (LBAF).
#[derive(Clone, Copy, Debug, PartialEq, Eq)]
pub struct Format {
    /// How many bytes of metadata go with a block (MS).
    pub metadata: u16,
    /// The number of bytes of a block as a power of two (LBADS); 0 where there is no such format.
    pub power: u8,
}

impl Format {
    /// How many bytes a block has; none where that is not a number of 32 bits, or there is no such format.
    pub fn block_bytes(self) -> Option<u32>
        ensures { result ≡ spec_block_bytes self.power }
    {
        if self.power == 0 || self.power > 31 {
            None
        } else {
            Some(1 << u32::from(self.power))
        }
    }
}

/// How many blocks it has (NSZE); 0 where there is no such namespace.
pub fn blocks(bytes: &[u8; 4096]) -> u64
    ensures { result ≡ double_word_at bytes.now 0 }
{
    u64::from_le_bytes([
        bytes[0], bytes[1], bytes[2], bytes[3], bytes[4], bytes[5], bytes[6], bytes[7],
    ])
}

/// The number of the last of its formats (NLBAF).
pub fn last_format(bytes: &[u8; 4096]) -> u8
    ensures { result ≡ slice_index bytes.now 25 }
{
    bytes[25]
}

/// The number of the format that it has now (FLBAS, bits 3:0).
pub fn format_number(bytes: &[u8; 4096]) -> u8
    ensures { result ≡ slice_index bytes.now 26 % 16 }
{
    bytes[26] % 16
}

/// A format by its number, which is below 64.
pub fn format_of(bytes: &[u8; 4096], number: u8) -> Format
    requires { number < 64 }
    ensures { result ≡ format_at bytes.now number }
{
    let at = 128 + 4 * usize::from(number);
    Format {
        metadata: u16::from_le_bytes([bytes[at], bytes[at + 1]]),
        power: bytes[at + 2],
    }
}

/// The format that it has now.
pub fn current_format(bytes: &[u8; 4096]) -> Format
    ensures { result ≡ format_at bytes.now (slice_index bytes.now 26 % 16) }
{
    format_of(bytes, format_number(bytes))
}
