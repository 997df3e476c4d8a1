//! Opcodes of the commands on I/O queues (NVM Command Set Specification 1.0, "I/O Commands").

ghost use Rattle.std.specs.Prelude.{◌≡◌};

/// Flush.
pub const FLUSH: u8 = 0x00;
/// Write.
pub const WRITE: u8 = 0x01;
/// Read.
pub const READ: u8 = 0x02;
/// Compare.
pub const COMPARE: u8 = 0x05;
/// Write Zeroes.
pub const WRITE_ZEROES: u8 = 0x08;
/// Dataset Management.
pub const DATASET_MANAGEMENT: u8 = 0x09;
/// Verify.
pub const VERIFY: u8 = 0x0C;

/// The opcodes, by their numbers.
pub fn values()
    ensures flush { FLUSH ≡ 0x00 }
    ensures write { WRITE ≡ 0x01 }
    ensures read { READ ≡ 0x02 }
    ensures compare { COMPARE ≡ 0x05 }
    ensures write_zeroes { WRITE_ZEROES ≡ 0x08 }
    ensures dataset_management { DATASET_MANAGEMENT ≡ 0x09 }
    ensures verify { VERIFY ≡ 0x0C }
{}
