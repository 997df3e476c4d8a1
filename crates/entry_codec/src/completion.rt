//! Completion queue entries, and readers of their single fields.
#![tactic(auto, unfolding(crate::specs::Completion::completion_of))]

ghost use Rattle.std.specs.Prelude.{◌≡◌, ◌↔◌, ◌<◌, List, ℕ, slice_range};
ghost use Rattle.std.specs.Int.{w16, from_le_bytes};
ghost use Rattle.entry_codec.specs.Bytes.{IsBytes};
ghost use Rattle.entry_codec.specs.Completion.{completion_bytes, completion_of, last_halfword as halfword_of, FitsCompletion, IsComEntry, IsCompletion, AgreeOutsideIgnored};
ghost use Rattle.entry_codec.specs.Worked.{first_completion, first_completion_bytes, hinting_completion, hinting_completion_bytes};
ghost use Rattle.entry_codec.specs.declared.completion.ComEntry.{ComEntry};

use crate::hints::Hints;
use crate::status::Status;

/// A completion queue entry (NVM Express Base Specification 2.0, "Common Completion Queue Entry", section 3.3.3.2).
///
/// Its 16 bytes are little-endian. Bytes 7:4, DW1, are not part of the entry: they are written as zero and ignored on
/// reading (own).
#[derive(Clone, Copy, Debug, PartialEq, Eq)]
pub struct ComEntry {
    /// Command specific: bytes 3:0.
    pub dw0: u32,
    /// Submission queue head pointer: bytes 9:8.
    pub sqhd: u16,
    /// Submission queue identifier: bytes 11:10.
    pub sqid: u16,
    /// Command identifier: bytes 13:12.
    pub cid: u16,
    /// Phase tag: bit 0 of the last halfword.
    pub phase: bool,
    /// Status: bits 11:1 of the last halfword. Its type is below 8 in what is read, and a writer must ensure that.
    pub status: Status,
    /// Hints: bits 15:12 of the last halfword. The retry delay is below 4 in what is read, and a writer must ensure that.
    pub hints: Hints,
}

impl ComEntry {
    /// The entry's bytes, with zeros in what is ignored. The caller must ensure that the status code type is below 8 and
    /// the retry delay below 4: no value is truncated to fit its bits. The entry's numbers are those of a value of its type,
    /// which [`round_trip`] asks for.
    #[tactic(auto, unfolding(crate::specs::Completion::completion_bytes))]
    pub fn write(self) -> [u8; 16]
        requires fits { FitsCompletion self }
        ensures bytes { result ≡ completion_bytes self }
        ensures typed { IsComEntry self }
    {
        let mut bytes = [0; 16];
        bytes[0..4].copy_from_slice(&self.dw0.to_le_bytes());
        bytes[8..10].copy_from_slice(&self.sqhd.to_le_bytes());
        bytes[10..12].copy_from_slice(&self.sqid.to_le_bytes());
        bytes[12..14].copy_from_slice(&self.cid.to_le_bytes());
        bytes[14..16].copy_from_slice(&self.last_halfword().to_le_bytes());
        bytes
    }

    /// The entry that the bytes spell, whatever is in the ignored bytes.
    #[tactic(auto)]
    pub fn read(bytes: &[u8; 16]) -> ComEntry
        ensures spelled { IsCompletion result bytes.now }
        ensures only { (entry : ComEntry) → IsCompletion entry bytes.now → result ≡ entry }
        ensures exact { result ≡ completion_of bytes.now }
    {
        ComEntry {
            dw0: dw0(bytes),
            sqhd: sqhd(bytes),
            sqid: sqid(bytes),
            cid: cid(bytes),
            phase: phase(bytes),
            status: status(bytes),
            hints: hints(bytes),
        }
    }

    /// The last halfword: phase, status and hints.
    #[tactic(auto, using(crate::proofs::Bits::fields_add))]
    fn last_halfword(self) -> u16
        requires fits { FitsCompletion self }
        ensures { result ≡ halfword_of self }
    {
        let status = u16::from(self.status.sct) << 9 | u16::from(self.status.sc) << 1;
        self.hints.bits() << 12 | status | u16::from(self.phase)
    }
}

/// The command specific doubleword of an entry's bytes.
pub fn dw0(bytes: &[u8; 16]) -> u32
    ensures { result ≡ (completion_of bytes.now).dw0 }
{
    u32::from_le_bytes([bytes[0], bytes[1], bytes[2], bytes[3]])
}

/// The submission queue head pointer of an entry's bytes.
pub fn sqhd(bytes: &[u8; 16]) -> u16
    ensures { result ≡ (completion_of bytes.now).sqhd }
{
    u16::from_le_bytes([bytes[8], bytes[9]])
}

/// The submission queue identifier of an entry's bytes.
pub fn sqid(bytes: &[u8; 16]) -> u16
    ensures { result ≡ (completion_of bytes.now).sqid }
{
    u16::from_le_bytes([bytes[10], bytes[11]])
}

/// The command identifier of an entry's bytes.
pub fn cid(bytes: &[u8; 16]) -> u16
    ensures { result ≡ (completion_of bytes.now).cid }
{
    u16::from_le_bytes([bytes[12], bytes[13]])
}

/// The phase tag of an entry's bytes.
pub fn phase(bytes: &[u8; 16]) -> bool
    ensures { result ≡ (completion_of bytes.now).phase }
{
    halfword(bytes) % 2 == 1
}

/// The status of an entry's bytes, whose type is below 8.
pub fn status(bytes: &[u8; 16]) -> Status
    ensures { result ≡ (completion_of bytes.now).status }
{
    let halfword = halfword(bytes);
    Status {
        sct: (halfword / 512 % 8) as u8,
        sc: (halfword / 2 % 256) as u8,
    }
}

/// The hints of an entry's bytes, whose retry delay is below 4.
pub fn hints(bytes: &[u8; 16]) -> Hints
    ensures { result ≡ (completion_of bytes.now).hints }
{
    let halfword = halfword(bytes);
    Hints {
        retry_delay: (halfword / 4096 % 4) as u8,
        more: halfword / 16384 % 2 == 1,
        do_not_retry: halfword / 32768 == 1,
    }
}

fn halfword(bytes: &[u8; 16]) -> u16
    ensures { result ≡ from_le_bytes w16 (slice_range bytes.now 14 16) }
{
    u16::from_le_bytes([bytes[14], bytes[15]])
}

/// What is written for an entry reads as the entry.
#[tactic(auto, using(crate::proofs::CompletionLemmas::spells_itself, crate::proofs::CompletionLemmas::round_trip))]
pub fn round_trip()
    ensures spelled { (entry : ComEntry) → IsComEntry entry → FitsCompletion entry → IsCompletion entry (completion_bytes entry) }
    ensures read { (entry : ComEntry) → IsComEntry entry → FitsCompletion entry → completion_of (completion_bytes entry) ≡ entry }
{}

/// The relation between bytes and an entry, and the function from bytes to an entry, say the same.
#[tactic(auto)]
pub fn one_spelling()
    ensures { (bytes : List ℕ) (entry : ComEntry) → IsBytes 16 bytes → (IsCompletion entry bytes ↔ (completion_of bytes ≡ entry)) }
{}

/// Two strings of bytes read alike exactly where they agree outside DW1.
#[tactic(auto, using(crate::proofs::CompletionLemmas::read_alike))]
pub fn read_alike()
    ensures { (a b : List ℕ) → IsBytes 16 a → IsBytes 16 b → ((completion_of a ≡ completion_of b) ↔ AgreeOutsideIgnored a b) }
{}

/// The entry of a first Read's completion, and one with each hint, both ways.
#[tactic(auto, unfolding(crate::specs::Completion::completion_bytes, crate::specs::Completion::completion_of))]
pub fn worked_entry()
    ensures written { completion_bytes first_completion ≡ first_completion_bytes }
    ensures read { completion_of first_completion_bytes ≡ first_completion }
    ensures hinting_written { completion_bytes hinting_completion ≡ hinting_completion_bytes }
    ensures hinting_read { completion_of hinting_completion_bytes ≡ hinting_completion }
{}
