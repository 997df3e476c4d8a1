//! Submission queue entries, and readers of their single fields.
#![tactic(auto, unfolding(crate::specs::Submission::submission_of))]

ghost use Rattle.std.specs.Prelude.{◌≡◌, ◌↔◌, ◌+◌, ◌*◌, List, ℕ};
ghost use Rattle.entry_codec.specs.Bytes.{IsBytes};
ghost use Rattle.entry_codec.specs.Submission.{submission_bytes, submission_head, command_words, submission_of, FitsSubmission, IsSubEntry, IsSubmission, AgreeOutsideReserved};
ghost use Rattle.entry_codec.specs.Worked.{first_read, first_read_bytes};
ghost use Rattle.entry_codec.specs.declared.submission.SubEntry.{SubEntry};

/// A submission queue entry (NVM Express Base Specification 2.0, "Submission Queue Entry", section 3.3.3.1).
///
/// Its 64 bytes are little-endian. Bits 13:10 of the first doubleword, which the standard reserves, and bytes 15:8, CDW2 and
/// CDW3, are not part of the entry: they are written as zero and ignored on reading (own). Fields of two bits are below 4 in
/// what is read, and a writer must ensure that.
#[derive(Clone, Copy, Debug, PartialEq, Eq)]
pub struct SubEntry {
    /// The command's opcode: bits 7:0 of the first doubleword.
    pub opcode: u8,
    /// Fused operation: bits 9:8 of the first doubleword.
    pub fuse: u8,
    /// PRP or SGL for data transfer: bits 15:14 of the first doubleword.
    pub psdt: u8,
    /// Command identifier: bits 31:16 of the first doubleword.
    pub cid: u16,
    /// Namespace identifier: bytes 7:4.
    pub nsid: u32,
    /// Metadata pointer: bytes 23:16.
    pub mptr: u64,
    /// The data pointer's 16 bytes, with SGLs the first descriptor: bytes 39:24.
    pub sgl1: [u8; 16],
    /// Command specific: bytes 43:40.
    pub cdw10: u32,
    /// Command specific: bytes 47:44.
    pub cdw11: u32,
    /// Command specific: bytes 51:48.
    pub cdw12: u32,
    /// Command specific: bytes 55:52.
    pub cdw13: u32,
    /// Command specific: bytes 59:56.
    pub cdw14: u32,
    /// Command specific: bytes 63:60.
    pub cdw15: u32,
}

impl SubEntry {
    /// The entry's bytes, with zeros in what is ignored. The caller must ensure that FUSE and PSDT are below 4: no value is
    /// truncated to fit its bits. The entry's numbers are those of a value of its type, which [`round_trip`] asks for.
    #[tactic(auto, unfolding(crate::specs::Submission::submission_bytes))]
    pub fn write(self) -> [u8; 64]
        requires fits { FitsSubmission self }
        ensures bytes { result ≡ submission_bytes self }
        ensures typed { IsSubEntry self }
    {
        let mut bytes = [0; 64];
        bytes[..16].copy_from_slice(&self.head());
        bytes[16..24].copy_from_slice(&self.mptr.to_le_bytes());
        bytes[24..40].copy_from_slice(&self.sgl1);
        bytes[40..].copy_from_slice(&self.command_words());
        bytes
    }

    /// The entry that the bytes spell, whatever is in the ignored bits and bytes.
    #[tactic(auto)]
    pub fn read(bytes: &[u8; 64]) -> SubEntry
        ensures spelled { IsSubmission result bytes.now }
        ensures only { (entry : SubEntry) → IsSubmission entry bytes.now → result ≡ entry }
        ensures exact { result ≡ submission_of bytes.now }
    {
        SubEntry {
            opcode: opcode(bytes),
            fuse: fuse(bytes),
            psdt: psdt(bytes),
            cid: cid(bytes),
            nsid: nsid(bytes),
            mptr: mptr(bytes),
            sgl1: sgl1(bytes),
            cdw10: cdw10(bytes),
            cdw11: cdw11(bytes),
            cdw12: cdw12(bytes),
            cdw13: cdw13(bytes),
            cdw14: cdw14(bytes),
            cdw15: cdw15(bytes),
        }
    }

    /// Bytes 15:0: the first doubleword, the namespace and zeros.
    #[tactic(auto)]
    fn head(self) -> [u8; 16]
        requires fits { FitsSubmission self }
        ensures { result ≡ submission_head self }
    {
        let mut bytes = [0; 16];
        bytes[..2].copy_from_slice(&[self.opcode, self.flags()]);
        bytes[2..4].copy_from_slice(&self.cid.to_le_bytes());
        bytes[4..8].copy_from_slice(&self.nsid.to_le_bytes());
        bytes
    }

    /// Byte 1: fused operation and data transfer.
    #[tactic(auto)]
    fn flags(self) -> u8
        requires fits { FitsSubmission self }
        ensures { result ≡ self.fuse + self.psdt * 64 }
    {
        self.psdt << 6 | self.fuse
    }

    /// Bytes 63:40: the command specific doublewords.
    #[tactic(auto)]
    fn command_words(self) -> [u8; 24]
        ensures { result ≡ command_words self }
    {
        let mut bytes = [0; 24];
        bytes[0..4].copy_from_slice(&self.cdw10.to_le_bytes());
        bytes[4..8].copy_from_slice(&self.cdw11.to_le_bytes());
        bytes[8..12].copy_from_slice(&self.cdw12.to_le_bytes());
        bytes[12..16].copy_from_slice(&self.cdw13.to_le_bytes());
        bytes[16..20].copy_from_slice(&self.cdw14.to_le_bytes());
        bytes[20..24].copy_from_slice(&self.cdw15.to_le_bytes());
        bytes
    }
}

/// The opcode of an entry's bytes.
pub fn opcode(bytes: &[u8; 64]) -> u8
    ensures { result ≡ (submission_of bytes.now).opcode }
{
    bytes[0]
}

/// The fused operation of an entry's bytes, below 4.
pub fn fuse(bytes: &[u8; 64]) -> u8
    ensures { result ≡ (submission_of bytes.now).fuse }
{
    bytes[1] % 4
}

/// The choice of PRP or SGL of an entry's bytes, below 4.
pub fn psdt(bytes: &[u8; 64]) -> u8
    ensures { result ≡ (submission_of bytes.now).psdt }
{
    bytes[1] >> 6
}

/// The command identifier of an entry's bytes.
pub fn cid(bytes: &[u8; 64]) -> u16
    ensures { result ≡ (submission_of bytes.now).cid }
{
    u16::from_le_bytes([bytes[2], bytes[3]])
}

/// The namespace identifier of an entry's bytes.
pub fn nsid(bytes: &[u8; 64]) -> u32
    ensures { result ≡ (submission_of bytes.now).nsid }
{
    u32::from_le_bytes([bytes[4], bytes[5], bytes[6], bytes[7]])
}

/// The metadata pointer of an entry's bytes.
pub fn mptr(bytes: &[u8; 64]) -> u64
    ensures { result ≡ (submission_of bytes.now).mptr }
{
    u64::from_le_bytes([
        bytes[16], bytes[17], bytes[18], bytes[19], bytes[20], bytes[21], bytes[22], bytes[23],
    ])
}

/// The first SGL descriptor of an entry's bytes, which is its data pointer.
pub fn sgl1(bytes: &[u8; 64]) -> [u8; 16]
    ensures { result ≡ (submission_of bytes.now).sgl1 }
{
    let mut sgl1 = [0; 16];
    sgl1.copy_from_slice(&bytes[24..40]);
    sgl1
}

/// Command doubleword 10 of an entry's bytes.
pub fn cdw10(bytes: &[u8; 64]) -> u32
    ensures { result ≡ (submission_of bytes.now).cdw10 }
{
    u32::from_le_bytes([bytes[40], bytes[41], bytes[42], bytes[43]])
}

/// Command doubleword 11 of an entry's bytes.
pub fn cdw11(bytes: &[u8; 64]) -> u32
    ensures { result ≡ (submission_of bytes.now).cdw11 }
{
    u32::from_le_bytes([bytes[44], bytes[45], bytes[46], bytes[47]])
}

/// Command doubleword 12 of an entry's bytes.
pub fn cdw12(bytes: &[u8; 64]) -> u32
    ensures { result ≡ (submission_of bytes.now).cdw12 }
{
    u32::from_le_bytes([bytes[48], bytes[49], bytes[50], bytes[51]])
}

/// Command doubleword 13 of an entry's bytes.
pub fn cdw13(bytes: &[u8; 64]) -> u32
    ensures { result ≡ (submission_of bytes.now).cdw13 }
{
    u32::from_le_bytes([bytes[52], bytes[53], bytes[54], bytes[55]])
}

/// Command doubleword 14 of an entry's bytes.
pub fn cdw14(bytes: &[u8; 64]) -> u32
    ensures { result ≡ (submission_of bytes.now).cdw14 }
{
    u32::from_le_bytes([bytes[56], bytes[57], bytes[58], bytes[59]])
}

/// Command doubleword 15 of an entry's bytes.
pub fn cdw15(bytes: &[u8; 64]) -> u32
    ensures { result ≡ (submission_of bytes.now).cdw15 }
{
    u32::from_le_bytes([bytes[60], bytes[61], bytes[62], bytes[63]])
}

/// What is written for an entry reads as the entry.
#[tactic(auto, using(crate::proofs::SubmissionLemmas::spells_itself, crate::proofs::SubmissionLemmas::round_trip))]
pub fn round_trip()
    ensures spelled { (entry : SubEntry) → IsSubEntry entry → FitsSubmission entry → IsSubmission entry (submission_bytes entry) }
    ensures read { (entry : SubEntry) → IsSubEntry entry → FitsSubmission entry → submission_of (submission_bytes entry) ≡ entry }
{}

/// The relation between bytes and an entry, and the function from bytes to an entry, say the same.
#[tactic(auto)]
pub fn one_spelling()
    ensures { (bytes : List ℕ) (entry : SubEntry) → IsBytes 64 bytes → (IsSubmission entry bytes ↔ (submission_of bytes ≡ entry)) }
{}

/// Two strings of bytes read alike exactly where they agree outside what is reserved.
#[tactic(auto, using(crate::proofs::SubmissionLemmas::read_alike))]
pub fn read_alike()
    ensures { (a b : List ℕ) → IsBytes 64 a → IsBytes 64 b → ((submission_of a ≡ submission_of b) ↔ AgreeOutsideReserved a b) }
{}

/// The entry of a first Read, both ways.
#[tactic(auto, unfolding(crate::specs::Submission::submission_bytes, crate::specs::Submission::submission_of))]
pub fn worked_entry()
    ensures written { submission_bytes first_read ≡ first_read_bytes }
    ensures read { submission_of first_read_bytes ≡ first_read }
{}
