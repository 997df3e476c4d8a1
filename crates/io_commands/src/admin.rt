//! Admin commands of the caller's own.

ghost use Rattle.std.specs.Prelude.{◌≡◌};
ghost use Rattle.io_commands.specs.Admin.{has_its_page as spec_has_its_page, has_page as spec_has_page, is_kept, page_pointer as spec_page_pointer, same_command, same_use};

use crate::request::Piece;
use entry_codec::{admin_opcode, feature};
use page_memory::PageNo;

/// What an admin command does with a page of the host's.
#[derive(Clone, Copy, Debug, PartialEq, Eq)]
pub enum PageUse {
    /// It has no page.
    Nothing,
    /// Data comes to the page.
    In,
    /// Data is taken from the page.
    Out,
}

impl PageUse {
    /// Whether there is a page.
    pub fn has_page(self) -> bool
        ensures { result ≡ spec_has_page self }
    {
        self != PageUse::Nothing
    }

    /// Whether another is the same.
    fn is_same(self, other: PageUse) -> bool
        ensures { result ≡ same_use self other }
    {
        match (self, other) {
            (PageUse::Nothing, PageUse::Nothing)
            | (PageUse::In, PageUse::In)
            | (PageUse::Out, PageUse::Out) => true,
            _ => false,
        }
    }
}

/// An admin command that the caller makes up (NVM Express Base Specification 2.0, "Admin Command Set", section 5): Identify, Get Log
/// Page, Set Features and so on, with no page or one, which PRP1 names. Its namespace is the request's.
#[derive(Clone, Copy, Debug, PartialEq, Eq)]
pub struct AdminCommand {
    /// The opcode.
    pub opcode: u8,
    /// What it does with a page of the host's.
    pub page: PageUse,
    /// Command Dword 10.
    pub cdw10: u32,
    /// Command Dword 11.
    pub cdw11: u32,
    /// Command Dword 12.
    pub cdw12: u32,
    /// Command Dword 13.
    pub cdw13: u32,
    /// Command Dword 14.
    pub cdw14: u32,
    /// Command Dword 15.
    pub cdw15: u32,
}

impl AdminCommand {
    /// Whether the host keeps it to itself: Create and Delete of queues and Abort, which the host sends by calls of their own, and
    /// what hands a device memory for longer than the command lasts, Doorbell Buffer Config and Set Features of the Host Memory
    /// Buffer.
    pub fn is_hosts_own(self) -> bool
        ensures { result ≡ is_kept self }
    {
        match self.opcode {
            admin_opcode::DELETE_IO_SQ
            | admin_opcode::CREATE_IO_SQ
            | admin_opcode::DELETE_IO_CQ
            | admin_opcode::CREATE_IO_CQ
            | admin_opcode::ABORT
            | admin_opcode::DOORBELL_BUFFER_CONFIG => true,
            admin_opcode::SET_FEATURES => self.cdw10 % 256 == feature::HOST_MEMORY_BUFFER,
            _ => false,
        }
    }

    /// Whether another is the same.
    pub fn is_same(self, other: AdminCommand) -> bool
        ensures { result ≡ same_command self other }
    {
        self.opcode == other.opcode
            && self.page.is_same(other.page)
            && self.cdw10 == other.cdw10
            && self.cdw11 == other.cdw11
            && self.cdw12 == other.cdw12
            && self.cdw13 == other.cdw13
            && self.cdw14 == other.cdw14
            && self.cdw15 == other.cdw15
    }

    /// Whether pieces are what it moves: one data piece from the start of its page where it has a page, and else none.
    pub(crate) fn has_its_page(self, pieces: &[Piece]) -> bool
        ensures { result ≡ spec_has_its_page self.page pieces.now }
    {
        match pieces.split_first() {
            None => !self.page.has_page(),
            Some((Piece::Data { offset, .. }, others)) => {
                self.page.has_page() && *offset == 0 && others.is_empty()
            }
            Some((Piece::Bucket { .. }, _)) => false,
        }
    }
}

/// The bytes of a data pointer that names one page: its address as PRP1, and a PRP2 of 0.
pub(crate) fn page_pointer(page: PageNo) -> [u8; 16]
    ensures { result ≡ spec_page_pointer page }
{
    let a = (4096 * u64::from(page.0)).to_le_bytes();
    [
        a[0], a[1], a[2], a[3], a[4], a[5], a[6], a[7], 0, 0, 0, 0, 0, 0, 0, 0,
    ]
}
