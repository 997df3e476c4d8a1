//! Who owns a page, as C sees it.

ghost use Rattle.std.specs.Prelude.{◌≡◌};
ghost use Rattle.nvmesgl_c.specs.Owners as owners;

use page_ledger::{Owner, Role};
use page_memory::Half;

/// Who owns a page.
#[repr(C)]
#[derive(Clone, Copy)]
pub struct COwner {
    /// 0 nobody, 1 a submission queue, 2 a completion queue, 3 a command for its data, 4 a command for its chain.
    pub class: u32,
    /// The queue, or the command's queue.
    pub q: u16,
    /// The command's identifier.
    pub cid: u16,
    /// Zeros.
    pub reserved: [u32; 4],
}

/// An owner of a class, a queue and an identifier.
fn owner_with(class: u32, q: u16, cid: u16) -> COwner
    ensures { result ≡ owners.owner_with class q cid }
{
    COwner {
        class,
        q,
        cid,
        reserved: [0; 4],
    }
}

/// The owner that C sees.
pub fn owner_of(owner: Owner) -> COwner
    ensures { result ≡ owners.owner_of owner }
{
    match owner {
        Owner::Free => owner_with(0, 0, 0),
        Owner::Queue {
            q,
            half: Half::Submission,
        } => owner_with(1, q, 0),
        Owner::Queue {
            q,
            half: Half::Completion,
        } => owner_with(2, q, 0),
        Owner::Command {
            q,
            cid,
            role: Role::Data,
        } => owner_with(3, q, cid),
        Owner::Command {
            q,
            cid,
            role: Role::Chain,
        } => owner_with(4, q, cid),
    }
}
