//! Owners of pages, and the counts of their four classes.

ghost use Rattle.std.specs.Prelude.{◌≡◌, ◌+◌, ◌<◌};
ghost use Rattle.page_ledger.specs.Owners.{is_free as spec_is_free, is_same_half};
ghost use Rattle.page_ledger.specs.Groups.{is_member};
ghost use Rattle.page_ledger.specs.Updates.{counted, one_more as spec_one_more, one_less as spec_one_less};

use page_memory::Half;
use thiserror::Error;

/// What a page of a command holds.
#[derive(Clone, Copy, Debug, PartialEq, Eq)]
pub enum Role {
    /// Bytes that the command moves or compares.
    Data,
    /// A segment of the command's SGL (NVM Express Base Specification 2.0, section 4.1.2).
    Chain,
}

/// Who owns a page.
#[derive(Clone, Copy, Debug, PartialEq, Eq)]
pub enum Owner {
    /// Nobody.
    Free,
    /// One of the two rings of a queue pair.
    Queue {
        /// The queue's identifier.
        q: u16,
        /// The ring.
        half: Half,
    },
    /// A command that is outstanding.
    Command {
        /// The identifier of the command's queue.
        q: u16,
        /// The command identifier.
        cid: u16,
        /// What the page holds.
        role: Role,
    },
}

impl Owner {
    /// Whether nobody owns the page.
    pub fn is_free(self) -> bool
        ensures { result ≡ spec_is_free self }
    {
        match self {
            Owner::Free => true,
            Owner::Queue { .. } | Owner::Command { .. } => false,
        }
    }
}

/// How many pages of a pool each class has. They add up to the pool.
#[derive(Clone, Copy, Debug, PartialEq, Eq)]
pub struct Counts {
    /// The pages that nobody owns.
    pub free_pages: u32,
    /// The pages of queues.
    pub queue_pages: u32,
    /// The pages that hold segments of commands' SGLs.
    pub chain_pages: u32,
    /// The pages that hold commands' data.
    pub data_pages: u32,
}

impl Counts {
    /// One page more of this owner's class.
    pub(crate) fn one_more(mut self, owner: Owner) -> Self
        requires { counted self owner < 65536 }
        ensures { result ≡ spec_one_more self owner }
    {
        match owner {
            Owner::Free => self.free_pages += 1,
            Owner::Queue { .. } => self.queue_pages += 1,
            Owner::Command { role, .. } => match role {
                Role::Data => self.data_pages += 1,
                Role::Chain => self.chain_pages += 1,
            },
        }
        self
    }

    /// One page less of this owner's class.
    pub(crate) fn one_less(mut self, owner: Owner) -> Self
        requires { 0 < counted self owner }
        ensures { result ≡ spec_one_less self owner }
    {
        match owner {
            Owner::Free => self.free_pages -= 1,
            Owner::Queue { .. } => self.queue_pages -= 1,
            Owner::Command { role, .. } => match role {
                Role::Data => self.data_pages -= 1,
                Role::Chain => self.chain_pages -= 1,
            },
        }
        self
    }
}

/// Fewer pages are free than were asked for.
#[derive(Clone, Copy, Debug, PartialEq, Eq, Error)]
#[error("{need} pages are needed, and {free} are free")]
pub struct NoPages {
    /// How many pages were asked for.
    pub need: u32,
    /// How many pages are free.
    pub free: u32,
}

/// The owners whose pages a call gives back.
#[derive(Clone, Copy)]
pub(crate) enum Group {
    /// A command, for its data and for its chain.
    Command { q: u16, cid: u16 },
    /// One half of a queue.
    Half { q: u16, half: Half },
    /// Both halves of a queue.
    Queue { q: u16 },
}

impl Group {
    /// Whether this owner is one of them.
    pub(crate) fn has(self, owner: Owner) -> bool
        ensures { result ≡ is_member self owner }
    {
        match (self, owner) {
            (
                Group::Command { q, cid },
                Owner::Command {
                    q: of,
                    cid: with,
                    ..
                },
            ) => of == q && with == cid,
            (Group::Half { q, half }, Owner::Queue { q: of, half: with }) => of == q
                && same_half(with, half),
            (Group::Queue { q }, Owner::Queue { q: of, .. }) => of == q,
            (Group::Command { .. } | Group::Half { .. } | Group::Queue { .. }, _) => false,
        }
    }
}

/// Whether two rings are the same one.
fn same_half(a: Half, b: Half) -> bool
    ensures { result ≡ is_same_half a b }
{
    match (a, b) {
        (Half::Submission, Half::Submission) | (Half::Completion, Half::Completion) => true,
        (Half::Submission, Half::Completion) | (Half::Completion, Half::Submission) => false,
    }
}
