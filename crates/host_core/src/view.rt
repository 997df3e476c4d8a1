//! What a host shows: the owner of each page, how many pages each class has, and that it is sound.

ghost use Rattle.std.specs.Prelude.{◌≡◌, ◌==◌, ◌<◌, ◌≤◌, length};
ghost use Rattle.std.specs.List.{Contains};
ghost use Rattle.machine_model.specs.Claims.{claims_of, counts_of};
ghost use Rattle.page_ledger.specs.Counting.{total};
ghost use Rattle.host_core.specs.Alone.{IsSoundHost};

use crate::host::Host;
use page_ledger::{Counts, Owner};
use page_memory::PageNo;
use std::alloc::Allocator;

impl<A: Allocator> Host<A> {
    /// The owner of a page of the pool: that of the one claim that it is in.
    pub fn owner(&self, p: PageNo) -> Owner
        requires { p < total (counts_of self.now.host) }
        ensures { Contains (claims_of self.now.host) (p, result) }
    {
        self.parts.ledger.owner(p)
    }

    /// How many pages are free, and how many belong to queues, to chains and to data.
    pub fn counts(&self) -> Counts
        ensures { result ≡ counts_of self.now.host }
    {
        self.parts.ledger.counts()
    }

    /// How many pages the pool has: all that are counted, 8 to 65,536. Whenever nothing runs, each of them has one owner, no identifier
    /// of a queue is outstanding twice, and the host stands in its rings, against any controller at all.
    pub fn pages(&self) -> u32
        ensures pages { result ≡ total (counts_of self.now.host) }
        ensures least { 8 ≤ result }
        ensures most { result ≤ 65536 }
        ensures sound { IsSoundHost self.now }
    {
        self.parts.ledger.pages()
    }

    /// Whether no command is outstanding, of an I/O queue or of queue 0.
    pub fn is_idle(&self) -> bool
        ensures { result ≡ (length self.now.host.records == 0) }
    {
        self.parts.records.is_empty()
    }
}
