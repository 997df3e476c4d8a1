//! What a world shows: its image, the owner of each page and how many each class has, whether it is idle, whether something was forged, and that
//! it is sound.

ghost use Rattle.std.specs.Prelude.{◌≡◌, ◌==◌, ◌<◌, ◌≤◌, length};
ghost use Rattle.std.specs.List.{Contains};
ghost use Rattle.machine_model.specs.Claims.{claims_of, counts_of, IsSound};
ghost use Rattle.page_ledger.specs.Counting.{total};

use crate::world::World;
use block_image::Image;
use page_ledger::{Counts, Owner};
use page_memory::{PageNo, TouchRecord};
use std::alloc::Allocator;

impl<A: Allocator> World<A> {
    /// The owner of a page of the pool: that of the one claim that contains it.
    pub fn owner(&self, p: PageNo) -> Owner
        requires { p < length self.now.state.memory }
        ensures { Contains (claims_of self.now.state.host) (p, result) }
    {
        self.host.owner(p)
    }

    /// How many pages are free, and how many belong to queues, to chains and to data.
    pub fn counts(&self) -> Counts
        ensures counts { result ≡ counts_of self.now.state.host }
        ensures all { total result ≡ length self.now.state.memory }
    {
        self.host.counts()
    }

    /// How many pages the pool has, 8 to 65,536.
    pub fn pages(&self) -> u32
        ensures pages { result ≡ length self.now.state.memory }
        ensures least { 8 ≤ length self.now.state.memory }
        ensures most { length self.now.state.memory ≤ 65536 }
    {
        self.host.pages()
    }

    /// How many queues there are, queue 0 among them.
    pub fn queue_count(&self) -> u16
        ensures { result ≡ length self.now.state.host.queues }
    {
        self.host.queue_count()
    }

    /// How many entries each ring has.
    pub fn entries(&self) -> u16
        ensures { result ≡ self.now.state.entries }
    {
        self.host.entries()
    }

    /// The image as it is.
    pub fn image(&self) -> &Image<A>
        ensures { result.now ≡ self.now.state.controller.image }
    {
        self.controller.image()
    }

    /// Whether no command is outstanding, of an I/O queue or of queue 0.
    pub fn is_idle(&self) -> bool
        ensures { result ≡ (length self.now.state.host.records == 0) }
    {
        self.host.is_idle()
    }

    /// Whether nothing was forged since the opening or the last reset.
    pub fn trusted(&self) -> bool
        ensures { result ≡ self.now.state.trusted }
    {
        self.trusted
    }

    /// How many pages were touched since the world opened, each counted as often as it
    /// was: by steps of either side and by looks. After 2^64 - 1 it begins at 0 again.
    pub fn touches(&self) -> u64
        ensures { result ≡ self.now.touches }
    {
        self.store.touches()
    }

    /// Shows that the world is sound, whatever was forged: each page has one owner, the counts add up to the pool, no identifier
    /// of a queue is outstanding twice, a page is out exactly where a drafted or collected command has it, queue 0 is live, and all else that
    /// `IsSound` says. It does nothing.
    pub fn check(&self)
        ensures { IsSound self.now.state }
    {
        prove!(self.trusted == self.trusted());
    }
}
