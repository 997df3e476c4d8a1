//! What a device may reach now, and where the data of commands lies: what a host with an IOMMU, or with the pool in a device's sight, looks at.

ghost use Rattle.std.specs.Prelude.{◌≡◌, IfSome, IfNone, None, length, slice_get};
ghost use Rattle.std.specs.Option.{option_copied};
ghost use Rattle.host_core.specs.DataPlaces.{place_at};
ghost use Rattle.machine_model.specs.Script.{finished_at};
ghost use Rattle.host_core.specs.Rights.{queue_memory_at, right_at, runs_of_command};
ghost use Rattle.host_bench.specs.Calls.{Does};
ghost use Rattle.host_bench.specs.Reach.{WritesData, data_at, draft_data_at};
ghost use Rattle.std.specs.Fn.{FnOnceReturnsAtMut};

use crate::bench::HostBench;
use crate::call::{Call, ReplyIn};
use crate::values::finished_in;
use host_core::{DataPlace, QueueMemory, Right, Runs};
use io_commands::Finished;
use page_memory::PageNo;
use std::alloc::Allocator;

impl<A: Allocator> HostBench<A> {
    /// What a device may do with a page now, as [`host_core::Host::may`] says it.
    pub fn may(&self, p: PageNo) -> Right
        ensures { result ≡ right_at self.now.world.host p }
    {
        self.kept.host.may(p)
    }

    /// The pages of a command as runs, first those of its data and then those of its chain, with what a device may do with them now; none
    /// where no such command is outstanding.
    pub fn runs(&self, q: u16, cid: u16) -> Runs<'_>
        ensures { result ≡ runs_of_command self.now.world.host q cid }
    {
        self.kept.host.runs(q, cid)
    }

    /// The memory of a queue's rings, if there is a queue of this number.
    pub fn queue_memory(&self, q: u16) -> Option<QueueMemory>
        ensures { result ≡ queue_memory_at self.now.world.host q }
    {
        self.kept.host.queue_memory(q)
    }

    /// Where data piece `i` of an outstanding command lies; pieces are counted from 0, and buckets are skipped. None where no such
    /// command is outstanding, or it has no such piece.
    pub fn place(&self, q: u16, cid: u16, i: usize) -> Option<DataPlace>
        ensures { result ≡ place_at self.now.world.host q cid i }
    {
        self.kept.host.place(q, cid, i)
    }

    /// A collected command, to look at and to gather its bytes from where they lie; none where no such command is collected.
    pub fn finished(&self, q: u16, cid: u16) -> Option<&Finished<A>>
        ensures { option_copied result ≡ finished_at q cid self.now.finished }
    {
        finished_in(&self.kept.values, q, cid)
    }

    /// The 4,096 bytes of the page of data piece `i` of a collected command, where they lie; pieces are counted from 0, and buckets are
    /// skipped. None where no such command is collected, or it has no such piece.
    pub fn data(&self, q: u16, cid: u16, i: usize) -> Option<&[u8]>
        ensures { option_copied result ≡ data_at self.now q cid i }
    {
        let finished = finished_in(&self.kept.values, q, cid)?;
        if i >= finished.data_pages() {
            return None;
        }
        Some(finished.data(i))
    }
}

impl<A: Allocator + Copy> HostBench<A> {
    /// Fills a draft with bytes that are lent, and with zeros after them: it answers and does what [`Call::Fill`] with these bytes does.
    pub fn fill(&mut self, q: u16, cid: u16, bytes: &[u8]) -> ReplyIn<A>
        ensures { Does self.old (Call.Fill q cid bytes.now) result self.new }
    {
        self.kept.fill(q, cid, bytes)
    }

    /// Gives the 4,096 bytes of the page of data piece `i` of a draft to a closure, to be written where they lie, and answers what it answers; the
    /// piece's own bytes are at its offset, pieces are counted from 0, and buckets are skipped. A draft that is built stays built. None, and
    /// nothing is called, where there is no such draft, or it has no such piece.
    pub fn write_data<T, F: FnOnce(&mut [u8]) -> T>(
        &mut self,
        q: u16,
        cid: u16,
        i: usize,
        write: F,
    ) -> Option<T>
        requires { F.IsAlwaysCallable write }
        ensures { WritesData (λ old answer left. FnOnceReturnsAtMut F.FnOnce write old answer left) self.old q cid i (draft_data_at self.old q cid i) result self.new }
    {
        self.kept.write_data(q, cid, i, write)
    }
}
