//! A host whose commands are named by numbers, and its pages, which a device reads and writes.

ghost use Rattle.std.specs.Prelude.{◌≡◌, ◌≢◌, ◌+◌, ◌<◌, ◌≤◌, length, None, Some, IfOk, IfErr, OnOk, OnErr, slice_get};
ghost use Rattle.std.specs.List.{Contains};
ghost use Rattle.std.specs.Option.{option_map};
ghost use Rattle.host_core.specs.Alone.{alone, IsSoundHost};
ghost use Rattle.host_core.specs.Laws.{shown};
ghost use Rattle.host_core.specs.Opening.{refusal_of_config, RefusesOpening};
ghost use Rattle.machine_model.specs.Claims.{claims_of, counts_of};
ghost use Rattle.machine_model.specs.Script.{table};
ghost use Rattle.page_memory.specs.Memory.{bytes_at};
ghost use Rattle.page_memory.specs.Pages.{byte_at};
ghost use Rattle.queue_pair.specs.Positions.{host_positions};
ghost use Rattle.host_bench.specs.Calls.{Does};
ghost use Rattle.host_bench.specs.BenchTables.{opened_alone, table_of};
ghost use Rattle.host_bench.specs.Pool.{IsWritten};

use crate::bench_tables::BenchTables;
use crate::call::{CallIn, ReplyIn};
use crate::pool::{read, write};
use host_core::{Config, Host};
use machine_model::words::{HostState, OpenRefusal, Peer};
use page_ledger::{Counts, Owner};
use page_memory::{PageNo, Unreadable};
use queue_pair::HostPositions;
use slot_table::SlotTable;
use std::alloc::{Allocator, Global};
use std::marker::Model;

/// A host with its pages, and the drafts, tickets and finished commands that it keeps, each named by its queue and identifier. Contracts see the
/// machine that is this host over these pages, with no controller, and lists of these values.
pub struct HostBench<A: Allocator = Global> {
    pub(crate) kept: BenchTables<A>,
}

impl<A: Allocator> Drop for HostBench<A> {
    fn drop(self) {
        let Self { kept: _ } = self;
    }
}

impl<A: Allocator> Model for HostBench<A> {
    ghost use Rattle.machine_model.specs.Script.{Table};
    ghost use Rattle.host_bench.specs.BenchTables.{table_of, IsKept};

    ghost Value = { Table };

    ghost view = { λ b. table_of b.kept };

    ghost invariant = { λ b. IsKept b.kept };
}

impl<A: Allocator + Copy> HostBench<A> {
    /// Opens a host, with no values. Every page is in and zero, and every queue is live with empty rings.
    ///
    /// # Errors
    ///
    /// 1. `BadConfig` where a number lies outside its limits. 2. `NoPages` where the halves of all queues need more pages than the pool
    /// has. 3. `Memory` where memory is refused.
    pub fn open(alloc: A, config: Config) -> Result<HostBench<A>, OpenRefusal>
        ensures fits { IfOk result (λ bench. refusal_of_config config ≡ None) }
        ensures opened { IfOk result (λ bench. bench ≡ table (opened_alone config)) }
        ensures refused { IfErr result (λ why. RefusesOpening config why) }
    {
        let opened = match Host::open(alloc, config, Peer::Device) {
            Ok(opened) => opened,
            Err(why) => return Err(why),
        };
        match SlotTable::open(alloc, config.queues + 1, config.entries) {
            Ok(values) => Ok(HostBench {
                kept: BenchTables {
                    host: opened.host,
                    store: opened.store,
                    values,
                    alloc,
                },
            }),
            Err(_) => Err(OpenRefusal::Memory),
        }
    }

    /// Makes one call, and answers what it answered. A call that is refused changes nothing; want of memory inside it is its answer.
    pub fn call(&mut self, call: CallIn<A>) -> ReplyIn<A>
        ensures { Does self.old call result self.new }
    {
        self.kept.call(call)
    }
}

impl<A: Allocator> HostBench<A> {
    /// Fills the buffer with the bytes of the pool starting at an address, as a device reads them. Nothing changes.
    ///
    /// # Errors
    ///
    /// Exactly where a byte lies outside the pool, or on a page that is out. The buffer stays as it was.
    pub fn read(&mut self, addr: u64, into: &mut [u8]) -> Result<(), Unreadable>
        requires some { 0 < length into.old }
        requires few { length into.old ≤ 4096 }
        ensures read { OnOk result (bytes_at (byte_at self.old.world.memory) addr (length into.old) ≡ Some into.new) }
        ensures missing { OnErr result (bytes_at (byte_at self.old.world.memory) addr (length into.old) ≡ None) }
        ensures kept { OnErr result (into.new ≡ into.old) }
        ensures same { self.new ≡ self.old }
    {
        read(&mut self.kept.store, addr, into)
    }

    /// Puts the bytes into the pool, starting at an address, as a device writes them. Nothing but these bytes changes.
    ///
    /// # Errors
    ///
    /// Exactly where a byte lies outside the pool, or on a page that is out. Then nothing changed.
    pub fn write(&mut self, addr: u64, bytes: &[u8]) -> Result<(), Unreadable>
        requires some { 0 < length bytes.now }
        requires few { length bytes.now ≤ 4096 }
        ensures there { OnOk result (bytes_at (byte_at self.old.world.memory) addr (length bytes.now) ≢ None) }
        ensures written { OnOk result (IsWritten self.old addr bytes.now self.new) }
        ensures missing { OnErr result (bytes_at (byte_at self.old.world.memory) addr (length bytes.now) ≡ None) }
        ensures same { OnErr result (self.new ≡ self.old) }
    {
        write(&mut self.kept.store, addr, bytes)
    }

    /// The owner of a page of the pool: that of the one claim that it is in.
    pub fn owner(&self, p: PageNo) -> Owner
        requires { p < length self.now.world.memory }
        ensures { Contains (claims_of self.now.world.host) (p, result) }
    {
        self.kept.host.owner(p)
    }

    /// How many pages are free, and how many belong to queues, to chains and to data.
    pub fn counts(&self) -> Counts
        ensures { result ≡ counts_of self.now.world.host }
    {
        self.kept.host.counts()
    }

    /// How many pages the pool has, 8 to 65,536. Each of them has one owner, no identifier of a queue is outstanding twice, and the host stands in its
    /// rings, whatever a device wrote.
    pub fn pages(&self) -> u32
        ensures pages { result ≡ length self.now.world.memory }
        ensures least { 8 ≤ result }
        ensures most { result ≤ 65536 }
        ensures sound { IsSoundHost (shown self.now.world) }
        ensures alone { self.now.world ≡ alone (shown self.now.world) self.now.world.memory }
    {
        self.kept.host.pages()
    }

    /// What the host knows of a queue, if there is one of this number.
    pub fn queue_state(&self, q: u16) -> Option<HostState>
        ensures { result ≡ option_map (λ queue. queue.state) (slice_get self.now.world.host.queues q) }
    {
        self.kept.host.queue_state(q)
    }

    /// Where the host stands in both rings of a queue, if there is one of this number.
    pub fn positions(&self, q: u16) -> Option<HostPositions>
        ensures { result ≡ option_map (λ queue. host_positions queue.ring) (slice_get self.now.world.host.queues q) }
    {
        self.kept.host.positions(q)
    }
}
