//! The pages of a host, as a device reads and writes them.

ghost use Rattle.std.specs.Prelude.{◌≡◌, ◌≢◌, ◌<◌, ◌≤◌, length, None, Some, OnOk, OnErr};
ghost use Rattle.page_memory.specs.Memory.{bytes_at, written};
ghost use Rattle.page_memory.specs.Pages.{byte_at, IsPool};
ghost use Rattle.host_bench.specs.Pool.{Keeps};

use page_memory::{Dma, MAX_PAGES, Store, TouchRecord, Unreadable};
use std::alloc::Allocator;

/// Fills the buffer with the bytes of a store starting at an address. No page changes.
pub(crate) fn read<A: Allocator>(
    store: &mut Store<A>,
    addr: u64,
    into: &mut [u8],
) -> Result<(), Unreadable>
    requires pool { IsPool store.old.pages }
    requires some { 0 < length into.old }
    requires few { length into.old ≤ 4096 }
    ensures read { OnOk result (bytes_at (byte_at store.old.pages) addr (length into.old) ≡ Some into.new) }
    ensures missing { OnErr result (bytes_at (byte_at store.old.pages) addr (length into.old) ≡ None) }
    ensures kept { OnErr result (into.new ≡ into.old) }
    ensures same { store.new.pages ≡ store.old.pages }
{
    store.clear();
    let answer = store.read(addr, into);
    prove!(store.pages() <= MAX_PAGES);
    answer
}

/// Puts the bytes into a store, starting at an address. Each page stays in or out.
pub(crate) fn write<A: Allocator>(
    store: &mut Store<A>,
    addr: u64,
    bytes: &[u8],
) -> Result<(), Unreadable>
    requires pool { IsPool store.old.pages }
    requires some { 0 < length bytes.now }
    requires few { length bytes.now ≤ 4096 }
    ensures there { OnOk result (bytes_at (byte_at store.old.pages) addr (length bytes.now) ≢ None) }
    ensures written { OnOk result (byte_at store.new.pages ≡ written (byte_at store.old.pages) addr bytes.now) }
    ensures missing { OnErr result (bytes_at (byte_at store.old.pages) addr (length bytes.now) ≡ None) }
    ensures same { OnErr result (store.new.pages ≡ store.old.pages) }
    ensures keeps { Keeps store.old.pages store.new.pages }
{
    store.clear();
    let answer = store.write(addr, bytes);
    prove!(store.pages() <= MAX_PAGES);
    answer
}
