//! What a controller reaches of memory.

ghost use Rattle.std.specs.Prelude.{◌≡◌, ◌≢◌, ◌<◌, ◌≤◌, ◌++◌, [], None, Some, OnOk, OnErr, length};
ghost use Rattle.page_memory.specs.Memory.{bytes_at, written, pages_reached, counted};

use crate::page::PageNo;
use arrayvec::ArrayVec;
use thiserror::Error;

/// A byte of the range is outside the pool, or on a page that is out.
#[derive(Clone, Copy, Debug, PartialEq, Eq, Error)]
#[error("a byte of the range is outside the pool or on a page that is out")]
pub struct Unreadable;

/// Memory as a controller reaches it, by address.
///
/// A call moves 1 to 4,096 bytes, which lie in one page or in two neighbouring ones, and appends the numbers of these pages to
/// the touched list, in order; before each call that list has room for two. A refused call moves no byte and
/// touches no page. Any 64-bit address may be given: one near 2^64 is an ordinary missing address.
pub trait Dma {
    ghost use Rattle.std.specs.Prelude.{ℕ, List, Option};

    // the byte at each address, or nothing
    ghost memory: { Self → ℕ → Option ℕ };

    // the pages touched since the list was cleared
    ghost reached: { Self → List ℕ };

    // how many touches that list does not have
    ghost unlisted: { Self → ℕ };

    // how many pages the pool has
    ghost page_count: { Self → ℕ };

    /// How many pages the pool has.
    fn pool_pages(&self) -> u32
        ensures { result ≡ page_count self.now };

    /// Fills the buffer with the bytes starting at an address, or answers `Unreadable` exactly where one is missing.
    fn read(&mut self, addr: u64, into: &mut [u8]) -> Result<(), Unreadable>
        requires room { length (reached self.old) ≤ 2 }
        requires some { 0 < length into.old }
        requires few { length into.old ≤ 4096 }
        ensures read { OnOk result (bytes_at (memory self.old) addr (length into.old) ≡ Some into.new) }
        ensures touched { OnOk result (reached self.new ≡ reached self.old ++ pages_reached addr (length into.old)) }
        ensures missing { OnErr result (bytes_at (memory self.old) addr (length into.old) ≡ None) }
        ensures refused { OnErr result ((into.new ≡ into.old) × (reached self.new ≡ reached self.old)) }
        ensures memory { memory self.new ≡ memory self.old }
        ensures unlisted { unlisted self.new ≡ unlisted self.old }
        ensures pool { page_count self.new ≡ page_count self.old };

    /// Writes the bytes starting at an address, or answers `Unreadable` exactly where one is missing. All other bytes stay.
    fn write(&mut self, addr: u64, bytes: &[u8]) -> Result<(), Unreadable>
        requires room { length (reached self.old) ≤ 2 }
        requires some { 0 < length bytes.now }
        requires few { length bytes.now ≤ 4096 }
        ensures there { OnOk result (bytes_at (memory self.old) addr (length bytes.now) ≢ None) }
        ensures written { OnOk result (memory self.new ≡ written (memory self.old) addr bytes.now) }
        ensures touched { OnOk result (reached self.new ≡ reached self.old ++ pages_reached addr (length bytes.now)) }
        ensures missing { OnErr result (bytes_at (memory self.old) addr (length bytes.now) ≡ None) }
        ensures refused { OnErr result ((memory self.new ≡ memory self.old) × (reached self.new ≡ reached self.old)) }
        ensures unlisted { unlisted self.new ≡ unlisted self.old }
        ensures pool { page_count self.new ≡ page_count self.old };
}

/// The list of the pages that calls of [`Dma`] touched, for whoever lends the memory.
///
/// Only whoever has this bound, or the memory's own type, empties the list. Code that has [`Dma`] alone can only lengthen it. What is taken
/// off the list is counted: [`TouchRecord::touches`] tells of each touch, for good.
pub trait TouchRecord: Dma {
    /// The pages touched since the last `clear`, in the order touched, each as often as it was.
    fn touched(&self) -> &ArrayVec<PageNo, 4>
        ensures { result.now.items ≡ Self.reached self.now };

    /// How many pages were touched since the memory was opened, those of the list and all that it does not have any more. After 2^64 - 1 it
    /// begins at 0 again.
    fn touches(&self) -> u64
        ensures { result ≡ counted (Self.unlisted self.now) (length (Self.reached self.now)) };

    /// Empties the touched list.
    fn clear(&mut self)
        ensures touched { Self.reached self.new ≡ [] }
        ensures unlisted { Self.unlisted self.new ≡ counted (Self.unlisted self.old) (length (Self.reached self.old)) }
        ensures memory { Self.memory self.new ≡ Self.memory self.old }
        ensures pool { Self.page_count self.new ≡ Self.page_count self.old };
}
