//! The bytes that a caller lends for one call, as the memory of a controller.
//!
//! A [`LentMemory`] is a [`Dma`] over a slice: the byte at an address is that of the slice, and an address after its end is unreadable. It serves
//! whoever has a pool of his own, as an emulator has a guest's memory, and lends it a call at a time. Each memory that is lent is [`Lent`].

ghost use Rattle.std.specs.Prelude.{◌≡◌, ◌+◌, ◌<◌, ◌≤◌, ◌++◌, [], length, true, false};
ghost use Rattle.page_memory.specs.Memory.{pages_reached};
ghost use Rattle.page_memory.specs.Pages.{with_bytes};

use arrayvec::ArrayVec;
use page_memory::{Dma, PageNo, Unreadable};

/// Memory that is lent for one call, and lists the pages touched.
pub trait Lent: Dma {
    /// The pages touched, in order.
    fn touched(&self) -> &ArrayVec<PageNo, 4>
        ensures { result.now.items ≡ Self.reached self.now };

    /// Empties the list.
    fn clear(&mut self)
        ensures touched { Self.reached self.new ≡ [] }
        ensures memory { Self.memory self.new ≡ Self.memory self.old }
        ensures unlisted { Self.unlisted self.new ≡ Self.unlisted self.old }
        ensures pool { Self.page_count self.new ≡ Self.page_count self.old };
}

/// The most bytes that are lent: 65,536 pages.
pub const MOST_BYTES: usize = 268_435_456;

/// Lent bytes, and the pages touched through [`Dma`].
#[derive(Drop)]
pub struct LentMemory<'a> {
    /// The bytes of the pool, one page after the other.
    pub bytes: &'a mut [u8],
    /// The pages touched, in order.
    pub touched: ArrayVec<PageNo, 4>,
    pub ghost few: { length bytes.now ≤ 268435456 },
}

/// Adds the one or two pages of a range.
pub(crate) fn touch(touched: &mut ArrayVec<PageNo, 4>, addr: u64, count: usize)
    requires low { addr + count ≤ 17592186044416 }
    requires some { 0 < count }
    requires room { length touched.old.items ≤ 2 }
    ensures { touched.new.items ≡ touched.old.items ++ pages_reached addr count }
{
    let last = addr + count as u64 - 1;
    touched.push(PageNo((addr / 4096) as u32));
    if last / 4096 != addr / 4096 {
        touched.push(PageNo((last / 4096) as u32));
    }
}

/// Whether a range lies in this many bytes.
pub(crate) fn is_inside(addr: u64, count: usize, len: usize) -> bool
    ensures inside { result ≡ true → addr + count ≤ len }
    ensures outside { result ≡ false → len < addr + count }
{
    let len = len as u64;
    addr <= len && count as u64 <= len - addr
}

/// Overwrites bytes starting at a position.
pub(crate) fn put(into: &mut [u8], at: usize, bytes: &[u8])
    requires { at + length bytes.now ≤ length into.old }
    ensures bytes { into.new ≡ with_bytes into.old at bytes.now }
    ensures len { length into.new ≡ length into.old }
{
    into[at..at + bytes.len()].copy_from_slice(bytes);
}

impl<'a> Dma for LentMemory<'a> {
    ghost use Rattle.std.specs.Prelude.{◌/◌, length, slice_get};

    ghost memory = { λ m. slice_get m.bytes.now };

    ghost reached = { λ m. m.touched.items };

    // the name of the borrow: no call changes it, so what is in the bytes afterwards is the lender's
    ghost unlisted = { λ m. m.bytes.ghost_name };

    ghost page_count = { λ m. length m.bytes.now / 4096 };

    fn pool_pages(&self) -> u32 {
        (self.bytes.len() / 4096) as u32
    }

    fn read(&mut self, addr: u64, into: &mut [u8]) -> Result<(), Unreadable> {
        if !is_inside(addr, into.len(), self.bytes.len()) {
            return Err(Unreadable);
        }
        touch(&mut self.touched, addr, into.len());
        for k in 0..into.len() {
            into[k] = self.bytes[addr as usize + k];
        }
        Ok(())
    }

    fn write(&mut self, addr: u64, bytes: &[u8]) -> Result<(), Unreadable> {
        if !is_inside(addr, bytes.len(), self.bytes.len()) {
            return Err(Unreadable);
        }
        touch(&mut self.touched, addr, bytes.len());
        put(self.bytes, addr as usize, bytes);
        Ok(())
    }
}

impl<'a> Lent for LentMemory<'a> {
    fn touched(&self) -> &ArrayVec<PageNo, 4> {
        &self.touched
    }

    fn clear(&mut self) {
        self.touched.clear();
    }
}
