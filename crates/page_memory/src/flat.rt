//! A second memory, for tests: the bytes of a pool one after the other, where each may be missing.
//!
//! What is written over [`Dma`] alone runs over a [`FlatMemory`] as it does over a [`Store`](crate::Store). Here single
//! bytes may be missing, and not only whole pages.

ghost use Rattle.std.specs.Prelude.{◌≡◌, ◌+◌, ◌*◌, ◌<◌, ◌≤◌, ◌++◌, ℕ, [], length, replicate, slice_set, true, false, IfOk, IsSome, Some};
ghost use Rattle.page_memory.specs.Memory.{bytes_at, pages_reached, counted};
ghost use Rattle.page_memory.specs.Pages.{slot_at};
ghost use Rattle.page_memory.specs.Flat.{without};

use crate::dma::{Dma, TouchRecord, Unreadable};
use crate::page::{PAGE_BYTES, PageNo};
use arrayvec::ArrayVec;
use std::alloc::{AllocError, Allocator, Global};
use std::marker::Model;

/// The bytes of a pool one after the other, each there or missing, and the list of pages touched through [`Dma`].
///
/// It takes two bytes of memory for each byte of the pool.
#[derive(Drop)]
pub struct FlatMemory<A: Allocator = Global> {
    bytes: Vec<Option<u8>, A>,
    touched: ArrayVec<PageNo, 4>,
    unlisted: u64,
}

impl<A: Allocator> Model for FlatMemory<A> {
    ghost use Rattle.page_memory.specs.Flat.{FlatContents, IsFlat};

    ghost Value = { FlatContents };

    ghost view = { λ m. record { bytes = m.bytes.items; touched = m.touched.items; unlisted = m.unlisted } };

    ghost invariant = { λ m. IsFlat m.bytes.items };
}

impl<A: Allocator> FlatMemory<A> {
    /// A pool of this many pages, every byte there and zero, with nothing touched.
    ///
    /// # Errors
    ///
    /// Where memory is refused.
    pub fn zeroed(alloc: A, pages: u32) -> Result<Self, AllocError>
        requires { pages ≤ 65536 }
        ensures bytes { IfOk result (λ memory. memory.bytes ≡ replicate (4096 * pages) (Some 0)) }
        ensures touched { IfOk result (λ memory. memory.touched ≡ []) }
        ensures unlisted { IfOk result (λ memory. memory.unlisted ≡ 0) }
    {
        Ok(FlatMemory {
            bytes: vec![in alloc; Some(0); PAGE_BYTES * pages as usize]?,
            touched: ArrayVec::new(),
            unlisted: 0,
        })
    }

    /// Takes `count` bytes away, starting at an address: they are missing. All others stay.
    pub fn remove(&mut self, from: usize, count: usize)
        requires { from + count ≤ length self.old.bytes }
        ensures { self.new ≡ record self.old { bytes = without self.old.bytes from count } }
    {
        self.bytes[from..from + count].fill(None);
    }

    /// The byte at an address, where it is there.
    pub fn byte(&self, place: usize) -> Option<u8>
        ensures { result ≡ slot_at self.now.bytes place }
    {
        match self.bytes.get(place) {
            Some(byte) => *byte,
            None => None,
        }
    }

    /// How many pages the pool has.
    pub fn pages(&self) -> u32
        ensures { 4096 * result ≡ length self.now.bytes }
    {
        (self.bytes.len() / PAGE_BYTES) as u32
    }
}

impl<A: Allocator> FlatMemory<A> {
    /// Whether each byte of a range is there.
    fn is_there(&self, addr: u64, count: usize) -> bool
        requires some { 0 < count }
        requires few { count ≤ 4096 }
        ensures inside { result ≡ true → addr + count ≤ length self.now.bytes }
        ensures low { result ≡ true → addr + count ≤ 268435456 }
        ensures there { result ≡ true → (k : ℕ) → k < count → IsSome (slot_at self.now.bytes (addr + k)) }
        ensures missing { result ≡ false → bytes_at (slot_at self.now.bytes) addr count ≡ None }
    {
        if addr >= self.bytes.len() as u64 {
            return false;
        }
        for k in 0..count {
            let byte = self.byte(addr as usize + k);
            if byte.is_none() {
                return false;
            }
        }
        true
    }

    /// Puts a byte at an address of the pool.
    fn put(&mut self, place: usize, byte: u8)
        requires { place < length self.old.bytes }
        ensures put { self.new.bytes ≡ slice_set self.old.bytes place (Some byte) }
        ensures touched { self.new.touched ≡ self.old.touched }
        ensures unlisted { self.new.unlisted ≡ self.old.unlisted }
    {
        self.bytes[place] = Some(byte);
    }

    /// Adds the one or two pages of a range that is there.
    fn touch(&mut self, addr: u64, count: usize)
        requires low { addr + count ≤ 268435456 }
        requires some { 0 < count }
        requires room { length self.old.touched ≤ 2 }
        ensures kept { self.new.bytes ≡ self.old.bytes }
        ensures touched { self.new.touched ≡ self.old.touched ++ pages_reached addr count }
        ensures unlisted { self.new.unlisted ≡ self.old.unlisted }
    {
        let last = addr + count as u64 - 1;
        self.touched.push(PageNo((addr / 4096) as u32));
        if last / 4096 != addr / 4096 {
            self.touched.push(PageNo((last / 4096) as u32));
        }
    }
}

impl<A: Allocator> Dma for FlatMemory<A> {
    ghost use Rattle.std.specs.Prelude.{◌/◌, length};
    ghost use Rattle.page_memory.specs.Pages.{slot_at};

    ghost memory = { λ m. slot_at m.bytes };

    ghost reached = { λ m. m.touched };

    ghost unlisted = { λ m. m.unlisted };

    ghost page_count = { λ m. length m.bytes / 4096 };

    fn pool_pages(&self) -> u32 {
        (self.bytes.len() / 4096) as u32
    }

    fn read(&mut self, addr: u64, into: &mut [u8]) -> Result<(), Unreadable> {
        if !self.is_there(addr, into.len()) {
            return Err(Unreadable);
        }
        self.touch(addr, into.len());
        for k in 0..into.len() {
            if let Some(byte) = self.byte(addr as usize + k) {
                into[k] = byte;
            }
        }
        Ok(())
    }

    fn write(&mut self, addr: u64, bytes: &[u8]) -> Result<(), Unreadable> {
        if !self.is_there(addr, bytes.len()) {
            return Err(Unreadable);
        }
        self.touch(addr, bytes.len());
        for k in 0..bytes.len() {
            self.put(addr as usize + k, bytes[k]);
        }
        Ok(())
    }
}

impl<A: Allocator> TouchRecord for FlatMemory<A> {
    fn touched(&self) -> &ArrayVec<PageNo, 4> {
        &self.touched
    }

    fn touches(&self) -> u64 {
        self.unlisted.wrapping_add(self.touched.len() as u64)
    }

    fn clear(&mut self) {
        self.unlisted = self.touches();
        self.touched.clear();
    }
}
