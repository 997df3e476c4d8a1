//! A memory as an emulator may have it, and what makes it one that the controller can be lent: it meets [`Dma`], and for
//! `next_step` [`TouchRecord`], which the emulator uses too.

ghost use Rattle.std.specs.Prelude.{◌≡◌, ◌+◌, ◌<◌, ◌≤◌, ◌++◌, [], length, replicate, IfOk, IfNone, IfSome};
ghost use Rattle.page_memory.specs.Memory.{pages_reached};
ghost use Rattle.page_memory.specs.Pages.{with_bytes};

use arrayvec::ArrayVec;
use page_memory::{Dma, PageNo, TouchRecord, Unreadable};
use std::alloc::{AllocError, Global};
use std::marker::Model;

/// The guest's memory, this many bytes starting at address 0, and the list of the pages that the controller touched.
#[derive(Drop)]
pub(crate) struct GuestMemory {
    bytes: Vec<u8>,
    touched: ArrayVec<PageNo, 4>,
    unlisted: u64,
}

impl Model for GuestMemory {
    ghost use Rattle.std.specs.Prelude.{◌≤◌, length};
    ghost use Rattle.part_tests.specs.Guest.{GuestContents};

    ghost Value = { GuestContents };

    ghost view = { λ m. record { bytes = m.bytes.items; touched = m.touched.items; unlisted = m.unlisted } };

    ghost invariant = { λ m. length m.bytes.items ≤ 4294967296 };
}

impl GuestMemory {
    /// This many bytes, all of them zero. Nothing is touched.
    ///
    /// # Errors
    ///
    /// Where memory is refused.
    pub(crate) fn zeroed(alloc: Global, count: u32) -> Result<Self, AllocError>
        ensures bytes { IfOk result (λ memory. memory.bytes ≡ replicate count 0) }
        ensures touched { IfOk result (λ memory. memory.touched ≡ []) }
    {
        Ok(GuestMemory {
            bytes: vec![in alloc; 0; count as usize]?,
            touched: ArrayVec::new(),
            unlisted: 0,
        })
    }

    /// Where a range of bytes begins, if each of them is there.
    fn place(&self, addr: u64, count: usize) -> Option<usize>
        requires { count ≤ 4096 }
        ensures at { IfSome result (λ at. at ≡ addr) }
        ensures there { IfSome result (λ at. at + count ≤ length self.now.bytes) }
        ensures low { IfSome result (λ at. at + count ≤ 4294967296) }
        ensures past { IfNone result (length self.now.bytes < addr + count) }
    {
        if addr > self.bytes.len() as u64 {
            return None;
        }
        let at = addr as usize;
        if count > self.bytes.len() - at {
            return None;
        }
        Some(at)
    }

    /// Adds the one or two pages of a range to the list.
    fn touch(&mut self, at: usize, count: usize)
        requires low { at + count ≤ 4294967296 }
        requires some { 0 < count }
        requires room { length self.old.touched ≤ 2 }
        ensures kept { self.new.bytes ≡ self.old.bytes }
        ensures touched { self.new.touched ≡ self.old.touched ++ pages_reached at count }
        ensures unlisted { self.new.unlisted ≡ self.old.unlisted }
    {
        let last = at + count - 1;
        self.touched.push(PageNo((at / 4096) as u32));
        if last / 4096 != at / 4096 {
            self.touched.push(PageNo((last / 4096) as u32));
        }
    }
}

/// Puts bytes over a range of others.
fn put(all: &mut [u8], at: usize, bytes: &[u8])
    requires { at + length bytes.now ≤ length all.old }
    ensures { all.new ≡ with_bytes all.old at bytes.now }
{
    all[at..at + bytes.len()].copy_from_slice(bytes);
}

impl Dma for GuestMemory {
    ghost use Rattle.std.specs.Prelude.{◌/◌, length};
    ghost use Rattle.part_tests.specs.Guest.{byte_of};

    ghost memory = { λ m. byte_of m.bytes };

    ghost reached = { λ m. m.touched };

    ghost unlisted = { λ m. m.unlisted };

    ghost page_count = { λ m. length m.bytes / 4096 };

    fn pool_pages(&self) -> u32 {
        (self.bytes.len() / 4096) as u32
    }

    fn read(&mut self, addr: u64, into: &mut [u8]) -> Result<(), Unreadable> {
        let Some(at) = self.place(addr, into.len()) else {
            return Err(Unreadable);
        };
        self.touch(at, into.len());
        into.copy_from_slice(&self.bytes[at..at + into.len()]);
        Ok(())
    }

    fn write(&mut self, addr: u64, bytes: &[u8]) -> Result<(), Unreadable> {
        let Some(at) = self.place(addr, bytes.len()) else {
            return Err(Unreadable);
        };
        self.touch(at, bytes.len());
        put(&mut self.bytes, at, bytes);
        Ok(())
    }
}

impl TouchRecord for GuestMemory {
    fn touched(&self) -> &ArrayVec<PageNo, 4> {
        &self.touched
    }

    fn touches(&self) -> u64 {
        self.unlisted.wrapping_add(self.touched.len() as u64)
    }

    fn clear(&mut self) {
        self.unlisted = self.touches();
        self.touched.clear();
    }
}
