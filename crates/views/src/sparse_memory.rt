//! Memory of which only some pages are given, at any 64-bit address.
//!
//! [`SparseMemory`] meets [`Dma`], so what is written over that trait runs over the memory of a real machine, of which a few pages are known.

mod range;

ghost use Rattle.std.specs.Prelude.{◌≡◌, ◌+◌, ◌-◌, ◌*◌, ◌<◌, ◌≤◌, ◌++◌, ◌∷◌, ◌==◌, [], ℕ, length, take, drop, vec_len, vec_capacity, IfOk, OnOk, OnErr, IsTrue, position, min};
ghost use Rattle.page_memory.specs.Memory.{counted, page_of};
ghost use Rattle.page_memory.specs.Pages.{with_bytes};
ghost use Rattle.views.specs.Sparse.{bytes_of_page, with_page, is_of_pool as spec_is_of_pool, is_out as spec_is_out, is_there as spec_is_there, byte_in};

use crate::sparse_memory::range::Range;
use arrayvec::ArrayVec;
use page_memory::{Dma, Unreadable};
use std::alloc::{AllocError, Global};
use std::marker::Model;

/// The number of all pages of 4,096 bytes that 64-bit addresses reach, 2^52.
pub const ALL_PAGES: u64 = 4_503_599_627_370_496;

/// The bytes of a page that is given.
#[derive(Drop)]
pub struct GivenPage {
    /// Its number: its first address is 4,096 times as large.
    pub number: u64,
    /// Its bytes.
    pub bytes: [u8; 4096],
}

/// A pool of pages at any addresses, of which only those that are given take memory: all others are zeros. A page may be out.
///
/// Room for the pages that a write gives first is taken beforehand, by [`SparseMemory::make_room`]: as long as the list of touched pages has room, each write has too.
#[derive(Drop)]
pub struct SparseMemory {
    first: u64,
    count: u64,
    given: Vec<GivenPage>,
    out: Vec<u64>,
    touched: ArrayVec<u64, 4>,
    unlisted: u64,
}

impl Model for SparseMemory {
    ghost use Rattle.std.specs.Prelude.{vec_capacity};
    ghost use Rattle.views.specs.Sparse.{SparseContents, SparsePool, IsSparse};

    ghost Value = { SparseContents };

    ghost view = { λ m. record { pool = record { first = m.first; count = m.count; given = m.given.items; out = m.out.items }; touched = m.touched.items; unlisted = m.unlisted } };

    ghost invariant = { λ m. IsSparse (record { first = m.first; count = m.count; given = m.given.items; out = m.out.items }) (vec_capacity m.given) m.touched.items };
}

/// The bytes of an array, of which there are 4,096 by its type.
fn whole(array: &[u8; 4096]) -> &[u8]
    ensures value { result.now ≡ array.now }
    ensures len { length result.now ≡ 4096 }
{
    array.as_slice()
}

/// Overwrites bytes of a page, starting at an offset.
fn overwrite(page: &mut [u8; 4096], at: usize, bytes: &[u8])
    requires { at + length bytes.now ≤ 4096 }
    ensures bytes { page.new ≡ with_bytes page.old at bytes.now }
    ensures len { (length page.old ≡ 4096) × (length page.new ≡ 4096) }
{
    page[at..at + bytes.len()].copy_from_slice(bytes);
}

/// Where the page of a number is among those that are given.
fn index_of(given: &[GivenPage], number: u64) -> Option<usize>
    ensures { result ≡ position (λ page. page.number == number) given.now }
{
    given.iter().position(|page| page.number == number)
}

/// Fills a buffer with bytes of a page, starting at an offset.
fn copy_out(given: &[GivenPage], number: u64, at: usize, into: &mut [u8])
    requires { at + length into.old ≤ 4096 }
    ensures { into.new ≡ take (length into.old) (drop at (bytes_of_page given.now number)) }
{
    match index_of(given, number) {
        Some(i) => into.copy_from_slice(&whole(&given[i].bytes)[at..at + into.len()]),
        None => into.fill(0),
    }
}

/// Puts bytes in place of those of a page, starting at an offset. There is room for one more page.
fn put_in(given: &mut Vec<GivenPage>, number: u64, at: usize, bytes: &[u8])
    requires fits { at + length bytes.now ≤ 4096 }
    requires room { vec_len given.old < vec_capacity given.old }
    ensures items { given.new.items ≡ with_page given.old.items number (with_bytes (bytes_of_page given.old.items number) at bytes.now) }
    ensures len { vec_len given.new ≤ vec_len given.old + 1 }
    ensures capacity { vec_capacity given.new ≡ vec_capacity given.old }
{
    match index_of(given.as_slice(), number) {
        Some(i) => {
            let page = &mut given[i];
            overwrite(&mut page.bytes, at, bytes);
        }
        None => {
            let mut page = GivenPage {
                number,
                bytes: [0; 4096],
            };
            overwrite(&mut page.bytes, at, bytes);
            given.push_reserved(page);
        }
    }
}

impl SparseMemory {
    /// A pool of this many pages starting at a first one, all in and zero, with nothing touched.
    ///
    /// # Errors
    ///
    /// Where memory is refused.
    pub fn open(alloc: Global, first: u64, count: u64) -> Result<Self, AllocError>
        requires { first + count ≤ 4503599627370496 }
        ensures pool { IfOk result (λ memory. memory.pool ≡ record { first = first; count = count; given = []; out = [] }) }
        ensures touched { IfOk result (λ memory. memory.touched ≡ []) }
        ensures unlisted { IfOk result (λ memory. memory.unlisted ≡ 0) }
    {
        Ok(SparseMemory {
            first,
            count,
            given: Vec::with_capacity(alloc, 4)?,
            out: Vec::new(alloc),
            touched: ArrayVec::new(),
            unlisted: 0,
        })
    }

    /// The number of the pool's first page.
    pub fn first(&self) -> u64
        ensures { result ≡ self.now.pool.first }
    {
        self.first
    }

    /// How many pages the pool has, in and out.
    pub fn count(&self) -> u64
        ensures count { result ≡ self.now.pool.count }
        ensures few { self.now.pool.first + self.now.pool.count ≤ 4503599627370496 }
    {
        self.count
    }

    /// Whether a page is of the pool, in or out.
    pub fn is_of_pool(&self, page: u64) -> bool
        ensures { result ≡ spec_is_of_pool self.now.pool page }
    {
        self.first <= page && page < self.first + self.count
    }

    /// Whether a page is out.
    pub fn is_out(&self, page: u64) -> bool
        ensures { result ≡ spec_is_out self.now.pool page }
    {
        self.out.iter().any(|out| *out == page)
    }

    /// Whether a page is of the pool, and in.
    pub fn is_there(&self, page: u64) -> bool
        ensures { result ≡ spec_is_there self.now.pool page }
    {
        self.is_of_pool(page) && !self.is_out(page)
    }

    /// Takes a page out: no byte of it is there from then on.
    ///
    /// # Errors
    ///
    /// Where memory is refused. Then nothing has changed.
    pub fn take_out(&mut self, page: u64) -> Result<(), AllocError>
        ensures out { OnOk result (self.new ≡ record self.old { pool = record self.old.pool { out = self.old.pool.out ++ page ∷ [] } }) }
        ensures refused { OnErr result (self.new ≡ self.old) }
    {
        self.out.push(page)?;
        Ok(())
    }

    /// Puts bytes in place of those of a page, starting at an offset.
    ///
    /// # Errors
    ///
    /// Where memory is refused. Then nothing has changed.
    pub fn put(&mut self, page: u64, at: usize, bytes: &[u8]) -> Result<(), AllocError>
        requires { at + length bytes.now ≤ 4096 }
        ensures put { OnOk result (self.new ≡ record self.old { pool = record self.old.pool { given = with_page self.old.pool.given page (with_bytes (bytes_of_page self.old.pool.given page) at bytes.now) } }) }
        ensures refused { OnErr result (self.new ≡ self.old) }
    {
        self.given.reserve(5)?;
        put_in(&mut self.given, page, at, bytes);
        Ok(())
    }

    /// Empties the list of touched pages, and takes room for the pages that writes give first until that list is full again.
    ///
    /// # Errors
    ///
    /// Where memory is refused. Then nothing has changed.
    pub fn make_room(&mut self) -> Result<(), AllocError>
        ensures room { OnOk result (self.new ≡ record self.old { touched = []; unlisted = counted self.old.unlisted (length self.old.touched) }) }
        ensures refused { OnErr result (self.new ≡ self.old) }
    {
        self.given.reserve(4)?;
        self.unlisted = self.unlisted.wrapping_add(self.touched.len() as u64);
        self.touched.clear();
        Ok(())
    }
}

impl Dma for SparseMemory {
    ghost use Rattle.views.specs.Sparse.{byte_in};
    ghost use Rattle.std.specs.Prelude.{min};

    ghost memory = { λ m. byte_in m.pool };

    ghost reached = { λ m. m.touched };

    ghost unlisted = { λ m. m.unlisted };

    ghost page_count = { λ m. min m.pool.count 4294967295 };

    fn pool_pages(&self) -> u32 {
        self.count.min(4_294_967_295) as u32
    }

    fn read(&mut self, addr: u64, into: &mut [u8]) -> Result<(), Unreadable> {
        let range = Range::new(addr, into.len());
        let (front, back) = into.split_at_mut(range.front);
        if !self.is_there(range.page) {
            return Err(Unreadable);
        }
        if range.back == 0 {
            copy_out(&self.given, range.page, range.at, front);
            self.touched.push(range.page);
            return Ok(());
        }
        if !self.is_there(range.page + 1) {
            return Err(Unreadable);
        }
        copy_out(&self.given, range.page, range.at, front);
        copy_out(&self.given, range.page + 1, 0, back);
        self.touched.push(range.page);
        self.touched.push(range.page + 1);
        Ok(())
    }

    fn write(&mut self, addr: u64, bytes: &[u8]) -> Result<(), Unreadable> {
        let range = Range::new(addr, bytes.len());
        let (front, back) = bytes.split_at(range.front);
        if !self.is_there(range.page) {
            return Err(Unreadable);
        }
        if range.back == 0 {
            put_in(&mut self.given, range.page, range.at, bytes);
            self.touched.push(range.page);
            return Ok(());
        }
        if !self.is_there(range.page + 1) {
            return Err(Unreadable);
        }
        put_in(&mut self.given, range.page, range.at, front);
        put_in(&mut self.given, range.page + 1, 0, back);
        self.touched.push(range.page);
        self.touched.push(range.page + 1);
        Ok(())
    }
}
