//! The store: the pages of a pool that are in.

ghost use Rattle.std.specs.Prelude.{◌≡◌, ◌+◌, ◌*◌, ◌<◌, ◌≤◌, ◌↔◌, ◌⊎◌, ◌++◌, ◌∷◌, [], length, replicate, slice_get, slice_set, is_some, if◌then◌else◌, ℕ, Err, IfOk, IsSome, IsTrue, None, Some};
ghost use Rattle.std.specs.Option.{option_copied, option_map};
ghost use Rattle.page_memory.specs.Pages.{zero_page, page_at, byte_at, IsWhole, AreWhole};
ghost use Rattle.std.specs.Bool.{OnTrue};
ghost use Rattle.page_memory.specs.Memory.{page_of, written, counted};

use crate::dma::{Dma, TouchRecord, Unreadable};
use crate::page::{Frame, PAGE_BYTES, Page, PageNo};
use arrayvec::ArrayVec;
use std::alloc::{AllocError, Allocator, Global};
use std::marker::Model;
use thiserror::Error;

/// The most pages that a pool has (own).
pub const MAX_PAGES: u32 = 65_536;

/// Why a store was not opened.
#[derive(Clone, Copy, Debug, PartialEq, Eq, Error)]
pub enum OpenFault {
    /// The number of pages is outside 8 to 65,536.
    #[error("a pool has 8 to 65,536 pages")]
    BadSize,
    /// Memory was refused.
    #[error("out of memory")]
    Memory,
}

impl From<AllocError> for OpenFault {
    ghost use Rattle.page_memory.specs.declared.store.OpenFault.{OpenFault};
    ghost use Rattle.std.specs.Prelude.{◌≡◌};

    ghost from_gives = { λ _ fault. fault ≡ OpenFault.Memory };

    fn from(_: AllocError) -> Self {
        OpenFault::Memory
    }
}

/// The pages of a pool, each in or out, and the list of pages touched through [`Dma`].
#[derive(Drop)]
pub struct Store<A: Allocator = Global> {
    pages: Vec<Option<Frame<A>>, A>,
    touched: ArrayVec<PageNo, 4>,
    unlisted: u64,
}

impl<A: Allocator> Model for Store<A> {
    ghost use Rattle.std.specs.Prelude.{◌≤◌, length};
    ghost use Rattle.page_memory.specs.Pages.{Contents, IsPool};

    ghost Value = { Contents };

    ghost view = { λ s. record { pages = s.pages.items; touched = s.touched.items; unlisted = s.unlisted } };

    ghost invariant = { λ s. IsPool s.pages.items };
}

/// Pages of zeros, all in.
fn zeroed_pages<A: Allocator + Clone>(
    alloc: A,
    pages: u32,
) -> Result<Vec<Option<Frame<A>>, A>, AllocError>
    ensures { IfOk result (λ all. all.items ≡ replicate pages (Some zero_page)) }
{
    let mut all = Vec::with_capacity(alloc.clone()?, pages as usize)?;
    for _ in 0..pages {
        let frame = Frame::zeroed(alloc.clone()?)?;
        all.push(Some(frame)).map_err(AllocError::from)?;
    }
    Ok(all)
}

impl<A: Allocator + Clone> Store<A> {
    /// Opens a pool of this many pages, all in and all zero, with nothing touched.
    ///
    /// # Errors
    ///
    /// 1. `BadSize` exactly where the number is outside 8 to 65,536. 2. `Memory` where memory is refused.
    pub fn open(alloc: A, pages: u32) -> Result<Self, OpenFault>
        ensures pages { IfOk result (λ store. store.pages ≡ replicate pages (Some zero_page)) }
        ensures touched { IfOk result (λ store. store.touched ≡ []) }
        ensures unlisted { IfOk result (λ store. store.unlisted ≡ 0) }
        ensures bad_size { (result ≡ Err OpenFault.BadSize) ↔ ((pages < 8) ⊎ (65536 < pages)) }
    {
        if !(8..=MAX_PAGES).contains(&pages) {
            return Err(OpenFault::BadSize);
        }
        let all = zeroed_pages(alloc, pages)?;
        Ok(Store {
            pages: all,
            touched: ArrayVec::new(),
            unlisted: 0,
        })
    }
}

impl<A: Allocator> Store<A> {
    /// How many pages the pool has, in and out. Each page that is in has its 4,096 bytes.
    pub fn pages(&self) -> u32
        ensures count { result ≡ length self.now.pages }
        ensures whole { AreWhole self.now.pages }
    {
        self.pages.len() as u32
    }

    /// Moves a page out, which counts as one touch that the list does not have; `None`, with nothing changed, where it is out already or
    /// outside the pool.
    pub fn take(&mut self, p: PageNo) -> Option<Page<A>>
        ensures page { result ≡ option_map (λ bytes. (p, bytes)) (page_at self.old.pages p) }
        ensures out { self.new ≡ record self.old { pages = slice_set self.old.pages p None; unlisted = self.new.unlisted } }
        ensures counts { self.new.unlisted ≡ (if is_some result then counted self.old.unlisted 1 else self.old.unlisted) }
    {
        let frame = self.pages.get_mut(p.0 as usize)?.take()?;
        self.unlisted = self.unlisted.wrapping_add(1);
        Some(Page::of(p, frame))
    }

    /// Moves a page in, to the position that has its number, which is out.
    pub fn put(&mut self, page: Page<A>)
        requires { slice_get self.old.pages page.0 ≡ Some None }
        ensures { self.new ≡ record self.old { pages = slice_set self.old.pages page.0 (Some page.1) } }
    {
        let (number, frame) = page.apart();
        self.pages[number.0 as usize] = Some(frame);
    }

    /// Whether a page is in. False outside the pool.
    pub fn is_in(&self, p: PageNo) -> bool
        ensures { IsTrue result ↔ IsSome (page_at self.now.pages p) }
    {
        match self.pages.get(p.0 as usize) {
            Some(slot) => slot.is_some(),
            None => false,
        }
    }

    /// Whether the page of an address is in, so that its bytes can be read and written. Nothing is touched.
    pub fn is_reachable(&self, addr: u64) -> bool
        ensures { result ≡ is_some (page_at self.now.pages (page_of addr)) }
    {
        self.page(addr / 4096).is_some()
    }
}

impl<A: Allocator> Store<A> {
    /// The page of this number, where it is in.
    fn page(&self, number: u64) -> Option<&Frame<A>>
        ensures { option_copied result ≡ page_at self.now.pages number }
    {
        match self.pages.get(number as usize) {
            Some(Some(page)) => Some(page),
            Some(None) | None => None,
        }
    }

    /// Whether the page of this number is in, and so each range of its bytes can be reached.
    fn has(&self, number: u64) -> bool
        ensures there { result ≡ is_some (page_at self.now.pages number) }
        ensures whole { OnTrue result (IsWhole self.now.pages number) }
    {
        match self.page(number) {
            Some(page) => page.bytes().len() == PAGE_BYTES,
            None => false,
        }
    }

    /// Overwrites bytes of a page that is in.
    fn set(&mut self, number: u64, at: usize, bytes: &[u8])
        requires there { IsSome (page_at self.old.pages number) }
        requires fits { at + length bytes.now ≤ 4096 }
        ensures memory { byte_at self.new.pages ≡ written (byte_at self.old.pages) (4096 * number + at) bytes.now }
        ensures stays_in { (p : ℕ) → is_some (page_at self.new.pages p) ≡ is_some (page_at self.old.pages p) }
        ensures pool { length self.new.pages ≡ length self.old.pages }
        ensures touched { self.new.touched ≡ self.old.touched }
        ensures unlisted { self.new.unlisted ≡ self.old.unlisted }
    {
        let Some(page) = &mut self.pages[number as usize] else {
            // The page is in: the caller guarantees it. `Option` has no `as_mut` here.
            unreachable!();
        };
        page.set(at, bytes);
    }

    /// Adds a page of the pool to those touched.
    fn touch(&mut self, number: u64)
        requires there { IsSome (page_at self.old.pages number) }
        requires room { length self.old.touched < 4 }
        ensures { self.new ≡ record self.old { touched = self.old.touched ++ number ∷ [] } }
    {
        self.touched.push(PageNo(number as u32));
    }
}

/// A range of bytes, as it lies in its first page and in the next one.
#[derive(Clone, Copy)]
struct Range {
    page: u64,
    at: usize,
    front: usize,
    back: usize,
}

impl Range {
    /// The range of `count` bytes starting at an address.
    fn new(addr: u64, count: usize) -> Self
        requires { count ≤ 4096 }
        ensures place { 4096 * result.page + result.at ≡ addr }
        ensures offset { result.at < 4096 }
        ensures count { result.front + result.back ≡ count }
        ensures fits { result.at + result.front ≤ 4096 }
        ensures crosses { 0 < result.back → result.at + result.front ≡ 4096 }
        ensures front { 0 < count → 0 < result.front }
    {
        let at = (addr % 4096) as usize;
        let front = count.min(4096 - at);
        Range {
            page: addr / 4096,
            at,
            front,
            back: count - front,
        }
    }
}

impl<A: Allocator> Dma for Store<A> {
    ghost use Rattle.page_memory.specs.Pages.{byte_at};
    ghost use Rattle.std.specs.Prelude.{length};

    ghost memory = { λ s. byte_at s.pages };

    ghost reached = { λ s. s.touched };

    ghost unlisted = { λ s. s.unlisted };

    ghost page_count = { λ s. length s.pages };

    fn pool_pages(&self) -> u32 {
        self.pages()
    }

    fn read(&mut self, addr: u64, into: &mut [u8]) -> Result<(), Unreadable> {
        let range = Range::new(addr, into.len());
        let (front, back) = into.split_at_mut(range.front);
        let Some(first) = self.page(range.page) else {
            return Err(Unreadable);
        };
        if range.back == 0 {
            front.copy_from_slice(&first.bytes()[range.at..range.at + range.front]);
            self.touch(range.page);
            return Ok(());
        }
        let Some(second) = self.page(range.page + 1) else {
            return Err(Unreadable);
        };
        front.copy_from_slice(&first.bytes()[range.at..]);
        back.copy_from_slice(&second.bytes()[..range.back]);
        self.touch(range.page);
        self.touch(range.page + 1);
        Ok(())
    }

    fn write(&mut self, addr: u64, bytes: &[u8]) -> Result<(), Unreadable> {
        let range = Range::new(addr, bytes.len());
        let (front, back) = bytes.split_at(range.front);
        if !self.has(range.page) {
            return Err(Unreadable);
        }
        if range.back == 0 {
            self.touch(range.page);
            self.set(range.page, range.at, bytes);
            return Ok(());
        }
        if !self.has(range.page + 1) {
            return Err(Unreadable);
        }
        self.touch(range.page);
        self.touch(range.page + 1);
        self.set(range.page, range.at, front);
        self.set(range.page + 1, 0, back);
        Ok(())
    }
}

impl<A: Allocator> TouchRecord for Store<A> {
    ghost use Rattle.page_memory.specs.Pages.{byte_at};
    ghost use Rattle.std.specs.Prelude.{length};

    fn touched(&self) -> &ArrayVec<PageNo, 4> {
        &self.touched
    }

    fn touches(&self) -> u64 {
        self.unlisted.wrapping_add(self.touched.len() as u64)
    }

    fn clear(&mut self)
        ensures cleared { self.new ≡ record self.old { touched = []; unlisted = counted self.old.unlisted (length self.old.touched) } }
        ensures touched { self.new.touched ≡ [] }
        ensures unlisted { self.new.unlisted ≡ counted self.old.unlisted (length self.old.touched) }
        ensures memory { byte_at self.new.pages ≡ byte_at self.old.pages }
        ensures pool { length self.new.pages ≡ length self.old.pages }
    {
        self.unlisted = self.touches();
        self.touched.clear();
    }
}
