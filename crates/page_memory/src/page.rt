//! Page numbers, queue halves and pages.

ghost use Rattle.std.specs.Prelude.{◌≡◌, ◌+◌, ◌≤◌, IfOk, length};
ghost use Rattle.page_memory.specs.Pages.{zero_page, with_bytes};
ghost use Rattle.page_memory.specs.Lent.{lends_frame, lends_page};
ghost use Rattle.std.specs.Borrow.{sem};

use std::alloc::{AllocError, Allocator, Global};
use std::marker::Model;

/// How many bytes a page has (own: a memory page size of 4,096 bytes).
pub const PAGE_BYTES: usize = 4096;

/// The number of a page of the pool; its first address is 4,096 times as large. Contracts see it as that number.
#[derive(Clone, Copy, Debug, PartialEq, Eq, Default)]
pub struct PageNo(pub u32);

impl Model for PageNo {
    ghost use Rattle.std.specs.Prelude.{ℕ};

    ghost Value = { ℕ };

    ghost view = { λ p. p.0 };

    ghost inverse = { λ n. record { 0 = n } };
}

/// One of the two rings of a queue pair: submission queue or completion queue
/// (NVM Express Base Specification 2.0, memory-based queue pairs).
#[derive(Clone, Copy, Debug, PartialEq, Eq)]
pub enum Half {
    /// The submission queue, which the host fills.
    Submission,
    /// The completion queue, which the controller fills.
    Completion,
}

/// The 4,096 bytes of a page. Contracts see them as their list.
#[derive(Drop)]
pub(crate) struct Frame<A: Allocator> {
    bytes: Box<[u8; 4096], A>,
}

impl<A: Allocator> Model for Frame<A> {
    ghost use Rattle.std.specs.Prelude.{List, ℕ};

    ghost Value = { List ℕ };

    ghost view = { λ p. p.bytes.value };
}

/// The bytes of an array, of which there are 4,096 by its type.
fn whole(array: &[u8; 4096]) -> &[u8]
    ensures value { result.now ≡ array.now }
    ensures len { length result.now ≡ 4096 }
{
    array.as_slice()
}

impl<A: Allocator> Frame<A> {
    /// Bytes that are zero.
    #[tactic(auto, unfolding(crate::specs::Pages::zero_page))]
    pub(crate) fn zeroed(alloc: A) -> Result<Self, AllocError>
        ensures zero { IfOk result (λ frame. frame ≡ zero_page) }
        ensures len { IfOk result (λ frame. length frame ≡ 4096) }
    {
        Ok(Frame {
            bytes: Box::new(alloc, [0; 4096])?,
        })
    }

    /// The bytes of the page, of which there are 4,096.
    pub(crate) fn bytes(&self) -> &[u8]
        ensures value { result.now ≡ self.now }
        ensures len { length result.now ≡ 4096 }
    {
        whole(&self.bytes)
    }

    /// The 4,096 bytes, to write in place.
    fn array(&mut self) -> &mut [u8; 4096]
        ensures* writes_back { sem 𝓛 (lends_frame A.row A.Allocator 4096 self.entry result) }
        ensures value { result.now ≡ self.old }
    {
        self.bytes.as_mut()
    }

    /// The bytes, to write in place: they end as they are left.
    pub(crate) fn bytes_mut(&mut self) -> &mut [u8]
        ensures* writes_back { sem 𝓛 (lends_frame A.row A.Allocator 0 self.entry result) }
        ensures value { result.now ≡ self.old }
        ensures len { length result.now ≡ 4096 }
    {
        prove!(self.bytes().len() == PAGE_BYTES);
        self.array().as_mut_slice()
    }

    /// Overwrites the bytes starting at offset `at`; all others stay.
    pub(crate) fn set(&mut self, at: usize, bytes: &[u8])
        requires { at + length bytes.now ≤ 4096 }
        ensures bytes { self.new ≡ with_bytes self.old at bytes.now }
        ensures len { (length self.old ≡ 4096) × (length self.new ≡ 4096) }
    {
        self.bytes[at..at + bytes.len()].copy_from_slice(bytes);
    }

    /// Makes every byte zero.
    #[tactic(auto, unfolding(crate::specs::Pages::zero_page))]
    pub(crate) fn clear(&mut self)
        ensures zero { self.new ≡ zero_page }
        ensures len { length self.new ≡ 4096 }
    {
        *self.bytes = [0; 4096];
    }
}

/// A page that is out of its store: its number and its bytes. Nobody makes one but [`Store::take`](crate::Store::take), and no
/// call changes the number, so that the bytes go back to exactly where they came from. Contracts see it as the number with the list of
/// the bytes.
pub struct Page<A: Allocator = Global> {
    number: PageNo,
    frame: Frame<A>,
}

impl<A: Allocator> Drop for Page<A> {
    fn drop(self) {
        let Self {
            number: _,
            frame: _,
        } = self;
    }
}

impl<A: Allocator> Model for Page<A> {
    ghost use Rattle.std.specs.Prelude.{List, ℕ};

    ghost Value = { ℕ × List ℕ };

    ghost view = { λ p. (p.number, p.frame) };
}

impl<A: Allocator> Page<A> {
    /// The page of this number with these bytes, for the store that they came from.
    pub(crate) fn of(number: PageNo, frame: Frame<A>) -> Self
        ensures { result ≡ (number, frame) }
    {
        Page { number, frame }
    }

    /// The number and the bytes, for the store that they go back to.
    pub(crate) fn apart(self) -> (PageNo, Frame<A>)
        ensures number { result.0 ≡ self.0 }
        ensures bytes { result.1 ≡ self.1 }
        ensures len { length self.1 ≡ 4096 }
    {
        let Page { number, frame } = self;
        prove!(frame.bytes().len() == PAGE_BYTES);
        (number, frame)
    }

    /// The page's number.
    pub fn number(&self) -> PageNo
        ensures { result ≡ self.now.0 }
    {
        self.number
    }

    /// The bytes of the page, of which there are 4,096.
    pub fn bytes(&self) -> &[u8]
        ensures value { result.now ≡ self.now.1 }
        ensures len { length result.now ≡ 4096 }
    {
        self.frame.bytes()
    }

    /// The bytes of the page, of which there are 4,096, to write in place: the page ends with those that are left there.
    pub fn bytes_mut(&mut self) -> &mut [u8]
        ensures* writes_back { sem 𝓛 (lends_page A.row A.Allocator self.entry result) }
        ensures value { result.now ≡ self.old.1 }
        ensures len { length result.now ≡ 4096 }
    {
        self.frame.bytes_mut()
    }

    /// Overwrites the bytes starting at offset `at`; all others stay, and so does the number.
    pub fn set(&mut self, at: usize, bytes: &[u8])
        requires { at + length bytes.now ≤ 4096 }
        ensures bytes { self.new ≡ (self.old.0, with_bytes self.old.1 at bytes.now) }
        ensures len { (length self.old.1 ≡ 4096) × (length self.new.1 ≡ 4096) }
    {
        self.frame.set(at, bytes);
    }

    /// Makes every byte zero. The number stays.
    pub fn clear(&mut self)
        ensures zero { self.new ≡ (self.old.0, zero_page) }
        ensures len { length self.new.1 ≡ 4096 }
    {
        self.frame.clear();
    }
}
