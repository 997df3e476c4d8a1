//! The allocator itself.

use crate::refusal::RefusedCalls;
use crate::tally::Tally;
use std::alloc::{AllocError, Allocator};
use std::sync::atomic::{AtomicU64, Ordering};

/// An allocator that passes each call on to another, except the calls for memory that it was told to refuse.
///
/// A growth of a block, or its shrinking, counts as one call for memory, and, where a new block is given, as the return of the old one. Threads may
/// share it where they may share the other one.
#[derive(Debug)]
pub struct Refusing<A: Allocator> {
    inner: A,
    account: Account,
}

/// What is refused, and what was asked for so far. Each number changes in one step, since threads count side by side.
#[derive(Debug, Drop)]
struct Account {
    /// The first call that is refused.
    first: AtomicU64,
    /// The last call that is refused: below the first where none is.
    last: AtomicU64,
    calls: AtomicU64,
    refused: AtomicU64,
    blocks: AtomicU64,
    bytes: AtomicU64,
}

impl<A: Allocator> Refusing<A> {
    /// Refuses nothing yet.
    pub fn new(inner: A) -> Refusing<A> {
        let (first, last) = RefusedCalls::Never.span();
        Refusing {
            inner,
            account: Account {
                first: AtomicU64::new(first),
                last: AtomicU64::new(last),
                calls: AtomicU64::new(0),
                refused: AtomicU64::new(0),
                blocks: AtomicU64::new(0),
                bytes: AtomicU64::new(0),
            },
        }
    }

    /// Refuses these calls from now on, the next call being number 1. No other thread may ask for memory meanwhile.
    pub fn refuse(&self, refusal: RefusedCalls) {
        let (first, last) = refusal.span();
        self.account.first.store(first, Ordering::SeqCst);
        self.account.last.store(last, Ordering::SeqCst);
        self.account.calls.store(0, Ordering::SeqCst);
        self.account.refused.store(0, Ordering::SeqCst);
    }

    /// What was asked for since `refuse` was last called, and what is given out. Its counts are of one moment where no other thread asks for memory
    /// or gives some back meanwhile.
    pub fn tally(&self) -> Tally {
        Tally {
            calls: self.account.calls.load(Ordering::SeqCst),
            refused: self.account.refused.load(Ordering::SeqCst),
            blocks: self.account.blocks.load(Ordering::SeqCst),
            bytes: self.account.bytes.load(Ordering::SeqCst),
        }
    }
}

/// Counts a call for memory, and says whether it is refused.
fn refuses_call(account: &Account) -> bool {
    let call = account.calls.fetch_add(1, Ordering::SeqCst).wrapping_add(1);
    let first = account.first.load(Ordering::SeqCst);
    let last = account.last.load(Ordering::SeqCst);
    let refused = first <= call && call <= last;
    if refused {
        account.refused.fetch_add(1, Ordering::SeqCst);
    }
    refused
}

/// Counts a block that was given out.
fn count_block(account: &Account, size: usize) {
    account.blocks.fetch_add(1, Ordering::SeqCst);
    account.bytes.fetch_add(size as u64, Ordering::SeqCst);
}

/// Counts a block that came back.
fn count_return(account: &Account, size: usize) {
    account.blocks.fetch_sub(1, Ordering::SeqCst);
    account.bytes.fetch_sub(size as u64, Ordering::SeqCst);
}

unsafe impl<A: Allocator> Allocator for Refusing<A> {
    ghost dealloc_token = { λ handle ty ptr. A.dealloc_token handle.inner ty ptr };

    fn allocate(&self, size: usize, align: usize) -> Result<*mut u8, AllocError> {
        if refuses_call(&self.account) {
            return Err(AllocError);
        }
        match self.inner.allocate(size, align) {
            Ok(block) => {
                count_block(&self.account, size);
                Ok(block)
            }
            Err(error) => Err(error),
        }
    }

    unsafe fn deallocate(&self, ptr: *mut u8, size: usize, align: usize) {
        count_return(&self.account, size);
        self.inner.deallocate(ptr, size, align);
    }
}

impl<A: Allocator> Drop for Refusing<A> {
    fn drop(self) {
        let Refusing {
            inner: _,
            account: _,
        } = self;
    }
}
