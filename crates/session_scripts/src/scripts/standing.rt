//! How things stand: on a bench, and at a desk with a book.

use crate::desk::{Access, Desk, Value};
use driver_book::{CloseFault, FullLogBrand, Receipt};
use page_memory::{MAX_PAGES, Page};
use script_cli::transcripts::{OnBench, StepMaker, reply_in, step_in};
use std::alloc::{AllocError, Allocator, Global};
use std::sync::Wait;
use step_core::{Counts, Owner, PageNo, Reply, Step};
use test_support::{RefusedCalls, Refusing, Tally};

/// A heap that refuses on purpose.
pub type Heap = Refusing<Global>;

/// A desk with a driver in such a heap.
pub type DeskIn<'h, L, R> = Desk<'h, L, R, &'h Heap>;

/// What makes steps in a heap that refuses, and shows how it stands.
pub trait Stands: StepMaker {
    /// Makes a step while these growths of the heap are refused, and answers what it answered, and what the heap was asked for.
    ///
    /// # Errors
    ///
    /// Where memory is refused for what is around the step.
    fn step_without(
        &mut self,
        refusal: RefusedCalls,
        step: &Step,
    ) -> Result<(Reply, Tally), AllocError>;

    /// How it stands.
    ///
    /// # Errors
    ///
    /// Where memory is refused.
    fn standing(&self, alloc: Global) -> Result<Standing, AllocError>;
}

/// How a bench stands, or a desk with a book and one seat, with the commands that it keeps.
#[derive(Drop, PartialEq)]
pub struct Standing {
    /// The owner of each page.
    pub owners: Vec<Owner>,
    /// How many pages each class has.
    pub counts: Counts,
    /// Whether something was forged on a bench.
    is_forged: bool,
    /// How many entries the log of a book has, where it is seen: under a lock it is as the book ends.
    pub entries: Option<usize>,
    /// Once a book is closed, how many submissions there were, or why it is not closed.
    pub closes: Option<Result<u64, CloseFault>>,
    /// The receipts of the seat.
    pub receipts: Vec<Receipt>,
    /// The bytes of the pages that commands have, in the order of the pages.
    bytes: Vec<u8>,
    /// How many drafts are built.
    built: usize,
}

impl Standing {
    /// What each maker of steps shows: whose the pages are.
    fn of<M: StepMaker>(alloc: Global, maker: &M) -> Result<Standing, AllocError> {
        let mut owners = Vec::new(alloc);
        for p in 0..MAX_PAGES {
            match maker.owner(PageNo(p)) {
                Some(owner) => owners.push(owner)?,
                None => break,
            }
        }
        Ok(Standing {
            owners,
            counts: maker.counts(),
            is_forged: false,
            entries: None,
            closes: None,
            receipts: Vec::new(alloc),
            bytes: Vec::new(alloc),
            built: 0,
        })
    }

    /// Records the bytes of the pages that commands have, in the order of the pages, and how many drafts are built.
    fn put_values<A: Allocator>(&mut self, values: &[Value<A>]) -> Result<(), AllocError> {
        for p in 0..self.owners.len() {
            for value in values {
                let pages: &[Page<A>] = match value {
                    Value::Draft(draft) => draft.pages(),
                    Value::Ticket(_) => &[],
                    Value::Finished(finished) => finished.pages(),
                };
                for page in pages {
                    if page.number().0 as usize == p {
                        self.bytes.extend_from_slice(page.bytes())?;
                    }
                }
            }
        }
        for value in values {
            if let Value::Draft(draft) = value {
                if draft.entry().is_some() {
                    self.built = self.built.saturating_add(1);
                }
            }
        }
        Ok(())
    }
}

impl<'h> Stands for OnBench<&'h Heap> {
    fn step_without(
        &mut self,
        refusal: RefusedCalls,
        step: &Step,
    ) -> Result<(Reply, Tally), AllocError> {
        let heap = self.heap;
        let made = step_in(heap, step)?;
        heap.refuse(refusal);
        let answer = self.bench.step(made);
        let tally = heap.tally();
        heap.refuse(RefusedCalls::Never);
        Ok((reply_in(self.alloc, answer)?, tally))
    }

    fn standing(&self, alloc: Global) -> Result<Standing, AllocError> {
        let mut standing = Standing::of(alloc, self)?;
        standing.is_forged = !self.bench.trusted();
        Ok(standing)
    }
}

impl<'h, L: FullLogBrand, R: Wait> Stands for DeskIn<'h, L, R> {
    fn step_without(
        &mut self,
        refusal: RefusedCalls,
        step: &Step,
    ) -> Result<(Reply, Tally), AllocError> {
        let heap = self.heap;
        let made = step_in(heap, step)?;
        heap.refuse(refusal);
        let answer = self.make(made);
        let tally = heap.tally();
        heap.refuse(RefusedCalls::Never);
        Ok((reply_in(self.alloc, answer?)?, tally))
    }

    fn standing(&self, alloc: Global) -> Result<Standing, AllocError> {
        let mut standing = Standing::of(alloc, self)?;
        if let Access::Book(book) = &self.access {
            standing.entries = Some(book.log().len());
        }
        if let Some(seat) = self.seats.last() {
            standing.receipts.extend_from_slice(seat.receipts())?;
        }
        standing.put_values(&self.values)?;
        Ok(standing)
    }
}
