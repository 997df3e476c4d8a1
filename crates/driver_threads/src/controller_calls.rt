//! The controller's steps of a shared book.

ghost use Rattle.driver_threads.specs.Sharing.{Served};
ghost use Rattle.machine_model.specs.Events as events;
ghost use Rattle.step_core.specs.Replies.{complete_reply, fetch_reply, walk_reply};

use crate::book_lock::Shared;
use driver_book::LogBrand;
use shared::Changes;
use std::alloc::Allocator;
use std::sync::Wait;
use step_core::{Completed, Fetched, StepRefused, Walked};

impl<L: LogBrand, A: Allocator + Copy> Shared<L, A> {
    /// [`driver_book::Book::fetch`].
    ///
    /// # Errors
    ///
    /// As there.
    pub fn fetch<R: Wait>(&self, rt: &R, q: u16) -> Result<Fetched, StepRefused>
        ensures { Served L.opening (events.Fetch q) (fetch_reply result) }
    {
        self.lock
            .with(rt, Changes::NONE, q, |book, q| book.fetch(q))
    }

    /// [`driver_book::Book::walk`].
    ///
    /// # Errors
    ///
    /// As there.
    pub fn walk<R: Wait>(&self, rt: &R, q: u16, cid: u16) -> Result<Walked, StepRefused>
        ensures { Served L.opening (events.Walk q cid) (walk_reply result) }
    {
        self.lock.with(
            rt,
            Changes::NONE,
            (q, cid),
            |book, (q, cid)| book.walk(q, cid),
        )
    }

    /// [`driver_book::Book::complete`].
    ///
    /// # Errors
    ///
    /// As there.
    pub fn complete<R: Wait>(&self, rt: &R, q: u16, cid: u16) -> Result<Completed, StepRefused>
        ensures { Served L.opening (events.Complete q cid) (complete_reply result) }
    {
        self.lock.with(
            rt,
            Changes::NONE,
            (q, cid),
            |book, (q, cid)| book.complete(q, cid),
        )
    }
}
