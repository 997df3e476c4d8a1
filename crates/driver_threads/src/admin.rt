//! The steps of a shared book that no job takes, where its driver takes every step.

ghost use Rattle.std.specs.Prelude.{None, OnOk};
ghost use Rattle.driver_threads.specs.Sharing.{Made, Recovers};
ghost use Rattle.machine_model.specs.Events as events;
ghost use Rattle.step_core.specs.Replies.{ring_reply, send_reply};

use crate::book_lock::Shared;
use driver_book::FullLogBrand;
use shared::Changes;
use std::alloc::Allocator;
use std::sync::Wait;
use step_core::Refusal;

impl<L: FullLogBrand, A: Allocator + Copy> Shared<L, A> {
    /// [`driver_book::Book::abort`].
    ///
    /// # Errors
    ///
    /// As there.
    pub fn abort<R: Wait>(&self, rt: &R, q: u16, cid: u16) -> Result<u16, Refusal>
        ensures { Made L.opening None (events.Abort q cid) (send_reply result) }
    {
        self.lock.lock(rt).machine.abort(q, cid)
    }

    /// [`driver_book::Book::delete_sq`].
    ///
    /// # Errors
    ///
    /// As there.
    pub fn delete_sq<R: Wait>(&self, rt: &R, q: u16) -> Result<u16, Refusal>
        ensures { Made L.opening None (events.DeleteSq q) (send_reply result) }
    {
        self.lock
            .with(rt, Changes::ROOM, q, |book, q| book.delete_sq(q))
    }

    /// [`driver_book::Book::delete_cq`].
    ///
    /// # Errors
    ///
    /// As there.
    pub fn delete_cq<R: Wait>(&self, rt: &R, q: u16) -> Result<u16, Refusal>
        ensures { Made L.opening None (events.DeleteCq q) (send_reply result) }
    {
        self.lock.lock(rt).machine.delete_cq(q)
    }

    /// [`driver_book::Book::create_cq`].
    ///
    /// # Errors
    ///
    /// As there.
    pub fn create_cq<R: Wait>(&self, rt: &R, q: u16, vector: Option<u16>) -> Result<u16, Refusal>
        ensures { Made L.opening None (events.CreateCq q vector) (send_reply result) }
    {
        self.lock
            .with(rt, Changes::ROOM, (q, vector), |book, (q, vector)| {
                book.create_cq(q, vector)
            })
    }

    /// [`driver_book::Book::create_sq`].
    ///
    /// # Errors
    ///
    /// As there.
    pub fn create_sq<R: Wait>(&self, rt: &R, q: u16) -> Result<u16, Refusal>
        ensures { Made L.opening None (events.CreateSq q) (send_reply result) }
    {
        self.lock
            .with(rt, Changes::ROOM, q, |book, q| book.create_sq(q))
    }

    /// [`driver_book::Book::retire`].
    ///
    /// # Errors
    ///
    /// As there.
    pub fn retire<R: Wait>(&self, rt: &R, q: u16) -> Result<(), Refusal>
        ensures { Made L.opening None (events.Retire q) (ring_reply result) }
    {
        self.lock
            .with(rt, Changes::ALL, q, |book, q| book.retire(q))
    }

    /// [`driver_book::Book::forge`].
    ///
    /// # Errors
    ///
    /// As there.
    pub fn forge<R: Wait>(&self, rt: &R, q: u16, slot: u16, bytes: [u8; 16]) -> Result<(), Refusal>
        ensures { Made L.opening None (events.Forge q slot bytes) (ring_reply result) }
    {
        self.lock.with(
            rt,
            Changes::NONE,
            (q, slot, bytes),
            |book, (q, slot, bytes)| book.forge(q, slot, bytes),
        )
    }

    /// [`driver_book::Book::reset`]. Whoever waits is woken: a submitter whose command the reset ended goes on as after a reap.
    ///
    /// # Errors
    ///
    /// As there.
    pub fn reset<R: Wait>(&self, rt: &R) -> Result<(), Refusal>
        ensures step { Made L.opening None events.Reset (ring_reply result) }
        ensures recovers { OnOk result (Recovers L.opening) }
    {
        self.lock
            .with(rt, Changes::ALL, (), |book, ()| book.reset())
    }
}
