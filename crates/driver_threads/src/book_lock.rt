//! A book that threads share.

ghost use Rattle.std.specs.Prelude.{◌≡◌, true, IfOk, IfErr};
ghost use Rattle.driver_book.specs.State.{BookContents};
ghost use Rattle.driver_threads.specs.Sharing.{Seated, GivesNoSeat, Stops, TellsStopping, TellsOwner, Counted, Closes, StaysOpen};

use crate::serving::Server;
use driver_book::{Book, CloseRefused, LogBrand, NoSeat, ReportIn, Seat};
use page_ledger::{Counts, Owner};
use page_memory::PageNo;
use shared::Changes;
use std::alloc::{Allocator, Global};
use std::sync::Wait;

/// A book under the driver's lock. Each call but [`Shared::new`] and [`Shared::end`] makes one step of it, looks at it, makes a seat, or stops
/// or closes it, while it has the lock.
///
/// Whoever waits sleeps on a condition variable, looks at the book as it wakes, and makes its step once it would be answered differently. A call
/// tells only those who wait for what it may have changed.
#[derive(Drop)]
pub struct Shared<L: LogBrand, A: Allocator = Global> {
    pub(crate) lock: shared::Shared<Book<L, A>>,
    /// Who serves after the ring of a submitter.
    pub(crate) server: Server,
}

impl<L: LogBrand, A: Allocator + Copy> Shared<L, A> {
    /// Puts a book under a lock. A controller and a poller alone serve and reap there.
    pub fn new(book: Book<L, A>) -> Self {
        Shared::served_by(Server::Controller, book)
    }

    /// Puts a book under a lock, where this one serves.
    pub(crate) fn served_by(server: Server, book: Book<L, A>) -> Self {
        Shared {
            lock: shared::Shared::new(book),
            server,
        }
    }

    /// Makes a seat, with the next number and no receipts.
    ///
    /// # Errors
    ///
    /// Where 65,535 seats were made.
    pub fn seat<R: Wait>(&self, rt: &R) -> Result<Seat<L, A>, NoSeat>
        ensures seat { IfOk result (Seated L.opening) }
        ensures refused { IfErr result (λ none. GivesNoSeat L.opening) }
    {
        self.lock.lock(rt).machine.seat()
    }

    /// Tells the workers to stop.
    pub fn stop<R: Wait>(&self, rt: &R)
        ensures { Stops L.opening }
    {
        self.lock.with(rt, Changes::ALL, (), |book, ()| book.stop());
    }

    /// Whether the workers are told to stop.
    pub fn stopping<R: Wait>(&self, rt: &R) -> bool
        ensures { TellsStopping L.opening result }
    {
        self.lock.lock(rt).machine.stopping()
    }

    /// The owner of a page; `None` for one that the pool does not have.
    pub fn owner<R: Wait>(&self, rt: &R, p: PageNo) -> Option<Owner>
        ensures { TellsOwner L.opening p result }
    {
        let locked = self.lock.lock(rt);
        if p.0 < locked.machine.pages() {
            Some(locked.machine.owner(p))
        } else {
            None
        }
    }

    /// How many pages are free, and how many belong to queues, to chains and to data.
    pub fn counts<R: Wait>(&self, rt: &R) -> Counts
        ensures { Counted L.opening result }
    {
        self.lock.lock(rt).machine.counts()
    }

    /// Compares the log with the receipts of the seats, as [`Book::close`], and takes the seats.
    ///
    /// # Errors
    ///
    /// As there; the seats are handed back.
    pub fn close<R: Wait>(
        &self,
        rt: &R,
        seats: Vec<Seat<L, A>, A>,
    ) -> Result<ReportIn<A>, CloseRefused<L, A>>
        ensures closed { IfOk result (λ report. (book : BookContents) × Closes L.opening report seats.items book) }
        ensures cause { IfErr result (λ refused. StaysOpen L.opening refused.why seats.items) }
        ensures back { IfErr result (λ refused. refused.seats.items ≡ seats.items) }
    {
        self.lock.lock(rt).machine.close(seats)
    }

    /// The book, once nobody shares it.
    pub fn end(self) -> Book<L, A> {
        self.lock.end()
    }
}
