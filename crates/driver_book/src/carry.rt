//! How one goes on from a closed book: its log is handed out, and so is its world, over which a new book may open.

ghost use Rattle.std.specs.Prelude.{◌≡◌, ◌≤◌, length, IfOk, IfErr, OnOk};
ghost use Rattle.machine_model.specs.Claims.{IsSound};
ghost use Rattle.driver_book.specs.History.{LeadsTo, accepted};
ghost use Rattle.driver_book.specs.Close.{AllStand, receipts_of, IsDone, RefusesClose, Reports};

use crate::Log;
use crate::book::{Book, LogBrand};
use crate::close::CloseRefused;
use crate::report::{CloseFault, ReportIn};
use crate::seat::Seat;
use std::alloc::{Allocator, Global};
use step_core::World;

/// What is left of a book that was closed: its log, what it said, and its world.
#[derive(Drop)]
pub struct ClosedLog<A: Allocator = Global> {
    /// The log, from the book's opening to the world.
    pub log: Log<A>,
    /// Its report.
    pub report: ReportIn<A>,
    /// The world to which the log leads.
    pub world: World<A>,
}

/// A book that was not closed: why, and the seats and the book that were handed in. Nothing changed.
#[derive(Drop)]
pub struct CarryRefused<L: LogBrand, A: Allocator = Global> {
    /// Why.
    pub why: CloseFault,
    /// The seats, as they were handed in.
    pub seats: Vec<Seat<L, A>, A>,
    /// The book, as it was.
    pub book: Book<L, A>,
}

impl<L: LogBrand, A: Allocator + Copy> Book<L, A> {
    /// Closes the book as [`Book::close`], and hands out its log, with its report, and its world. A book over that world ([`Book::over`]) begins with
    /// an empty log, and with submissions and seats that are counted from 0: so one may go on without end in bounded memory. The logs of books that
    /// each open over the world of the one before, one after the other, are one history ([`law_of_pieces`](crate::laws::law_of_pieces)). The ledger
    /// and its shares end with the book. It takes the memory that `close` takes, and no more.
    ///
    /// # Errors
    ///
    /// As there, where `close` would answer that. The seats and the book are handed back, and the book is as it was.
    pub fn carry_on(self, seats: Vec<Seat<L, A>, A>) -> Result<ClosedLog<A>, CarryRefused<L, A>>
        ensures opening { self.opening ≡ L.opening }
        ensures legal { LeadsTo self.opening self.log self.world }
        ensures sound { IsSound self.world }
        ensures stand { OnOk result (AllStand self.log seats.items) }
        ensures no_more { OnOk result (receipts_of seats.items ≡ accepted self.log) }
        ensures all_seats { OnOk result (self.out ≤ length seats.items) }
        ensures done { OnOk result (IsDone self seats.items) }
        ensures log { IfOk result (λ closed. closed.log ≡ record { entries = self.log; room = self.room }) }
        ensures report { IfOk result (λ closed. Reports closed.report self seats.items) }
        ensures world { IfOk result (λ closed. closed.world ≡ record { state = self.world; touches = self.touches }) }
        ensures cause { IfErr result (λ refused. RefusesClose refused.why self seats.items) }
        ensures back { IfErr result (λ refused. refused.seats.items ≡ seats.items) }
        ensures book { IfErr result (λ refused. refused.book ≡ self) }
    {
        let mut book = self;
        match book.close(seats) {
            Ok(report) => {
                let (log, world) = book.apart();
                Ok(ClosedLog { log, report, world })
            }
            Err(CloseRefused { why, seats }) => Err(CarryRefused { why, seats, book }),
        }
    }
}
