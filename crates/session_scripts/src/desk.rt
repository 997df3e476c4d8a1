//! A desk: a driver in one thread with seats, and the commands that it keeps, on which steps are values as on a bench.
//!
//! [`Desk::make`] makes a step by the call of the driver, or of the command, that makes it, and answers in the words of a bench (`step_core`). What
//! the last seat cannot do is `NoValue`. The driver is a book, or a book under its lock ([`Access`]). A transcript is played on a desk as on a bench.
//! [`runs`] are runs of threads over a book of their own, and [`two_submitters`] has the jobs of one.

mod access;
mod answers;
pub mod runs;
mod steps;
pub mod two_submitters;
pub mod values;

use crate::desk::access::{step_behind_lock, step_through_book};
use crate::desk::answers::{kept, refused};
use crate::desk::steps::{build, fill, gather};
use crate::desk::values::{draft_of, finished_of, ticket_of};
pub use access::Access;
pub use answers::DeskAnswer;
use driver_book::{CloseFault, FullLogBrand, NoSeat, ReportIn, Seat};
use io_commands::Request;
use page_ledger::{Counts, Owner};
use page_memory::PageNo;
use script_cli::transcripts::{StepMaker, reply_in, step_in};
use std::alloc::{AllocError, Allocator, Global};
use std::mem;
use std::sync::Wait;
use step_core::{Leftover, Reply, Step, StepIn, StepRefused};
pub use values::Value;

/// A driver in one thread, with seats, and the commands that it keeps. The last seat acts: it submits and releases.
pub struct Desk<'r, L: FullLogBrand, R: Wait, A: Allocator = Global> {
    /// What may wait for a lock.
    pub rt: &'r R,
    /// Where the list of the commands is, and the replies that are handed out.
    pub alloc: Global,
    /// Where all else is.
    pub heap: A,
    /// The book, or its lock.
    pub access: Access<L, A>,
    /// The seats in the order in which they were made, except for turns.
    pub seats: Vec<Seat<L, A>, A>,
    /// The commands, the last one put at the end.
    pub values: Vec<Value<A>>,
}

impl<'r, L: FullLogBrand, R: Wait, A: Allocator + Copy> Desk<'r, L, R, A> {
    /// A desk with a driver, without a seat.
    pub fn new(rt: &'r R, alloc: Global, heap: A, access: Access<L, A>) -> Self {
        Desk {
            rt,
            alloc,
            heap,
            access,
            seats: Vec::new(heap),
            values: Vec::new(alloc),
        }
    }

    /// Makes a seat, which acts from now on. False where the book has none left.
    ///
    /// # Errors
    ///
    /// Where memory is refused for the list of the seats.
    pub fn sit(&mut self) -> Result<bool, AllocError> {
        let made = match &mut self.access {
            Access::Book(book) => book.seat(),
            Access::Lock(shared) => shared.seat(self.rt),
        };
        match made {
            Ok(seat) => {
                self.seats.push(seat)?;
                Ok(true)
            }
            Err(NoSeat) => Ok(false),
        }
    }

    /// Submits a draft for the last seat. Without a seat there is nothing to submit for.
    fn submit(&mut self, q: u16, cid: u16) -> DeskAnswer<A> {
        let Some(seat) = self.seats.last_mut() else {
            return Ok(Reply::NoValue);
        };
        let Some(draft) = draft_of(&mut self.values, q, cid) else {
            return Ok(Reply::NoValue);
        };
        let answer = match &mut self.access {
            Access::Book(book) => book.submit(seat, draft),
            Access::Lock(shared) => shared.submit(self.rt, seat, draft),
        };
        match answer {
            Ok(ticket) => kept(&mut self.values, Value::Ticket(ticket), Reply::Accepted),
            Err(back) => kept(
                &mut self.values,
                Value::Draft(back.value),
                refused(back.why),
            ),
        }
    }

    /// Releases a finished command of the last seat, where it has a receipt of it.
    fn release(&mut self, q: u16, cid: u16) -> DeskAnswer<A> {
        let Some(seat) = self.seats.last_mut() else {
            return Ok(Reply::NoValue);
        };
        let Some(finished) = finished_of(&mut self.values, q, cid) else {
            return Ok(Reply::NoValue);
        };
        if !seat.awaits(finished.q(), finished.cid()) {
            return kept(&mut self.values, Value::Finished(finished), Reply::NoValue);
        }
        let answer = match &mut self.access {
            Access::Book(book) => book.release(seat, finished),
            Access::Lock(shared) => shared.release(self.rt, seat, finished),
        };
        match answer {
            Ok(()) => Ok(Reply::Accepted),
            Err(back) => kept(
                &mut self.values,
                Value::Finished(back.value),
                refused(back.why),
            ),
        }
    }

    /// Collects a command by its ticket.
    fn collect(&mut self, q: u16, cid: u16) -> DeskAnswer<A> {
        let Some(ticket) = ticket_of(&mut self.values, q, cid) else {
            return Ok(Reply::NoValue);
        };
        let answer = match &mut self.access {
            Access::Book(book) => book.collect(ticket),
            Access::Lock(shared) => shared.collect(self.rt, ticket),
        };
        match answer {
            Ok(finished) => {
                let (status, hints) = (finished.status(), finished.hints());
                let reply = Reply::Collected { status, hints };
                kept(&mut self.values, Value::Finished(finished), reply)
            }
            Err(back) => kept(
                &mut self.values,
                Value::Ticket(back.value),
                refused(back.why),
            ),
        }
    }

    /// Reserves a command.
    fn reserve(&mut self, q: u16, request: Request<A>) -> DeskAnswer<A> {
        let answer = match &mut self.access {
            Access::Book(book) => book.reserve(q, request),
            Access::Lock(shared) => shared.reserve(self.rt, q, request),
        };
        match answer {
            Ok(draft) => {
                let reply = Reply::reserved(&draft);
                kept(&mut self.values, Value::Draft(draft), reply)
            }
            Err(back) => Ok(refused(back.why)),
        }
    }

    /// Cancels a draft.
    fn cancel(&mut self, q: u16, cid: u16) -> DeskAnswer<A> {
        let Some(draft) = draft_of(&mut self.values, q, cid) else {
            return Ok(Reply::NoValue);
        };
        let answer = match &mut self.access {
            Access::Book(book) => book.cancel(draft),
            Access::Lock(shared) => shared.cancel(self.rt, draft),
        };
        match answer {
            Ok(()) => Ok(Reply::Accepted),
            Err(back) => kept(
                &mut self.values,
                Value::Draft(back.value),
                refused(back.why),
            ),
        }
    }

    /// Makes a step whose values are in the heap, and answers what it answered.
    ///
    /// # Errors
    ///
    /// Where memory is refused for the list of the commands.
    pub fn make(&mut self, step: StepIn<A>) -> DeskAnswer<A> {
        match step {
            Step::Reserve { q, request } => self.reserve(q, request),
            Step::Submit { q, cid } => self.submit(q, cid),
            Step::Cancel { q, cid } => self.cancel(q, cid),
            Step::Collect { q, cid } => self.collect(q, cid),
            Step::Release { q, cid } => self.release(q, cid),
            Step::Fill { q, cid, bytes } => fill(&mut self.values, q, cid, bytes.as_slice()),
            Step::Build { q, cid } => build(self.heap, &mut self.values, q, cid),
            Step::Gather { q, cid } => gather(self.heap, &mut self.values, q, cid),
            other => {
                let answer = match &mut self.access {
                    Access::Book(book) => step_through_book(book, &other),
                    Access::Lock(shared) => step_behind_lock(self.rt, shared, &other),
                };
                match answer {
                    Ok(reply) => Ok(reply),
                    Err(StepRefused { why, touched }) => Ok(Reply::Refused { why, touched }),
                }
            }
        }
    }

    /// Hands in all seats, and closes the book.
    ///
    /// # Errors
    ///
    /// Where the book is not closed. The seats came back.
    pub fn close(&mut self) -> Result<ReportIn<A>, CloseFault> {
        let seats = mem::replace(&mut self.seats, Vec::new(self.heap));
        let answer = match &mut self.access {
            Access::Book(book) => book.close(seats),
            Access::Lock(shared) => shared.close(self.rt, seats),
        };
        match answer {
            Ok(report) => Ok(report),
            Err(refused) => {
                self.seats = refused.seats;
                Err(refused.why)
            }
        }
    }

    /// Ends the book, and lets go of the commands that it left over. It answers how many entries the log had.
    pub fn end(self) -> usize {
        let Desk {
            rt: _,
            alloc: _,
            heap: _,
            access,
            seats: _,
            values,
        } = self;
        let book = match access {
            Access::Book(book) => book,
            Access::Lock(shared) => shared.end(),
        };
        let entries = book.log().len();
        let ended = book.end();
        for value in values {
            value.after(&ended);
        }
        entries
    }
}

impl<'r, L: FullLogBrand, R: Wait, A: Allocator + Copy> StepMaker for Desk<'r, L, R, A> {
    fn step(&mut self, step: &Step) -> Result<Reply, AllocError> {
        let made = step_in(self.heap, step)?;
        let reply = self.make(made)?;
        reply_in(self.alloc, reply)
    }

    fn owner(&self, page: PageNo) -> Option<Owner> {
        match &self.access {
            Access::Book(book) if page.0 < book.pages() => Some(book.owner(page)),
            Access::Book(_) => None,
            Access::Lock(shared) => shared.owner(self.rt, page),
        }
    }

    fn counts(&self) -> Counts {
        match &self.access {
            Access::Book(book) => book.counts(),
            Access::Lock(shared) => shared.counts(self.rt),
        }
    }
}
