//! Reads that are carried through one after the other: the steps that threads make under the lock, and the work that they do outside of it.

ghost use Rattle.std.specs.Prelude.{◌≡◌, true, IfOk};
ghost use Rattle.std.specs.List.{list_any};
ghost use Rattle.driver_book.specs.Calls.{is_open_for};
ghost use Rattle.step_core.specs.Opening.{opening_of};

use crate::fault::TrialFault;
use crate::reads::{Done, Shape, request};
use block_image::Image;
use driver_book::{BlankBook, Book, LogBrand, Seat};
use io_commands::{Draft, Finished, Request, Ticket};
use std::alloc::{AllocError, Global};
use step_core::{Config, ControllerStep};

/// The work that threads do outside of the lock for a Read: its request is made, its list is built, and its bytes are gathered.
#[derive(Clone, Copy)]
struct Outside {
    alloc: Global,
    /// How often each is done.
    times: u32,
}

impl Outside {
    /// Makes the request.
    fn request(self, worker: u16, blocks: u32) -> Result<Request, AllocError> {
        let mut made = request(self.alloc, worker, blocks)?;
        for _ in 1..self.times {
            made = request(self.alloc, worker, blocks)?;
        }
        Ok(made)
    }

    /// Builds the list.
    fn build(self, draft: &mut Draft) -> Result<(), AllocError> {
        for _ in 0..self.times {
            draft.build(self.alloc)?;
        }
        Ok(())
    }

    /// Gathers the bytes, and says how many there are.
    fn gather(self, finished: &Finished) -> Result<usize, AllocError> {
        let mut bytes = Vec::new(self.alloc);
        for _ in 0..self.times {
            bytes = finished.gather(self.alloc)?;
        }
        Ok(bytes.len())
    }
}

/// Reserves, after a look whether it may, as who finds pages and identifiers at once.
fn reserved<L: LogBrand>(book: &mut Book<L>, request: Request) -> Result<Draft, TrialFault> {
    if book.stopping() || book.reserve_refusal(1, &request).is_some() {
        return Err(TrialFault::Refused);
    }
    match book.reserve(1, request) {
        Ok(draft) => Ok(draft),
        Err(_) => Err(TrialFault::Refused),
    }
}

/// Submits for a seat.
fn submitted<L: LogBrand>(
    book: &mut Book<L>,
    seat: &mut Seat<L>,
    draft: Draft,
) -> Result<Ticket, TrialFault>
    ensures { IfOk result (λ ticket. list_any (is_open_for ticket.q ticket.cid) seat.new.receipts ≡ true) }
{
    match book.submit(seat, draft) {
        Ok(ticket) => Ok(ticket),
        Err(refused) => {
            drop(refused.value.apart());
            Err(TrialFault::Refused)
        }
    }
}

/// Does what the controller can do.
fn serve<L: LogBrand>(book: &mut Book<L>) -> Result<(), TrialFault> {
    for _ in 0..u64::MAX {
        let done = match book.next_step() {
            None => return Ok(()),
            Some(ControllerStep::Fetch { q }) => book.fetch(q).is_ok(),
            Some(ControllerStep::Walk { q, cid }) => book.walk(q, cid).is_ok(),
            Some(ControllerStep::Complete { q, cid }) => book.complete(q, cid).is_ok(),
        };
        if !done {
            return Err(TrialFault::Refused);
        }
    }
    Err(TrialFault::Refused)
}

/// Takes the completions that are there.
fn reap<L: LogBrand>(book: &mut Book<L>) -> Result<(), TrialFault> {
    for _ in 0..u64::MAX {
        match book.next_completion() {
            None => return Ok(()),
            Some(q) => {
                if book.reap(q).is_err() {
                    return Err(TrialFault::Refused);
                }
            }
        }
    }
    Err(TrialFault::Refused)
}

/// Collects a command.
fn collected<L: LogBrand>(book: &mut Book<L>, ticket: Ticket) -> Result<Finished, TrialFault>
    ensures { IfOk result (λ finished. (finished.q ≡ ticket.q) × (finished.cid ≡ ticket.cid)) }
{
    match book.collect(ticket) {
        Ok(finished) => Ok(finished),
        Err(refused) => {
            drop(refused.value.apart());
            Err(TrialFault::Refused)
        }
    }
}

/// Releases a command of a seat.
fn released<L: LogBrand>(
    book: &mut Book<L>,
    seat: &mut Seat<L>,
    finished: Finished,
) -> Result<(), TrialFault>
    requires { list_any (is_open_for finished.q finished.cid) seat.old.receipts ≡ true }
{
    match book.release(seat, finished) {
        Ok(()) => Ok(()),
        Err(refused) => {
            drop(refused.value.apart());
            Err(TrialFault::Refused)
        }
    }
}

/// Builds, submits and rings, and the controller serves.
fn served<L: LogBrand>(
    outside: Outside,
    book: &mut Book<L>,
    seat: &mut Seat<L>,
    draft: Draft,
) -> Result<Ticket, TrialFault>
    ensures { IfOk result (λ ticket. list_any (is_open_for ticket.q ticket.cid) seat.new.receipts ≡ true) }
{
    let mut draft = draft;
    if outside.build(&mut draft).is_err() {
        drop(draft.apart());
        return Err(TrialFault::Memory);
    }
    let ticket = submitted(book, seat, draft)?;
    let (q, cid) = (ticket.q(), ticket.cid());
    let rung = book.ring(q).is_ok();
    // Who submitted looks before the command has ended, and once it has.
    let early = book.collect_refusal(q, cid).is_some();
    let done = rung && early && serve(book).is_ok() && reap(book).is_ok();
    if done && book.collect_refusal(q, cid).is_none() {
        Ok(ticket)
    } else {
        drop(ticket.apart());
        Err(TrialFault::Refused)
    }
}

/// Carries a Read through, and says how many bytes it read.
fn carry<L: LogBrand>(
    outside: Outside,
    book: &mut Book<L>,
    seat: &mut Seat<L>,
    worker: u16,
    blocks: u32,
) -> Result<usize, TrialFault> {
    let request = outside.request(worker, blocks)?;
    let draft = reserved(book, request)?;
    let ticket = served(outside, book, seat, draft)?;
    let finished = collected(book, ticket)?;
    match outside.gather(&finished) {
        Ok(bytes) => {
            released(book, seat, finished)?;
            Ok(bytes)
        }
        Err(refused) => {
            drop(finished.apart());
            Err(TrialFault::from(refused))
        }
    }
}

/// Takes so many seats of a book.
fn take_seats<L: LogBrand>(
    book: &mut Book<L>,
    seats: &mut Vec<Seat<L>>,
    count: u32,
) -> Result<(), TrialFault> {
    for _ in 0..count {
        match book.seat() {
            Ok(seat) => {
                if seats.push(seat).is_err() {
                    return Err(TrialFault::Memory);
                }
            }
            Err(_) => return Err(TrialFault::Refused),
        }
    }
    Ok(())
}

/// Carries all Reads through, and says how many bytes they read. The submitters take turns.
fn carry_all<L: LogBrand>(
    outside: Outside,
    book: &mut Book<L>,
    seats: &mut Vec<Seat<L>>,
    shape: Shape,
) -> Result<u64, TrialFault> {
    take_seats(book, seats, shape.submitters)?;
    let mut bytes: u64 = 0;
    for _ in 0..shape.jobs {
        for (worker, seat) in (0..16u16).zip(seats.iter_mut()) {
            let read = carry(outside, book, seat, worker, shape.blocks)?;
            bytes = bytes.saturating_add(read as u64);
        }
    }
    Ok(bytes)
}

/// Carries the Reads through over a book without a lock, with the work outside of the lock done so often.
///
/// # Errors
///
/// `Refused` where the world is not opened or closed or a step is refused, and `Memory`.
pub fn read_alone<L: LogBrand>(
    alloc: Global,
    config: Config,
    shape: Shape,
    times: u32,
    image: Image,
    blank: BlankBook,
) -> Result<Done, TrialFault>
    requires name { blank.ledger.name ≡ L.name }
    requires parts { blank.ledger.parts ≡ L.parts }
    requires number { blank.ledger.parts ≡ 65536 }
    requires list { blank.drafts.name ≡ L.list }
    requires opening { L.opening ≡ opening_of config image }
{
    let outside = Outside { alloc, times };
    let Ok(mut book) = Book::<L>::open(alloc, config, image, blank) else {
        return Err(TrialFault::Refused);
    };
    let mut seats = Vec::new(alloc);
    let carried = carry_all(outside, &mut book, &mut seats, shape);
    let entries = book.log().len();
    let closed = match book.close(seats) {
        Ok(report) => Ok(report.submissions),
        Err(_) => Err(TrialFault::Refused),
    };
    drop(book);
    Ok(Done {
        commands: closed?,
        entries,
        bytes: carried?,
    })
}
