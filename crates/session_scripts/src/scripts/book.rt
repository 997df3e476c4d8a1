//! A script through a book, or under its lock: as its transcript says, also where a growth is refused, from the opening of the book to its end.

ghost use Rattle.std.specs.Prelude.{◌≡◌};
ghost use Rattle.step_core.specs.Opening.{opening_of};

use crate::desk::{Access, Desk};
use crate::scripts::fault::{Way, Wrong};
use crate::scripts::refused::{End, Run, play_refused};
use crate::scripts::standing::{DeskIn, Heap, Stands};
use crate::scripts::visit::visit;
use driver_book::{BlankBook, Book, CloseFault, Full, FullLogBrand, LogBrand};
use driver_threads::Shared;
use std::alloc::{AllocError, Allocator, Global};
use std::marker::Brand;
use std::sync::Wait;
use step_core::{Config, Image, OpenRefusal};
use test_support::RefusedCalls;

/// Opens a book, again where memory was refused.
pub fn opened<L: FullLogBrand, A: Allocator + Copy>(
    heap: A,
    config: Config,
    image: Image<A>,
    blank: BlankBook<A>,
) -> Result<Book<L, A>, Wrong>
    requires name { blank.ledger.name ≡ L.name }
    requires parts { blank.ledger.parts ≡ L.parts }
    requires number { blank.ledger.parts ≡ 65536 }
    requires list { blank.drafts.name ≡ L.list }
    requires opening { L.opening ≡ opening_of config image }
{
    let refused = match Book::<L, A>::open(heap, config, image, blank) {
        Ok(book) => return Ok(book),
        Err(refused) => refused,
    };
    if refused.why != OpenRefusal::Memory {
        return Err(Wrong::NoBook(refused.why));
    }
    match Book::<L, A>::open(heap, config, refused.image, refused.blank) {
        Ok(book) => Ok(book),
        Err(refused) => Err(Wrong::NoBook(refused.why)),
    }
}

/// Makes a seat at a desk, with no growth refused.
pub fn seated<'h, L: FullLogBrand, R: Wait>(desk: &mut DeskIn<'h, L, R>) -> Result<(), Wrong> {
    match desk.sit() {
        Ok(_) => Ok(()),
        Err(AllocError) => Err(Wrong::Memory),
    }
}

/// Closes the book of a desk: how many submissions there were, or why it is not closed.
fn submissions<'h, L: FullLogBrand, R: Wait>(
    desk: &mut DeskIn<'h, L, R>,
) -> Result<u64, CloseFault> {
    match desk.close() {
        Ok(report) => Ok(report.submissions),
        Err(why) => Err(why),
    }
}

/// Plays a script at a desk with one of the growths to come refused, and closes the book. Where closing wants memory nothing has changed, and the
/// book is closed again.
fn play_at<'h, L: FullLogBrand, R: Eprint + Wait>(
    rt: &R,
    desk: &mut DeskIn<'h, L, R>,
    run: Run<'_>,
    left: u64,
) -> Result<End, Wrong> {
    let (alloc, heap) = (desk.alloc, desk.heap);
    seated(desk)?;
    let mut end = play_refused(rt, alloc, desk, run, left)?;
    heap.refuse(RefusedCalls::Nth(end.left));
    let mut closes = submissions(desk);
    end.left = end.left.saturating_sub(heap.tally().calls);
    heap.refuse(RefusedCalls::Never);
    if closes == Err(CloseFault::Memory) {
        match desk.standing(alloc) {
            Ok(standing) if standing == end.standing => {}
            _ => return Err(Wrong::Changed),
        }
        closes = submissions(desk);
    }
    end.standing.closes = Some(closes);
    Ok(end)
}

/// Plays a script at a desk with a new book, in a heap with one growth refused, and ends the book.
fn play_in<'h, L: LogBrand, R: Eprint + Wait>(
    rt: &'h R,
    alloc: Global,
    heap: &'h Heap,
    config: Config,
    image: Image<&'h Heap>,
    blank: BlankBook<&'h Heap>,
    run: Run<'_>,
) -> Result<End, Wrong>
    requires name { blank.ledger.name ≡ L.name }
    requires parts { blank.ledger.parts ≡ L.parts }
    requires number { blank.ledger.parts ≡ 65536 }
    requires list { blank.drafts.name ≡ L.list }
    requires opening { L.opening ≡ opening_of config image }
{
    let is_visit = matches!(run.way, Way::Visit);
    if !is_visit {
        heap.refuse(RefusedCalls::Nth(run.growth));
    }
    let book = opened::<Full<L>, &'h Heap>(heap, config, image, blank)?;
    let asked = if is_visit { 0 } else { heap.tally().calls };
    heap.refuse(RefusedCalls::Never);
    let left = run.growth.saturating_sub(asked);
    let access = match run.way {
        Way::Lock => Access::Lock(Shared::new(book)),
        _ => Access::Book(book),
    };
    let mut desk = Desk::new(rt, alloc, heap, access);
    let played = if is_visit {
        visit(rt, &mut desk, run, left)
    } else {
        play_at(rt, &mut desk, run, left)
    };
    let entries = desk.end();
    let mut end = played?;
    end.standing.entries = Some(entries);
    Ok(end)
}

/// Plays a script through a new book, or under its lock, in a heap with one growth refused.
pub fn through_book<'h, R: Eprint + Wait>(
    rt: &'h R,
    alloc: Global,
    heap: &'h Heap,
    run: Run<'_>,
) -> Result<End, Wrong> {
    let options = run.transcript.options();
    let Ok(image) = Image::zeroed(heap, options.blocks) else {
        return Err(Wrong::Memory);
    };
    let blank = BlankBook::new();
    play_in::<Brand, R>(rt, alloc, heap, options.config, image, blank, run)
}
