//! A book is closed, or is not, where memory is refused to the tables with which its log is compared with the receipts.

ghost use Rattle.std.specs.Prelude.{◌≡◌};
ghost use Rattle.step_core.specs.Opening.{opening_of};

use crate::heap::{Heap, zeros};
use crate::looks::{see, see_at};
use crate::part::{USUAL, opened, play_text};
use driver_book::{BlankBook, CloseFault, Full, FullLogBrand, LogBrand};
use session_scripts::desk::{Access, Desk};
use std::alloc::Global;
use std::marker::Brand;
use std::process::Abort;
use std::sync::Wait;
use step_core::{Config, Image};
use test_support::{RefusedCalls, Refusing};

/// The tables: the counts of the seats, the ends of commands, and those of queues.
const TABLES: u64 = 3;

/// A Read of the seat that acts, from its reservation to its release: ten entries of the log.
const READ: &str = "reserve 1 read 0 1 0+512
> reserve q 1 cid 0 data 1 chain 0
build 1 0
> build ok
submit 1 0
> submit ok
ring 1
> ring ok
fetch 1
> fetch cid 0 touched 2
walk 1 0
> walk more touched -
walk 1 0
> walk end touched 4
complete 1 0
> complete ok touched 3
reap 1
> reap done cid 0 status 0:00
collect 1 0
> collect status 0:00
release 1 0
> release ok
> counts free 12 queue 4 chain 0 data 0
";

/// Two seats carry a Read through each. Whichever table is refused, a seat that is kept back is missed; and the book is closed without one.
fn close_without_tables<'h, L: FullLogBrand, R: Abort + Wait>(
    rt: &R,
    heap: &'h Heap,
    desk: &mut Desk<'h, L, R, &'h Heap>,
) {
    for _ in 0..2 {
        assert!(rt; desk.sit() == Ok(true));
        play_text(rt, desk, READ);
    }
    let Some(last) = desk.seats.pop() else {
        panic!(rt; "there is no seat");
    };
    let missing = CloseFault::Missing { seat: 1, number: 1 };
    for growth in 1..=TABLES {
        heap.refuse(RefusedCalls::Nth(growth));
        see_at(rt, growth, &desk.close().err(), &Some(missing));
        see_at(rt, growth, &heap.tally().refused, &1);
    }
    assert!(rt; desk.seats.push(last).is_ok());
    heap.refuse(RefusedCalls::Nth(1));
    match desk.close() {
        Ok(report) => see(rt, &report.submissions, &2),
        Err(why) => panic!(rt; "{why}"),
    }
    see(rt, &heap.tally().refused, &1);
}

/// Does so with a new book.
fn run<'h, L: LogBrand, R: Abort + Wait>(
    rt: &'h R,
    alloc: Global,
    heap: &'h Heap,
    config: Config,
    image: Image<&'h Heap>,
    blank: BlankBook<&'h Heap>,
)
    requires name { blank.ledger.name ≡ L.name }
    requires parts { blank.ledger.parts ≡ L.parts }
    requires number { blank.ledger.parts ≡ 65536 }
    requires list { blank.drafts.name ≡ L.list }
    requires opening { L.opening ≡ opening_of config image }
{
    let book = opened::<Full<L>, &'h Heap, R>(rt, heap, config, image, blank);
    let mut desk = Desk::new(rt, alloc, heap, Access::Book(book));
    close_without_tables(rt, heap, &mut desk);
    see(rt, &desk.end(), &20);
}

#[test]
fn a_book_is_closed_without_tables(rt: HostRuntime) {
    let alloc = rt.alloc();
    let heap = Refusing::new(alloc);
    let image = zeros(&rt, &heap);
    run::<Brand, HostRuntime>(&rt, alloc, &heap, USUAL, image, BlankBook::new());
    see(&rt, &heap.tally().blocks, &0);
}
