//! The allocator that refuses, under a list that grows; and what a comparison keeps.

use crate::expecting::{same, same_at};
use std::alloc::{AllocError, Allocator};
use test_support::{Difference, RefusedCalls, Refusing, Seen, Tally};

/// Four numbers, in a block that grows each time.
fn four<A: Allocator>(alloc: A) -> Result<Vec<u64, A>, AllocError> {
    let mut list = Vec::new(alloc);
    for number in 1..5 {
        list.reserve_exact(1)?;
        let _ = list.push(number);
    }
    Ok(list)
}

/// This many calls, and this many of them refused, with nothing out.
fn calls(calls: u64, refused: u64) -> Tally {
    Tally {
        calls,
        refused,
        blocks: 0,
        bytes: 0,
    }
}

/// What is to be refused from now on, if that changes; whether four numbers are made then; and the calls so far, and those that were refused.
static ROWS: [(Option<RefusedCalls>, bool, (u64, u64)); 10] = [
    (Some(RefusedCalls::Nth(1)), false, (1, 1)),
    (None, true, (5, 1)),
    (Some(RefusedCalls::Nth(4)), false, (4, 1)),
    (None, true, (8, 1)),
    (Some(RefusedCalls::Nth(5)), true, (4, 0)),
    (Some(RefusedCalls::NthOn(6)), true, (4, 0)),
    (None, false, (6, 1)),
    (None, false, (7, 2)),
    (Some(RefusedCalls::Never), true, (4, 0)),
    (Some(RefusedCalls::NthOn(3)), false, (3, 1)),
];

/// Calls are refused on purpose, also where they are passed on by another allocator, which counts them as its own and refuses none.
#[test]
fn refuses_what_it_is_told(rt: HostRuntime) {
    let heap = Refusing::new(rt.alloc());
    for (at, (refusal, made, (asked, refused))) in ROWS.iter().enumerate() {
        if let Some(refusal) = refusal {
            heap.refuse(*refusal);
        }
        same_at(&rt, at, four(&heap).is_ok(), *made);
        same_at(&rt, at, heap.tally(), calls(*asked, *refused));
    }
    let outer = Refusing::new(&heap);
    heap.refuse(RefusedCalls::NthOn(3));
    same(&rt, four(&outer).is_ok(), false);
    same(
        &rt,
        (outer.tally(), heap.tally()),
        (calls(3, 0), calls(3, 1)),
    );
}

/// Blocks and bytes are counted as long as they are out.
#[test]
fn counts_what_is_out(rt: HostRuntime) {
    let heap = Refusing::new(rt.alloc());
    let list = four(&heap).expect(&rt, "four numbers");
    let boxed = Box::new(&heap, 7u8).expect(&rt, "a box");
    let Tally { blocks, bytes, .. } = heap.tally();
    same(&rt, (blocks, bytes), (2, 33));
    drop(boxed);
    same(&rt, list.as_slice(), [1, 2, 3, 4].as_slice());
    drop(list);
    same(&rt, heap.tally(), calls(5, 0));
}

/// The first comparison that does not hold is kept.
#[test]
fn a_difference_is_kept(rt: HostRuntime) {
    let mut seen = Seen::new(rt.alloc());
    seen.same(1, 1);
    seen.same_at("place", 2, 3);
    seen.holds("nothing", false);
    let Err(
        Difference {
            comparison,
            text: Ok(text),
        },
    ) = seen.end()
    else {
        panic!(&rt; "no difference");
    };
    same(&rt, comparison, 2);
    same(&rt, text.as_str(), "at \"place\": found 2, wanted 3");
}
