//! Calls that take memory and that no step makes, each with every one of its growths refused in turn: it is not done, no byte is left behind, and the same
//! call then succeeds. Those that steps make are refused in the scripts of `sessions`.

use crate::expecting::{same, same_at};
use block_image::Image;
use io_commands::{BlockSize, Flags, Kind, Piece, Pieces, Request};
use page_memory::{FlatMemory, PageNo};
use sgl_chain::{Chain, Part};
use slot_table::LinkedTable;
use std::alloc::Global;
use std::process::Abort;
use test_support::{RefusedCalls, Refusing};

/// A call that takes memory.
#[derive(Clone, Copy)]
enum Call {
    FlattenChain,
    CopyRequest,
    CopyPieces,
    TakePieces,
    PushPiece,
    OpenFlatMemory,
    OpenImage,
}

/// Five parts, on four pages with segments of two descriptors.
const PARTS: [Part; 5] = [Part::Bucket { len: 512 }; 5];

const PAGES: [PageNo; 4] = [PageNo(1), PageNo(2), PageNo(3), PageNo(4)];

/// A block that is discarded.
const PIECES: [Piece; 1] = [Piece::Bucket { len: 512 }];

/// Does a call, and lets go of what it made: whether it was done.
fn is_done(heap: &Refusing<Global>, chain: &Chain<Global>, request: &Request, call: Call) -> bool {
    match call {
        Call::FlattenChain => chain.flatten(heap).is_ok(),
        Call::CopyRequest => request.copied(heap).is_ok(),
        Call::CopyPieces => request.pieces.copied(heap).is_ok(),
        Call::TakePieces => Pieces::from_slice(heap, &PIECES).is_ok(),
        Call::PushPiece => Pieces::new(heap).push(PIECES[0]).is_ok(),
        Call::OpenFlatMemory => FlatMemory::zeroed(heap, 8).is_ok(),
        Call::OpenImage => Image::zeroed(heap, 16).is_ok(),
    }
}

/// Calls, and how many growths they have.
static GROWTHS: [(Call, u64); 7] = [
    (Call::FlattenChain, 2),
    (Call::CopyRequest, 1),
    (Call::CopyPieces, 1),
    (Call::TakePieces, 1),
    (Call::PushPiece, 1),
    (Call::OpenFlatMemory, 1),
    (Call::OpenImage, 1),
];

#[test]
fn calls_are_done_once_no_growth_is_refused(rt: HostRuntime) {
    let alloc = rt.alloc();
    let chain = Chain::build(alloc, &PARTS, &PAGES, 2).expect(&rt, "a chain");
    same(&rt, chain.segments(), 4);
    let request = Request {
        kind: Kind::Read,
        nsid: 1,
        flags: Flags::NONE,
        block_size: BlockSize::Bytes512,
        slba: 0,
        blocks: 1,
        pieces: Pieces::from_slice(alloc, &PIECES).expect(&rt, "a piece"),
    };
    let heap = Refusing::new(alloc);
    for (at, (call, growths)) in GROWTHS.iter().enumerate() {
        for growth in 1..growths.saturating_add(2) {
            heap.refuse(RefusedCalls::Nth(growth));
            let done = is_done(&heap, &chain, &request, *call);
            let tally = heap.tally();
            let is_enough = growth > *growths;
            let found = (done, tally.refused == 0, tally.blocks);
            same_at(&rt, (at, growth), found, (is_enough, is_enough, 0));
        }
    }
}

/// Puts a hundred records into an empty table, the first of them in vain at first; and once more after a clearing, without memory.
fn fill_twice<'a>(
    rt: &impl Abort,
    heap: &'a Refusing<Global>,
    table: &mut LinkedTable<u32, &'a Refusing<Global>>,
) {
    heap.refuse(RefusedCalls::Nth(1));
    assert!(rt; table.get(1, 0).is_none());
    same(rt, table.put(1, 0, 70), Err(70));
    same(rt, (table.len(), heap.tally().bytes), (0, 0));
    for refusal in [RefusedCalls::Never, RefusedCalls::NthOn(1)] {
        heap.refuse(refusal);
        table.clear();
        for cid in 0..100 {
            assert!(rt; table.get(1, cid).is_none());
            same(rt, table.put(1, cid, 70), Ok(()));
        }
        same(rt, (table.len(), table.first()), (100, Some((1, 0))));
    }
}

/// A refused `put` hands its record back, and a cleared table takes no memory for as many records as it had.
#[test]
fn a_refused_put_hands_the_record_back(rt: HostRuntime) {
    let heap = Refusing::new(rt.alloc());
    let mut table = LinkedTable::new(&heap);
    fill_twice(&rt, &heap, &mut table);
    drop(table);
    same(&rt, heap.tally().blocks, 0);
}
