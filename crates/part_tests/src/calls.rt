//! Calls that nothing else makes, once each.

use crate::expecting::same;
use controller_walk::{Direction, Walk};
use page_ledger::{Ledger, Owner};
use page_memory::{Dma, FlatMemory, Half, PageNo, Store, TouchRecord, Unreadable};
use std::process::Abort;

/// Bytes are written across the border of two pages and read, until one of them is taken away.
fn lose_a_byte(rt: &impl Abort, memory: &mut FlatMemory) {
    let mut bytes = [0; 16];
    memory.clear();
    same(rt, memory.write(4090, &[3; 16]), Ok(()));
    memory.clear();
    same(rt, memory.read(4090, &mut bytes), Ok(()));
    same(rt, bytes, [3; 16]);
    same(rt, (memory.pages(), memory.touches()), (8, 4));
    memory.clear();
    assert!(rt; memory.pages() == 8);
    memory.remove(4100, 1);
    same(rt, (memory.byte(4099), memory.byte(4100)), (Some(3), None));
    same(rt, memory.read(4090, &mut bytes), Err(Unreadable));
}

#[test]
fn a_flat_memory(rt: HostRuntime) {
    let mut memory = FlatMemory::zeroed(rt.alloc(), 8).expect(&rt, "it opens");
    lose_a_byte(&rt, &mut memory);
    drop(memory);
}

/// A page is taken out of a store, the halves of a queue go back to a ledger, and a walk has its most steps left.
#[test]
fn what_is_out_and_left(rt: HostRuntime) {
    let mut store = Store::open(rt.alloc(), 8).expect(&rt, "it opens");
    let page = store.take(PageNo(3));
    same(&rt, (page.is_some(), store.is_in(PageNo(3))), (true, false));
    drop(page);
    drop(store);
    let mut ledger = Ledger::open(rt.alloc(), 8).expect(&rt, "it opens");
    for (half, first) in [(Half::Submission, 0), (Half::Completion, 2)] {
        let owner = Owner::Queue { q: 1, half };
        assert!(&rt; !owner.is_free());
        same(&rt, ledger.grant_run(owner, 2), Some(PageNo(first)));
    }
    same(&rt, ledger.give_back_half(1, Half::Completion), 2);
    same(&rt, ledger.give_back_queue(1), 2);
    drop(ledger);
    let walk = Walk::begin([0; 16], Direction::Source, 512);
    same(&rt, walk.left(), 12_289);
}
