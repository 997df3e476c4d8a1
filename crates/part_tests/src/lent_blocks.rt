//! A Read and a Write of a disk that is kept elsewhere: its blocks are lent to the call that wants them.
//!
//! The disk has 2^32 - 1 blocks. An emulator lends none at first; a call that wants blocks says which, and is made again.

use crate::expecting::same;
use crate::guest_memory::GuestMemory;
use block_image::{Away, Lent};
use controller_core::{Controller, LentRefusal, QueuePages};
use controller_walk::WalkState;
use page_memory::{Dma, PageNo, TouchRecord};
use std::alloc::Global;
use std::process::Abort;

/// The block that both commands name, the last but fourteen.
const BLOCK: u64 = 0xFFFF_FFF0;

/// A command of the block by this opcode and identifier, its data in the 512 bytes at address 4000h.
fn entry(opcode: u8, cid: u8) -> [u8; 64] {
    let mut entry = [0; 64];
    entry[0] = opcode;
    entry[1] = 0x40;
    entry[2] = cid;
    entry[4] = 1;
    entry[25] = 0x40;
    entry[33] = 0x02;
    entry[40] = 0xF0;
    entry[41] = 0xFF;
    entry[42] = 0xFF;
    entry[43] = 0xFF;
    entry
}

/// The admin queue has the pages 0 and 1, and the I/O queue the pages 2 and 3.
const QUEUES: [QueuePages; 2] = [
    QueuePages {
        sq: PageNo(0),
        cq: PageNo(1),
    },
    QueuePages {
        sq: PageNo(2),
        cq: PageNo(3),
    },
];

/// The refusal of a call that wants the block.
const WANTED: LentRefusal = LentRefusal::NotLent {
    slba: BLOCK,
    count: 1,
};

type Disk = Controller<Global, Away>;

/// Lends none of the disk's blocks.
fn fetch_alone(disk: &mut Disk, memory: &mut GuestMemory) -> Result<u16, LentRefusal> {
    memory.clear();
    let mut none = [];
    match Lent::new(disk.blocks(), 0, &mut none) {
        Some(lent) => disk.fetch_over(1, memory, &lent),
        None => Err(WANTED),
    }
}

/// Walks a command's list, of one descriptor.
fn walk(rt: &impl Abort, disk: &mut Disk, cid: u16, memory: &mut GuestMemory) {
    memory.clear();
    same(rt, disk.walk(1, cid, memory), Ok(WalkState::More));
    same(rt, disk.walk(1, cid, memory), Ok(WalkState::End));
}

/// Completes a command, over a buffer that is lent from a block on.
fn complete(
    disk: &mut Disk,
    cid: u16,
    memory: &mut GuestMemory,
    first: u64,
    buffer: &mut [u8],
) -> Result<(), LentRefusal> {
    memory.clear();
    match Lent::new(disk.blocks(), first, buffer) {
        Some(mut lent) => disk.complete_over(1, cid, memory, &mut lent),
        None => Err(WANTED),
    }
}

/// The Read wants its block at the fetch, and none at the end.
fn read(rt: &impl Abort, disk: &mut Disk, memory: &mut GuestMemory) {
    memory.clear();
    assert!(rt; memory.write(0x2000, &entry(0x02, 7)).is_ok());
    disk.tail_doorbell(1, 1);
    same(rt, fetch_alone(disk, memory), Err(WANTED));
    let mut block = [0x11; 512];
    let lent = Lent::new(disk.blocks(), BLOCK, &mut block).expect(rt, "a block");
    memory.clear();
    same(rt, disk.fetch_over(1, memory, &lent), Ok(7));
    walk(rt, disk, 7, memory);
    same(rt, complete(disk, 7, memory, 0, &mut []), Ok(()));
    let mut moved = [0; 512];
    memory.clear();
    assert!(rt; memory.read(0x4000, &mut moved).is_ok());
    same(rt, moved, [0x11; 512]);
}

/// The Write wants its block at the end, and leaves its bytes there.
fn write(rt: &impl Abort, disk: &mut Disk, memory: &mut GuestMemory) {
    memory.clear();
    assert!(rt; memory.write(0x2040, &entry(0x01, 8)).is_ok());
    disk.tail_doorbell(1, 2);
    same(rt, fetch_alone(disk, memory), Ok(8));
    walk(rt, disk, 8, memory);
    same(rt, complete(disk, 8, memory, 0, &mut []), Err(WANTED));
    let mut block = [0; 512];
    same(rt, complete(disk, 8, memory, BLOCK, &mut block), Ok(()));
    same(rt, block, [0x11; 512]);
}

#[test]
fn lent_blocks(rt: HostRuntime) {
    let mut memory = GuestMemory::zeroed(rt.alloc(), 0x8000).expect(&rt, "a memory");
    let opened = Controller::open_over(rt.alloc(), 4, &QUEUES, u32::MAX);
    let mut disk = opened.expect(&rt, "it opens");
    same(&rt, disk.blocks(), u32::MAX);
    read(&rt, &mut disk, &mut memory);
    write(&rt, &mut disk, &mut memory);
    drop(disk);
    drop(memory);
}
