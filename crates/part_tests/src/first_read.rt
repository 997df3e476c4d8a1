//! The first Read of a guest, step by step.
//!
//! An emulator has the guest's memory, and a controller that it lends this memory at each call. The guest's driver writes entries into
//! its rings and values to the doorbells. All else is the emulator's: when it fetches an entry, how far it walks a list before it turns to
//! another command, and when it posts a completion.

use crate::expecting::same;
use crate::guest_memory::GuestMemory;
use block_image::Image;
use controller_core::{Controller, QueuePages};
use controller_walk::WalkState;
use page_memory::{Dma, PageNo, TouchRecord};
use std::process::Abort;

/// A Read of block 0 into the 512 bytes at address 4000h, as the driver writes it (NVM Express Base Specification 2.0, "Submission Queue
/// Entry", and NVM Command Set Specification 1.0, "Read command").
const READ: [u8; 64] = [
    0x02, 0x40, 0x07, 0x00, // the opcode of Read; its data by a scatter-gather list; identifier 7
    1, 0, 0, 0, // namespace 1
    0, 0, 0, 0, 0, 0, 0, 0, // reserved
    0, 0, 0, 0, 0, 0, 0, 0, // no metadata
    0x00, 0x40, 0, 0, 0, 0, 0, 0, // one Data Block: its address
    0x00, 0x02, 0, 0, // its length, 512 bytes
    0, 0, 0, 0x00, // its type
    0, 0, 0, 0, 0, 0, 0, 0, // starting at block 0
    0, 0, 0, 0, // one block, which is written as 0
    0, 0, 0, 0, 0, 0, 0, 0, 0, 0, 0, 0,
];

/// The completion that the driver finds.
const COMPLETION: [u8; 16] = [
    0, 0, 0, 0, // nothing specific to the command
    0, 0, 0, 0, // reserved
    1, 0, // one entry of the submission queue is taken
    1, 0, // it was submission queue 1
    7, 0, // the identifier
    0x01, 0x00, // Successful Completion, in the first pass of the ring
];

/// The admin queue has the pages 0 and 1, and the I/O queue the pages 2 and 3.
const QUEUES: [QueuePages; 2] = [
    QueuePages {
        sq: PageNo(0),
        cq: PageNo(1),
    },
    QueuePages {
        sq: PageNo(2),
        cq: PageNo(3),
    },
];

/// The emulator has the entry fetched. Before a call it clears the list of the touched pages, where that has pages, so that this call has room, and
/// after the call the list has what this call touched: here the page of the slot.
///
/// It walks the list, one unit a call. The first unit is the entry's own descriptor, for which no memory is touched. The second one moves the
/// bytes, and is the last.
///
/// It posts the completion, and the controller forgets the command.
fn emulate(rt: &impl Abort, controller: &mut Controller, memory: &mut GuestMemory) {
    memory.clear();
    same(rt, controller.fetch(1, memory), Ok(7));
    same(rt, memory.touched().as_slice(), [PageNo(2)].as_slice());

    memory.clear();
    same(rt, controller.walk(1, 7, memory), Ok(WalkState::More));
    assert!(rt; memory.touched().is_empty());
    same(rt, controller.walk(1, 7, memory), Ok(WalkState::End));
    same(rt, memory.touched().as_slice(), [PageNo(4)].as_slice());

    memory.clear();
    same(rt, controller.complete(1, 7, memory), Ok(()));
    same(rt, memory.touched().as_slice(), [PageNo(3)].as_slice());
    same(rt, controller.command_count(), 0);
}

/// The driver finds the completion in the first slot of its ring, and the block at its address.
fn find(rt: &impl Abort, memory: &mut GuestMemory) {
    let mut completion = [0; 16];
    memory.clear();
    assert!(rt; memory.read(0x3000, &mut completion).is_ok());
    same(rt, completion, COMPLETION);
    let mut block = [0; 512];
    assert!(rt; memory.read(0x4000, &mut block).is_ok());
    same(rt, block, [0x11; 512]);
}

/// The guest has 32 KiB of memory, and its disk one block of bytes 11h.
///
/// The driver writes its entry into the first slot of the I/O queue, and the slot after it to the doorbell. Nothing else tells the controller of it.
/// In the end it says that it has read the completion.
#[test]
fn first_read(rt: HostRuntime) {
    let mut memory = GuestMemory::zeroed(rt.alloc(), 0x8000).expect(&rt, "a memory");
    let mut image = Image::zeroed(rt.alloc(), 1).expect(&rt, "an image");
    image.copy_in(0, &[0x11; 512]);
    let mut controller = Controller::open(rt.alloc(), 4, &QUEUES, image).expect(&rt, "it opens");
    assert!(rt; memory.write(0x2000, &READ).is_ok());
    controller.tail_doorbell(1, 1);
    emulate(&rt, &mut controller, &mut memory);
    find(&rt, &mut memory);
    controller.head_doorbell(1, 1);
    drop(controller);
    drop(memory);
}
