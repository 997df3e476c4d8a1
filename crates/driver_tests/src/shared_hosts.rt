//! A host with its pages under a lock, and a device beside it: two submitters, a thread that plays the device, and one that reaps.

ghost use Rattle.std.specs.Prelude.{◌<◌, IfOk};

use entry_codec::{ComEntry, Hints, Status, SubEntry, io_opcode};
use host_bench::{
    BlockSize, Call, Config, Flags, HostBench, Kind, Piece, Pieces, Reaped, Refusal, Reply,
    Request, Unreadable,
};
use sgl_descriptor::Descriptor;
use shared::{Change, Changes, Machine, Shared};
use std::alloc::Global;
use std::process::Abort;
use std::sync::Wait;
use std::sync::atomic::{AtomicU32, Ordering};
use std::test::Fail;
use std::thread;
use std::thread::Threads;

/// Four pages that no queue owns, and three identifiers: room for one batch of commands, and not for two.
const CONFIG: Config = Config {
    pages: 8,
    queues: 1,
    entries: 4,
    segment: 256,
};

/// Entries of each ring.
const ENTRIES: u16 = 4;

/// Where the rings of queue 1 begin: the pages that the host gave it.
const SUBMISSIONS: u64 = 2 * 4_096;

const COMPLETIONS: u64 = 3 * 4_096;

/// Blocks of the disk, 512 bytes each.
const BLOCKS: usize = 8;

/// How many commands a submitter has at once: all identifiers of the queue.
const BATCH: usize = 3;

/// How often each submitter writes its blocks and reads them.
const ROUNDS: u8 = 40;

/// A device with one queue and a disk of eight blocks. It knows Reads and Writes of one block by one Data Block.
#[derive(Drop)]
struct Device {
    disk: [[u8; 512]; BLOCKS],
    /// The next entry to take.
    head: u16,
    /// The next completion's slot, and its phase.
    tail: u16,
    phase: bool,
}

impl Device {
    /// A device with empty rings and a disk of zeros.
    fn new() -> Device {
        Device {
            disk: [[0; 512]; BLOCKS],
            head: 0,
            tail: 0,
            phase: true,
        }
    }

    /// Moves the block that an entry names, and answers the command's status.
    fn carry_out(&mut self, entry: &SubEntry, memory: &mut HostBench) -> Result<Status, Unreadable>
        ensures fits { IfOk result (λ status. status.sct < 8) }
    {
        let Some(block) = self.disk.get_mut(entry.cdw10 as usize) else {
            return Ok(Status::LBA_OUT_OF_RANGE);
        };
        let Ok(Descriptor::DataBlock { addr, len: 512 }) = Descriptor::read(&entry.sgl1) else {
            return Ok(Status::DATA_SGL_LENGTH_INVALID);
        };
        match entry.opcode {
            io_opcode::READ => memory.write(addr, block)?,
            io_opcode::WRITE => memory.read(addr, block)?,
            _ => return Ok(Status::INVALID_OPCODE),
        }
        Ok(Status::SUCCESS)
    }

    /// Posts the completion of a command.
    fn post(&mut self, cid: u16, status: Status, memory: &mut HostBench) -> Result<(), Unreadable>
        requires fits { status.sct < 8 }
    {
        let completion = ComEntry {
            dw0: 0,
            sqhd: self.head,
            sqid: 1,
            cid,
            phase: self.phase,
            status,
            hints: Hints::NONE,
        };
        memory.write(COMPLETIONS + 16 * u64::from(self.tail), &completion.write())?;
        self.tail = self.tail.wrapping_add(1) % ENTRIES;
        if self.tail == 0 {
            self.phase = !self.phase;
        }
        Ok(())
    }

    /// Takes the next entry, and carries its command through.
    fn work(&mut self, memory: &mut HostBench) -> Result<(), Unreadable> {
        let mut entry = [0; 64];
        memory.read(
            SUBMISSIONS + 64 * u64::from(self.head % ENTRIES),
            &mut entry,
        )?;
        let entry = SubEntry::read(&entry);
        self.head = self.head.wrapping_add(1) % ENTRIES;
        let status = self.carry_out(&entry, memory)?;
        self.post(entry.cid, status, memory)
    }
}

/// Some commands of a submitter: all of one kind, each of a block, one after the other starting at this one.
#[derive(Clone, Copy)]
struct Batch {
    kind: Kind,
    first: u8,
    round: u8,
}

impl Batch {
    /// The byte with which the block of command `i` is filled in this round.
    fn byte(&self, i: u8) -> u8 {
        self.round.wrapping_mul(16).wrapping_add(self.block(i))
    }

    /// That block.
    fn block(&self, i: u8) -> u8 {
        self.first.wrapping_add(i)
    }
}

/// Sees that a call was done.
fn see_done<R: Abort>(rt: &R, reply: &Reply) {
    assert!(rt; matches!(reply, Reply::Accepted));
}

/// Reserves a command for one block, with a page for its bytes, and answers its identifier.
pub(crate) fn reserved<R: Abort>(
    rt: &R,
    alloc: Global,
    bench: &mut HostBench,
    kind: Kind,
    block: u64,
) -> u16 {
    let piece = Piece::Data {
        offset: 0,
        len: 512,
    };
    let Ok(pieces) = Pieces::from_slice(alloc, &[piece]) else {
        panic!(rt; "no memory");
    };
    let request = Request {
        kind,
        nsid: 1,
        flags: Flags::NONE,
        block_size: BlockSize::Bytes512,
        slba: block,
        blocks: 1,
        pieces,
    };
    match bench.call(Call::Reserve { q: 1, request }) {
        Reply::Reserved { cid, .. } => cid,
        _ => panic!(rt; "there was no room"),
    }
}

/// Puts a batch into the queue and rings, and answers the identifiers of its commands.
fn put_in<R: Abort>(
    rt: &R,
    alloc: Global,
    bench: &mut HostBench,
    batch: Batch,
    doorbell: &AtomicU32,
) -> [u16; BATCH] {
    let mut cids = [0; BATCH];
    for i in 0..BATCH {
        let cid = reserved(rt, alloc, bench, batch.kind, batch.block(i as u8).into());
        if batch.kind == Kind::Write {
            see_done(rt, &bench.fill(1, cid, &[batch.byte(i as u8); 512]));
        }
        see_done(rt, &bench.call(Call::Build { q: 1, cid }));
        see_done(rt, &bench.call(Call::Submit { q: 1, cid }));
        cids[i] = cid;
    }
    match bench.call(Call::Ring { q: 1 }) {
        Reply::Rung(bell) => doorbell.store(bell.value, Ordering::SeqCst),
        _ => panic!(rt; "it was not rung"),
    }
    cids
}

/// Collects a command if it has ended, which must have ended well.
fn collected<R: Abort>(rt: &R, bench: &mut HostBench, cid: u16) -> bool {
    match bench.call(Call::Collect { q: 1, cid }) {
        Reply::Collected {
            status: Status::SUCCESS,
            ..
        } => true,
        Reply::Refused(Refusal::NotYet) => false,
        _ => panic!(rt; "it did not end well"),
    }
}

/// Sees that the commands of a batch brought the bytes that they must, and releases them.
fn take_out<R: Abort>(rt: &R, bench: &mut HostBench, batch: Batch, cids: [u16; BATCH]) {
    for i in 0..BATCH {
        let cid = cids[i];
        let Reply::Gathered(bytes) = bench.call(Call::Gather { q: 1, cid }) else {
            panic!(rt; "nothing was gathered");
        };
        if batch.kind == Kind::Read {
            assert!(rt;
                bytes.as_slice() == [batch.byte(i as u8); 512].as_slice(),
                "other bytes"
            );
        }
        see_done(rt, &bench.call(Call::Release { q: 1, cid }));
    }
}

/// Carries a batch through: it is put in once there is room for all of it, and taken out once all of it has ended.
fn carried<R: Abort + Wait>(
    rt: &R,
    alloc: Global,
    shared: &Shared<HostBench>,
    doorbell: &AtomicU32,
    batch: Batch,
) {
    let cids = shared.when(
        rt,
        Change::Room,
        |bench, _| bench.counts().free_pages as usize >= BATCH,
        Changes::RUNG,
        batch,
        |bench, batch| put_in(rt, alloc, bench, batch, doorbell),
    );
    for cid in cids {
        shared.when(
            rt,
            Change::end_of(1, cid),
            |bench, cid| collected(rt, bench, *cid),
            Changes::NONE,
            cid,
            |_, _| (),
        );
    }
    shared.with(rt, Changes::ROOM, batch, |bench, batch| {
        take_out(rt, bench, batch, cids)
    });
}

/// Writes blocks of its own and reads them, time after time.
fn submit<R: Abort + Wait>(
    rt: &R,
    alloc: Global,
    shared: &Shared<HostBench>,
    doorbell: &AtomicU32,
    first: u8,
) {
    for round in 0..ROUNDS {
        for kind in [Kind::Write, Kind::Read] {
            let batch = Batch { kind, first, round };
            carried(rt, alloc, shared, doorbell, batch);
        }
    }
}

/// Plays the device until the workers are told to stop. It answers how many commands it carried through.
fn play<R: Abort + Wait>(rt: &R, shared: &Shared<HostBench>, doorbell: &AtomicU32) -> u32 {
    let mut device = Device::new();
    let mut played: u32 = 0;
    for _ in rt.forever() {
        let (worked, back) = shared.when(
            rt,
            Change::Rung,
            |_, device: &Device| u32::from(device.head) != doorbell.load(Ordering::SeqCst),
            Changes::NONE,
            device,
            |bench, device| {
                let mut device = device;
                let rung = u32::from(device.head) != doorbell.load(Ordering::SeqCst);
                (rung && device.work(bench).is_ok(), device)
            },
        );
        device = back;
        if worked {
            played = played.wrapping_add(1);
        } else {
            assert!(rt; shared.stopping(rt));
            break;
        }
    }
    played
}

/// Reaps until the workers are told to stop. It answers how many commands ended.
fn poll<R: Abort + Wait>(rt: &R, shared: &Shared<HostBench>) -> u32 {
    let mut ended: u32 = 0;
    for _ in rt.forever() {
        let reply = shared.when(
            rt,
            Change::Posted,
            |bench, ()| bench.can_reap(),
            Changes::ENDED,
            (),
            |bench, ()| bench.call(Call::Reap { q: 1 }),
        );
        match reply {
            Reply::Reaps {
                found: Reaped::Done { .. },
                ..
            } => ended = ended.wrapping_add(1),
            _ => {
                assert!(rt; shared.stopping(rt));
                break;
            }
        }
    }
    ended
}

/// Runs two submitters, a device and a poller. It answers how many commands the device carried through and how many were reaped.
fn run<R: Abort + Threads + Wait + Sync>(
    rt: &R,
    alloc: Global,
    shared: &Shared<HostBench>,
    doorbell: &AtomicU32,
) -> (u32, u32) {
    thread::scope(thread::scope_env(), rt, |scope| {
        let Ok(plays) = scope.spawn(move || play(rt, shared, doorbell)) else {
            panic!(rt; "no thread was made");
        };
        let Ok(polls) = scope.spawn(move || poll(rt, shared)) else {
            panic!(rt; "no thread was made");
        };
        let Ok(one) = scope.spawn(move || submit(rt, alloc, shared, doorbell, 0)) else {
            panic!(rt; "no thread was made");
        };
        let Ok(other) = scope.spawn(move || submit(rt, alloc, shared, doorbell, 4)) else {
            panic!(rt; "no thread was made");
        };
        one.join(rt);
        other.join(rt);
        shared.stop(rt);
        (plays.join(rt), polls.join(rt))
    })
}

#[test]
fn two_submitters_share_a_host(rt: HostRuntime) -> Result<(), Fail> {
    let alloc = rt.alloc();
    let Ok(bench) = HostBench::open(alloc, CONFIG) else {
        panic!(rt; "no host");
    };
    let shared = Shared::new(bench);
    let doorbell = AtomicU32::new(0);
    let (played, ended) = run(&rt, alloc, &shared, &doorbell);
    let all = 2 * 2 * BATCH as u32 * u32::from(ROUNDS);
    assert!(rt;
        played == all && ended == all,
        "{played} played, {ended} ended, {all} wanted"
    );
    see_done(&rt, &shared.call(&rt, Call::Reset));
    let bench = shared.end();
    assert!(rt; bench.counts().free_pages == 6);
    Ok(())
}
