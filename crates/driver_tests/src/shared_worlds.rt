//! A shared world, and what no clause says of it: readers in threads that wait for each other, the memory that steps ask for, and each call once.

use crate::looks::{counts, see};
use crate::part::SMALL;
use block_image::Image;
use driver_threads::Job;
use entry_codec::Status;
use io_commands::{Draft, Kind, Request, Ticket};
use page_ledger::Owner;
use page_memory::PageNo;
use session_scripts::desk::runs::job;
use shared::{Changes, ServedStep, Shared, calls};
use std::alloc::{Allocator, Global};
use std::process::Abort;
use std::sync::Wait;
use std::thread;
use std::thread::Threads;
use step_core::{Reaped, Refused, World};
use test_support::{RefusedCalls, Refusing};

/// How many threads read.
const READERS: usize = 6;

/// How often each of them reads.
const READS: usize = 50;

/// What a call answers that must not be refused.
pub(crate) fn done<T, V, R: Abort>(rt: &R, answer: Result<T, Refused<V>>) -> T {
    match answer {
        Ok(value) => value,
        Err(_) => panic!(rt; "it was refused"),
    }
}

/// A Read of this many of the first blocks, each in a piece of its own.
pub(crate) fn read_of<A: Allocator + Copy, R: Abort>(rt: &R, alloc: A, blocks: u32) -> Request<A> {
    match job(alloc, 1, Kind::Read, 0, blocks, &[]) {
        Ok(
            Job {
                q: _,
                request,
                bytes: _,
            },
        ) => request,
        Err(_) => panic!(rt; "no memory"),
    }
}

/// The small world, over an image of four blocks of sevens.
pub(crate) fn opened<A: Allocator + Copy, R: Abort>(rt: &R, alloc: A) -> Shared<World<A>> {
    let mut bytes = Vec::new(alloc);
    assert!(rt; bytes.resize(4 * 512, 7).is_ok());
    let Ok(image) = Image::from_bytes(bytes) else {
        panic!(rt; "no image");
    };
    match World::open(alloc, SMALL, image) {
        Ok(world) => Shared::new(world),
        Err(_) => panic!(rt; "no world"),
    }
}

/// Submits a Read of this many blocks, once there is room for it, and rings.
pub(crate) fn submitted<A: Allocator + Copy, R: Abort + Wait>(
    rt: &R,
    alloc: A,
    shared: &Shared<World<A>>,
    blocks: u32,
) -> Ticket {
    let mut draft = done(
        rt,
        shared.reserve_when_free(rt, 1, read_of(rt, alloc, blocks)),
    );
    assert!(rt; draft.build(alloc).is_ok());
    let ticket = done(rt, calls::submit(shared, rt, draft));
    see(rt, &calls::ring(shared, rt, 1), &Ok(()));
    ticket
}

/// Cancels a draft.
pub(crate) fn cancelled<A: Allocator + Copy, R: Abort + Wait>(
    rt: &R,
    shared: &Shared<World<A>>,
    draft: Draft<A>,
) {
    let cancelled = shared.with(rt, Changes::ROOM, draft, |world, draft| world.cancel(draft));
    done(rt, cancelled);
}

/// Collects a Read of this many blocks of sevens, once it has ended, and releases it.
fn released<A: Allocator + Copy, R: Abort + Wait>(
    rt: &R,
    alloc: A,
    shared: &Shared<World<A>>,
    ticket: Ticket,
    blocks: usize,
) {
    let finished = done(rt, shared.collect_when_ended(rt, ticket));
    see(rt, &finished.status(), &Status::SUCCESS);
    let bytes = finished.gather(alloc).expect(rt, "memory");
    see(rt, &bytes.len(), &blocks.saturating_mul(512));
    for byte in &bytes {
        assert!(rt; *byte == 7);
    }
    let mut locked = shared.lock(rt);
    let released = locked.machine.release(finished);
    shared.leave(locked, Changes::ROOM);
    done(rt, released);
}

/// Reads three blocks, time after time, and cancels a Read before each.
fn read_often<R: Abort + Wait>(rt: &R, alloc: Global, shared: &Shared<World>) {
    for _ in 0..READS {
        let draft = done(rt, shared.reserve_when_free(rt, 1, read_of(rt, alloc, 3)));
        cancelled(rt, shared, draft);
        let ticket = submitted(rt, alloc, shared, 3);
        released(rt, alloc, shared, ticket, 3);
    }
}

/// Reaps until the workers are told to stop. It answers how many commands ended.
fn poll<R: Wait>(rt: &R, shared: &Shared<World>) -> usize {
    let mut ended: usize = 0;
    for _ in rt.forever() {
        match shared.reap_next(rt) {
            Some((1, Ok(Reaped::Done { .. }))) => ended = ended.wrapping_add(1),
            Some(_) => {}
            None => break,
        }
    }
    ended
}

/// Serves until the workers are told to stop. It answers how many commands were completed.
fn serve<R: Wait>(rt: &R, shared: &Shared<World>) -> usize {
    let mut completed: usize = 0;
    for _ in rt.forever() {
        match shared.serve_next(rt) {
            Some(ServedStep::Complete { answer: Ok(_), .. }) => {
                completed = completed.wrapping_add(1);
            }
            Some(_) => {}
            None => break,
        }
    }
    completed
}

/// Runs the readers, a poller and a controller.
fn read_in_threads<R: Abort + Threads + Wait + Sync>(
    rt: &R,
    alloc: Global,
    shared: &Shared<World>,
) {
    let mut readers = Vec::new(alloc);
    thread::scope(thread::scope_env(), rt, |scope| {
        let Ok(polls) = scope.spawn(move || poll(rt, shared)) else {
            panic!(rt; "no thread was made");
        };
        let Ok(serves) = scope.spawn(move || serve(rt, shared)) else {
            panic!(rt; "no thread was made");
        };
        for _ in 0..READERS {
            match scope.spawn(move || read_often(rt, alloc, shared)) {
                Ok(reader) => assert!(rt; readers.push(reader).is_ok()),
                Err(_) => panic!(rt; "no thread was made"),
            }
        }
        for reader in readers {
            reader.join(rt);
        }
        shared.stop(rt);
        see(rt, &serves.join(rt), &(READERS * READS));
        see(rt, &polls.join(rt), &(READERS * READS));
    });
}

#[test]
fn readers_in_threads_wait_for_each_other(rt: HostRuntime) {
    let shared = opened(&rt, rt.alloc());
    read_in_threads(&rt, rt.alloc(), &shared);
    see(&rt, &calls::counts(&shared, &rt), &counts(8, 4));
    let world = shared.end();
    assert!(&rt; world.is_idle());
    let _ended = world.end();
}

/// How often a hundred Reads of a block ask a heap for memory: four times each, for the request, its draft, the list of its pages and the bytes that are
/// gathered, and seven times for what is made once.
const GROWTHS: u64 = 407;

#[test]
fn reads_ask_for_the_memory_of_their_world_alone(rt: HostRuntime) {
    let rt = &rt;
    let heap = Refusing::new(rt.alloc());
    let shared = opened(rt, &heap);
    heap.refuse(RefusedCalls::Never);
    for _ in 0..100 {
        let ticket = submitted(rt, &heap, &shared, 1);
        for _ in 0..4 {
            assert!(rt; shared.serve_next(rt).is_some());
        }
        assert!(rt; shared.reap_next(rt).is_some());
        released(rt, &heap, &shared, ticket, 1);
    }
    see(rt, &heap.tally().calls, &GROWTHS);
    see(
        rt,
        &calls::owner(&shared, rt, PageNo(11)),
        &Some(Owner::Free),
    );
    see(rt, &calls::owner(&shared, rt, PageNo(12)), &None);
    let _ended = shared.end().end();
}
