//! A thread sleeps over a host under a lock, and a call wakes it: each call by whose name others are told.

use crate::looks::{comes, let_sleep};
use crate::part::USUAL;
use driver_threads::Job;
use entry_codec::{ComEntry, Hints, Status};
use host_bench::{Call, HostBench, Kind, Reply};
use session_scripts::desk::runs::job;
use shared::{Change, Changes, Shared};
use std::alloc::Global;
use std::process::Abort;
use std::sync::Wait;
use std::sync::atomic::{AtomicBool, Ordering};
use std::thread;
use std::thread::Threads;
use std::time::Clock;

/// What is done with the host. Commands are of queue 1 and have identifier 0, as admin commands of queue 0 have.
#[derive(Clone, Copy)]
enum Deed {
    /// A Read of one block.
    Reserve,
    Build,
    Submit,
    Cancel,
    Collect,
    Release,
    /// Of a queue.
    Ring(u16),
    /// By the device, of a queue's command with identifier 0.
    Complete(u16),
    /// Of a queue.
    Reap(u16),
    DeleteSq,
    CreateCq,
    CreateSq,
    Retire,
    Reset,
}

/// What is done before a thread sleeps, what it waits for, and the call that wakes it.
type Waking = (&'static [Deed], Change, Deed);

/// A doorbell announces a command.
const RUNG: [Deed; 4] = [Deed::Reserve, Deed::Build, Deed::Submit, Deed::Ring(1)];

/// A command is completed.
const COMPLETED: [Deed; 5] = [
    Deed::Reserve,
    Deed::Build,
    Deed::Submit,
    Deed::Ring(1),
    Deed::Complete(1),
];

/// A command is finished.
const FINISHED: [Deed; 7] = [
    Deed::Reserve,
    Deed::Build,
    Deed::Submit,
    Deed::Ring(1),
    Deed::Complete(1),
    Deed::Reap(1),
    Deed::Collect,
];

/// The deletion of queue 1 is completed.
const DELETION_COMPLETED: [Deed; 3] = [Deed::DeleteSq, Deed::Ring(0), Deed::Complete(0)];

/// Queue 1 is deleted.
const DELETED: [Deed; 4] = [
    Deed::DeleteSq,
    Deed::Ring(0),
    Deed::Complete(0),
    Deed::Reap(0),
];

/// The completion half of queue 1 is made again.
const HALF_MADE: [Deed; 5] = [
    Deed::Reset,
    Deed::CreateCq,
    Deed::Ring(0),
    Deed::Complete(0),
    Deed::Reap(0),
];

/// The end of the command that everything here is about.
const END: Change = Change::Ended { place: 1 };

/// Each call that others are told of, with each change that it may make.
const WAKINGS: [Waking; 18] = [
    (&[Deed::Reserve], Change::Room, Deed::Cancel),
    (&FINISHED, Change::Room, Deed::Release),
    (&[], Change::Room, Deed::DeleteSq),
    (&[Deed::Reset], Change::Room, Deed::CreateCq),
    (&HALF_MADE, Change::Room, Deed::CreateSq),
    (&[], Change::Rung, Deed::Ring(1)),
    (&COMPLETED, END, Deed::Reap(1)),
    (&COMPLETED, Change::Rung, Deed::Reap(1)),
    (&DELETION_COMPLETED, Change::Room, Deed::Reap(0)),
    (&DELETION_COMPLETED, Change::Rung, Deed::Reap(0)),
    (&DELETION_COMPLETED, END, Deed::Reap(0)),
    (&DELETED, Change::Room, Deed::Retire),
    (&DELETED, END, Deed::Retire),
    (&RUNG, Change::Room, Deed::Reset),
    (&RUNG, Change::Rung, Deed::Reset),
    (&RUNG, Change::Posted, Deed::Reset),
    (&RUNG, Change::Posted, Deed::Complete(1)),
    (&RUNG, END, Deed::Reset),
];

/// Writes the completion of a queue's command with identifier 0, with status 0:00, where the host looks for the next one.
fn complete<R: Abort>(rt: &R, bench: &mut HostBench, q: u16) {
    let (Some(at), Some(memory)) = (bench.positions(q), bench.queue_memory(q)) else {
        panic!(rt; "there is no such queue");
    };
    let Some(ring) = memory.completion else {
        panic!(rt; "it has no completion ring");
    };
    let entry = ComEntry {
        dw0: 0,
        sqhd: at.submission_tail,
        sqid: q,
        cid: 0,
        phase: at.phase,
        status: Status::SUCCESS,
        hints: Hints::NONE,
    };
    let slot = 4_096 * u64::from(ring.first.0) + 16 * u64::from(at.completion_head);
    assert!(rt; bench.write(slot, &entry.write()).is_ok());
}

/// Does something with the host, which must not be refused.
fn make<R: Abort + Wait>(rt: &R, alloc: Global, shared: &Shared<HostBench>, deed: Deed) {
    let call = match deed {
        Deed::Reserve => match job(alloc, 1, Kind::Read, 0, 1, &[]) {
            Ok(
                Job {
                    q,
                    request,
                    bytes: _,
                },
            ) => Call::Reserve { q, request },
            Err(_) => panic!(rt; "no memory"),
        },
        Deed::Complete(q) => {
            let mut locked = shared.lock(rt);
            complete(rt, &mut locked.machine, q);
            shared.leave(locked, Changes::NONE);
            return;
        }
        Deed::Build => Call::Build { q: 1, cid: 0 },
        Deed::Submit => Call::Submit { q: 1, cid: 0 },
        Deed::Cancel => Call::Cancel { q: 1, cid: 0 },
        Deed::Collect => Call::Collect { q: 1, cid: 0 },
        Deed::Release => Call::Release { q: 1, cid: 0 },
        Deed::Ring(q) => Call::Ring { q },
        Deed::Reap(q) => Call::Reap { q },
        Deed::DeleteSq => Call::DeleteSq { q: 1 },
        Deed::CreateCq => Call::CreateCq { q: 1, vector: None },
        Deed::CreateSq => Call::CreateSq { q: 1 },
        Deed::Retire => Call::Retire { q: 1 },
        Deed::Reset => Call::Reset,
    };
    let refused = matches!(
        shared.call(rt, call),
        Reply::Refused(_) | Reply::NoValue | Reply::NotFilled(_)
    );
    assert!(rt; !refused, "it is refused");
}

/// Sleeps until a change is told once the call is going to be made, and says that it is back.
fn sleep<R: Wait>(
    rt: &R,
    shared: &Shared<HostBench>,
    change: Change,
    called: &AtomicBool,
    back: &AtomicBool,
) {
    shared.when(
        rt,
        change,
        |_, ()| called.load(Ordering::SeqCst),
        Changes::NONE,
        (),
        |_, ()| back.store(true, Ordering::SeqCst),
    );
}

/// Sees that a thread which waits for a change sleeps until a call is made, and that the call wakes it. Once the workers are told to stop nobody sleeps.
fn see_woken<R: Abort + Clock + Threads + Wait + Sync>(
    rt: &R,
    alloc: Global,
    (before, change, call): Waking,
    place: usize,
) {
    let Ok(bench) = HostBench::open(alloc, USUAL) else {
        panic!(rt; "no host");
    };
    let shared = Shared::new(bench);
    for deed in before {
        make(rt, alloc, &shared, *deed);
    }
    let called = AtomicBool::new(false);
    let back = AtomicBool::new(false);
    let woken = thread::scope(thread::scope_env(), rt, |scope| {
        let Ok(sleeper) = scope.spawn(|| sleep(rt, &shared, change, &called, &back)) else {
            panic!(rt; "no thread was made");
        };
        let_sleep(rt);
        called.store(true, Ordering::SeqCst);
        make(rt, alloc, &shared, call);
        let woken = comes(rt, &back);
        shared.stop(rt);
        sleeper.join(rt);
        woken
    });
    called.store(false, Ordering::SeqCst);
    sleep(rt, &shared, change, &called, &back);
    assert!(rt; woken, "waking {place}: the call woke nobody");
    drop(shared.end());
}

#[test]
fn each_call_of_a_host_wakes_who_waits_for_it(rt: HostRuntime) {
    for (place, waking) in WAKINGS.iter().enumerate() {
        see_woken(&rt, rt.alloc(), *waking, place);
    }
}
