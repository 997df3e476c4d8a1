//! A thread sleeps over a shared world, and a call wakes it: each call that ends what it waits for.

use crate::looks::{let_sleep, see};
use crate::shared_worlds::{cancelled, done, opened, read_of, submitted};
use entry_codec::Status;
use shared::{Changes, ServedStep, Shared, calls};
use std::alloc::Global;
use std::process::Abort;
use std::sync::Wait;
use std::thread;
use std::thread::Threads;
use std::time::Clock;
use step_core::{Reaped, Refusal, World};

/// What a thread waits for.
#[derive(Clone, Copy)]
enum Sleep {
    /// To reserve a Read of three blocks.
    Reserve,
    /// To collect a Read of one block that it submits.
    Collect,
    /// To reap queue 1.
    Reap,
    /// To serve.
    Serve,
}

/// What it is woken to: the end of its command, success where it has none; why it is refused, or that there is nothing to do.
type Woken = Result<Status, Option<Refusal>>;

/// A call that is made while a thread sleeps. Each is of queue 1 or 0, and of identifier 0.
#[derive(Clone, Copy)]
enum Call {
    Ring(u16),
    Fetch(u16),
    Walk,
    Complete(u16),
    Reap(u16),
    DeleteSq,
    Retire,
    /// Of a completion of identifier 0, with SQ head 1 and status 0:00.
    Forge,
    Reset,
    Stop,
}

/// How many drafts have four of the eight pages that no queue owns before a thread sleeps, how many Reads of one block are announced, what the thread
/// waits for, the calls, the last of which wakes it, and what it is woken to.
type Waking = (u32, u32, Sleep, &'static [Call], Woken);

/// What it waited for came.
const DONE: Woken = Ok(Status::SUCCESS);

/// Its command was lost with its queue.
const LOST: Woken = Ok(Status::ABORTED_SQ_DELETION);

/// There is nothing to do.
const IDLE: Woken = Err(None);

/// All its pages are missing.
const NO_PAGES: Woken = Err(Some(Refusal::NoPages { need: 4, free: 0 }));

/// The calls that serve a Read of one block, up to its completion and up to its reap.
const SERVED: [Call; 4] = [Call::Fetch(1), Call::Walk, Call::Walk, Call::Complete(1)];

const REAPED: [Call; 5] = [
    Call::Fetch(1),
    Call::Walk,
    Call::Walk,
    Call::Complete(1),
    Call::Reap(1),
];

/// The calls that delete queue 1 and retire it.
const RETIRED: [Call; 6] = [
    Call::DeleteSq,
    Call::Ring(0),
    Call::Fetch(0),
    Call::Complete(0),
    Call::Reap(0),
    Call::Retire,
];

/// Each wait, and each call that ends it.
const WAKINGS: [Waking; 13] = [
    (
        2,
        0,
        Sleep::Reserve,
        &[Call::DeleteSq],
        Err(Some(Refusal::Deleting)),
    ),
    (
        2,
        0,
        Sleep::Reserve,
        &[Call::Reset],
        Err(Some(Refusal::NoQueue)),
    ),
    (2, 0, Sleep::Reserve, &[Call::Stop], NO_PAGES),
    (0, 0, Sleep::Collect, &REAPED, DONE),
    (0, 0, Sleep::Collect, &[Call::Forge, Call::Reap(1)], DONE),
    (0, 0, Sleep::Collect, &[Call::Reset], LOST),
    (0, 0, Sleep::Collect, &RETIRED, LOST),
    (
        0,
        0,
        Sleep::Collect,
        &[Call::Stop],
        Err(Some(Refusal::NotYet)),
    ),
    (0, 1, Sleep::Reap, &SERVED, DONE),
    (0, 1, Sleep::Reap, &[Call::Forge], DONE),
    (0, 0, Sleep::Reap, &[Call::Stop], IDLE),
    (0, 0, Sleep::Serve, &[Call::DeleteSq, Call::Ring(0)], DONE),
    (0, 0, Sleep::Serve, &[Call::Stop], IDLE),
];

/// Waits, and answers what it is woken to.
fn slept<R: Abort + Wait>(rt: &R, alloc: Global, shared: &Shared<World>, sleep: Sleep) -> Woken {
    match sleep {
        Sleep::Reserve => match shared.reserve_when_free(rt, 1, read_of(rt, alloc, 3)) {
            Ok(draft) => {
                cancelled(rt, shared, draft);
                DONE
            }
            Err(refused) => Err(Some(refused.why)),
        },
        Sleep::Collect => {
            let ticket = submitted(rt, alloc, shared, 1);
            match shared.collect_when_ended(rt, ticket) {
                Ok(finished) => Ok(finished.apart().status),
                Err(refused) => {
                    drop(refused.value.apart());
                    Err(Some(refused.why))
                }
            }
        }
        Sleep::Reap => match shared.reap_next(rt) {
            Some((1, Ok(Reaped::Done { .. }))) => DONE,
            _ => IDLE,
        },
        Sleep::Serve => match shared.serve_next(rt) {
            Some(
                ServedStep::Fetch {
                    q: 0,
                    answer: Ok(_),
                },
            ) => DONE,
            _ => IDLE,
        },
    }
}

/// Makes a call of the world that is locked. Whether it was accepted.
fn is_accepted<R: Wait>(rt: &R, shared: &Shared<World>, call: Call) -> bool {
    let mut locked = shared.lock(rt);
    let world = &mut locked.machine;
    let (accepted, changes) = match call {
        Call::Walk => (world.walk(1, 0).is_ok(), Changes::NONE),
        Call::Complete(q) => (world.complete(q, 0).is_ok(), Changes::NONE),
        Call::DeleteSq => (world.delete_sq(1).is_ok(), Changes::ROOM),
        Call::Retire => (world.retire(1).is_ok(), Changes::ALL),
        Call::Forge => {
            let bytes = [0, 0, 0, 0, 0, 0, 0, 0, 1, 0, 1, 0, 0, 0, 1, 0];
            (world.forge(1, 0, bytes).is_ok(), Changes::NONE)
        }
        _ => (false, Changes::NONE),
    };
    shared.leave(locked, changes);
    accepted
}

/// Makes a call. Whether it was accepted.
fn is_made<R: Wait>(rt: &R, shared: &Shared<World>, call: Call) -> bool {
    match call {
        Call::Ring(q) => calls::ring(shared, rt, q).is_ok(),
        Call::Fetch(q) => calls::fetch(shared, rt, q).is_ok(),
        Call::Reap(q) => calls::reap(shared, rt, q).is_ok(),
        Call::Reset => {
            calls::reset(shared, rt);
            true
        }
        Call::Stop => {
            shared.stop(rt);
            shared.stopping(rt)
        }
        other => is_accepted(rt, shared, other),
    }
}

/// Sees that a thread sleeps until the last call is made, and what it is woken to.
fn see_woken<R: Abort + Clock + Threads + Wait + Sync>(
    rt: &R,
    alloc: Global,
    (drafts, rung, sleep, calls, woken): Waking,
) {
    let shared = opened(rt, alloc);
    for _ in 0..drafts {
        let draft = done(rt, shared.reserve_when_free(rt, 1, read_of(rt, alloc, 3)));
        drop(draft.apart());
    }
    for _ in 0..rung {
        drop(submitted(rt, alloc, &shared, 1).apart());
    }
    thread::scope(thread::scope_env(), rt, |scope| {
        let Ok(sleeper) = scope.spawn(|| slept(rt, alloc, &shared, sleep)) else {
            panic!(rt; "no thread was made");
        };
        for call in calls {
            let_sleep(rt);
            assert!(rt; is_made(rt, &shared, *call));
        }
        see(rt, &sleeper.join(rt), &woken);
    });
    let _ended = shared.end().end();
}

#[test]
fn each_call_wakes_who_waits_for_it(rt: HostRuntime) {
    for waking in WAKINGS {
        see_woken(&rt, rt.alloc(), waking);
    }
}
