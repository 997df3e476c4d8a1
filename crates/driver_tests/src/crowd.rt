//! Runs of threads: submitters with several jobs in flight, with refused jobs between, and over a pool so small that they wait; and gates, at
//! which two submitters meet, or which are closed.

use crate::jobs::{Asked, READ, Wanted, lists_of, see_ends};
use crate::looks::{counts, see};
use crate::part::{SMALL, USUAL};
use driver_threads::{Gate, GateClosed, JobRefusal, Point, RunFault, Server};
use entry_codec::Status;
use io_commands::Kind;
use session_scripts::desk::runs::{RunEnd, play, play_at};
use session_scripts::desk::two_submitters::{
    ON_ONE_QUEUE, is_as_wanted, two_lists, writes_and_reads,
};
use std::alloc::Global;
use std::process::Abort;
use std::sync::Wait;
use std::sync::atomic::{AtomicBool, AtomicU32, Ordering};
use std::thread;
use std::thread::Threads;
use step_core::Config;

/// One that is refused as it is reserved.
const NO_QUEUE: Asked = Asked {
    q: 2,
    end: Wanted::Refused(JobRefusal::NoQueue),
    entries: 0,
    ..READ
};

/// A Read of two blocks.
const READ_TWO: Asked = Asked {
    blocks: 2,
    end: Wanted::Done(Status::SUCCESS, 1_024),
    entries: 8 + 5,
    ..READ
};

/// A Write of a block that nobody reads.
const WRITE: Asked = Asked {
    kind: Kind::Write,
    slba: 40,
    byte: 1,
    brings: 1,
    end: Wanted::Done(Status::SUCCESS, 0),
    ..READ
};

/// A Compare of a block with zeros.
const COMPARE: Asked = Asked {
    kind: Kind::Compare,
    slba: 1,
    brings: 512,
    end: Wanted::Done(Status::SUCCESS, 0),
    ..READ
};

/// Reads and Compares of zeros and Writes that nobody reads. Those that are refused are so at their reservation, and as they are filled.
const MIXED: [Asked; 12] = [
    READ,
    READ_TWO,
    Asked {
        byte: 7,
        end: Wanted::Done(Status::COMPARE_FAILURE, 0),
        ..COMPARE
    },
    NO_QUEUE,
    Asked {
        blocks: 3,
        end: Wanted::Done(Status::SUCCESS, 1_536),
        entries: 8 + 7,
        ..READ
    },
    WRITE,
    Asked {
        brings: 513,
        end: Wanted::Refused(JobRefusal::WrongLength),
        entries: 2,
        ..WRITE
    },
    READ,
    COMPARE,
    READ_TWO,
    NO_QUEUE,
    NO_QUEUE,
];

/// A Write of three blocks that no other submitter has.
const WRITE_OWN: Asked = Asked {
    q: 1,
    kind: Kind::Write,
    slba: 0,
    apart: 3,
    blocks: 3,
    byte: 0,
    brings: 1_536,
    end: Wanted::Done(Status::SUCCESS, 0),
    entries: 8 + 7,
};

/// That Write, a Read of what it wrote, a Compare that finds it equal, and one that does not.
const WRITTEN: [Asked; 4] = [
    WRITE_OWN,
    Asked {
        kind: Kind::Read,
        brings: 0,
        end: Wanted::Done(Status::SUCCESS, 1_536),
        ..WRITE_OWN
    },
    Asked {
        kind: Kind::Compare,
        ..WRITE_OWN
    },
    Asked {
        kind: Kind::Compare,
        byte: 1,
        end: Wanted::Done(Status::COMPARE_FAILURE, 0),
        ..WRITE_OWN
    },
];

/// Submitters that do jobs this many times, each with at most this many in flight.
#[derive(Clone, Copy)]
struct Run {
    config: Config,
    submitters: u8,
    rounds: u8,
    depth: usize,
    asked: &'static [Asked],
}

/// One submitter, which has as many in flight as it may.
const ALONE: Run = Run {
    config: USUAL,
    submitters: 1,
    rounds: 4,
    depth: 1,
    asked: &MIXED,
};

const RUNS: [Run; 8] = [
    ALONE,
    Run { depth: 2, ..ALONE },
    Run { depth: 3, ..ALONE },
    Run { depth: 4, ..ALONE },
    Run { depth: 16, ..ALONE },
    Run {
        depth: 256,
        ..ALONE
    },
    Run {
        config: SMALL,
        submitters: 8,
        rounds: 10,
        depth: 4,
        asked: &MIXED,
    },
    Run {
        config: SMALL,
        submitters: 16,
        rounds: 5,
        depth: 16,
        asked: &MIXED,
    },
];

/// Submitters that wait for pages and for identifiers, each with blocks of its own.
const CROWD: Run = Run {
    config: SMALL,
    submitters: 16,
    rounds: 50,
    depth: 1,
    asked: &WRITTEN,
};

/// Counts how many commands of one submitter are in flight, and how many were at most.
#[derive(Drop)]
struct Counting {
    now: AtomicU32,
    most: AtomicU32,
}

impl Gate for Counting {
    fn at(&self, _worker: u16, point: Point) -> Result<(), GateClosed> {
        match point {
            Point::Reserved => {}
            Point::Submitted => {
                let now = self.now.fetch_add(1, Ordering::SeqCst).saturating_add(1);
                self.most.fetch_max(now, Ordering::SeqCst);
            }
            Point::Released => {
                self.now.fetch_sub(1, Ordering::SeqCst);
            }
        }
        Ok(())
    }
}

/// Sees what a run must leave, whatever the schedule. Waiting leaves no entry.
fn see_left<R: Abort>(rt: &R, outcome: &RunEnd, run: &Run) {
    see_ends(
        rt,
        outcome.jobs.as_slice(),
        run.asked,
        run.submitters,
        run.rounds,
    );
    let (mut commands, mut entries): (usize, usize) = (0, 0);
    for one in run.asked {
        let is_command = matches!(one.end, Wanted::Done(..));
        commands = commands.saturating_add(is_command.into());
        entries = entries.saturating_add(one.entries);
    }
    let times = usize::from(run.submitters).saturating_mul(run.rounds.into());
    let submissions = times.saturating_mul(commands) as u64;
    see(rt, &outcome.report.submissions, &submissions);
    see(rt, &outcome.entries, &times.saturating_mul(entries));
    see(rt, &outcome.refusals, &0);
    let free = run.config.pages.saturating_sub(4);
    see(rt, &outcome.report.counts, &counts(free, 4));
}

/// Does a run, where this one serves. A submitter alone has as many commands in flight as it may, and three at most, since there are no more identifiers.
fn see_run<R: Abort + Threads + Wait + Sync>(rt: &R, alloc: Global, run: &Run, server: Server) {
    let lists = lists_of(alloc, run.asked, run.submitters, run.rounds).expect(rt, "memory");
    assert!(rt; !lists.is_empty() && lists.len() <= 16);
    let depth = run.depth;
    assert!(rt; 1 <= depth && depth <= 256);
    let gate = Counting {
        now: AtomicU32::new(0),
        most: AtomicU32::new(0),
    };
    match play_at(rt, alloc, run.config, 64, lists, depth, server, &gate) {
        Ok(outcome) => see_left(rt, &outcome, run),
        Err(fault) => panic!(rt; "{fault}"),
    }
    if run.submitters == 1 {
        see(
            rt,
            &gate.most.load(Ordering::SeqCst),
            &(depth.min(3) as u32),
        );
    }
}

#[test]
fn submitters_with_jobs_in_flight(rt: HostRuntime) {
    for run in &RUNS {
        see_run(&rt, rt.alloc(), run, Server::Ringer);
        see_run(&rt, rt.alloc(), run, Server::Controller);
    }
}

#[test]
fn sixteen_submitters_wait_for_pages_and_identifiers(rt: HostRuntime) {
    see_run(&rt, rt.alloc(), &CROWD, Server::Ringer);
}

/// Holds the first job of each of two submitters at a point until the other is there.
#[derive(Drop)]
struct Meeting {
    point: Point,
    first: AtomicBool,
    second: AtomicBool,
}

impl Gate for Meeting {
    fn at(&self, worker: u16, point: Point) -> Result<(), GateClosed> {
        let (mine, other) = if worker == 0 {
            (&self.first, &self.second)
        } else {
            (&self.second, &self.first)
        };
        if point != self.point || mine.swap(true, Ordering::SeqCst) {
            return Ok(());
        }
        for _ in 0..10_000_000u32 {
            if other.load(Ordering::SeqCst) {
                return Ok(());
            }
            thread::yield_now();
        }
        Err(GateClosed)
    }
}

#[test]
fn two_submitters_meet(rt: HostRuntime) {
    let alloc = rt.alloc();
    for point in [Point::Reserved, Point::Submitted] {
        let gate = Meeting {
            point,
            first: AtomicBool::new(false),
            second: AtomicBool::new(false),
        };
        let lists = two_lists(alloc, ON_ONE_QUEUE).expect(&rt, "memory");
        match play(&rt, alloc, USUAL, 64, lists, &gate) {
            Ok(outcome) => assert!(&rt; is_as_wanted(&outcome)),
            Err(fault) => panic!(&rt; "{fault}"),
        }
    }
}

/// A gate that is closed to all workers but the first.
struct Closed;

impl Gate for Closed {
    fn at(&self, worker: u16, point: Point) -> Result<(), GateClosed> {
        if worker > 0 && point == Point::Released {
            Err(GateClosed)
        } else {
            Ok(())
        }
    }
}

#[test]
fn the_first_closed_gate_is_told(rt: HostRuntime) {
    let alloc = rt.alloc();
    let mut lists = two_lists(alloc, ON_ONE_QUEUE).expect(&rt, "memory");
    let third = writes_and_reads(alloc, 1, 16, 0).expect(&rt, "memory");
    assert!(&rt; lists.push(third).is_ok() && lists.len() == 3);
    match play(&rt, alloc, USUAL, 64, lists, &Closed) {
        Ok(_) => panic!(&rt; "it ended well"),
        Err(fault) => see(&rt, &fault, &RunFault::GateClosed { worker: 1 }),
    }
}
