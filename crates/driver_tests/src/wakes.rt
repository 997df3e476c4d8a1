//! A submitter that waits is woken by each call that ends what it waits for.

ghost use Rattle.std.specs.Prelude.{◌≡◌};
ghost use Rattle.step_core.specs.Opening.{opening_of};

use crate::looks::{comes, let_sleep, see};
use crate::part::{USUAL, opened, play_text};
use block_image::Image;
use driver_book::{BlankBook, Full, FullLogBrand, LogBrand};
use driver_threads::{Gate, GateClosed, Job, JobEnd, JobRefusal, Point, Shared, poller, submitter};
use entry_codec::Status;
use io_commands::Kind;
use session_scripts::desk::runs::{is_done, job};
use session_scripts::desk::values::draft_of;
use session_scripts::desk::{Access, Desk, Value};
use std::alloc::Global;
use std::marker::Brand;
use std::process::Abort;
use std::sync::Wait;
use std::sync::atomic::{AtomicBool, Ordering};
use std::thread;
use std::thread::Threads;
use std::time::Clock;
use step_core::Config;

/// A call that is made while a submitter sleeps. Each number is that of a queue, and each command has identifier 0.
#[derive(Clone, Copy)]
enum Call {
    /// Of a draft of queue 1.
    Cancel,
    /// Of entries that are unfetched.
    Ring(u16),
    /// Of the next entry.
    Fetch(u16),
    /// Of one unit.
    Walk(u16),
    /// Of the command.
    Complete(u16),
    /// Of the next completion.
    Reap(u16),
    /// Of a queue that is live.
    DeleteSq(u16),
    /// Of a queue that is gone.
    CreateCq(u16),
    /// Of a queue that is half made.
    CreateSq(u16),
    /// Of a queue that is deleted.
    Retire(u16),
    /// Of these bytes, into slot 0 of queue 1.
    Forge([u8; 16]),
    /// Of the controller.
    Reset,
    /// Of the workers, which are told so.
    Stop,
}

/// How a job ends.
#[derive(Clone, Copy)]
enum End {
    /// It is a Read of one block of zeros, with this status.
    Read(Status),
    /// It is refused.
    Refused(JobRefusal),
}

/// A submitter that sleeps, and the calls, the last of which ends what it waits for. All of its jobs are on queue 1.
#[derive(Clone, Copy)]
struct Waking {
    /// What wakes whom.
    name: &'static str,
    /// What is played at the desk before the submitter comes.
    before: &'static [&'static str],
    /// The kind of each job, its blocks, and the bytes that it brings.
    jobs: &'static [(Kind, u32, &'static [u8])],
    /// Whether it submits a command before it sleeps.
    submits: bool,
    /// Whether a poller sleeps too.
    polls: bool,
    /// The calls.
    calls: &'static [Call],
    /// How each job ends.
    ends: &'static [End],
    /// How many entries the log has then; no wait made one.
    entries: usize,
}

/// 16 pages, of which queues 0, 1 and 2 own six, and three identifiers a queue.
const TWO_QUEUES: Config = Config { queues: 2, ..USUAL };

/// How often each wait is tried. In a single try a thread might not sleep yet as the last call is made.
const ROUNDS: u32 = 3;

/// How far the submitter has come.
#[derive(Drop)]
struct Progress {
    submitted: AtomicBool,
    back: AtomicBool,
}

impl Gate for Progress {
    fn at(&self, _worker: u16, point: Point) -> Result<(), GateClosed> {
        if point == Point::Submitted {
            self.submitted.store(true, Ordering::SeqCst);
        }
        Ok(())
    }
}

/// It waits for the end of its Read. Its next job finds no queue.
const COMMAND_ENDS: Waking = Waking {
    name: "a reset, for a command",
    before: &[],
    jobs: &[(Kind::Read, 1, &[]), (Kind::Read, 1, &[])],
    submits: true,
    polls: false,
    calls: &[Call::Reset],
    ends: &[
        End::Read(Status::ABORTED_SQ_DELETION),
        End::Refused(JobRefusal::NoQueue),
    ],
    entries: 6,
};

/// Drafts have all three identifiers of queue 1.
const NO_IDENTIFIER: &str = "reserve 1 read 0 1 0+512
> reserve q 1 cid 0 data 1 chain 0
reserve 1 read 0 1 0+512
> reserve q 1 cid 1 data 1 chain 0
reserve 1 read 0 1 0+512
> reserve q 1 cid 2 data 1 chain 0
> counts free 7 queue 6 chain 0 data 3
";

/// It waits for an identifier. There is no queue any more then, nor one for its next job.
const QUEUE_GOES: Waking = Waking {
    name: "a reset, for an identifier",
    before: &[NO_IDENTIFIER],
    jobs: &[(Kind::Read, 1, &[]), (Kind::Read, 1, &[])],
    submits: false,
    polls: false,
    calls: &[Call::Reset],
    ends: &[
        End::Refused(JobRefusal::NoQueue),
        End::Refused(JobRefusal::NoQueue),
    ],
    entries: 4,
};

/// It waits for an identifier, and its queue is going to be deleted.
const QUEUE_IS_DELETED: Waking = Waking {
    name: "a deletion, for an identifier",
    before: &[NO_IDENTIFIER],
    jobs: &[(Kind::Read, 1, &[])],
    submits: false,
    polls: false,
    calls: &[Call::DeleteSq(1)],
    ends: &[End::Refused(JobRefusal::QueueGone)],
    entries: 4,
};

/// It waits for the end of its Read, which is never fetched: its queue is deleted.
const QUEUE_RETIRES: Waking = Waking {
    name: "a retirement, for a command",
    before: &[],
    jobs: &[(Kind::Read, 1, &[])],
    submits: true,
    polls: false,
    calls: &[
        Call::DeleteSq(1),
        Call::Ring(0),
        Call::Fetch(0),
        Call::Complete(0),
        Call::Reap(0),
        Call::Retire(1),
    ],
    ends: &[End::Read(Status::ABORTED_SQ_DELETION)],
    entries: 11,
};

/// It waits for the end of its Read, which is served and reaped.
const COMMAND_IS_REAPED: Waking = Waking {
    name: "a reap, for a command",
    before: &[],
    jobs: &[(Kind::Read, 1, &[])],
    submits: true,
    polls: false,
    calls: &[
        Call::Ring(1),
        Call::Fetch(1),
        Call::Walk(1),
        Call::Walk(1),
        Call::Complete(1),
        Call::Reap(1),
    ],
    ends: &[End::Read(Status::SUCCESS)],
    entries: 11,
};

/// It waits for the end of its Read, and the poller for a completion.
const COMMAND_COMPLETES: Waking = Waking {
    name: "a completion, the poller",
    before: &[],
    jobs: &[(Kind::Read, 1, &[])],
    submits: true,
    polls: true,
    calls: &[
        Call::Ring(1),
        Call::Fetch(1),
        Call::Walk(1),
        Call::Walk(1),
        Call::Complete(1),
    ],
    ends: &[End::Read(Status::SUCCESS)],
    entries: 11,
};

/// It waits for the end of its Read, and the poller for a completion, which is forged: that of identifier 0, with SQ head 1 and status 0:00.
const COMPLETION_IS_FORGED: Waking = Waking {
    name: "a forged completion, the poller",
    before: &[],
    jobs: &[(Kind::Read, 1, &[])],
    submits: true,
    polls: true,
    calls: &[Call::Forge([0, 0, 0, 0, 0, 0, 0, 0, 1, 0, 1, 0, 0, 0, 1, 0])],
    ends: &[End::Read(Status::SUCCESS)],
    entries: 7,
};

/// The controller has a command with identifier 0 of queue 1 that the host was told of as ended, by a forged completion in place of that of
/// identifier 1.
const FORGED_END: &str = "reserve 1 read 0 1 0+512
> reserve q 1 cid 0 data 1 chain 0
build 1 0
> build ok
submit 1 0
> submit ok
ring 1
> ring ok
fetch 1
> fetch cid 0 touched 2
reserve 1 read 0 1 0+512
> reserve q 1 cid 1 data 1 chain 0
build 1 1
> build ok
submit 1 1
> submit ok
ring 1
> ring ok
fetch 1
> fetch cid 1 touched 2
walk 1 1
> walk more touched -
walk 1 1
> walk end touched 7
complete 1 1
> complete ok touched 3
forge 1 0 00000000000000000200010000000100
> forge ok
reap 1
> reap done cid 0 status 0:00
collect 1 0
> collect status 0:00
release 1 0
> release ok
> counts free 9 queue 6 chain 0 data 1
";

/// It waits for the end of its Read, whose identifier is that of the command which the controller still has: the fetch itself posts that. The
/// poller waits for a completion.
const IDENTIFIER_CONFLICTS: Waking = Waking {
    name: "a fetch, the poller",
    before: &[FORGED_END],
    jobs: &[(Kind::Read, 1, &[])],
    submits: true,
    polls: true,
    calls: &[Call::Ring(1), Call::Fetch(1)],
    ends: &[End::Read(Status::COMMAND_ID_CONFLICT)],
    entries: 23,
};

/// It waits for a page, as a draft has all ten. It gets its own draft then, and ends of itself, since it brings a byte too many.
const PAGES_COME_BACK: Waking = Waking {
    name: "a cancellation, for pages",
    before: &[
        "reserve 1 read 0 9 0+512 0+512 0+512 0+512 0+512 0+512 0+512 0+512 0+512
> reserve q 1 cid 0 data 9 chain 1
> counts free 0 queue 6 chain 1 data 9
",
    ],
    jobs: &[(Kind::Write, 1, &[0; 513])],
    submits: false,
    polls: false,
    calls: &[Call::Cancel],
    ends: &[End::Refused(JobRefusal::WrongLength)],
    entries: 4,
};

/// A draft has one page.
const ONE_PAGE: &str = "reserve 1 read 0 1 0+512
> reserve q 1 cid 0 data 1 chain 0
> counts free 9 queue 6 chain 0 data 1
";

/// Queue 2 is deleted. Then there are twelve pages that no queue owns.
const QUEUE_2_DELETED: &str = "delete_sq 2
> delete_sq cid 0
ring 0
> ring ok
fetch 0
> fetch cid 0 touched 0
complete 0 0
> complete ok touched 1
reap 0
> reap admin cid 0 status 0:00 dw0 0
retire 2
> retire ok
delete_cq 2
> delete_cq cid 0
ring 0
> ring ok
fetch 0
> fetch cid 0 touched 0
complete 0 0
> complete ok touched 1
reap 0
> reap admin cid 0 status 0:00 dw0 0
> counts free 11 queue 4 chain 0 data 1
";

/// Its completion half is made again, of one of them.
const QUEUE_2_HALF_MADE: &str = "create_cq 2
> create_cq cid 0
ring 0
> ring ok
fetch 0
> fetch cid 0 touched 0
complete 0 0
> complete ok touched 1
reap 0
> reap admin cid 0 status 0:00 dw0 0
> counts free 10 queue 5 chain 0 data 1
";

/// It waits for all twelve pages that no queue owns, of which a draft has one. They are eleven then.
const COMPLETION_HALF_COMES: Waking = Waking {
    name: "a completion half, for pages",
    before: &[ONE_PAGE, QUEUE_2_DELETED],
    jobs: &[(Kind::Read, 11, &[])],
    submits: false,
    polls: false,
    calls: &[Call::CreateCq(2)],
    ends: &[End::Refused(JobRefusal::NoPages { need: 12, pool: 11 })],
    entries: 13,
};

/// It waits for all eleven pages that no queue owns, of which a draft has one. They are ten then.
const SUBMISSION_HALF_COMES: Waking = Waking {
    name: "a submission half, for pages",
    before: &[ONE_PAGE, QUEUE_2_DELETED, QUEUE_2_HALF_MADE],
    jobs: &[(Kind::Read, 10, &[])],
    submits: false,
    polls: false,
    calls: &[Call::CreateSq(2)],
    ends: &[End::Refused(JobRefusal::NoPages { need: 11, pool: 10 })],
    entries: 18,
};

/// It waits for the end of its Read, which never comes: it is told to stop.
const COMMAND_IS_CUT_OFF: Waking = Waking {
    name: "a stop, for a command",
    before: &[],
    jobs: &[(Kind::Read, 1, &[])],
    submits: true,
    polls: false,
    calls: &[Call::Stop],
    ends: &[],
    entries: 3,
};

/// It waits for an identifier, which never comes: it is told to stop.
const REQUEST_IS_CUT_OFF: Waking = Waking {
    name: "a stop, for an identifier",
    before: &[NO_IDENTIFIER],
    jobs: &[(Kind::Read, 1, &[])],
    submits: false,
    polls: false,
    calls: &[Call::Stop],
    ends: &[],
    entries: 3,
};

/// Each of them.
const WAKINGS: [Waking; 13] = [
    COMMAND_ENDS,
    QUEUE_GOES,
    QUEUE_IS_DELETED,
    QUEUE_RETIRES,
    COMMAND_IS_REAPED,
    COMMAND_COMPLETES,
    COMPLETION_IS_FORGED,
    IDENTIFIER_CONFLICTS,
    PAGES_COME_BACK,
    COMPLETION_HALF_COMES,
    SUBMISSION_HALF_COMES,
    COMMAND_IS_CUT_OFF,
    REQUEST_IS_CUT_OFF,
];

/// Whether a job came to this end.
fn is_end(end: &JobEnd, want: &End) -> bool {
    match want {
        End::Read(status) => is_done(end, *status, &[0; 512]),
        End::Refused(why) => matches!(end, JobEnd::Refused(told) if told == why),
    }
}

/// Cancels the draft with identifier 0 of queue 1. Whether it was accepted.
fn is_cancelled<L: FullLogBrand, R: Wait>(
    rt: &R,
    shared: &Shared<L>,
    values: &mut Vec<Value>,
) -> bool {
    let Some(draft) = draft_of(values, 1, 0) else {
        return false;
    };
    match shared.cancel(rt, draft) {
        Ok(()) => true,
        Err(refused) => {
            drop(refused.value.apart());
            false
        }
    }
}

/// Makes a call. Whether it was accepted.
fn is_accepted<L: FullLogBrand, R: Wait>(
    rt: &R,
    shared: &Shared<L>,
    values: &mut Vec<Value>,
    call: Call,
) -> bool {
    match call {
        Call::Cancel => is_cancelled(rt, shared, values),
        Call::Ring(q) => shared.ring(rt, q).is_ok(),
        Call::Fetch(q) => shared.fetch(rt, q).is_ok(),
        Call::Walk(q) => shared.walk(rt, q, 0).is_ok(),
        Call::Complete(q) => shared.complete(rt, q, 0).is_ok(),
        Call::Reap(q) => shared.reap(rt, q).is_ok(),
        Call::DeleteSq(q) => shared.delete_sq(rt, q).is_ok(),
        Call::CreateCq(q) => shared.create_cq(rt, q, None).is_ok(),
        Call::CreateSq(q) => shared.create_sq(rt, q).is_ok(),
        Call::Retire(q) => shared.retire(rt, q).is_ok(),
        Call::Forge(bytes) => shared.forge(rt, 1, 0, bytes).is_ok(),
        Call::Reset => shared.reset(rt).is_ok(),
        Call::Stop => {
            shared.stop(rt);
            shared.stopping(rt)
        }
    }
}

/// The jobs of a submitter.
fn jobs_of<R: Abort>(rt: &R, alloc: Global, waking: &Waking) -> Vec<Job> {
    let mut jobs = Vec::new(alloc);
    for (kind, blocks, bytes) in waking.jobs {
        let job = job(alloc, 1, *kind, 0, *blocks, bytes).expect(rt, "memory");
        assert!(rt; jobs.push(job).is_ok());
    }
    jobs
}

/// Runs a submitter, and a poller where one is wanted, in threads of their own, makes each call once they sleep, and answers how the jobs ended.
fn woken<L: FullLogBrand + Send + Sync, R: Abort + Threads + Wait + Clock + Sync>(
    rt: &R,
    shared: &Shared<L>,
    values: &mut Vec<Value>,
    jobs: Vec<Job>,
    alloc: Global,
    waking: &Waking,
) -> Vec<JobEnd> {
    let progress = Progress {
        submitted: AtomicBool::new(false),
        back: AtomicBool::new(false),
    };
    let told = &progress;
    let polls = waking.polls;
    thread::scope(thread::scope_env(), rt, |scope| {
        let Ok(polls) = scope.spawn(move || !polls || poller(rt, shared).is_ok()) else {
            panic!(rt; "no thread was made");
        };
        let Ok(submits) = scope.spawn(move || {
            let worked = submitter(rt, alloc, shared, told, 0, jobs, 1);
            told.back.store(true, Ordering::SeqCst);
            worked.ends
        }) else {
            panic!(rt; "no thread was made");
        };
        assert!(rt;
            !waking.submits || comes(rt, &told.submitted),
            "{}",
            waking.name
        );
        for call in waking.calls {
            let_sleep(rt);
            assert!(rt; is_accepted(rt, shared, values, *call), "{}", waking.name);
        }
        assert!(rt; comes(rt, &told.back), "{}", waking.name);
        shared.stop(rt);
        assert!(rt; polls.join(rt), "{}", waking.name);
        submits.join(rt)
    })
}

/// A submitter waits, over a new book, and is woken.
fn wake<L: LogBrand + Send + Sync, R: Abort + Threads + Wait + Clock + Sync>(
    rt: &R,
    alloc: Global,
    config: Config,
    image: Image,
    blank: BlankBook,
    waking: &Waking,
)
    requires name { blank.ledger.name ≡ L.name }
    requires parts { blank.ledger.parts ≡ L.parts }
    requires number { blank.ledger.parts ≡ 65536 }
    requires list { blank.drafts.name ≡ L.list }
    requires opening { L.opening ≡ opening_of config image }
{
    let shared = Shared::new(opened::<Full<L>, Global, R>(rt, alloc, config, image, blank));
    let mut desk = Desk::new(rt, alloc, alloc, Access::Lock(shared));
    assert!(rt; desk.sit() == Ok(true));
    for text in waking.before {
        play_text(rt, &mut desk, text);
    }
    let lent = &mut desk;
    let Access::Lock(shared) = &lent.access else {
        panic!(rt; "there is no lock");
    };
    let jobs = jobs_of(rt, alloc, waking);
    let ends = woken(rt, shared, &mut lent.values, jobs, alloc, waking);
    see(rt, &ends.len(), &waking.ends.len());
    for (end, want) in ends.iter().zip(waking.ends) {
        assert!(rt; is_end(end, want), "{}", waking.name);
    }
    see(rt, &desk.end(), &waking.entries);
}

/// Each wakes its submitter, as often as it is tried.
#[test]
fn each_call_wakes_who_waits_for_it(rt: HostRuntime) {
    for waking in &WAKINGS {
        for _ in 0..ROUNDS {
            let image = Image::zeroed(rt.alloc(), 64).expect(&rt, "an image");
            wake::<Brand, HostRuntime>(
                &rt,
                rt.alloc(),
                TWO_QUEUES,
                image,
                BlankBook::new(),
                waking,
            );
        }
    }
}
