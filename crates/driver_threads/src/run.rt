//! Runs of threads, over a new world or an existing one, and what they leave.

ghost use Rattle.std.specs.Prelude.{◌≡◌, ◌≤◌, ◌++◌, [], Some, map, length, vec_capacity, vec_len, IfOk, IfErr, IfSome};
ghost use Rattle.std.specs.Bool.{OnTrue};
ghost use Rattle.std.specs.List.{AllZip};
ghost use Rattle.driver_book.specs.Laws.{IsTrustedLog};
ghost use Rattle.driver_book.specs.State.{AreOfJobs};
ghost use Rattle.driver_threads.specs.Ends.{Agree, AllAgree, ends_of, statuses_of};
ghost use Rattle.driver_threads.specs.JobSteps.{HoldsOfEach};
ghost use Rattle.driver_threads.specs.Jobs.{AllWentBy, WentBy};
ghost use Rattle.driver_threads.specs.Runs.{EndsRound, IsAfterOpening, RanFrom, RefusesRun};
ghost use Rattle.step_core.specs.Opening.{opening_of};

use crate::book_lock::Shared;
use crate::data::Data;
use crate::gate::Gate;
use crate::jobs::{Job, JobEnd, JobEnds, Ran, Round, RunFault};
use crate::serving::Server;
use crate::workers::{Worked, controller, poller, submitter};
use block_image::Image;
use driver_book::{BlankBook, Book, CloseFault, ClosedLog, LogBrand, Seat};
use io_commands::Request;
use std::alloc::{AllocError, Allocator};
use std::snapshot::Snapshot;
use std::sync::Wait;
use std::thread;
use std::thread::{JoinHandle, Promise, PromisedHandle, Scope, Threads};
use step_core::{Config, OpenRefusal, World};

/// Why a run failed whose book was opened.
#[derive(Clone, Copy)]
enum Failure {
    NoThread,
    GateClosed { worker: u16 },
    Close(CloseFault),
    Memory,
}

/// The fault that a failure is.
fn fault_of(failure: Failure) -> RunFault
    ensures { IsAfterOpening result }
{
    match failure {
        Failure::NoThread => RunFault::NoThread,
        Failure::GateClosed { worker } => RunFault::GateClosed { worker },
        Failure::Close(why) => RunFault::Close(why),
        Failure::Memory => RunFault::Memory,
    }
}

/// The jobs of a submitter, each with its end, and its seat.
#[derive(Drop)]
struct Carried<L: LogBrand, A: Allocator, K> {
    seat: Seat<L, A>,
    ends: Vec<JobEnd<K>, A>,
    ghost agree: { Agree seat.receipts ends.items },
}

/// What the thread of a submitter gives back.
#[derive(Drop)]
struct Returned<L: LogBrand, A: Allocator, K> {
    /// What it carried through, or why one of its jobs has no end.
    carried: Result<Carried<L, A, K>, Failure>,
    /// Whether a gate was closed to it.
    closed: bool,
}

/// That what the thread of a submitter carried through are these jobs.
#[derive(Drop)]
struct JobsOf<A: Allocator, D>(Snapshot<Vec<Job<Request<A>, D>, A>>);

impl<L: LogBrand, A: Allocator, K, D: Data<K, A>> Promise<Returned<L, A, K>> for JobsOf<A, D> {
    ghost use Rattle.std.specs.Prelude.{IfOk};
    ghost use Rattle.driver_threads.specs.Jobs.{WentBy};

    ghost kept_by = { λ p r. IfOk r.carried (λ carried. WentBy D.bytes D.keeps L.opening carried.seat.number p.0.value.items carried.seat.receipts carried.ends.items) };
}

/// How long each list is.
fn lengths<T, A: Allocator>(alloc: A, lists: &[Vec<T, A>]) -> Result<Vec<usize, A>, AllocError>
    ensures { IfOk result (λ lengths. lengths.items ≡ map (λ list. length list.items) lists.now) }
{
    lists.iter().map(|list| list.len()).collect(alloc)
}

/// The lists, where each is as long as is told. `None` too where memory is refused.
fn as_long_as<T: Drop, A: Allocator + Copy>(
    alloc: A,
    lists: Vec<Vec<T, A>, A>,
    told: &[usize],
) -> Option<Vec<Vec<T, A>, A>>
    ensures long { IfSome result (λ lists. map (λ list. length list.items) lists.items ≡ told.now) }
    ensures same { IfSome result (λ same. same ≡ lists) }
{
    match lengths(alloc, &lists) {
        Ok(lengths) if lengths.as_slice() == told => Some(lists),
        _ => None,
    }
}

/// What a submitter carried through. A job without an end was cut off or not begun, as memory was refused to a worker.
fn all_carried<L: LogBrand, A: Allocator, K: Drop>(
    seat: Option<Seat<L, A>>,
    ends: Vec<JobEnd<K>, A>,
    jobs: usize,
) -> Result<Carried<L, A, K>, Failure>
    requires { vec_len ends ≡ jobs → IfSome seat (λ seat. Agree seat.receipts ends.items) }
    ensures all { IfOk result (λ carried. vec_len ends ≡ jobs) }
    ensures seat { IfOk result (λ carried. seat ≡ Some carried.seat) }
    ensures ends { IfOk result (λ carried. carried.ends ≡ ends) }
{
    let Some(seat) = seat else {
        return Err(Failure::NoThread);
    };
    if ends.len() == jobs {
        Ok(Carried { seat, ends })
    } else {
        Err(Failure::Memory)
    }
}

/// How many jobs a submitter has in flight at most.
#[derive(Clone, Copy)]
struct Depth {
    jobs: usize,
    ghost at_least_one: { 1 ≤ jobs },
    ghost at_most: { jobs ≤ 256 },
}

/// Which submitter it is, and how deep it goes.
#[derive(Clone, Copy)]
struct Post {
    worker: u16,
    depth: Depth,
}

/// Does the jobs of a submitter.
fn submit_all<L: LogBrand, A: Allocator + Copy, G: Gate, R: Wait, K: Drop, D: Data<K, A> + Drop>(
    rt: &R,
    alloc: A,
    shared: &Shared<L, A>,
    gate: &G,
    post: Post,
    jobs: Vec<Job<Request<A>, D>, A>,
) -> Returned<L, A, K>
    ensures { IfOk result.carried (λ carried. WentBy D.bytes D.keeps L.opening carried.seat.number jobs.items carried.seat.receipts carried.ends.items) }
{
    let Post { worker, depth } = post;
    let many = jobs.len();
    let Worked {
        seat,
        ends,
        closed,
        short: _,
    } = submitter(rt, alloc, shared, gate, worker, jobs, depth.jobs);
    Returned {
        carried: all_carried(seat, ends, many),
        closed,
    }
}

/// A submitter that is still to be joined, and whose jobs these are.
type Submitting<L, A, K, D> = PromisedHandle<Returned<L, A, K>, JobsOf<A, D>>;

/// Joins the submitters, and puts what they give back into a list that has room for it.
fn join_all<L: LogBrand, A: Allocator, R: Threads, K: Drop, D: Data<K, A>>(
    rt: &R,
    submitters: Vec<Submitting<L, A, K, D>, A>,
    room: Vec<Returned<L, A, K>, A>,
) -> Vec<Returned<L, A, K>, A>
    requires room { vec_len submitters ≤ vec_capacity room }
    requires empty { room.items ≡ [] }
    ensures { AllZip (λ handle returned. IfOk returned.carried (λ carried. WentBy D.bytes D.keeps L.opening carried.seat.number handle.promise.0.value.items carried.seat.receipts carried.ends.items)) submitters.items result.items }
{
    let mut workers = room;
    for handle in submitters {
        workers.push_reserved(handle.join(rt));
    }
    workers
}

/// Room for this many submitters, and for what they give back.
fn room_for<L: LogBrand, A: Allocator + Copy, K: Drop, D: Data<K, A>>(
    alloc: A,
    many: usize,
) -> Result<(Vec<Submitting<L, A, K, D>, A>, Vec<Returned<L, A, K>, A>), Failure>
    ensures none { IfOk result (λ lists. (lists.0.items ≡ []) × (lists.1.items ≡ [])) }
    ensures room { IfOk result (λ lists. (many ≤ vec_capacity lists.0) × (many ≤ vec_capacity lists.1)) }
{
    match (
        Vec::with_capacity(alloc, many),
        Vec::with_capacity(alloc, many),
    ) {
        (Ok(submitters), Ok(room)) => Ok((submitters, room)),
        _ => Err(Failure::Memory),
    }
}

/// Starts a submitter that does these jobs. `None` where its thread cannot be made.
fn start<
    's,
    L: LogBrand + Send + Sync,
    A: Allocator + Copy + Send + Sync,
    G: Gate + Sync,
    R: Wait + Sync,
    E,
    K: Drop + Send + 's,
    D: Data<K, A> + Drop + Send + 's,
>(
    scope: &'s Scope<'s, E>,
    rt: &'s R,
    alloc: A,
    shared: &'s Shared<L, A>,
    gate: &'s G,
    post: Post,
    jobs: Vec<Job<Request<A>, D>, A>,
) -> Option<Submitting<L, A, K, D>>
    ensures { IfSome result (λ submitter. submitter.promise.0.value ≡ jobs) }
{
    let promise = JobsOf(Snapshot::of(&jobs));
    match scope.spawn_with(
        promise,
        move || -> Returned<L, A, K>
            ensures { IfOk result.carried (λ carried. WentBy D.bytes D.keeps L.opening carried.seat.number jobs.items carried.seat.receipts carried.ends.items) }
        { submit_all(rt, alloc, shared, gate, post, jobs) },
    ) {
        Ok(submitter) => Some(submitter),
        Err(_) => None,
    }
}

/// Starts a submitter for each list of jobs, and puts them into a list that has room for them.
///
/// # Errors
///
/// Those that were started, where a thread cannot be made.
fn start_all<
    's,
    L: LogBrand + Send + Sync,
    A: Allocator + Copy + Send + Sync,
    G: Gate + Sync,
    R: Wait + Sync,
    E,
    K: Drop + Send + 's,
    D: Data<K, A> + Drop + Send + 's,
>(
    scope: &'s Scope<'s, E>,
    rt: &'s R,
    alloc: A,
    shared: &'s Shared<L, A>,
    gate: &'s G,
    jobs: Vec<Vec<Job<Request<A>, D>, A>, A>,
    depth: Depth,
    room: Vec<Submitting<L, A, K, D>, A>,
) -> Result<Vec<Submitting<L, A, K, D>, A>, Vec<Submitting<L, A, K, D>, A>>
    requires room { vec_len jobs ≤ vec_capacity room }
    requires empty { room.items ≡ [] }
    ensures started { IfOk result (λ started. (later : _) × (map (λ submitter. submitter.promise.0.value.items) started.items ++ later ≡ map (λ list. list.items) jobs.items)) }
    ensures most { IfOk result (λ started. vec_len started ≤ vec_len jobs) }
    ensures few { IfErr result (λ started. vec_len started ≤ vec_len jobs) }
{
    let mut submitters = room;
    for (worker, list) in (0..16u16).zip(jobs) {
        let post = Post { worker, depth };
        let Some(submitter) = start(scope, rt, alloc, shared, gate, post, list) else {
            return Err(submitters);
        };
        submitters.push_reserved(submitter);
    }
    Ok(submitters)
}

/// Starts a submitter for each list of jobs, and joins them.
fn run_submitters<
    L: LogBrand + Send + Sync,
    A: Allocator + Copy + Send + Sync,
    G: Gate + Sync,
    R: Threads + Wait + Sync,
    K: Drop + Send,
    D: Data<K, A> + Drop + Send,
>(
    rt: &R,
    alloc: A,
    shared: &Shared<L, A>,
    gate: &G,
    jobs: Vec<Vec<Job<Request<A>, D>, A>, A>,
    depth: Depth,
) -> Result<Vec<Returned<L, A, K>, A>, Failure>
    ensures { IfOk result (λ workers. HoldsOfEach (λ list returned. IfOk returned.carried (λ carried. WentBy D.bytes D.keeps L.opening carried.seat.number list carried.seat.receipts carried.ends.items)) (map (λ list. list.items) jobs.items) workers.items) }
{
    thread::scope(
        thread::scope_env(),
        rt,
        move |scope| -> Result<Vec<Returned<L, A, K>, A>, Failure>
            ensures { IfOk result (λ workers. HoldsOfEach (λ list returned. IfOk returned.carried (λ carried. WentBy D.bytes D.keeps L.opening carried.seat.number list carried.seat.receipts carried.ends.items)) (map (λ list. list.items) jobs.items) workers.items) }
        {
            let (submitters, room) = room_for(alloc, jobs.len())?;
            match start_all(scope, rt, alloc, shared, gate, jobs, depth, submitters) {
                Ok(started) => Ok(join_all(rt, started, room)),
                Err(started) => {
                    shared.stop(rt);
                    drop(join_all(rt, started, room));
                    Err(Failure::NoThread)
                }
            }
        },
    )
}

/// Runs the submitters beside a poller and a controller.
fn run_workers<
    L: LogBrand + Send + Sync,
    A: Allocator + Copy + Send + Sync,
    G: Gate + Sync,
    R: Threads + Wait + Sync,
    K: Drop + Send,
    D: Data<K, A> + Drop + Send,
>(
    rt: &R,
    alloc: A,
    shared: &Shared<L, A>,
    gate: &G,
    jobs: Vec<Vec<Job<Request<A>, D>, A>, A>,
    depth: Depth,
) -> Result<Vec<Returned<L, A, K>, A>, Failure>
    ensures { IfOk result (λ workers. HoldsOfEach (λ list returned. IfOk returned.carried (λ carried. WentBy D.bytes D.keeps L.opening carried.seat.number list carried.seat.receipts carried.ends.items)) (map (λ list. list.items) jobs.items) workers.items) }
{
    thread::scope(
        thread::scope_env(),
        rt,
        |scope| -> Result<Vec<Returned<L, A, K>, A>, Failure>
            ensures { IfOk result (λ workers. HoldsOfEach (λ list returned. IfOk returned.carried (λ carried. WentBy D.bytes D.keeps L.opening carried.seat.number list carried.seat.receipts carried.ends.items)) (map (λ list. list.items) jobs.items) workers.items) }
        {
            let polls = scope.spawn(move || poller(rt, shared));
            let serves = scope.spawn(move || controller(rt, shared));
            let (Ok(polls), Ok(serves)) = (polls, serves) else {
                shared.stop(rt);
                return Err(Failure::NoThread);
            };
            let workers = run_submitters(rt, alloc, shared, gate, jobs, depth);
            shared.stop(rt);
            match (serves.join(rt), polls.join(rt)) {
                (Ok(()), Ok(())) => workers,
                _ => Err(Failure::Memory),
            }
        },
    )
}

/// The first worker to whom a gate was closed, where none was left out for want of memory.
fn first_closed<L: LogBrand, A: Allocator, K>(workers: &[Returned<L, A, K>]) -> Option<u16> {
    (0..16u16)
        .zip(workers)
        .find(|(_, returned)| returned.closed)
        .map(|(worker, _)| worker)
}

/// What submitters hand in: their seats, and how their jobs ended.
#[derive(Drop)]
struct HandedIn<L: LogBrand, A: Allocator, K> {
    seats: Vec<Seat<L, A>, A>,
    lists: Vec<Vec<JobEnd<K>, A>, A>,
}

/// Takes what the submitters hand in, whose lists of jobs are this long.
fn handed_in<L: LogBrand, A: Allocator + Copy, K: Drop, D: Data<K, A>>(
    alloc: A,
    workers: Vec<Returned<L, A, K>, A>,
    jobs: &[usize],
) -> Result<HandedIn<L, A, K>, Failure>
    ensures long { IfOk result (λ hand. map (λ list. length list.items) hand.lists.items ≡ jobs.now) }
    ensures agree { IfOk result (λ hand. map (λ seat. statuses_of seat.receipts) hand.seats.items ≡ map (λ list. ends_of list.items) hand.lists.items) }
    ensures went { IfOk result (λ hand. (lists : _) → HoldsOfEach (λ list returned. IfOk returned.carried (λ carried. WentBy D.bytes D.keeps L.opening carried.seat.number list carried.seat.receipts carried.ends.items)) lists workers.items → length lists ≡ length jobs.now → AllWentBy D.bytes D.keeps L.opening lists (map (λ seat. seat.receipts) hand.seats.items) (map (λ list. list.items) hand.lists.items)) }
{
    let mut seats = Vec::new(alloc);
    let mut lists = Vec::new(alloc);
    for returned in workers {
        let Carried { seat, ends } = returned.carried?;
        let (Ok(()), Ok(())) = (seats.push(seat), lists.push(ends)) else {
            return Err(Failure::Memory);
        };
    }
    match as_long_as(alloc, lists, jobs) {
        Some(lists) => Ok(HandedIn { seats, lists }),
        None => Err(Failure::Memory),
    }
}

/// The failure of a run whose book was not closed.
fn unclosed(why: CloseFault) -> Failure {
    match why {
        CloseFault::Memory => Failure::Memory,
        why => Failure::Close(why),
    }
}

/// Closes a book with what the submitters handed in.
fn close<L: LogBrand, A: Allocator + Copy, K: Drop>(
    book: Book<L, A>,
    hand: HandedIn<L, A, K>,
) -> Result<Ran<L, A, K>, Failure>
    requires agree { map (λ seat. statuses_of seat.receipts) hand.seats.items ≡ map (λ list. ends_of list.items) hand.lists.items }
    ensures closed { IfOk result (λ ran. RanFrom L.opening ran.report ran.book) }
    ensures ends { IfOk result (λ ran. map length ran.jobs ≡ map (λ list. length list.items) hand.lists.items) }
    ensures receipts { IfOk result (λ ran. ran.report.receipts ≡ map (λ seat. seat.receipts) hand.seats.items) }
    ensures lists { IfOk result (λ ran. ran.jobs ≡ map (λ list. list.items) hand.lists.items) }
    ensures agree { IfOk result (λ ran. AllAgree ran.report.receipts ran.jobs) }
    ensures jobs { IfOk result (λ ran. OnTrue L.jobs_alone (AreOfJobs ran.book.log)) }
{
    prove!({
        book.check();
        true
    });
    let mut book = book;
    let HandedIn { seats, lists } = hand;
    match book.close(seats) {
        Ok(report) => Ok(Ran {
            report,
            jobs: JobEnds::of(lists),
            book,
        }),
        Err(refused) => Err(unclosed(refused.why)),
    }
}

/// Closes a book with what the submitters handed in, and gives its log and its world.
fn carry_on<L: LogBrand, A: Allocator + Copy, K: Drop>(
    book: Book<L, A>,
    hand: HandedIn<L, A, K>,
) -> Result<Round<A, K>, Failure>
    requires agree { map (λ seat. statuses_of seat.receipts) hand.seats.items ≡ map (λ list. ends_of list.items) hand.lists.items }
    ensures ended { IfOk result (λ round. EndsRound L.opening round.log round.report round.world) }
    ensures ends { IfOk result (λ round. map length round.jobs ≡ map (λ list. length list.items) hand.lists.items) }
    ensures receipts { IfOk result (λ round. round.report.receipts ≡ map (λ seat. seat.receipts) hand.seats.items) }
    ensures lists { IfOk result (λ round. round.jobs ≡ map (λ list. list.items) hand.lists.items) }
    ensures agree { IfOk result (λ round. AllAgree round.report.receipts round.jobs) }
    ensures jobs { IfOk result (λ round. OnTrue L.jobs_alone (AreOfJobs round.log.entries)) }
{
    prove!({
        book.check();
        true
    });
    let HandedIn { seats, lists } = hand;
    match book.carry_on(seats) {
        Ok(closed) => {
            let ClosedLog { log, report, world } = closed;
            Ok(Round {
                log,
                report,
                world,
                jobs: JobEnds::of(lists),
            })
        }
        Err(refused) => Err(unclosed(refused.why)),
    }
}

/// Runs submitters, a poller and a controller over a shared book: the book, and what the submitters hand in.
fn work_over<
    L: LogBrand + Send + Sync,
    A: Allocator + Copy + Send + Sync,
    G: Gate + Sync,
    R: Threads + Wait + Sync,
    K: Drop + Send,
    D: Data<K, A> + Drop + Send,
>(
    rt: &R,
    alloc: A,
    shared: Shared<L, A>,
    gate: &G,
    jobs: Vec<Vec<Job<Request<A>, D>, A>, A>,
    depth: Depth,
) -> Result<(Book<L, A>, HandedIn<L, A, K>), Failure>
    ensures long { IfOk result (λ done. map (λ list. length list.items) done.1.lists.items ≡ map (λ list. length list.items) jobs.items) }
    ensures agree { IfOk result (λ done. map (λ seat. statuses_of seat.receipts) done.1.seats.items ≡ map (λ list. ends_of list.items) done.1.lists.items) }
    ensures went { IfOk result (λ done. AllWentBy D.bytes D.keeps L.opening (map (λ list. list.items) jobs.items) (map (λ seat. seat.receipts) done.1.seats.items) (map (λ list. list.items) done.1.lists.items)) }
{
    let Ok(many) = lengths(alloc, &jobs) else {
        return Err(Failure::Memory);
    };
    let workers = run_workers(rt, alloc, &shared, gate, jobs, depth)?;
    if let Some(worker) = first_closed(&workers) {
        return Err(Failure::GateClosed { worker });
    }
    let hand = handed_in::<L, A, K, D>(alloc, workers, &many)?;
    Ok((shared.end(), hand))
}

/// Runs submitters, a poller and a controller over a shared book, and closes it.
fn run_over<
    L: LogBrand + Send + Sync,
    A: Allocator + Copy + Send + Sync,
    G: Gate + Sync,
    R: Threads + Wait + Sync,
    K: Drop + Send,
    D: Data<K, A> + Drop + Send,
>(
    rt: &R,
    alloc: A,
    shared: Shared<L, A>,
    gate: &G,
    jobs: Vec<Vec<Job<Request<A>, D>, A>, A>,
    depth: Depth,
) -> Result<Ran<L, A, K>, Failure>
    ensures closed { IfOk result (λ ran. RanFrom L.opening ran.report ran.book) }
    ensures all_jobs { IfOk result (λ ran. map length ran.jobs ≡ map (λ list. length list.items) jobs.items) }
    ensures agree { IfOk result (λ ran. AllAgree ran.report.receipts ran.jobs) }
    ensures went { IfOk result (λ ran. AllWentBy D.bytes D.keeps L.opening (map (λ list. list.items) jobs.items) ran.report.receipts ran.jobs) }
    ensures jobs { IfOk result (λ ran. OnTrue L.jobs_alone (AreOfJobs ran.book.log)) }
{
    let (book, hand) = work_over(rt, alloc, shared, gate, jobs, depth)?;
    close(book, hand)
}

/// Runs submitters, a poller and a controller over a shared book, closes it, and gives its log and its world.
fn round_over<
    L: LogBrand + Send + Sync,
    A: Allocator + Copy + Send + Sync,
    G: Gate + Sync,
    R: Threads + Wait + Sync,
    K: Drop + Send,
    D: Data<K, A> + Drop + Send,
>(
    rt: &R,
    alloc: A,
    shared: Shared<L, A>,
    gate: &G,
    jobs: Vec<Vec<Job<Request<A>, D>, A>, A>,
    depth: Depth,
) -> Result<Round<A, K>, Failure>
    ensures ended { IfOk result (λ round. EndsRound L.opening round.log round.report round.world) }
    ensures all_jobs { IfOk result (λ round. map length round.jobs ≡ map (λ list. length list.items) jobs.items) }
    ensures agree { IfOk result (λ round. AllAgree round.report.receipts round.jobs) }
    ensures went { IfOk result (λ round. AllWentBy D.bytes D.keeps L.opening (map (λ list. list.items) jobs.items) round.report.receipts round.jobs) }
    ensures jobs { IfOk result (λ round. OnTrue L.jobs_alone (AreOfJobs round.log.entries)) }
{
    let (book, hand) = work_over(rt, alloc, shared, gate, jobs, depth)?;
    carry_on(book, hand)
}

/// Opens a book, runs a submitter for each list of jobs, a poller and a controller over it in threads of their own, and closes it with the
/// submitters' seats. A list's index, from 0, is the worker of its submitter. Each submitter has at most `depth` jobs, 1 to 256, in flight at a time.
/// `server` says who serves as the submitters ring.
///
/// A job's command ended as its receipt in the report says, and so as the log does. Each job went as [`submitter`] says: which request was
/// reserved, with which bytes its draft was submitted, which bytes its end has, and why it was refused. Where the driver takes the steps of jobs
/// alone, the log has no others: so the run is trusted from its opening to its end, and the laws of trusted runs speak of its Reads, Writes and
/// Compares.
///
/// # Errors
///
/// `Open` names why no book is opened. Every other fault comes only where the configuration is not refused; no clause says which
/// of them comes: `NoThread` where a thread cannot be made, `GateClosed` where a gate was closed to a worker, `Close` where the book is not
/// closed, `Memory` where memory is refused to the opening, to the run, to a worker or to the closing. What was moved in is dropped.
pub fn run_threads<
    L: LogBrand + Send + Sync,
    A: Allocator + Copy + Send + Sync,
    G: Gate + Sync,
    R: Threads + Wait + Sync,
    K: Drop + Send,
    D: Data<K, A> + Drop + Send,
>(
    rt: &R,
    alloc: A,
    config: Config,
    image: Image<A>,
    jobs: Vec<Vec<Job<Request<A>, D>, A>, A>,
    depth: usize,
    server: Server,
    gate: &G,
    blank: BlankBook<A>,
) -> Result<Ran<L, A, K>, RunFault>
    requires name { blank.ledger.name ≡ L.name }
    requires parts { blank.ledger.parts ≡ L.parts }
    requires number { blank.ledger.parts ≡ 65536 }
    requires list { blank.drafts.name ≡ L.list }
    requires opening { L.opening ≡ opening_of config image }
    requires some { 1 ≤ vec_len jobs }
    requires few { vec_len jobs ≤ 16 }
    requires at_least_one { 1 ≤ depth }
    requires at_most { depth ≤ 256 }
    ensures ran { IfOk result (λ ran. RanFrom (opening_of config image) ran.report ran.book) }
    ensures all_jobs { IfOk result (λ ran. map length ran.jobs ≡ map (λ list. length list.items) jobs.items) }
    ensures agree { IfOk result (λ ran. AllAgree ran.report.receipts ran.jobs) }
    ensures went { IfOk result (λ ran. AllWentBy D.bytes D.keeps (opening_of config image) (map (λ list. list.items) jobs.items) ran.report.receipts ran.jobs) }
    ensures jobs { IfOk result (λ ran. OnTrue L.jobs_alone (AreOfJobs ran.book.log)) }
    ensures trusted { IfOk result (λ ran. OnTrue L.jobs_alone (IsTrustedLog image ran.book.log ran.book.world)) }
    ensures refused { IfErr result (RefusesRun config) }
{
    prove!({
        image.blocks();
        true
    });
    let book = match Book::<L, A>::open(alloc, config, image, blank) {
        Ok(book) => book,
        Err(refused) => {
            return match refused.why {
                OpenRefusal::Memory => Err(RunFault::Memory),
                why => Err(RunFault::Open(why)),
            };
        }
    };
    let shared = Shared::served_by(server, book);
    let depth = Depth { jobs: depth };
    match run_over(rt, alloc, shared, gate, jobs, depth) {
        Ok(ran) => Ok(ran),
        Err(failure) => Err(fault_of(failure)),
    }
}

/// Does a round of jobs over an existing world: opens a book over it, runs a submitter for each list of jobs, a poller and a controller in threads of
/// their own, as [`run_threads`], and closes the book with the submitters' seats. It gives the book's log and its world, over which the next round
/// may go on: whoever drops the log of each round needs no more memory for many rounds than for the longest of them.
///
/// A job's command ended as its receipt in the report says, and so as the log does, and each job went as [`submitter`] says. The logs of rounds that
/// each go on over the world of the one before, one after the other, are one history ([`law_of_pieces`](driver_book::laws::law_of_pieces)). Each
/// round takes a new ledger.
///
/// # Errors
///
/// No clause says which of them comes: `NoThread` where a thread cannot be made, `GateClosed` where a gate was closed to a worker, `Close`
/// where the book is not closed, `Memory` where memory is refused to the round, to a worker or to the closing. What was moved in is dropped, the world too.
pub fn run_round<
    L: LogBrand + Send + Sync,
    A: Allocator + Copy + Send + Sync,
    G: Gate + Sync,
    R: Threads + Wait + Sync,
    K: Drop + Send,
    D: Data<K, A> + Drop + Send,
>(
    rt: &R,
    alloc: A,
    world: World<A>,
    jobs: Vec<Vec<Job<Request<A>, D>, A>, A>,
    depth: usize,
    server: Server,
    gate: &G,
    blank: BlankBook<A>,
) -> Result<Round<A, K>, RunFault>
    requires name { blank.ledger.name ≡ L.name }
    requires parts { blank.ledger.parts ≡ L.parts }
    requires number { blank.ledger.parts ≡ 65536 }
    requires list { blank.drafts.name ≡ L.list }
    requires opening { L.opening ≡ world.state }
    requires some { 1 ≤ vec_len jobs }
    requires few { vec_len jobs ≤ 16 }
    requires at_least_one { 1 ≤ depth }
    requires at_most { depth ≤ 256 }
    ensures ended { IfOk result (λ round. EndsRound world.state round.log round.report round.world) }
    ensures all_jobs { IfOk result (λ round. map length round.jobs ≡ map (λ list. length list.items) jobs.items) }
    ensures agree { IfOk result (λ round. AllAgree round.report.receipts round.jobs) }
    ensures went { IfOk result (λ round. AllWentBy D.bytes D.keeps world.state (map (λ list. list.items) jobs.items) round.report.receipts round.jobs) }
    ensures jobs { IfOk result (λ round. OnTrue L.jobs_alone (AreOfJobs round.log.entries)) }
    ensures refused { IfErr result IsAfterOpening }
{
    let book = Book::<L, A>::over(alloc, world, blank);
    let shared = Shared::served_by(server, book);
    let depth = Depth { jobs: depth };
    match round_over(rt, alloc, shared, gate, jobs, depth) {
        Ok(round) => Ok(round),
        Err(failure) => Err(fault_of(failure)),
    }
}
