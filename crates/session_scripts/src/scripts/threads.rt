//! Two submitters, a poller and a controller in threads, over a heap that refuses one growth.

use crate::desk::runs::play;
use crate::desk::two_submitters::{ON_ONE_QUEUE, is_as_wanted, two_lists};
use crate::scripts::fault::{PlayFault, Way, Wrong};
use crate::scripts::player::MANY;
use crate::scripts::standing::Heap;
use driver_threads::{Open, RunFault};
use script_cli::transcripts::Options;
use std::alloc::{AllocError, AllocGlobal};
use std::sync::Wait;
use std::thread::Threads;
use test_support::{RefusedCalls, Refusing};

/// Runs two submitters in a heap with one growth refused: it leaves what it must, or it wants memory where that was refused.
fn run_in<'h, R: Threads + Wait + Sync>(rt: &R, heap: &'h Heap, growth: u64) -> Result<(), Wrong> {
    let Options { config, blocks } = Options::USUAL;
    let jobs = match two_lists(heap, ON_ONE_QUEUE) {
        Ok(jobs) => jobs,
        Err(AllocError) => return Err(Wrong::Memory),
    };
    heap.refuse(RefusedCalls::Nth(growth));
    let ended = play(rt, heap, config, blocks, jobs, &Open);
    match ended {
        Ok(outcome) if is_as_wanted(&outcome) => Ok(()),
        Ok(_) => Err(Wrong::Outcome),
        Err(RunFault::Memory) if heap.tally().refused > 0 => Ok(()),
        Err(RunFault::Memory) => Err(Wrong::Unrefused),
        Err(fault) => Err(Wrong::Threads(fault)),
    }
}

/// Runs two submitters once for each growth that the run has, which is refused, and answers how many those are. Each time the heap is empty at the
/// end.
pub fn refuse_each_in_threads<R: AllocGlobal + Threads + Wait + Sync>(
    rt: &R,
) -> Result<u64, PlayFault> {
    for growth in 1..MANY {
        let heap = Refusing::new(rt.alloc());
        let wrong = match run_in(rt, &heap, growth) {
            Ok(()) if heap.tally().blocks > 0 => Wrong::Leaked,
            Ok(()) if heap.tally().refused == 0 => return Ok(growth - 1),
            Ok(()) => continue,
            Err(wrong) => wrong,
        };
        let way = Way::Threads;
        return Err(PlayFault { way, growth, wrong });
    }
    Ok(MANY)
}
