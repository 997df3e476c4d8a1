//! Something is played in a heap of its own, and once for each of its growths, which is refused.

use crate::scripts::book::through_book;
use crate::scripts::fault::{PlayFault, Way, Wrong};
use crate::scripts::refused::{End, Run, play_refused};
use crate::scripts::standing::Heap;
use script_cli::transcripts::OnBench;
use std::alloc::{AllocGlobal, Global};
use std::sync::Wait;
use test_support::Refusing;

/// More growths than anything here has.
pub const MANY: u64 = 5_000;

/// Plays a script on a bench: with one growth of its steps refused, or with no memory for the steps that take none.
fn on_bench<'h, R: Eprint>(
    rt: &R,
    alloc: Global,
    heap: &'h Heap,
    run: Run<'_>,
) -> Result<End, Wrong> {
    let mut bench = match OnBench::open(alloc, heap, run.transcript.options()) {
        Ok(bench) => bench,
        Err(why) => return Err(Wrong::Opening(why)),
    };
    let played = play_refused(rt, alloc, &mut bench, run, run.growth);
    let OnBench {
        alloc: _,
        heap: _,
        bench,
    } = bench;
    let _ended = bench.end();
    played
}

/// Plays a script, and sees that it leaves what it must, and an empty heap.
pub fn play_run<R: AllocGlobal + Eprint + Wait>(rt: &R, run: Run<'_>) -> Result<End, PlayFault> {
    let Run { way, growth, .. } = run;
    let alloc = rt.alloc();
    let heap = Refusing::new(alloc);
    let played = match way {
        Way::Bench | Way::WithoutMemory => on_bench(rt, alloc, &heap, run),
        _ => through_book(rt, alloc, &heap, run),
    };
    let wrong = match played {
        Ok(end) => match end.wrong(run.wanted) {
            Some(wrong) => wrong,
            None if heap.tally().blocks == 0 => return Ok(end),
            None => Wrong::Leaked,
        },
        Err(wrong) => wrong,
    };
    Err(PlayFault { way, growth, wrong })
}

/// Plays a script once for each growth that it has, which is refused, and answers how many those are.
pub fn refuse_each<R: AllocGlobal + Eprint + Wait>(rt: &R, run: Run<'_>) -> Result<u64, PlayFault> {
    for growth in 1..MANY {
        let end = play_run(rt, Run { growth, ..run })?;
        if end.left > 0 {
            return Ok(growth - 1);
        }
    }
    Ok(MANY)
}
