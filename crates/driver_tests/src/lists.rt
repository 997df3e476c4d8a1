//! Lists of steps that are run at once, with one growth refused.

use crate::heap::{Heap, MANY, zeros};
use crate::looks::{see, see_at};
use crate::part::USUAL;
use script_cli::Line;
use script_cli::transcripts::{Transcript, read_transcript, step_in};
use std::alloc::{AllocError, Global};
use std::process::Abort;
use step_core::{Reply, StepIn};
use test_support::{RefusedCalls, Refusing};
use world_bench::Bench;

/// Two blocks are read to two pages.
const TWO_PAGES: &str = "reserve 1 read 5 2 0+512 0+512
build 1 0
submit 1 0
ring 1
fetch 1
walk 1 0
walk 1 0
walk 1 0
walk 1 0
walk 1 0
complete 1 0
reap 1
collect 1 0
gather 1 0
release 1 0
";

/// The steps of a script, in a heap.
fn steps_of<'a>(
    heap: &'a Heap,
    transcript: &Transcript,
) -> Result<Vec<StepIn<&'a Heap>, &'a Heap>, AllocError> {
    let mut steps = Vec::new(heap);
    for told in transcript.told() {
        if let Line::Step(step) = &told.line {
            steps.push(step_in(heap, step)?)?;
        }
    }
    Ok(steps)
}

/// Runs the steps of a script at once, on a bench of its own, with one growth refused: how many of the replies are want of memory, or none where no step is
/// done. The heap is empty then.
fn run<R: Abort>(rt: &R, alloc: Global, transcript: &Transcript, growth: u64) -> Option<usize> {
    let heap = Refusing::new(alloc);
    let steps = steps_of(&heap, transcript).expect(rt, "memory");
    let Ok(mut bench) = Bench::open(&heap, USUAL, zeros(rt, &heap)) else {
        panic!(rt; "no bench");
    };
    heap.refuse(RefusedCalls::Nth(growth));
    let wanting = match bench.run(steps) {
        Ok(replies) => {
            let mut wanting: usize = 0;
            for reply in &replies {
                if let Reply::Refused {
                    why: step_core::Refusal::Memory,
                    touched: _,
                } = reply
                {
                    wanting = wanting.saturating_add(1);
                }
            }
            Some(wanting)
        }
        Err(AllocError) => None,
    };
    heap.refuse(RefusedCalls::Never);
    let _ended = bench.end();
    see_at(rt, growth, &heap.tally().blocks, &0);
    wanting
}

/// A list of steps is not run where memory is refused for its answers; otherwise it is run to its end, and one step wants memory.
#[test]
fn a_list_of_steps_is_run_or_none_is_done(rt: HostRuntime) {
    let alloc = rt.alloc();
    let transcript = read_transcript(alloc, TWO_PAGES).expect(&rt, "a transcript");
    let (mut not_run, mut wanted): (u64, u64) = (0, 0);
    for growth in 1..MANY {
        match run(&rt, alloc, &transcript, growth) {
            None => not_run = not_run.saturating_add(1),
            Some(0) => break,
            Some(_) => wanted = wanted.saturating_add(1),
        }
    }
    see(&rt, &(not_run, wanted), &(1, 13));
}
