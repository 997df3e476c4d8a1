//! A host, its controller and sixteen outstanding commands in a heap of fixed size.

use crate::looks::see;
use linked_list_allocator::LocalHeap;
use script_cli::transcripts::{OnBench, play, read_transcript};
use std::alloc::{AllocError, Global};
use std::process::Abort;

/// How many commands are outstanding at once.
const COMMANDS: u16 = 16;

/// The smallest pool for sixteen commands that have a page of data each: the two queues have four pages.
const OPTIONS: &str = "# options: --pages 20 --entries 17 --blocks 16\n";

/// A pool without a command.
const COUNTS: &str = "> counts free 16 queue 4 chain 0 data 0\n";

/// A heap counts its bytes in steps of this many.
const STEP: usize = 16;

/// The smallest heap in which a bench opens.
const OPENS: usize = 107_712;

/// The smallest heap in which the commands are carried through.
const CARRIES: usize = 124_960;

/// A step and its answer, which are written for each command before the next row: what comes before the command's identifier, what comes after it,
/// and the identifier once more, with a number added, before the rest.
type Row = (&'static str, &'static str, Option<u16>, &'static str);

/// The steps from the building of a list to the collection of a command.
const CARRIED: [Row; 8] = [
    ("build 1 ", "\n> build ok\n", None, ""),
    ("submit 1 ", "\n> submit ok\nring 1\n> ring ok\n", None, ""),
    ("fetch 1\n> fetch cid ", " touched 2\n", None, ""),
    ("walk 1 ", "\n> walk more touched -\n", None, ""),
    ("walk 1 ", "\n> walk end touched ", Some(4), "\n"),
    ("complete 1 ", "\n> complete ok touched 3\n", None, ""),
    ("reap 1\n> reap done cid ", " status 0:00\n", None, ""),
    ("collect 1 ", "\n> collect status 0:00\n", None, ""),
];

/// The steps around these: of a Write of a block to each command, and then of a Read of it.
const WRITES: [Row; 2] = [
    (
        "reserve 1 write ",
        " 1 0+512\n> reserve q 1 cid ",
        Some(0),
        " data 1 chain 0\n",
    ),
    ("fill 1 ", " A5\n> fill ok\n", None, ""),
];

const READS: [Row; 1] = [(
    "reserve 1 read ",
    " 1 0+512\n> reserve q 1 cid ",
    Some(0),
    " data 1 chain 0\n",
)];

const GATHERED: [Row; 1] = [("gather 1 ", "\n> gather A5*1,00*511\n", None, "")];

const RELEASED: [Row; 1] = [("release 1 ", "\n> release ok\n", None, "")];

/// Sixteen Writes, and then sixteen Reads of what they wrote.
const COMMANDS_OF_ALL: [&[Row]; 7] = [
    &WRITES, &CARRIED, &RELEASED, &READS, &CARRIED, &GATHERED, &RELEASED,
];

/// A transcript of these steps.
fn transcript_of(alloc: Global, rows: &[&[Row]]) -> Result<String, AllocError> {
    let mut text = String::from_str(alloc, OPTIONS)?;
    for (before, behind, again, rest) in rows.iter().copied().flatten() {
        for cid in 0..COMMANDS {
            write!(text, "{before}{cid}{behind}")?;
            if let Some(more) = again {
                write!(text, "{}", cid.wrapping_add(*more))?;
            }
            text.push_str(rest)?;
        }
    }
    text.push_str(COUNTS)?;
    Ok(text)
}

/// Plays a transcript of steps on a bench in a heap of this many bytes, and sees what comes: these words where the bench is not opened, or at the end
/// of the first answer that differs from the transcript; nothing where it is played as it says. At the end the heap is empty.
fn see_played<R: Abort>(rt: &R, alloc: Global, rows: &[&[Row]], bytes: usize, words: &str) {
    let text = transcript_of(alloc, rows).expect(rt, "memory");
    let transcript = read_transcript(alloc, &text).expect(rt, "a transcript");
    let heap = LocalHeap::new(alloc, bytes).expect(rt, "a heap");
    let mut told = String::new(alloc);
    match OnBench::open(alloc, &heap, transcript.options()) {
        Ok(mut bench) => {
            let found = play(alloc, &mut bench, &transcript).expect(rt, "memory");
            let OnBench {
                alloc: _,
                heap: _,
                bench,
            } = bench;
            let _ended = bench.end();
            if let Some(difference) = found {
                assert!(rt; write!(told, "{difference}").is_ok());
            }
        }
        Err(fault) => assert!(rt; write!(told, "{fault}").is_ok()),
    }
    see(rt, &heap.used(), &0);
    assert!(rt;
        told.ends_with(words) && told.is_empty() == words.is_empty(),
        "{told}"
    );
}

/// A bench opens in a heap, and sixteen commands at once are carried through in a larger one. In one that is a step smaller memory is refused.
#[test]
fn sixteen_commands_fit_a_heap(rt: HostRuntime) {
    let alloc = rt.alloc();
    see_played(&rt, alloc, &[], OPENS - STEP, "memory");
    see_played(&rt, alloc, &[], OPENS, "");
    see_played(&rt, alloc, &COMMANDS_OF_ALL, CARRIES - STEP, "Memory");
    see_played(&rt, alloc, &COMMANDS_OF_ALL, CARRIES, "");
}
