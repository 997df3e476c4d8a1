//! Trials whose time or memory is measured: Reads by threads and by one, and benches in heaps of fixed size.
//!
//! `trials threads SUBMITTERS JOBS BLOCKS [DEPTH]` and `trials alone SUBMITTERS JOBS BLOCKS TIMES` carry Reads of one shape through, by threads over a
//! shared book, or one after the other over a book of their own; `bench/threads` measures how long that takes. They print how many commands
//! were carried through, how many entries the log has and how many bytes were read, and nothing that depends on the schedule.
//!
//! `trials heap` prints for a small pool and for a larger one how many bytes of a heap are used by the image, once the bench is open, at
//! most, and at the end. `trials all` does a little of each.
#![tactic(auto)]

mod alone;
mod asked;
mod commands;
mod fault;
mod heap;
mod pools;
mod printing;
mod reads;
mod stage;
mod threaded;

use alone::read_alone;
use asked::{Asked, Way};
use block_image::Image;
use driver_book::BlankBook;
use fault::TrialFault;
use heap::use_heap;
use pools::POOLS;
use printing::print_numbers;
use reads::{IMAGE_BLOCKS, ROOMY, Shape};
use std::alloc::AllocGlobal;
use std::env::Env;
use std::marker::Brand;
use std::process::ExitCode;
use std::sync::Wait;
use std::thread::Threads;
use threaded::read_in_threads;

fn main(rt: HostRuntime) -> ExitCode {
    match start(&rt) {
        Ok(()) => ExitCode::SUCCESS,
        Err(fault) => {
            // Where standard error is closed, the exit status alone tells.
            let _ = eprintln!(rt; "{fault}");
            ExitCode::FAILURE
        }
    }
}

/// What the command line asks for.
fn read_words<R: Env + AllocGlobal>(rt: &R) -> Result<Asked, TrialFault> {
    let alloc = rt.alloc();
    let words: Vec<String> = match std::env::args(rt) {
        Ok(words) => words.collect(alloc)?,
        Err(_) => return Err(TrialFault::Usage),
    };
    Asked::read(&words).ok_or(TrialFault::Usage)
}

/// Reads the command line, and does what it asks for.
fn start<R: Env + AllocGlobal + Print + Threads + Wait + Sync>(rt: &R) -> Result<(), TrialFault> {
    match read_words(rt)? {
        Asked::Reads { way, shape } => carry_reads(rt, way, shape),
        Asked::Heap => fill_heaps(rt),
        Asked::All => {
            let shape = Shape {
                submitters: 2,
                jobs: 3,
                blocks: 9,
            };
            carry_reads(rt, Way::Threads { depth: 1 }, shape)?;
            carry_reads(rt, Way::Alone { times: 1 }, shape)?;
            fill_heaps(rt)
        }
    }
}

/// Carries Reads through, and prints what was done.
fn carry_reads<R: AllocGlobal + Print + Threads + Wait + Sync>(
    rt: &R,
    way: Way,
    shape: Shape,
) -> Result<(), TrialFault> {
    let alloc = rt.alloc();
    let Ok(image) = Image::zeroed(alloc, IMAGE_BLOCKS) else {
        return Err(TrialFault::Memory);
    };
    let done = match way {
        Way::Threads { depth } => {
            read_in_threads::<Brand, R>(rt, alloc, ROOMY, shape, depth, image, BlankBook::new())?
        }
        Way::Alone { times } => {
            read_alone::<Brand>(alloc, ROOMY, shape, times, image, BlankBook::new())?
        }
    };
    print_numbers(
        rt,
        &[
            ("commands", done.commands),
            ("entries", done.entries as u64),
            ("bytes", done.bytes),
        ],
    )
}

/// Carries the commands of each pool through in a heap, and prints what was used.
fn fill_heaps<R: AllocGlobal + Print>(rt: &R) -> Result<(), TrialFault> {
    for pool in POOLS {
        let used = use_heap(rt.alloc(), pool)?;
        print_numbers(
            rt,
            &[
                ("pages", u64::from(pool.pages)),
                ("heap", pool.heap as u64),
                ("image", used.image as u64),
                ("opened", used.opened as u64),
                ("commands", u64::from(pool.commands)),
                ("most", used.most as u64),
                ("left", used.left as u64),
            ],
        )?;
    }
    Ok(())
}
