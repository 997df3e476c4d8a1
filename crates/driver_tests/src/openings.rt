//! Openings with one growth refused.

use crate::heap::{MANY, zeros};
use crate::looks::{see, see_at};
use crate::part::USUAL;
use std::alloc::Global;
use std::process::Abort;
use step_core::{Config, OpenRefusal};
use test_support::{RefusedCalls, Refusing};
use world_bench::Bench;

/// Two I/O queues of four entries over 24 pages, and segments of four descriptors.
const TWO_QUEUES: Config = Config {
    pages: 24,
    queues: 2,
    entries: 4,
    segment: 4,
};

/// Opens a bench over an image with one growth refused. Where memory is refused the image comes back, and the bench is opened again. Answers whether
/// there was such a growth.
fn opens_twice<R: Abort>(rt: &R, alloc: Global, config: Config, growth: u64) -> bool {
    let heap = Refusing::new(alloc);
    let image = zeros(rt, &heap);
    heap.refuse(RefusedCalls::Nth(growth));
    let back = match Bench::open(&heap, config, image) {
        Ok(bench) => {
            let _ended = bench.end();
            None
        }
        Err(refused) => {
            see_at(rt, growth, &refused.why, &OpenRefusal::Memory);
            Some(refused.image)
        }
    };
    let is_refused = heap.tally().refused > 0;
    see_at(rt, growth, &back.is_some(), &is_refused);
    heap.refuse(RefusedCalls::Never);
    if let Some(image) = back {
        match Bench::open(&heap, config, image) {
            Ok(bench) => {
                let _ended = bench.end();
            }
            Err(_) => panic!(rt; "it is refused twice"),
        }
    }
    see_at(rt, growth, &heap.tally().blocks, &0);
    is_refused
}

/// Each growth of an opening is refused.
#[test]
fn an_opening_wants_memory(rt: HostRuntime) {
    for (config, wanted) in [(USUAL, 34), (TWO_QUEUES, 44)] {
        let mut growths: u64 = 0;
        for growth in 1..MANY {
            if !opens_twice(&rt, rt.alloc(), config, growth) {
                break;
            }
            growths = growth;
        }
        see(&rt, &growths, &wanted);
    }
}
