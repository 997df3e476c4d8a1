//! What the command line asks for.

ghost use Rattle.std.specs.Prelude.{◌≤◌};

use crate::reads::{MOST_BLOCKS, MOST_DEPTH, MOST_JOBS, Shape};

/// How Reads are carried through.
#[derive(Clone, Copy)]
pub enum Way {
    /// By submitters, a poller and a controller, each in a thread of its own, over a shared book.
    Threads {
        /// How many Reads a submitter has in flight at most, 1 to 256.
        depth: u32,
    },
    /// One after the other over a book without a lock.
    Alone {
        /// How often the work is done that threads do outside of the lock: once, or more often to find out how long it takes.
        times: u32,
    },
}

/// What the command line asks for.
#[derive(Clone, Copy)]
pub enum Asked {
    /// Reads of one shape.
    Reads {
        /// How they are carried through.
        way: Way,
        /// The Reads.
        shape: Shape,
    },
    /// Benches in heaps of fixed size.
    Heap,
    /// A little of each.
    All,
}

/// A number of the command line, from `least` to `most`.
fn number(word: &String, least: u32, most: u32) -> Option<u32> {
    let number: u32 = word.as_str().parse().ok()?;
    if least <= number && number <= most {
        Some(number)
    } else {
        None
    }
}

/// The shape that three words name.
fn shape(words: &[String]) -> Option<Shape> {
    let [submitters, jobs, blocks] = words else {
        return None;
    };
    Some(Shape {
        submitters: number(submitters, 1, 16)?,
        jobs: number(jobs, 0, MOST_JOBS)?,
        blocks: number(blocks, 1, MOST_BLOCKS)?,
    })
}

/// The Reads of one thread that four words name.
fn alone(words: &[String]) -> Option<Asked> {
    let (times, words) = words.split_last()?;
    Some(Asked::Reads {
        way: Way::Alone {
            times: number(times, 1, 100)?,
        },
        shape: shape(words)?,
    })
}

/// The Reads in threads that three words name, or four with a depth.
fn threads(words: &[String]) -> Option<Asked> {
    let (words, depth) = match words.split_last() {
        Some((depth, first)) if first.len() == 3 => (first, number(depth, 1, MOST_DEPTH)?),
        _ => (words, 1),
    };
    Some(Asked::Reads {
        way: Way::Threads { depth },
        shape: shape(words)?,
    })
}

impl Asked {
    /// What the words of the command line ask for, the first of which is the program's name.
    pub fn read(words: &[String]) -> Option<Asked> {
        let (verb, numbers) = words.get(1..)?.split_first()?;
        match verb.as_str() {
            "threads" => threads(numbers),
            "alone" => alone(numbers),
            "heap" => Some(Asked::Heap),
            "all" => Some(Asked::All),
            _ => None,
        }
    }
}
