//! Arbitrary lines.

use std::alloc::{AllocError, AllocGlobal, Global};
use std::io;
use std::rt::Files;
use test_support::Numbers;
use views::explain::{CaseReader, Layout, Shown, Stop, show};

/// How many lines are read.
const LINES: u32 = 100_000;

/// Words of which lines are made: those that begin a line, numbers, bytes, and some that occur nowhere.
const WORDS: [&[u8]; 28] = [
    b"page",
    b"page",
    b"block",
    b"block",
    b"sqe",
    b"out",
    b"pages",
    b"blocks",
    b"#",
    b"0",
    b"7",
    b"15",
    b"16",
    b"63",
    b"64",
    b"4294967296",
    b"00",
    b"ABCD",
    b"00*16",
    b"00*4096",
    b"00*4097",
    b"01*2,02",
    b"*",
    b"0",
    b"\xC3\xA9",
    b"\t",
    b"@list.bytes",
    b"@",
];

/// What a line is shown as.
const SHOWN: [Shown; 3] = [Shown::Submission, Shown::Completion, Shown::Descriptor];

/// A line of some words, or bytes.
fn line(alloc: Global, numbers: &mut Numbers) -> Result<Vec<u8>, AllocError> {
    let mut line = Vec::new(alloc);
    for _ in 0..numbers.below(5) {
        if numbers.below(8) == 0 {
            line.extend_from_slice(&numbers.bytes::<1>())?;
        } else {
            line.extend_from_slice(WORDS[numbers.below(28) as usize])?;
        }
        line.push(b' ')?;
    }
    Ok(line)
}

/// Reads arbitrary lines, and prints how many were good.
pub fn play_lines<R: AllocGlobal + Files + Print>(rt: &R) -> io::Result<()> {
    let alloc = rt.alloc();
    let mut numbers = Numbers::new(1);
    let mut reader = CaseReader::begin(alloc, "cases/")?;
    let mut taken = 0u32;
    let mut decoded = 0u32;
    for number in 1..=LINES {
        let line = line(alloc, &mut numbers)?;
        match reader.line(rt, number, &line) {
            Ok(()) => taken = taken.saturating_add(1),
            Err(Stop::Memory) => return Err(io::Error::from(AllocError)),
            Err(Stop::At(..) | Stop::Before(..)) => {}
        }
        let shown = SHOWN[numbers.below(3) as usize];
        let lines = show(rt, shown, &line, Layout::Lines).is_ok();
        let objects = show(rt, shown, &line, Layout::Objects).is_ok();
        if lines && objects {
            decoded = decoded.saturating_add(1);
        }
    }
    println!(rt; "{LINES} lines: {taken} are taken, {decoded} decoded")
}
