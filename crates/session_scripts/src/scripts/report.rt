//! What is printed.

use crate::scripts::standing::Standing;
use std::io;

/// How much was played.
#[derive(Clone, Copy)]
pub struct Scores {
    /// The scripts.
    pub scripts: u64,
    /// Their growths on a bench.
    pub on_bench: u64,
    /// Their growths through a book.
    pub through_book: u64,
    /// Their calls that take no memory.
    pub without_memory: u64,
}

impl Scores {
    /// Nothing was played yet.
    pub const NONE: Scores = Scores {
        scripts: 0,
        on_bench: 0,
        through_book: 0,
        without_memory: 0,
    };

    /// Adds others.
    pub fn add(&mut self, others: Scores) {
        self.scripts = self.scripts.saturating_add(others.scripts);
        self.on_bench = self.on_bench.saturating_add(others.on_bench);
        self.through_book = self.through_book.saturating_add(others.through_book);
        self.without_memory = self.without_memory.saturating_add(others.without_memory);
    }
}

/// Prints the line of a script: its growths, and what it leaves in the log and at the seat of a book, and whether that is then closed.
pub fn print_line<R: Print>(rt: &R, file: &str, scores: Scores, end: &Standing) -> io::Result<()> {
    let name = file.strip_suffix(".transcript").unwrap_or(file);
    let Scores {
        scripts: _,
        on_bench,
        through_book,
        without_memory,
    } = scores;
    let entries = end.entries.unwrap_or(0);
    print!(rt;
        "{name}: growths {on_bench} on a bench, {through_book} through a book; without memory {without_memory}; log {entries}"
    )?;
    match end.closes {
        Some(Ok(submissions)) => print!(rt; "; closed, submissions {submissions}")?,
        Some(Err(why)) => print!(rt; "; open, {why}")?,
        None => {}
    }
    for receipt in &end.receipts {
        let (number, q, cid) = (receipt.number, receipt.q, receipt.cid);
        match receipt.status {
            Some(status) => print!(rt; "; receipt {number} of {q} {cid} {status}")?,
            None => print!(rt; "; receipt {number} of {q} {cid} -")?,
        }
    }
    println!(rt)
}

/// Prints a sum of scripts.
pub fn print_sum<R: Print>(rt: &R, sum: Scores) -> io::Result<()> {
    let Scores {
        scripts,
        on_bench,
        through_book,
        without_memory,
    } = sum;
    println!(rt;
        "{scripts} scripts, each on a bench, through a book and behind a lock\n{on_bench} growths refused on a bench, {through_book} through a book\n{without_memory} calls that take no memory, without memory"
    )
}
