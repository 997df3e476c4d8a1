//! The program's door: a command over a reader and a writer that may fail.

use program::{Terminals, perform};
use std::alloc::AllocGlobal;
use std::io;
use std::io::{ErrorKind, Read, Write};
use std::process::Abort;
use std::rt::{Clock, Files};
use std::sync::Wait;
use std::thread::Threads;

/// What comes after the bytes of a reader.
#[derive(Clone, Copy)]
pub(crate) enum After {
    /// Nothing.
    End,
    /// Each read fails.
    Failure,
    /// One sign, without end.
    More,
}

/// Gives one byte at a time, and what comes after them.
#[derive(Drop)]
pub(crate) struct Source<'a> {
    pub(crate) rest: &'a [u8],
    pub(crate) after: After,
    /// How often it was asked.
    pub(crate) asked: usize,
}

impl Read for Source<'_> {
    fn read(&mut self, buf: &mut [u8]) -> io::Result<usize> {
        self.asked = self.asked.saturating_add(1);
        let Some(place) = buf.first_mut() else {
            return Ok(0);
        };
        match (self.rest.split_first(), self.after) {
            (Some((byte, rest)), _) => {
                *place = *byte;
                self.rest = rest;
                Ok(1)
            }
            (None, After::End) => Ok(0),
            (None, After::Failure) => Err(io::Error::from(ErrorKind::Other)),
            (None, After::More) => {
                buf.fill(b'#');
                Ok(buf.len())
            }
        }
    }
}

/// What a writer takes until it fails.
#[derive(Clone, Copy)]
pub(crate) struct Limit {
    /// The most bytes of a write.
    pub(crate) width: usize,
    /// How many writes and flushes.
    pub(crate) calls: usize,
    /// Whether the next write then fails, or takes no byte. A flush fails.
    pub(crate) refuses: bool,
}

impl Limit {
    /// It takes all.
    pub(crate) const NONE: Limit = Limit {
        width: usize::MAX,
        calls: usize::MAX,
        refuses: true,
    };
}

/// Keeps what is written.
#[derive(Drop)]
struct Sink {
    limit: Limit,
    taken: Vec<u8>,
    /// How many bytes stand there before each write and each flush.
    before: Vec<usize>,
    flushes: u32,
}

impl Sink {
    /// Notes a call. False where it is one too many.
    fn is_taken(&mut self) -> io::Result<bool> {
        self.before.push(self.taken.len())?;
        Ok(self.before.len() <= self.limit.calls)
    }
}

impl Write for Sink {
    fn write(&mut self, buf: &[u8]) -> io::Result<usize> {
        if !self.is_taken()? {
            if self.limit.refuses {
                return Err(io::Error::from(ErrorKind::Other));
            }
            return Ok(0);
        }
        let (front, _) = buf.split_at(buf.len().min(self.limit.width));
        self.taken.extend_from_slice(front)?;
        Ok(front.len())
    }

    fn flush(&mut self) -> io::Result<()> {
        if !self.is_taken()? {
            return Err(io::Error::from(ErrorKind::Other));
        }
        self.flushes = self.flushes.saturating_add(1);
        Ok(())
    }
}

/// How a command ended.
#[derive(Drop)]
pub(crate) struct End {
    pub(crate) status: u8,
    /// What standard error says.
    pub(crate) told: String,
    /// What was written.
    pub(crate) written: String,
    /// How many bytes were taken before each write and each flush.
    pub(crate) before: Vec<usize>,
    pub(crate) flushes: u32,
    /// How often its reader was asked.
    pub(crate) asked: usize,
}

/// Runs a command over a reader and a writer.
pub(crate) fn ended<
    R: Abort + AllocGlobal + Clock + Eprint + Files + Print + Sync + Threads + Wait,
>(rt: &R, words: &[&str], text: &[u8], after: After, limit: Limit) -> End {
    let alloc = rt.alloc();
    let mut reader = Source {
        rest: text,
        after,
        asked: 0,
    };
    let mut sink = Sink {
        limit,
        taken: Vec::new(alloc),
        before: Vec::new(alloc),
        flushes: 0,
    };
    let mut status = 0;
    let mut told = String::new(alloc);
    if let Err(why) = perform(rt, words, &mut reader, &mut sink, Terminals::NONE) {
        status = why.fault.exit_status();
        assert!(rt; write!(told, "{why}").is_ok());
    }
    let Ok(written) = String::from_utf8(sink.taken) else {
        panic!(rt; "text that is not UTF-8");
    };
    End {
        status,
        told,
        written,
        before: sink.before,
        flushes: sink.flushes,
        asked: reader.asked,
    }
}

/// What must come of a command: its status, what standard error says, and the text of which a prefix is written, of this many bytes.
#[derive(Clone, Copy)]
pub(crate) struct Wanted<'a> {
    pub(crate) status: u8,
    pub(crate) told: &'a str,
    pub(crate) text: &'a str,
    pub(crate) least: usize,
    pub(crate) most: usize,
}

/// What is counted of a command.
#[derive(Clone, Copy)]
pub(crate) struct Counts {
    /// The bytes that it wrote.
    pub(crate) bytes: usize,
    /// Its writes and flushes.
    pub(crate) calls: usize,
    pub(crate) flushes: u32,
    /// How often its reader was asked.
    pub(crate) asked: usize,
}

/// Sees what comes of a command over a reader and a writer.
pub(crate) fn see<R: Abort + AllocGlobal + Clock + Eprint + Files + Print + Sync + Threads + Wait>(
    rt: &R,
    words: &[&str],
    text: &[u8],
    after: After,
    limit: Limit,
    wanted: Wanted<'_>,
) -> Counts {
    let end = ended(rt, words, text, after, limit);
    let bytes = end.written.len();
    let is_told = end.status == wanted.status && end.told.as_str() == wanted.told;
    let is_front = wanted.text.starts_with(end.written.as_str());
    if !is_told || !is_front || bytes < wanted.least || wanted.most < bytes {
        panic!(rt; "{words:?} {text:?}: {}{}", end.told, end.written);
    }
    Counts {
        bytes,
        calls: end.before.len(),
        flushes: end.flushes,
        asked: end.asked,
    }
}
