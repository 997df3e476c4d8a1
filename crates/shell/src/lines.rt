//! The lines of a session.

use script_cli::{RunFault, split_line};
use std::alloc::Global;
use std::io;
use std::io::{BufRead, ErrorKind, Read};

/// The most bytes that are kept of a line: as many as a good one has, with carriage return and line feed.
const MOST: u64 = 16_386;

/// What is said of a read that failed.
fn unread(why: &io::Error) -> RunFault {
    if why.kind() == ErrorKind::OutOfMemory {
        RunFault::Memory
    } else {
        RunFault::Unreadable
    }
}

/// Reads a line with its line feed; the last one may have none. It is empty at the end of input. Of a line that is too long its first part is
/// kept, which is too long as well, and the rest is passed over.
pub(crate) fn read_line<B: BufRead>(reader: &mut B, line: &mut Vec<u8>) -> Result<(), RunFault> {
    line.clear();
    let mut front = reader.by_ref().take(MOST);
    if let Err(why) = front.read_until(b'\n', line) {
        return Err(unread(&why));
    }
    if (line.len() as u64) < MOST || line.ends_with(b"\n") {
        return Ok(());
    }
    match reader.skip_until(b'\n') {
        Ok(_) => Ok(()),
        Err(why) => Err(unread(&why)),
    }
}

/// The most files that are read within one another.
const MOST_FILES: usize = 16;

/// A file whose lines are answered.
#[derive(Drop)]
struct Played {
    text: Vec<u8>,
    /// Where its next line begins.
    at: usize,
    /// How many lines came.
    number: u32,
}

impl Played {
    /// Puts the next line of the file, with its line feed, in the place of a line. None where there is none.
    fn next(&mut self, line: &mut Vec<u8>) -> Result<Option<u32>, RunFault> {
        line.clear();
        if self.at >= self.text.len() {
            return Ok(None);
        }
        let rest = &self.text[self.at..];
        let (_, after) = split_line(rest);
        let length = rest.len().saturating_sub(after.len());
        if length == 0 {
            return Ok(None);
        }
        line.extend_from_slice(&rest[..length])?;
        self.at = self.at.saturating_add(length);
        self.number = self.number.saturating_add(1);
        Ok(Some(self.number))
    }
}

/// The lines of a session: those of a reader, and of the files that a line names.
#[derive(Drop)]
pub(crate) struct Lines {
    /// The files; the last one is read.
    files: Vec<Played>,
    /// How many lines of the reader came.
    number: u32,
}

impl Lines {
    /// No lines yet.
    pub(crate) fn new(alloc: Global) -> Lines {
        Lines {
            files: Vec::new(alloc),
            number: 0,
        }
    }

    /// Puts the next line of the file that is read in the place of a line, and answers its number. None where no file is read.
    pub(crate) fn of_file(&mut self, line: &mut Vec<u8>) -> Result<Option<u32>, RunFault> {
        for _ in 0..=MOST_FILES {
            let Some(file) = self.files.last_mut() else {
                return Ok(None);
            };
            if let Some(number) = file.next(line)? {
                return Ok(Some(number));
            }
            self.files.pop();
        }
        Ok(None)
    }

    /// Puts the next line of a reader in the place of a line, and answers its number. None at its end.
    pub(crate) fn of_reader<B: BufRead>(
        &mut self,
        reader: &mut B,
        line: &mut Vec<u8>,
    ) -> Result<Option<u32>, RunFault> {
        read_line(reader, line)?;
        if line.is_empty() {
            return Ok(None);
        }
        self.number = self.number.saturating_add(1);
        Ok(Some(self.number))
    }

    /// Whether one more file can be read within those that are.
    pub(crate) fn has_room(&self) -> bool {
        self.files.len() < MOST_FILES
    }

    /// Reads the lines of a text next.
    pub(crate) fn push(&mut self, text: Vec<u8>) -> Result<(), RunFault> {
        let file = Played {
            text,
            at: 0,
            number: 0,
        };
        match self.files.push(file) {
            Ok(()) => Ok(()),
            Err(_) => Err(RunFault::Memory),
        }
    }
}
