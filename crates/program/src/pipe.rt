//! Whether the reader of the output has closed it.

use std::io;
use std::io::{ErrorKind, Write};

/// A writer that notices where the pipe behind it is closed.
#[derive(Drop)]
pub(crate) struct Pipe<W> {
    writer: W,
    closed: bool,
}

impl<W> Pipe<W> {
    /// A writer over this one.
    pub(crate) fn over(writer: W) -> Pipe<W> {
        Pipe {
            writer,
            closed: false,
        }
    }

    /// Whether the pipe was closed.
    pub(crate) fn is_closed(&self) -> bool {
        self.closed
    }
}

impl<W: Write> Write for Pipe<W> {
    fn write(&mut self, buf: &[u8]) -> io::Result<usize> {
        match self.writer.write(buf) {
            Ok(n) => Ok(n),
            Err(why) => {
                self.closed = why.kind() == ErrorKind::BrokenPipe;
                Err(why)
            }
        }
    }

    fn flush(&mut self) -> io::Result<()> {
        match self.writer.flush() {
            Ok(()) => Ok(()),
            Err(why) => {
                self.closed = why.kind() == ErrorKind::BrokenPipe;
                Err(why)
            }
        }
    }
}
