//! Readers that keep why a read failed.

ghost use Rattle.std.specs.Prelude.{◌≡◌, None, IfErr, OnOk};
ghost use Rattle.std.specs.Io.{ReadsAtMost};
ghost use Rattle.std.specs.Io.KnownBytes.{ReadConsumes};
ghost use Rattle.std.specs.IoError.{raw_os_error};
ghost use Rattle.texts.specs.Reading.{number_of, reader_of};

use std::io;
use std::io::Read;

/// A reader that keeps the system's number of the error with which a read failed.
#[derive(Drop)]
pub struct Noted<R> {
    reader: R,
    code: Option<i32>,
}

impl<R> Noted<R> {
    /// A reader over this one.
    pub fn over(reader: R) -> Noted<R>
        ensures reader { reader_of result ≡ reader }
        ensures number { number_of result ≡ None }
    {
        Noted { reader, code: None }
    }

    /// The number of the error with which the last read failed, if it failed for a reason of the system.
    pub fn code(&self) -> Option<i32>
        ensures { result ≡ number_of self.now }
    {
        self.code
    }
}

impl<R: Read> Read for Noted<R> {
    ghost use Rattle.texts.specs.Reading.{reader_of};

    ghost remaining = { λ noted. R.remaining (reader_of noted) };

    fn read(&mut self, buf: &mut [u8]) -> io::Result<usize>
        ensures bound { ReadsAtMost result buf.new }
        ensures bytes { ReadConsumes (R.remaining (reader_of self.old)) (R.remaining (reader_of self.new)) result buf.new }
        ensures number { IfErr result (λ why. number_of self.new ≡ raw_os_error why) }
        ensures same { OnOk result (number_of self.new ≡ number_of self.old) }
    {
        match self.reader.read(buf) {
            Ok(n) => Ok(n),
            Err(why) => {
                self.code = why.raw_os_error();
                Err(why)
            }
        }
    }
}
