//! A terminal on which lines are typed.

use std::io;
use std::io::Read;

/// Gives what is typed, byte by byte, and prints it as a terminal does.
#[derive(Drop)]
pub(crate) struct Terminal<'a, R> {
    /// Where it is printed.
    pub rt: &'a R,
    /// What is still to be typed.
    pub rest: &'a str,
}

impl<R: Print> Read for Terminal<'_, R> {
    fn read(&mut self, buf: &mut [u8]) -> io::Result<usize> {
        let Some(first) = buf.first_mut() else {
            return Ok(0);
        };
        let Some((typed, rest)) = self.rest.split_at_checked(1) else {
            return Ok(0);
        };
        let Some(byte) = typed.as_bytes().first() else {
            return Ok(0);
        };
        print!(self.rt; "{typed}")?;
        *first = *byte;
        self.rest = rest;
        Ok(1)
    }
}
