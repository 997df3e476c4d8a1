//! Where what is answered goes.

use script_cli::{RunFault, flush, not_written, put};
use std::alloc::{AllocError, AllocGlobal};
use std::fs::OpenOptions;
use std::io;
use std::io::Write;
use std::rt::Files;

/// A writer, and the path of the file that takes what is answered in its place, if there is one.
#[derive(Drop)]
pub(crate) struct Sink<'a, W> {
    writer: &'a mut W,
    path: Option<String>,
}

/// Makes a file, or cuts it.
fn begin_file<R: Files>(rt: &R, path: &str) -> io::Result<()> {
    let mut options = OpenOptions::new();
    options.write(true).create(true).truncate(true);
    options.open(rt, path)?;
    Ok(())
}

/// Adds a text after what a file has.
fn put_behind<R: Files>(rt: &R, path: &str, text: &str) -> io::Result<()> {
    OpenOptions::new()
        .append(true)
        .open(rt, path)?
        .write_all(text.as_bytes())
}

/// Adds a text after what a file has, and answers a sentence where that fails.
fn append<R: AllocGlobal + Files>(
    rt: &R,
    path: &str,
    text: &str,
) -> Result<Option<String>, AllocError> {
    match put_behind(rt, path, text) {
        Ok(()) => Ok(None),
        Err(why) => Ok(Some(not_written(rt.alloc(), path, &why)?)),
    }
}

impl<'a, W: Write> Sink<'a, W> {
    /// What is answered goes to a writer.
    pub(crate) fn new(writer: &'a mut W) -> Sink<'a, W> {
        Sink { writer, path: None }
    }

    /// Says something on the writer, wherever what is answered goes.
    pub(crate) fn say(&mut self, text: &str) -> Result<(), RunFault> {
        put(self.writer, text.as_bytes())
    }

    /// Hands on all that was put.
    pub(crate) fn flush(&mut self) -> Result<(), RunFault> {
        flush(self.writer)
    }

    /// Puts what is answered. A file that does not take it is left, and that is said.
    pub(crate) fn put<R: AllocGlobal + Files>(
        &mut self,
        rt: &R,
        text: &str,
    ) -> Result<(), RunFault> {
        let end = match &self.path {
            Some(path) => Some(append(rt, path, text)?),
            None => None,
        };
        match end {
            None => self.say(text),
            Some(None) => Ok(()),
            Some(Some(why)) => {
                self.path = None;
                self.say(&why)?;
                self.say(text)
            }
        }
    }

    /// Lets what is answered go to a file, which is made or cut, or where none is named to the writer again.
    pub(crate) fn turn<R: AllocGlobal + Files>(
        &mut self,
        rt: &R,
        path: Option<String>,
    ) -> Result<(), RunFault> {
        self.path = None;
        let path = match path {
            Some(path) if path.as_str() != "-" => path,
            _ => return self.say("ok\n"),
        };
        match begin_file(rt, &path) {
            Ok(()) => {
                self.path = Some(path);
                self.say("ok\n")
            }
            Err(why) => {
                let text = not_written(rt.alloc(), &path, &why)?;
                self.say(&text)
            }
        }
    }
}
