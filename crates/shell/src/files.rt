//! Files that a line names, and why one was not read.

use script_cli::{ImageFault, read_image};
use std::alloc::{AllocError, AllocGlobal};
use std::fs::File;
use std::io;
use std::rt::Files;
use step_core::Image;
use texts::noted::Noted;

/// The path that is standard input where one is read, which the lines of a session come from.
const STANDARD: &str = "-";

/// Why a file gave no bytes, or no image.
#[derive(Drop)]
pub(crate) enum NotRead {
    /// It was not opened or read, for the system's reason.
    Because(io::Error),
    /// It is none.
    Fault(ImageFault),
    /// Standard input has the lines.
    Lines,
}

/// Opens a file that is read.
pub(crate) fn open_file<R: Files>(rt: &R, path: &str) -> Result<Noted<R::File>, NotRead> {
    if path == STANDARD {
        return Err(NotRead::Lines);
    }
    match File::open(rt, path) {
        Ok(file) => Ok(Noted::over(file)),
        Err(why) => Err(NotRead::Because(why)),
    }
}

/// Why a read failed, by the system's number of its reason.
pub(crate) fn unread(code: Option<i32>) -> NotRead {
    match code {
        Some(code) => NotRead::Because(io::Error::from_raw_os_error(code)),
        None => NotRead::Fault(ImageFault::Unreadable),
    }
}

/// Puts why a file was not read.
pub(crate) fn put_not_read(out: &mut String, path: &str, why: &NotRead) -> Result<(), AllocError> {
    match why {
        NotRead::Because(why) => write!(out, "'{path}': {why}\n"),
        NotRead::Fault(ImageFault::Unreadable) => write!(out, "'{path}' could not be read\n"),
        NotRead::Fault(why) => write!(out, "'{path}': {why}\n"),
        NotRead::Lines => write!(
            out,
            "'{path}': standard input has the lines of this session; name a file\n"
        ),
    }
}

/// The image that a file is.
pub(crate) fn file_image<R: AllocGlobal + Files>(rt: &R, path: &str) -> Result<Image, NotRead> {
    let mut file = open_file(rt, path)?;
    match read_image(rt.alloc(), &mut file) {
        Ok(image) => Ok(image),
        Err(ImageFault::Unreadable) => Err(unread(file.code())),
        Err(why) => Err(NotRead::Fault(why)),
    }
}
