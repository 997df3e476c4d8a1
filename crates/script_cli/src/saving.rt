//! Files that are written whole, or not at all; and what is not a file, which is written in place.

ghost use Rattle.std.specs.Prelude.{◌≡◌, ◌&&◌, ◌||◌, ◌*◌, bit_and, bit_or, codes, false, true};
ghost use Rattle.std.specs.Str.{bytes_eq};

use std::alloc::{AllocError, AllocGlobal, Global};
use std::fs::{Metadata, OpenFile, OpenOptions, Permissions};
use std::io::{ErrorKind, Write};
use std::os::unix::fs::{MetadataExt, OpenOptionsExt, PermissionsExt};
use std::path::PathBuf;
use std::rt::Files;
use std::{fs, io};

/// How many links are followed from a path, as many as Linux follows.
const MAX_LINKS: usize = 40;
/// How many names are tried for a new file beside an old one.
const MAX_NAMES: usize = 1000;
/// What a new file lets its user alone do, until it has the rights of the old one.
const OWN_ALONE: u32 = 0o600;
/// What a new file that replaces none lets everybody do, as far as the user's mask allows.
const USUAL: u32 = 0o666;

/// Writes bytes where a path says: `-` and `/dev/stdout` are standard output, all else as in [`replace_file`].
///
/// # Errors
///
/// The system's reason.
pub fn write_out<R: AllocGlobal + Files + Print>(
    rt: &R,
    path: &str,
    bytes: &[u8],
) -> io::Result<()> {
    if is_standard_output(path) {
        return rt.write_all(bytes);
    }
    replace_file(rt, path, bytes)
}

/// Whether a path names standard output.
fn is_standard_output(path: &str) -> bool
    ensures { result ≡ (bytes_eq path.now (codes "-") || bytes_eq path.now (codes "/dev/stdout")) }
{
    path == "-" || path == "/dev/stdout"
}

/// Writes bytes into what a path names, and follows links.
///
/// A file is replaced by a new one that is written beside it, `PATH.new` or with a number after it, and has its rights. Where this fails, the old
/// file is as it was. What is not a file, a device or a pipe, is written in place, and an open file of a process (`/dev/stderr`, `/dev/fd/3`) after
/// what it has.
///
/// # Errors
///
/// The system's reason, also where the old file may not be written.
pub fn replace_file<R: AllocGlobal + Files>(rt: &R, path: &str, bytes: &[u8]) -> io::Result<()> {
    let old = match OpenOptions::new().write(true).open(rt, path) {
        Ok(mut there) => {
            let about = there.metadata()?;
            if !about.is_file() {
                return there.write_all(bytes);
            }
            Some(about)
        }
        Err(why) if why.kind() == ErrorKind::NotFound => None,
        Err(why) => return Err(why),
    };
    match target_of(rt, path)? {
        Some(target) => put_in_place(rt, target.as_str(), old.as_ref(), bytes),
        None => OpenOptions::new()
            .append(true)
            .open(rt, path)?
            .write_all(bytes),
    }
}

/// The path that links lead to, whether something is there or not; none where they lead to an open file of a process.
fn target_of<R: AllocGlobal + Files>(rt: &R, path: &str) -> io::Result<Option<PathBuf>> {
    let alloc = rt.alloc();
    let mut at = PathBuf::from_str(alloc, path)?;
    for _ in 0..=MAX_LINKS {
        if !is_link(rt, at.as_str())? {
            return Ok(Some(at));
        }
        if at.as_str().starts_with("/proc/") || at.as_str().starts_with("/dev/fd/") {
            return Ok(None);
        }
        let link = rt.read_link(alloc, at.as_str())?;
        at = match at.parent() {
            Some(folder) => folder.join(alloc, link.as_str())?,
            None => link,
        };
    }
    Err(io::Error::from(ErrorKind::FilesystemLoop))
}

/// Whether a path is a link; one that names nothing is not one.
fn is_link<R: Files>(rt: &R, path: &str) -> io::Result<bool> {
    match fs::symlink_metadata(rt, path) {
        Ok(about) => Ok(about.is_symlink()),
        Err(why) if why.kind() == ErrorKind::NotFound => Ok(false),
        Err(why) => Err(why),
    }
}

/// Writes bytes into a new file beside a path, and puts that in its place.
fn put_in_place<R: AllocGlobal + Files>(
    rt: &R,
    path: &str,
    old: Option<&Metadata>,
    bytes: &[u8],
) -> io::Result<()> {
    let mode = if old.is_some() { OWN_ALONE } else { USUAL };
    let (new, mut file) = open_beside(rt, path, mode)?;
    let written = match fill(rt, new.as_str(), &mut file, old, bytes) {
        Ok(()) => fs::rename(rt, new.as_str(), path),
        Err(why) => Err(why),
    };
    if written.is_err() {
        // What went wrong first is what is told.
        let _ = fs::remove_file(rt, new.as_str());
    }
    written
}

/// Makes a new file beside a path, under the first name that nothing has: what a run that ended early left is not in the way.
fn open_beside<R: AllocGlobal + Files>(
    rt: &R,
    path: &str,
    mode: u32,
) -> io::Result<(String, R::File)> {
    let mut options = OpenOptions::new();
    options.write(true).create_new(true).mode(mode);
    let mut new = format!(in rt.alloc(); "{path}.new")?;
    for number in 1..MAX_NAMES {
        match options.open(rt, new.as_str()) {
            Ok(file) => return Ok((new, file)),
            Err(why) if why.kind() == ErrorKind::AlreadyExists => {}
            Err(why) => return Err(why),
        }
        new = format!(in rt.alloc(); "{path}.new{number}")?;
    }
    Err(io::Error::from(ErrorKind::AlreadyExists))
}

/// Writes bytes into a new file and onto the disk, and gives it the rights of the old one.
fn fill<R: Files>(
    rt: &R,
    new: &str,
    file: &mut R::File,
    old: Option<&Metadata>,
    bytes: &[u8],
) -> io::Result<()> {
    file.write_all(bytes)?;
    if let Some(old) = old {
        keep_rights(rt, new, file, old)?;
    }
    file.sync_all()
}

/// Gives a new file the mode of an old one, and its user and group where the system lets it.
fn keep_rights<R: Files>(rt: &R, new: &str, file: &R::File, old: &Metadata) -> io::Result<()> {
    let made = file.metadata()?;
    let user = made.uid() == old.uid() || rt.chown(new, Some(old.uid()), None).is_ok();
    let group = made.gid() == old.gid() || rt.chown(new, None, Some(old.gid())).is_ok();
    let mode = kept_mode(old.mode(), user, group);
    file.set_permissions(Permissions::from_mode(mode))
}

/// The mode of a file in the place of one with this mode. Where its user or its group is another, it has none of the bits above the nine of permissions; a
/// group that is another may do what everybody may.
fn kept_mode(mode: u32, same_user: bool, same_group: bool) -> u32
    ensures same { (same_user && same_group) ≡ true → result ≡ bit_and mode 0o7777 }
    ensures other_user { (same_user ≡ false) → (same_group ≡ true) → result ≡ bit_and mode 0o777 }
    ensures other_group { same_group ≡ false → result ≡ bit_or (bit_and mode 0o707) (bit_and mode 0o007 * 8) }
{
    match (same_user, same_group) {
        (true, true) => mode & 0o7777,
        (false, true) => mode & 0o777,
        (_, false) => (mode & 0o707) | ((mode & 0o007) * 8),
    }
}

/// The sentence that a file was not written, with the system's reason.
///
/// # Errors
///
/// Where memory is refused.
pub fn not_written(alloc: Global, path: &str, why: &io::Error) -> Result<String, AllocError> {
    format!(in alloc; "'{path}' is not written: {why}\n")
}
