//! The bytes of files that lines name.

use crate::explain::dump::Dump;
use crate::explain::fault::Wrong;
use crate::explain::lines::{Line, Stop, digit_of};
use script_cli::{MAX_LINES, MAX_SCRIPT, ReadFault, read_first, split_line, words_of};
use std::alloc::{AllocError, AllocGlobal, Global};
use std::fs::File;
use std::rt::Files;
use std::str;
use texts::faults::{Place, word_from};
use texts::noted::Noted;

/// The folder of a file, with its last slash; nothing where the path has none.
pub(crate) fn folder_of(path: &str) -> &str {
    match path.rfind('/') {
        Some(slash) => path.get(..=slash).unwrap_or(""),
        None => "",
    }
}

/// The path of a file that a line names: `-` is the standard input, and others are relative to a folder.
fn path_of(alloc: Global, folder: &str, name: &str) -> Result<String, AllocError> {
    let mut path = String::new(alloc);
    if name == "-" {
        path.push_str("/dev/stdin")?;
        return Ok(path);
    }
    if !name.starts_with('/') {
        path.push_str(folder)?;
    }
    path.push_str(name)?;
    Ok(path)
}

/// Whether a byte is one of a text.
fn is_text(byte: u8) -> bool {
    matches!(byte, b' '..=b'~' | b'\t' | b'\n' | b'\r')
}

/// Whether a file is a dump, and not the bytes themselves: text that ends with a line feed, and whose first word can be bytes or an offset.
fn is_dump(text: &[u8]) -> bool {
    if !matches!(text, [.., b'\n']) || !text.iter().all(|byte| is_text(*byte)) {
        return false;
    }
    let (first, _) = split_line(text);
    let Some(place) = word_from(first, 0) else {
        return false;
    };
    let word = first.get(place.start..place.end).unwrap_or(&[]);
    word == "unsigned".as_bytes()
        || word.iter().all(|byte| {
            digit_of(*byte).is_some() || matches!(*byte, b'x' | b':' | b'-' | b',' | b'*')
        })
}

/// The bytes of a dump that a file is, this many at most. The place is that of the word that names the file.
fn dumped(alloc: Global, place: Place, text: &[u8], most: usize) -> Result<Vec<u8>, Stop> {
    let mut dump = Dump::begin(alloc, most);
    let mut bytes = Vec::new(alloc);
    let mut rest = text;
    for number in 1..=MAX_LINES {
        if rest.is_empty() {
            break;
        }
        let (first, after) = split_line(rest);
        if words_of(first).is_err() {
            return Err(Stop::At(place, Wrong::NoDump(number)));
        }
        let mut line = Line::of(first);
        match dump.line(alloc, &mut line) {
            Ok(more) => bytes.extend_from_slice(more.as_slice())?,
            Err(Stop::Memory) => return Err(Stop::Memory),
            Err(Stop::At(_, wrong @ Wrong::TooManyBytes { .. })) => {
                return Err(Stop::At(place, wrong));
            }
            Err(Stop::At(..) | Stop::Before(..)) => {
                return Err(Stop::At(place, Wrong::NoDump(number)));
            }
        }
        if line.peek().is_some() {
            return Err(Stop::At(place, Wrong::NoDump(number)));
        }
        rest = after;
    }
    bytes.truncate(dump.filled());
    Ok(bytes)
}

/// The bytes of a file, this many at most: those it holds, or those that a dump in it has. The place is that of the word that names it, `@` and the
/// file.
pub(crate) fn file_bytes<R: AllocGlobal + Files>(
    rt: &R,
    folder: &str,
    place: Place,
    word: &[u8],
    most: usize,
) -> Result<Vec<u8>, Stop> {
    let alloc = rt.alloc();
    let Ok(name) = str::from_utf8(word.get(1..).unwrap_or(&[])) else {
        return Err(Stop::At(place, Wrong::NoFile(None)));
    };
    let path = path_of(alloc, folder, name)?;
    let mut file = match File::open(rt, path.as_str()) {
        Ok(file) => Noted::over(file),
        Err(why) => return Err(Stop::At(place, Wrong::NoFile(why.raw_os_error()))),
    };
    let bytes = match read_first(alloc, &mut file, MAX_SCRIPT) {
        Ok(bytes) => bytes,
        Err(ReadFault::Unreadable) => {
            return Err(Stop::At(place, Wrong::NoFile(file.code())));
        }
        Err(ReadFault::Memory) => return Err(Stop::Memory),
    };
    if is_dump(bytes.as_slice()) {
        return dumped(alloc, place, bytes.as_slice(), most);
    }
    if bytes.len() > most {
        return Err(Stop::At(place, Wrong::TooManyBytes { most, found: None }));
    }
    Ok(bytes)
}
