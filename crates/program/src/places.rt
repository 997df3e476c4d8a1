//! Where a fault is, as editors read it.

ghost use Rattle.std.specs.Prelude.{◌≡◌, IfSome, MatchOption, Some, false, true};
ghost use Rattle.command_line.specs.Asked.{path_of};
ghost use Rattle.program.specs.Performing.{is_file};

use script_cli::LineFault;
use std::alloc::{AllocError, Global};
use texts::faults::{Grammar, find};

/// The name of standard input.
pub(crate) const STANDARD: &str = "-";

/// The path of a script that is not standard input.
pub(crate) fn file_of(path: Option<&str>) -> Option<&str>
    ensures file { MatchOption result (is_file (path_of path.entry) ≡ false) (λ file. is_file (path_of path.entry) ≡ true) }
    ensures path { IfSome result (λ file. path_of path.entry ≡ Some file.now) }
{
    match path {
        Some(path) if path != STANDARD => Some(path),
        _ => None,
    }
}

/// The column of the word of a line that is at fault, from 1.
pub(crate) fn column_of(alloc: Global, grammar: Grammar, line: &[u8]) -> Result<usize, AllocError> {
    match find(alloc, grammar, line)? {
        Some(found) => Ok(found.start.saturating_add(1)),
        None => Ok(1),
    }
}

/// A place: `FILE:LINE:COLUMN`.
pub(crate) fn place(
    alloc: Global,
    path: &str,
    number: u32,
    column: usize,
) -> Result<String, AllocError> {
    format!(in alloc; "{path}:{number}:{column}")
}

/// Puts the line of a fault of a script: its place in a file, or the number of its line, and its name.
pub(crate) fn put_head(
    out: &mut String,
    path: Option<&str>,
    number: u32,
    column: usize,
    fault: LineFault,
) -> Result<(), AllocError> {
    match path {
        Some(path) => write!(out, "{path}:{number}:{column}: {fault}\n"),
        None => write!(out, "line {number}: {fault}\n"),
    }
}
