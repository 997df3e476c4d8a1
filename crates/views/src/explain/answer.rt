//! Cases that are read and explained.

use crate::explain::case::{Case, read_case};
use crate::explain::case_json::put_objects;
use crate::explain::command::explain;
use crate::explain::fault::CaseFault;
use crate::explain::files::folder_of;
use crate::explain::text::put_explanation;
use entry_codec::{Status, SubEntry};
use std::alloc::{AllocError, AllocGlobal, Global};
use std::rt::Files;

/// How an explanation is written.
#[derive(Clone, Copy, Debug, PartialEq, Eq)]
pub enum Layout {
    /// As lines for people.
    Lines,
    /// As JSON, one object on each line.
    Objects,
}

/// What is printed of a case, and how its command ends.
#[derive(Debug, Drop)]
pub struct Explained {
    /// The lines, each with its line feed.
    pub text: String,
    /// The status that the command completes with.
    pub status: Status,
}

/// Explains a case.
fn answer_of(alloc: Global, case: Case, layout: Layout) -> Result<Explained, AllocError> {
    let mut case = case;
    let entry = SubEntry::read(&case.entry);
    let explanation = explain(alloc, &entry, &case.namespace, &mut case.memory)?;
    let mut text = String::new(alloc);
    match layout {
        Layout::Lines => put_explanation(&mut text, &case, &explanation)?,
        Layout::Objects => put_objects(alloc, &mut text, &case, &explanation)?,
    }
    Ok(Explained {
        text,
        status: explanation.status,
    })
}

/// Reads a case from lines, and explains it. Files that lines name are relative to the folder of the path that the lines are in, or, without a path,
/// to the working folder.
///
/// # Errors
///
/// Those of [`read_case`].
pub fn explain_text<R: AllocGlobal + Files>(
    rt: &R,
    path: Option<&str>,
    text: &[u8],
    layout: Layout,
) -> Result<Explained, CaseFault> {
    let case = read_case(rt, folder_of(path.unwrap_or("")), text)?;
    match answer_of(rt.alloc(), case, layout) {
        Ok(answer) => Ok(answer),
        Err(_) => Err(CaseFault::Memory),
    }
}
