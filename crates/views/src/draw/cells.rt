//! The pages of the pool, as cells.

use page_ledger::{Owner, Role};
use page_memory::{Half, PageNo};
use std::alloc::AllocError;

/// The class of a page of this half of a queue, and the half's name.
fn half_words(half: Half) -> (&'static str, &'static str) {
    match half {
        Half::Submission => ("s", "submission"),
        Half::Completion => ("c", "completion"),
    }
}

/// The class of a page that a command has for this role, and the role's name.
fn role_words(role: Role) -> (&'static str, &'static str) {
    match role {
        Role::Data => ("d", "data"),
        Role::Chain => ("l", "list"),
    }
}

/// Puts the beginning of a cell, with its classes.
fn put_class(out: &mut String, class: &str, marks: &str) -> Result<(), AllocError> {
    write!(out, "<b class=\"{class}{marks}\"")
}

/// Puts the classes of a page's cell, its colour where it has one, and what it says when the pointer is over it.
fn put_owner(out: &mut String, page: usize, owner: Owner, marks: &str) -> Result<(), AllocError> {
    match owner {
        Owner::Free => {
            put_class(out, "f", marks)?;
            write!(out, " title=\"page {page}: free\">")
        }
        Owner::Queue { q, half } => {
            let (class, name) = half_words(half);
            put_class(out, class, marks)?;
            write!(out, " title=\"page {page}: {name} queue {q}\">")
        }
        Owner::Command { q, cid, role } => {
            let (class, name) = role_words(role);
            put_class(out, class, marks)?;
            put_command(out, page, name, q, cid)
        }
    }
}

/// Puts the colour of a command, and what a page says that it owns.
fn put_command(
    out: &mut String,
    page: usize,
    name: &str,
    q: u16,
    cid: u16,
) -> Result<(), AllocError> {
    let hue = hue_of(q, cid);
    write!(
        out,
        " style=\"--h:{hue}\" title=\"page {page}: {name} of command {q} {cid}\">"
    )
}

/// The colour of a command, in degrees. Neighbours lie far apart.
pub(crate) fn hue_of(q: u16, cid: u16) -> u32 {
    (u32::from(q) * 101 + u32::from(cid) * 137) % 360
}

/// Puts the cells of pages, each with its owner and with the one that it had before the step, and marks those that were touched.
pub(crate) fn put_cells(
    out: &mut String,
    before: &[Owner],
    owners: &[Owner],
    touched: &[PageNo],
) -> Result<(), AllocError> {
    out.push_str("<div class=\"pool\">")?;
    for (page, (owner, old)) in owners.iter().zip(before).enumerate() {
        let is_touched = touched.iter().any(|touched| touched.0 as usize == page);
        let marks = match (owner != old, is_touched) {
            (false, false) => "",
            (true, false) => " n",
            (false, true) => " t",
            (true, true) => " n t",
        };
        put_owner(out, page, *owner, marks)?;
        write!(out, "{page}</b>")?;
    }
    out.push_str("</div>\n")
}
