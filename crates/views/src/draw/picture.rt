//! A picture: what a step was and answered, and what the world is after it.

use crate::draw::cells::put_cells;
use crate::draw::commands::{Requests, put_commands};
use crate::draw::escaped::put_escaped;
use crate::draw::rings::put_rings;
use page_ledger::Owner;
use page_memory::PageNo;
use script_cli::append_counts;
use std::alloc::{AllocError, Global};
use step_core::Reply;
use world_bench::Bench;

/// What is above a picture.
#[derive(Clone, Copy)]
pub(crate) struct Caption<'a> {
    /// The line of the script, from 1; 0 for the opening.
    pub(crate) number: u32,
    /// The text of that line.
    pub(crate) line: &'a str,
    /// What the step printed.
    pub(crate) reply: &'a str,
}

/// The pages that a step of the controller touched; none of any other.
pub(crate) fn touched_by(reply: &Reply) -> &[PageNo] {
    match reply {
        Reply::Fetched { touched, .. }
        | Reply::Walked { touched, .. }
        | Reply::Completed { touched }
        | Reply::Refused { touched, .. } => touched.pages(),
        _ => &[],
    }
}

/// Puts which line a picture is of.
fn put_title(out: &mut String, number: u32, line: &str) -> Result<(), AllocError> {
    if number == 0 {
        return out.push_str("as it opens");
    }
    write!(out, "line {number}: <code>")?;
    put_escaped(out, line)?;
    out.push_str("</code>")
}

/// Puts what is above a picture.
fn put_caption(out: &mut String, caption: &Caption<'_>) -> Result<(), AllocError> {
    let number = caption.number;
    write!(out, "<section id=\"line{number}\">\n<h2>")?;
    put_title(out, number, caption.line)?;
    out.push_str("</h2>\n<p class=\"reply\"><code>")?;
    put_escaped(out, caption.reply)?;
    out.push_str("</code></p>\n")
}

/// Puts a picture of a world, where its pages had other owners before.
pub(crate) fn put_picture(
    alloc: Global,
    out: &mut String,
    caption: &Caption<'_>,
    bench: &Bench,
    entries: u16,
    requests: &Requests,
    before: &[Owner],
    owners: &[Owner],
    touched: &[PageNo],
) -> Result<(), AllocError> {
    put_caption(out, caption)?;
    put_cells(out, before, owners, touched)?;
    put_commands(alloc, out, requests, owners)?;
    put_rings(out, bench, entries)?;
    out.push_str("<p class=\"key\">")?;
    append_counts(out, bench.counts())?;
    let hidden = (bench.pages() as usize).saturating_sub(owners.len());
    if hidden > 0 {
        write!(out, "; the last {hidden} pages are not drawn")?;
    }
    out.push_str("</p>\n</section>\n")
}
