//! A transcript is played on whatever makes its steps.

ghost use Rattle.std.specs.Prelude.{◌≤◌, length, IfOk};

use crate::transcripts::difference::{Difference, first_difference};
use crate::transcripts::read::{Told, Transcript};
use crate::{Line, Verb, append_counts, append_owners, append_reply};
use page_memory::MAX_PAGES;
use std::alloc::{AllocError, Global};
use step_core::{Counts, Owner, PageNo, Reply, Step};

/// What makes steps, over a pool of pages.
pub trait StepMaker {
    /// Makes a step, and answers what it answered. Lack of memory inside the step is such an answer.
    ///
    /// # Errors
    ///
    /// Where memory is refused for what surrounds the step.
    fn step(&mut self, step: &Step) -> Result<Reply, AllocError>;

    /// The owner of a page; `None` for one that the pool does not have.
    fn owner(&self, page: PageNo) -> Option<Owner>;

    /// How many pages are free, and how many belong to queues, to chains and to data.
    fn counts(&self) -> Counts;
}

/// The owners of all pages, in the pages' order.
fn owners<M: StepMaker>(alloc: Global, maker: &M) -> Result<Vec<Owner>, AllocError>
    ensures few { IfOk result (λ owners. length owners.items ≤ 65536) }
{
    let mut owners = Vec::new(alloc);
    for p in 0..MAX_PAGES {
        match maker.owner(PageNo(p)) {
            Some(owner) => owners.push(owner)?,
            None => break,
        }
    }
    owners.truncate(MAX_PAGES as usize);
    Ok(owners)
}

/// What a step prints, without the number of its line.
fn reply_text<M: StepMaker>(
    alloc: Global,
    maker: &mut M,
    step: &Step,
) -> Result<String, AllocError> {
    let reply = maker.step(step)?;
    let mut numbered = String::new(alloc);
    append_reply(&mut numbered, 0, Verb::of(step), &reply)?;
    match numbered.split_once(' ') {
        Some((_, text)) => String::from_str(alloc, text),
        None => Ok(numbered),
    }
}

/// Plays a line of a script, and answers what it prints.
fn line_text<M: StepMaker>(
    alloc: Global,
    maker: &mut M,
    line: &Line,
) -> Result<String, AllocError> {
    match line {
        Line::Step(step) => reply_text(alloc, maker, step),
        Line::Owners => {
            let mut text = String::new(alloc);
            append_owners(&mut text, &owners(alloc, maker)?)?;
            Ok(text)
        }
        Line::Nothing => Ok(String::new(alloc)),
    }
}

/// What a line prints; after the last one come the counts.
pub(crate) fn told_text<M: StepMaker>(
    alloc: Global,
    maker: &mut M,
    told: &Told,
    is_last: bool,
) -> Result<String, AllocError> {
    let mut text = line_text(alloc, maker, &told.line)?;
    if is_last {
        append_counts(&mut text, maker.counts())?;
    }
    Ok(text)
}

/// Plays a transcript, and answers the first difference between what is printed and what is there. Then the steps after it are not made.
///
/// # Errors
///
/// Where memory is refused, but not inside a step.
pub fn play<M: StepMaker>(
    alloc: Global,
    maker: &mut M,
    transcript: &Transcript,
) -> Result<Option<Difference>, AllocError> {
    let told = transcript.told();
    let mut left = told.len();
    for told in told {
        left = left.saturating_sub(1);
        let text = told_text(alloc, maker, told, left == 0)?;
        let found = first_difference(alloc, told, &text)?;
        if found.is_some() {
            return Ok(found);
        }
    }
    Ok(None)
}

/// Plays a transcript to its end, and answers what each of its lines printed.
///
/// # Errors
///
/// Where memory is refused, but not inside a step.
pub fn printed<M: StepMaker>(
    alloc: Global,
    maker: &mut M,
    transcript: &Transcript,
) -> Result<Vec<String>, AllocError> {
    let told = transcript.told();
    let mut left = told.len();
    let mut texts = Vec::new(alloc);
    for told in told {
        left = left.saturating_sub(1);
        texts.push(told_text(alloc, maker, told, left == 0)?)?;
    }
    Ok(texts)
}
