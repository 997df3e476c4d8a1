//! The text of a transcript with what was printed in place of what is there.

use crate::transcripts::options::OPTIONS;
use crate::transcripts::read::{Told, answer_of};
use std::alloc::{AllocError, Global};

/// The number of the line below which the answers of a line of the script are: its own, or that of the first answer. It is 0 for what must be
/// printed before any step, where nothing is there.
fn place_of(told: &Told) -> u32 {
    match told.answers.first() {
        Some(answer) => answer.number,
        None => told.number,
    }
}

/// Puts what a line printed, as answers.
fn put_answers(out: &mut String, printed: &str) -> Result<(), AllocError> {
    for line in printed.lines() {
        out.push_str("> ")?;
        out.push_str(line)?;
        out.push_str("\n")?;
    }
    Ok(())
}

/// Whether a line is the one that says the options.
fn says_options(number: u32, line: &str) -> bool {
    number == 1 && line.starts_with(OPTIONS)
}

/// The text of a transcript, with what each of its lines printed in place of what is there: where the answers of a line begin, or else just
/// below it. If there is a line of options, it is the first one, in place of the one that says them. All other lines stay; each line ends with a line feed.
///
/// # Errors
///
/// Where memory is refused.
pub(crate) fn updated_text(
    alloc: Global,
    text: &str,
    options: Option<&str>,
    told: &[Told],
    printed: &[String],
) -> Result<String, AllocError> {
    let mut out = String::new(alloc);
    if let Some(options) = options {
        write!(out, "{options}\n")?;
    }
    let mut number = 0u32;
    let mut left = told.iter().zip(printed.iter()).peekable();
    // Before any step nothing is printed, but the counts where there is none.
    left.next_if(|(told, printed)| place_of(told) == 0 && printed.is_empty());
    for line in text.lines() {
        number = number.saturating_add(1);
        let is_replaced = options.is_some() && says_options(number, line);
        if answer_of(line).is_none() && !is_replaced {
            out.push_str(line)?;
            out.push_str("\n")?;
        }
        if let Some((_, printed)) = left.next_if(|(told, _)| place_of(told) == number) {
            put_answers(&mut out, printed)?;
        }
    }
    for (_, printed) in left {
        put_answers(&mut out, printed)?;
    }
    Ok(out)
}
