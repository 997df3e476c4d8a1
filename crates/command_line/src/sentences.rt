//! What is said of words that cannot be read.

use crate::commands::{
    BLOCKS, DEPTH, ENTRIES, LOG_LIMIT, Number, PAGES, QUEUES, SEGMENT, SUBMITTERS,
};
use crate::load_options;
use clap::Error;
use clap::error::ErrorKind;
use std::alloc::{AllocError, Global};

/// The options that are numbers.
static NUMBERS: [Number; 13] = [
    PAGES,
    QUEUES,
    ENTRIES,
    SEGMENT,
    BLOCKS,
    SUBMITTERS,
    DEPTH,
    LOG_LIMIT,
    load_options::SUBMITTERS,
    load_options::DEPTH,
    load_options::READS,
    load_options::SEED,
    load_options::COUNT,
];

/// What clap says of a number that has other characters than digits.
const NO_NUMBER: &str = "invalid digit found in string";

/// What clap says after a number that is above all that it takes.
const TOO_LARGE: &str = " is not in 0..=4294967295";

/// What clap says of a word that no option takes.
const TIP: &str = "tip: to pass '";

/// The option of this name, if it is a number.
fn number_named(name: &str) -> Option<Number> {
    for number in &NUMBERS {
        if number.name() == name {
            return Some(*number);
        }
    }
    None
}

/// Says of a text about an option that is a number what is expected there; any other text as it is.
fn with_range(alloc: Global, text: String) -> Result<String, AllocError> {
    let Some((front, back)) = text.as_str().split_once(" <N>': ") else {
        return Ok(text);
    };
    let Some((why, rest)) = back.split_once('\n') else {
        return Ok(text);
    };
    let (Some((_, name)), true) = (
        front.rsplit_once("'--"),
        why == NO_NUMBER || why.ends_with(TOO_LARGE),
    ) else {
        return Ok(text);
    };
    let Some(number) = number_named(name) else {
        return Ok(text);
    };
    let (least, most) = number.range;
    format!(in alloc; "{front} <N>': a decimal number from {least} to {most} is wanted\n{rest}")
}

/// Whether a word looks like a negative number.
fn is_negative(word: &str) -> bool {
    match word.strip_prefix('-') {
        Some(rest) => rest.parse::<u64>().is_ok(),
        None => false,
    }
}

/// Says of a text about a word that no option takes that this is no negative number; any other text as it is.
fn without_tip(alloc: Global, text: String) -> Result<String, AllocError> {
    let Some((front, back)) = text.as_str().split_once(TIP) else {
        return Ok(text);
    };
    let (Some((word, _)), Some((_, rest))) = (back.split_once('\''), back.split_once('\n')) else {
        return Ok(text);
    };
    if !is_negative(word) {
        return Ok(text);
    }
    format!(in alloc; "{front}tip: no option takes a negative number\n{rest}")
}

/// The text of an error, whole lines for standard error. Of a number it says which are wanted, and of a negative one that there are none.
///
/// # Errors
///
/// Where memory is refused.
pub fn sentence(alloc: Global, why: &Error) -> Result<String, AllocError> {
    let text = format!(in alloc; "{why}")?;
    match why.kind() {
        ErrorKind::ValueValidation => with_range(alloc, text),
        ErrorKind::UnknownArgument => without_tip(alloc, text),
        _ => Ok(text),
    }
}
