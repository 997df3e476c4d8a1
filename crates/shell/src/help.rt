//! What the shell says of its words.

use crate::dot_word::{DOT_WORDS, DotWord};
use crate::fault::put_unknown;
use script_cli::{VERBS, Verb};
use std::alloc::{AllocError, Global};
use texts::faults::form_text;

/// What comes between the words with a dot and the steps.
const STEPS: &str =
    "Each other line is a step of a script, and answers what `nvmesgl steps` prints for it:
";

/// What comes at the end.
const KEYS: &str = "Lines that were typed come back with the arrow keys in: rlwrap nvmesgl shell
";

/// Says what there is to say.
fn put_all(alloc: Global, out: &mut String) -> Result<(), AllocError> {
    for dot in DOT_WORDS {
        let (form, about) = (dot.form(), dot.about());
        write!(out, "{form:<34}  {about}\n")?;
    }
    out.push_str(STEPS)?;
    for verb in VERBS {
        let form = form_text(alloc, verb)?;
        let form = form.as_str();
        write!(out, "{form}\n")?;
    }
    out.push_str(KEYS)
}

/// Says the form of a word or of a step.
fn put_one(alloc: Global, out: &mut String, word: &str) -> Result<(), AllocError> {
    if let Some(verb) = Verb::named(word.as_bytes()) {
        let form = form_text(alloc, verb)?;
        let form = form.as_str();
        return write!(out, "{form}\n");
    }
    match DotWord::named(word) {
        Some(dot) => {
            let (form, about) = (dot.form(), dot.about());
            write!(out, "{form}  {about}\n")
        }
        None => put_unknown(alloc, out, word),
    }
}

/// Says what there is to say, or the form of one word.
pub(crate) fn say_help(
    alloc: Global,
    out: &mut String,
    word: Option<&str>,
) -> Result<(), AllocError> {
    match word {
        None => put_all(alloc, out),
        Some(word) => put_one(alloc, out, word),
    }
}
