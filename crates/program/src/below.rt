//! What is below the line of a fault.

ghost use Rattle.std.specs.Prelude.{◌≡◌};
ghost use Rattle.command_line.specs.Asked.{given_of};
ghost use Rattle.program.specs.Performing.{options_of};

use command_line::CommandOptions;
use script_cli::transcripts::{BadOption, OPTIONS, out_of_range};
use script_cli::{LineFault, MAX_SCRIPT, RunFault, split_line, transcripts};
use std::alloc::{AllocError, Global};
use texts::faults::{Grammar, Place, explain, line_at, put_line, word_from};

/// The bytes of a byte order mark.
const MARK: [u8; 3] = [0xEF, 0xBB, 0xBF];

/// The lines of a text; none where memory is refused.
pub(crate) fn lines_or_none(alloc: Global, text: Result<String, AllocError>) -> String {
    match text {
        Ok(text) => text,
        Err(_) => String::new(alloc),
    }
}

/// The line of this number of a script, and what is wrong with it.
fn faulty_line(
    alloc: Global,
    grammar: Grammar,
    script: &[u8],
    number: u32,
    fault: LineFault,
) -> Result<String, AllocError> {
    match line_at(script, number) {
        Some(line) => {
            let mut text = explain(alloc, grammar, line, fault)?;
            put_mark(&mut text, script, number, fault)?;
            Ok(text)
        }
        None => Ok(String::new(alloc)),
    }
}

/// Puts that a text begins with a byte order mark, where that is why its first line is at fault.
pub(crate) fn put_mark(
    out: &mut String,
    script: &[u8],
    number: u32,
    fault: LineFault,
) -> Result<(), AllocError> {
    if number == 1 && fault == LineFault::NotAscii && script.starts_with(&MARK) {
        out.push_str("these three bytes are a byte order mark; save the text without it\n")?;
    }
    Ok(())
}

/// What a world is opened with, of the options of a command.
pub(crate) fn world_of(options: &CommandOptions<'_>) -> transcripts::Options
    ensures { result ≡ options_of (given_of options.now) }
{
    transcripts::Options {
        config: options.config,
        blocks: options.blocks,
    }
}

/// The options that lie outside of their ranges.
fn bad_sizes(alloc: Global, options: &CommandOptions<'_>) -> Result<String, AllocError> {
    out_of_range(alloc, &world_of(options).sizes())
}

/// Where a word of options is in the first line of a text.
pub(crate) fn place_of_option(text: &[u8], bad: BadOption<'_>) -> Place {
    let (line, _) = split_line(text);
    let end = line.len();
    let mut place = Place { start: 0, end: 0 };
    let mut at = OPTIONS.len().min(end);
    for _ in 0..=bad.before {
        match word_from(line, at) {
            Some(next) => {
                at = next.end;
                place = next;
            }
            None => return Place { start: end, end },
        }
    }
    place
}

/// What is told of a word of the first line that says no option: the line, a caret under the word, and a sentence.
fn bad_option(alloc: Global, text: &[u8], bad: BadOption<'_>) -> Result<String, AllocError> {
    let (line, _) = split_line(text);
    let Place { start, end } = place_of_option(text, bad);
    let mut out = String::new(alloc);
    put_line(&mut out, line, start, end)?;
    let (word, why) = (bad.word.escape_ascii(), bad.why);
    write!(out, "'{word}' does not fit: {why}\n")?;
    Ok(out)
}

/// What more is told where the first line of a script says invalid options.
pub(crate) fn below_options(alloc: Global, text: &[u8], bad: BadOption<'_>) -> String {
    lines_or_none(alloc, bad_option(alloc, text, bad))
}

/// What more is told of a script that is at fault.
pub(crate) fn below_script(
    alloc: Global,
    grammar: Grammar,
    script: &[u8],
    fault: RunFault,
) -> String {
    let text = match fault {
        RunFault::Line { number, fault } => faulty_line(alloc, grammar, script, number, fault),
        RunFault::TooLong => format!(in alloc; "a script has {MAX_SCRIPT} bytes at most\n"),
        _ => Ok(String::new(alloc)),
    };
    lines_or_none(alloc, text)
}

/// What more is told of a run that did not end well.
pub(crate) fn below_run(
    alloc: Global,
    grammar: Grammar,
    script: &[u8],
    options: &CommandOptions<'_>,
    fault: RunFault,
) -> String {
    match fault {
        RunFault::BadConfig => lines_or_none(alloc, bad_sizes(alloc, options)),
        RunFault::NoPages { need, free } => {
            let text = format!(in alloc;
                "the queues take {need} pages, and the pool has {free}: give more --pages, fewer --queues or fewer --entries\n"
            );
            lines_or_none(alloc, text)
        }
        fault => below_script(alloc, grammar, script, fault),
    }
}
