//! A transcript is played over a bench of its own, and compared with its text.

ghost use Rattle.std.specs.Prelude.{◌≡◌, ◌≤◌, ◌+◌, IfErr, IfOk, IsUtf8, is_some, length, map, min, option_map, string_bytes};
ghost use Rattle.script_cli.specs.Differences.{difference_text};
ghost use Rattle.script_cli.specs.Outcomes.{difference_of, feeds_in, line_count, placed as spec_placed, IsComparedAs, IsNoText};
ghost use Rattle.script_cli.specs.Transcripts.{told_text};

use crate::LineFault;
use crate::transcripts::bench::OnBench;
use crate::transcripts::difference::{Difference, first_difference};
use crate::transcripts::fault::{OpeningFault, TranscriptFault};
use crate::transcripts::options::Options;
use crate::transcripts::playing::printed;
use crate::transcripts::read::{Told, Transcript, read_transcript};
use crate::transcripts::update::updated_text;
use std::alloc::{AllocError, Global};

/// The most bytes of a transcript.
pub const MAX_TRANSCRIPT: usize = 16_777_216;

/// How a transcript turned out.
#[derive(Debug, Drop)]
pub enum Outcome {
    /// What is printed is what is there.
    Agrees,
    /// What is printed is what is there, but over options that it does not say.
    Unsaid {
        /// The text, with the options.
        updated: String,
    },
    /// Something else is printed.
    Differs {
        /// The first difference.
        difference: Difference,
        /// The text, with what was printed in place of what is there, and with the options.
        updated: String,
    },
    /// It is not a transcript.
    Fault(TranscriptFault),
    /// Nothing was opened for it.
    NotOpened(OpeningFault),
}

/// The number of the line that follows some bytes.
fn line_behind(front: &[u8]) -> u32
    ensures { result ≡ min (feeds_in front.now + 1) 4294967295 }
{
    let mut number = 1u32;
    let mut rest = front;
    while let Some((byte, others)) = rest.split_first() {
        if *byte == b'\n' {
            number = number.saturating_add(1);
        }
        rest = others;
    }
    number
}

/// The text of a transcript.
///
/// # Errors
///
/// Where it is too long or no text; the fault of what is not text is that of the line of the first byte that is none.
pub fn text_of(bytes: &[u8]) -> Result<&str, TranscriptFault>
    ensures text { IfOk result (λ text. text.now ≡ bytes.now) }
    ensures good { IfOk result (λ text. IsUtf8 bytes.now) }
    ensures short { IfOk result (λ text. length bytes.now ≤ 16777216) }
    ensures fault { IfErr result (λ why. IsNoText bytes.now why) }
{
    if bytes.len() > MAX_TRANSCRIPT {
        return Err(TranscriptFault::TooLong);
    }
    match std::str::from_utf8(bytes) {
        Ok(text) => Ok(text),
        Err(why) => Err(TranscriptFault::Line {
            number: line_behind(&bytes[..why.valid_up_to()]),
            fault: LineFault::NotAscii,
        }),
    }
}

/// How many lines a text has.
fn count_lines(text: &str) -> u32
    ensures { result ≡ line_count text.now }
{
    let mut count = 0u32;
    for _line in text.lines() {
        count = count.saturating_add(1);
    }
    count
}

/// A difference, told at the last line of the text where it comes before any step, as of a text that has none.
fn placed(difference: Difference, text: &str) -> Difference
    ensures { difference_text result ≡ spec_placed text.now (difference_text difference) }
{
    if difference.number > 0 {
        return difference;
    }
    let Difference {
        number: _,
        wanted,
        came,
    } = difference;
    Difference {
        number: count_lines(text).max(1),
        wanted,
        came,
    }
}

/// The line that says options, if a transcript does not say them.
fn options_line(
    alloc: Global,
    transcript: &Transcript,
    options: Options,
) -> Result<Option<String>, AllocError> {
    if transcript.options() == options {
        return Ok(None);
    }
    Ok(Some(options.line(alloc)?))
}

/// The first difference between what the lines printed and what is there.
fn first_of_all(
    alloc: Global,
    told: &[Told],
    printed: &[String],
) -> Result<Option<Difference>, AllocError>
    ensures { IfOk result (λ found. option_map difference_text found ≡ difference_of (map told_text told.now) (map string_bytes printed.now)) }
{
    let mut left = told;
    let mut texts = printed;
    while let (Some((told, others)), Some((came, more))) = (
        left.split_first(),
        texts.split_first(),
    ) {
        let found = first_difference(alloc, told, came)?;
        if found.is_some() {
            return Ok(found);
        }
        left = others;
        texts = more;
    }
    Ok(None)
}

/// Compares what each line of a text printed with what is there; with the line of options that it has to say, if it does not say them.
///
/// # Errors
///
/// Where memory is refused.
pub fn compared(
    alloc: Global,
    text: &str,
    told: &[Told],
    printed: &[String],
    options: Option<&str>,
) -> Result<Outcome, AllocError>
    ensures { IfOk result (λ outcome. IsComparedAs text.now (difference_of (map told_text told.now) (map string_bytes printed.now)) (is_some options.entry) outcome) }
{
    let difference = first_of_all(alloc, told, printed)?;
    if difference.is_none() && options.is_none() {
        return Ok(Outcome::Agrees);
    }
    let updated = updated_text(alloc, text, options, told, printed)?;
    match difference {
        Some(difference) => Ok(Outcome::Differs {
            difference: placed(difference, text),
            updated,
        }),
        None => Ok(Outcome::Unsaid { updated }),
    }
}

/// Plays the text of a transcript over a bench of its own, to its end, and compares what is printed with what is there. An option that the
/// transcript does not say is one of these.
///
/// # Errors
///
/// Where memory is refused for what surrounds the transcript and its bench.
pub fn test_transcript(alloc: Global, bytes: &[u8], usual: Options) -> Result<Outcome, AllocError> {
    let text = match text_of(bytes) {
        Ok(text) => text,
        Err(fault) => return Ok(Outcome::Fault(fault)),
    };
    let transcript = match read_transcript(alloc, text) {
        Ok(transcript) => transcript,
        Err(fault) => return Ok(Outcome::Fault(fault)),
    };
    let options = transcript.options_over(usual);
    let mut bench = match OnBench::open(alloc, alloc, options) {
        Ok(bench) => bench,
        Err(why) => return Ok(Outcome::NotOpened(why)),
    };
    let printed = printed(alloc, &mut bench, &transcript);
    let OnBench {
        alloc: _,
        heap: _,
        bench,
    } = bench;
    let _ended = bench.end();
    let line = options_line(alloc, &transcript, options)?;
    let line = line.as_ref().map(|line| line.as_str());
    compared(alloc, text, transcript.told(), &printed?, line)
}
