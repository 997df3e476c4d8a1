//! Transcripts: a script, and below each of its steps what it answers, as a text that whoever knows scripts can read, write and change.
//!
//! ```text
//! # options: --pages 32 --entries 8
//! # One block is read through one Data Block descriptor.
//! reserve 1 read 0 1 0+512
//! > reserve q 1 cid 0 data 1 chain 0
//! owners
//! > 0-0 queue 0 sq
//! ```
//!
//! A line whose first word is `>` is an answer, one line of what the step above it prints: `>`, a blank, and the text. What `nvmesgl steps` prints for a
//! step begins with the number of the step's line; a transcript leaves that number out, since the step stands just above. The lines of `owners`, and
//! the counts with which each run ends, have none. The counts stand as the last answer, below what the last step answers. An answer stands
//! exactly as it is printed, each on a line of its own, and none may be omitted: what is printed and is not there is a difference.
//!
//! Every other line is a line of a script (`script_cli`), a comment and an empty line among them. The first line may say the options of
//! `nvmesgl steps`, each that differs from the usual one: `# options:` with `--pages`, `--queues`, `--entries`, `--segment` or `--blocks`, each with
//! its number. An image from a file is none of them, since a transcript stands alone.
//!
//! [`read_transcript`] reads one, and [`play`] plays it on whatever makes its steps, a [`StepMaker`]: it makes them in order and answers the first
//! [`Difference`] between what is printed and what is there. [`OnBench`] makes steps on a bench.
//!
//! [`test_transcript`] plays the text of one on a bench of its own, and answers an [`Outcome`]; where something else is printed than is there,
//! that has the text as it would have to be.

mod bench;
mod difference;
mod fault;
mod heap;
mod options;
mod playing;
mod ranges;
mod read;
mod testing;
mod update;

pub use bench::OnBench;
pub use difference::{Difference, law_of_differences};
pub use fault::{OpeningFault, TranscriptFault};
pub use heap::{reply_in, step_in};
pub use options::{BadOption, OPTIONS, Options, SaidOptions, ScriptKind, WhyBad};
pub use playing::{StepMaker, play, printed};
pub use ranges::{Ranged, out_of_range};
pub use read::{PrintedLine, Told, Transcript, answer_of, read_transcript};
pub use testing::{MAX_TRANSCRIPT, Outcome, compared, test_transcript, text_of};
