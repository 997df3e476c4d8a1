//! Scripts as text, and replies as text.
//!
//! [`read_script`] reads a script to its lines that do something, or to its first fault; [`append_reply`], [`append_owners`] and
//! [`append_counts`] write what a run of it prints. The grammar and the lines are this project's own.
//! Lines, words, readers and writers are public too, for scripts that are made of them.
//!
//! `specs/Lines.antt` cuts a text into lines and words, `specs/Numbers.antt` and `specs/Pieces.antt` say what single words stand for,
//! `specs/Grammar.antt` what a line is, and `specs/Scripts.antt` what a script is, or its first fault. `specs/Replies.antt` and
//! `specs/Owners.antt` have the text that is printed. [`worked`] and
//! [`worked_replies`] compute some of these.
#![tactic(auto)]

mod fault;
mod grammar;
mod input;
mod lines;
mod numbers;
mod output;
mod owners;
pub mod progress;
mod reply;
mod run;
mod saving;
mod script;
pub mod transcripts;
mod values;
mod verb;
mod well;
mod words;
pub mod worked;
pub mod worked_replies;
pub mod workload;

pub use fault::{
    LineError, LineFault, NotClosed, RunFault, ScriptFault, not_opened, script_at_fault,
};
pub use grammar::{
    BLOCK_SIZE, FUA, LR, NSID, VECTOR, begins_comment, begins_option, read_request, words_of,
};
pub use input::{ImageFault, ReadFault, read_first, read_image};
pub use lines::split_line;
pub use output::{flush, put};
pub use owners::{append_counts, append_owners};
pub use reply::{
    append_reply, fill_fault_name, put_gathered, put_not_filled, refusal_name, rejected_name,
    request_fault_name,
};
pub use run::{Played, first_owners, open_bench, play_step, play_steps, put_owners, run_steps};
pub use saving::{not_written, replace_file, write_out};
pub use script::{Line, MAX_LINES, MAX_SCRIPT, Numbered, Script, read_script};
pub use values::piece;
pub use verb::{CommandVerb, QueueVerb, VERBS, Verb};
pub use well::is_well;
pub use words::Words;
