//! A shell over one world: a line at a time, each answered at once.
//!
//! [`run_shell`] reads lines and answers each before it reads the next. A line is a step of a script (`script_cli`), which prints what
//! `nvmesgl steps` prints for it, or a [`DotWord`] with its arguments. A line that is at fault says so and changes nothing; the session goes on.
//! [`tell_steps`] plays a whole script, with what each step moved, or with an object of JSON for each answer.
//!
//! What a step, `owners`, `.counts`, `.page` and `.rings` say of the world is the world's: `specs/`, and the clauses of a script's run.
#![tactic(auto)]

mod asked;
mod dot_word;
mod fault;
mod files;
mod hand;
mod help;
pub mod laws;
mod lines;
mod looks;
mod meanings;
mod moves;
mod pages;
mod record;
mod serve;
mod session;
mod sink;
mod told;

pub use dot_word::{DOT_WORDS, DotWord};
pub use meanings::{FAULTS, REASONS, REFUSALS, STATUSES, meanings_text};
pub use session::run_shell;
pub use told::{Telling, tell_steps};
