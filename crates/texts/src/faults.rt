//! What people are told of a fault of a script, and of what a script may say.
//!
//! The parser of `script_cli` and `job_cli` answers which line is at fault, and why. [`find`] looks at that line once more and says which of
//! its words it is and what is expected there; [`explain`] writes the line, a caret under the word, and a sentence. Words are read by the
//! parser's own calls, verbs are in its own table. [`grammar_text`] prints that table, with the form of each verb.

mod finding;
mod forms;
mod grammar;
mod layout;
mod lines;
mod near;
mod sentences;
mod words;

pub use finding::{Found, Wanted, find};
pub use forms::{Grammar, Slot, form_text};
pub use grammar::grammar_text;
pub use layout::{explain, put_line};
pub use lines::line_at;
pub use near::nearest;
pub use words::{Place, word_from};
