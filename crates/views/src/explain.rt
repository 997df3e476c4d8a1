//! What the modelled controller makes of bytes that somebody pastes in, told for people who write firmware.
//!
//! [`explain_text`] reads pages, blocks and a submission entry from lines, and from dumps among them ([`CaseReader`]). [`explain`] walks the entry's list over these
//! with the walk of `controller_walk` and keeps each descriptor that it takes. What is told is a line for each, and then how the command ends and by which rule; or
//! the same as JSON. [`show`] decodes a single entry, descriptor or status, in lines or as JSON; [`put_fault_object`] tells as JSON what is wrong with the words. The
//! lines are this project's own.

mod answer;
mod case;
mod case_json;
mod cause;
mod command;
mod dump;
mod entry;
mod fault;
mod fault_object;
mod files;
mod key;
pub mod laws;
mod lines;
mod list;
mod namespace;
mod refusal;
mod round;
mod rule;
mod single;
mod single_json;
mod status;
mod status_words;
mod text;

pub use answer::{Explained, Layout, explain_text};
pub use case::{Case, CaseReader};
pub use command::{Explanation, explain};
pub use fault::{CaseFault, Wrong};
pub use fault_object::put_fault_object;
pub use lines::Stop;
pub use list::Taken;
pub use namespace::{GivenBlock, Namespace};
pub use single::{Shown, show};
pub use text::fault_lines;
