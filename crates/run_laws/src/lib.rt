//! Laws of the machine's runs, and of the values that a bench keeps, above all code that they speak of.
//!
//! There is no code here: each public function has an empty body, and its clauses are what is proved. [`ends`] says how commands end, [`data`] what a
//! command's pages and list hold between its submission and its collection, [`answers`] what steps answer and which event is accepted, [`reach`]
//! which pages a device may reach, [`laws`] what runs leave: statuses with their causes, the image, what Compares and Reads find, histories.
//! [`worked`], [`worked_bench`], [`worked_heads`], [`worked_renewals`] and [`worked_resets`] have whole runs, computed from the definitions.
//!
//! `step_core` proves that what a bench does is a trusted run of the machine, by queue and identifier; in [`bench_laws`] that run has the drafts that
//! the bench kept as it submitted them, and the finished commands that it keeps. So the laws of what a Read gathers, a Write changes and a Compare
//! answers apply to a bench's bytes:
//!
//! - `specs/Values.antt` has a bench's steps with the tables between them, and the machine's steps that they are.
//! - `specs/Gathering.antt` says of which command the gathered bytes are, and what a Read gathers.
//! - `specs/Drafts.antt` says what draft a bench submits: the one that it reserved, with the bytes of its fills.
//! - `specs/DraftBlocks.antt` says what a bench's Writes change and its Compares tell.
#![tactic(auto)]

pub mod answers;
pub mod bench_laws;
pub mod data;
pub mod ends;
pub mod laws;
pub mod reach;
pub mod worked;
pub mod worked_bench;
pub mod worked_heads;
pub mod worked_renewals;
pub mod worked_resets;
