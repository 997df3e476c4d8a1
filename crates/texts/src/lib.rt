//! Texts for people: what a step moved, what is wrong with a line, and bytes as people type them; and for programs, as JSON.
#![tactic(auto)]

pub mod byte_runs;
pub mod faults;
pub mod noted;
pub mod objects;
pub mod traces;
