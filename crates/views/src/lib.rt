//! What bytes mean and what a script does, for people to look at: bytes that somebody pastes in, explained, and a script as pictures.
#![tactic(auto)]

pub mod draw;
pub mod explain;
pub mod sparse_memory;
