//! Plays transcripts, each in every way, and tells the first difference from what is in it.
//!
//! [`play_script`] plays a script with its answers on a bench, through a book and under a lock, and once for each growth of memory that is refused;
//! [`refuse_growths`] refuses each growth of a draft that visits another book, and of a run of threads. [`desk`] is a book in one thread, on which a
//! transcript is played as on a bench.
#![tactic(auto)]

pub mod desk;
mod scripts;

pub use scripts::{Scores, play_script, print_sum, refuse_growths};
