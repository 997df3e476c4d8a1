//! The command `load` of the program `nvmesgl`: commands that are made, run in threads, compared and measured.
//!
//! Each submitter has a part of the blocks, cut into slots, and its commands read or write one slot each. They run in rounds
//! ([`driver_threads::run_round`]): a round's commands are planned, run to their end and examined, and nothing of them is kept but counts. In a
//! round no slot is used twice, so that it does not matter in which order its commands are served. What is written is made of the seed, the
//! block and how often it was written, so that what a read must bring is made again. Both are done by the thread of the command's submitter, as its draft is
//! filled and as it is given up: no bytes are kept longer than that, and of what was brought an end keeps only whether it was right.
#![tactic(auto)]

mod bad;
mod content;
mod course;
mod fault;
mod figures;
mod histogram;
mod layout;
mod line;
mod look;
mod measured;
mod picks;
mod plan;
mod progress;
mod ran;
mod run;
mod stats;
mod tally;
mod task;
mod timing;

pub use bad::{Bad, Why};
pub use driver_threads::Server;
pub use fault::LoadFault;
pub use figures::{Figures, ProgressReport};
pub use histogram::Histogram;
pub use line::append_line;
pub use measured::Measured;
pub use ran::LoadResult;
pub use run::run_load;
pub use tally::Tally;
