//! Scripts of jobs for submitters, which threads do over a book that they share.
//!
//! [`read_jobs`] reads a script of jobs to its jobs, or to its first fault, with the lines and words of `script_cli`; [`run_jobs`] has
//! them done, all at once or in rounds, and writes how they ended as lines or as objects of JSON; [`append_job_line`] writes one such line.
//! [`test_jobs`] compares what they print with what is below them in the script. `specs/Jobs.antt` says what a script of jobs is,
//! `specs/JobLines.antt` how a line is printed, and `specs/JobRuns.antt` what a run writes. [`worked_jobs`] computes some of these.
#![tactic(auto)]

mod fault;
mod job_lines;
mod job_runs;
mod jobs;
mod objects;
mod rounds;
mod telling;
mod testing;
pub mod worked_jobs;

pub use driver_threads::Server;
pub use job_lines::append_job_line;
pub use job_runs::run_jobs;
pub use jobs::{JobLine, JobScript, read_jobs};
pub use rounds::Pace;
pub use telling::Form;
pub use testing::test_jobs;
