//! The machine that runs, with the values of its commands: lists of steps, each named by numbers.
//!
//! A [`Bench`] is a [`World`] with the drafts, tickets and finished commands that it keeps, each named by its queue and identifier; it runs lists of
//! [`Step`]s. `step_core` says what each of them may answer, and what it leaves; and what a bench does is a run of the machine ([`step_core::laws`]).
#![tactic(auto)]

mod bench;
mod bench_steps;
mod bench_tables;
mod fill;

pub use bench::Bench;
pub use step_core::{
    Bytes, Config, Counts, Ended, Image, OpenRefused, Owner, PageNo, Reply, ReplyIn, Rings, Step,
    StepIn, Unreadable, World,
};
