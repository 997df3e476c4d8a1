//! A book under a lock, and the threads that work on it.
//!
//! [`Shared`] has a [`Book`](driver_book::Book) under one lock. Whoever takes the lock finds a book of the opening: its log tells of a run of the
//! machine that leads to the world as it is. Each call but [`Shared::new`] and [`Shared::end`] makes one step of it, looks at it, makes a seat, or stops or
//! closes it.
//!
//! [`submitter`]s carry jobs through, each with at most a given number in flight; a [`poller`] takes completions, a [`controller`] serves. Data is
//! filled, lists are built and bytes are gathered outside the lock. Whoever waits sleeps on a condition variable and looks at the book as it wakes: a
//! wait makes no step and writes nothing down, so no wait lengthens the log.
//!
//! All of it is in the memory of the allocator with which the book was opened, from which threads take memory side by side: it is `Send` and `Sync`
//! where threads are started, and [`Global`](std::alloc::Global) where none is named.
//!
//! Whoever rings serves, or the controller alone does: a [`Server`] says which for a run.
//!
//! [`run_threads`] opens a book, runs submitters over it with a poller and a controller, each in a thread of its own, and closes it. [`run_round`]
//! does so over an existing world, and hands out the log and the world: rounds that each go on over the world of the one before need no more memory
//! than the longest of them.
#![tactic(auto)]

mod admin;
mod book_lock;
mod carry;
mod controller_calls;
mod data;
mod flight;
mod gate;
mod host;
mod jobs;
mod run;
mod serving;
mod waits;
mod workers;

pub use book_lock::Shared;
pub use data::{Data, Unfilled};
pub use gate::{Gate, GateClosed, Open, Point};
pub use jobs::{Job, JobEnd, JobEndIn, JobEnds, JobIn, JobRefusal, Ran, Round, RunFault};
pub use run::{run_round, run_threads};
pub use serving::Server;
pub use workers::{Worked, controller, poller, submitter};
