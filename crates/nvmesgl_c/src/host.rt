//! The host alone, for C: `c/nvmehost.h` declares what is exported here.
//!
//! A [`Handle`] is a [`Tagged`] that C keeps between its calls, or none: a [`host_bench::HostBench`] with the tags of its commands. Each call is one of the host's, or some of
//! them one after the other, and its contract says so in one relation: what is in the handle before and after, the code, and what is written. A call
//! that is not done changes nothing, but that one which sends a command cancels what it reserved.

mod answer;
mod calls;
mod code;
mod commands;
mod ending;
mod handle;
mod looks;
mod opening;
mod options;
mod polling;
mod pool;
mod queues;
mod reach;
mod reserving;
mod sending;
mod tagged;

pub use answer::CDoorbell;
pub use handle::Handle;
pub use looks::{CHostQueue, CPages};
pub use options::Options;
pub use polling::CEnded;
pub use reach::{CPlace, CRun};
pub use tagged::Tagged;
