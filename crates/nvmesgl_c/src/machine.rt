//! Both sides over one pool, for C: `c/nvmesgl.h` declares what is exported here.
//!
//! A [`Handle`] is a [`world_bench::Bench`] that C keeps between its calls, or none. Each call that is a step is that step of the bench, and
//! its contract says so in one relation: what is in the handle before and after, the code, and the [`crate::words::Answer`] that is written. A call
//! that is not done changes nothing.

mod answer;
mod carrying;
mod code;
mod commands;
mod controller;
mod desk;
mod handle;
mod looks;
mod opening;
mod options;
mod queues;
mod serve;
mod steps;
mod vectored;
mod whole;

pub use carrying::{Brought, Carried};
pub use handle::Handle;
pub use looks::CCounts;
pub use options::Options;
pub use serve::{ServeEnd, Served};
