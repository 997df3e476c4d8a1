//! The controller alone: the controller's side of its queues, the commands that it fetched, and the image of its namespace.
//!
//! A [`Controller`] is a library for an emulator: a call that reaches memory is lent it, as [`page_memory::Dma`], which is the guest's.
//! Nothing of a host is known here. What crosses is memory, the values that are written to the two doorbells of a queue, and a reset
//! (NVM Express Base Specification 2.0, "Memory-based transport queue model", section 3.3.1, and "Controller Level Reset", section 3.7.2).
//!
//! The contract of each call holds for every memory, whatever stands there: for what it is refused, what it answers, which pages it
//! touches, and what it leaves of the controller and of the memory. A call appends the pages that it touches to the touched list, after
//! those that stand there, and asks for room: who wants to see what one call touched clears the list before it.
//! [`Controller::next_step`] alone empties it, and leaves it empty.
#![tactic(auto)]

mod command;
mod commands;
mod complete;
mod controller;
mod doorbell;
mod fetch;
pub mod laws;
mod lending;
mod look;
mod manage;
mod post;
mod queue;
mod refusal;
mod reset;
mod waiting;
mod walk;
pub mod worked;

pub use command::{FetchedCommand, FetchedWork};
pub use controller::{Controller, OpenRefused};
pub use lending::LentRefusal;
pub use look::ControllerStep;
pub use queue::{ControllerQueue, QueuePages};
pub use refusal::ControllerRefusal;
