//! The machine runs: every event is one call.
//!
//! A [`World`] is a driver and its modelled controller over one pool of pages. Contracts see the state of the machine that `machine_model` defines,
//! and how many pages were touched so far; each call that is an event is a `Step` of that machine, and says how many it touches. Where it is refused
//! nothing changed, and every moved value is handed back; the refusal is the first that holds, except for the controller's steps once something was
//! forged. Between calls each page has one owner, the counts add up and identifiers are distinct, whatever was forged ([`World::check`]). Where
//! nothing was forged since the last [`World::reset`], [`World::fetch`], [`World::walk`] and [`World::complete`] touch only pages that they may.
//!
//! Commands, entries, statuses, lists and queues are those of the NVM Express Base Specification 2.0 and the NVM Command Set Specification
//! 1.0, cut down to a profile.
//!
//! A bench is a world with the drafts, tickets and finished commands that it keeps, and does [`Step`]s. What it may do is stated here, so that
//! whoever keeps these values otherwise can state it too; and it is a run of the machine ([`laws`]).
//!
//! A world is a [`host_core::Host`] and a [`controller_core::Controller`] over one [`page_memory::Store`]: each event except a forgery and a reset is
//! a call of one side, which rings at most one doorbell of the other, and a reset is a call of each. That both are the machine is what `two_sides`
//! proves; nothing is kept twice.
#![tactic(auto)]

mod commands;
mod controller_events;
mod ended;
mod forge;
pub mod laws;
mod look;
mod open;
mod queues;
mod refused;
mod reset;
mod rights;
mod rings;
mod step;
mod view;
mod world;

pub use block_image::{BadLength, Image, ImageError};
pub use controller_core::ControllerStep;
pub use controller_walk::WalkState;
pub use ended::{Ended, Leftover};
pub use entry_codec::{Hints, Status};
pub use host_core::{Config, QueueMemory, Refused, Right, Run, Runs};
pub use io_commands::{
    AdminCommand, BlockRange, BlockSize, Bytes, Draft, FillFault, Finished, Flags, Kind, PageUse,
    Piece, Pieces, Request, RequestFault, RequestOf, Ticket,
};
pub use machine_model::words::{HostState, OpenRefusal, Phase, Reaped, Refusal, RejectedFor};
pub use open::OpenRefused;
pub use page_ledger::{Counts, Owner, Role};
pub use page_memory::{Half, Page, PageNo, Unreadable};
pub use queue_pair::HostPositions;
pub use refused::{Completed, Fetched, StepRefused, Touched, Walked};
pub use rings::{FetchPositions, PostPositions, Rings};
pub use step::{Reply, ReplyIn, Step, StepIn};
pub use world::World;
