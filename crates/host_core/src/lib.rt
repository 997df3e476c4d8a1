//! The host alone: its queues, its outstanding commands, and who owns which page.
//!
//! A [`Host`] is a library for a driver: a call that reads or writes pages is lent them, as [`page_memory::Store`], in which the controller
//! reads and writes too. Nothing of a controller is known here, and nothing that it wrote is trusted: a completion is what is in its
//! slot, and one that fits no submitted command is rejected. What crosses is memory, and the values that are to be written to the two
//! doorbells of a queue, which [`Host::ring`] and [`Host::reap`] answer (NVM Express Base Specification 2.0, "Memory-based transport queue
//! model", section 3.3.1).
//!
//! The contract of each call holds against any controller, whatever bytes are in the pages: each event but a reset is a step of the
//! machine that `machine_model` defines, with no controller in it, and [`Host::reset`] leaves exactly what a reset leaves of that machine. A refusal is
//! the first cause that holds, and then nothing changed and every moved value is handed back; otherwise the answer, the host and the pages are
//! the machine's. Between calls each page has one owner, the counts add up, and identifiers are distinct ([`Host::pages`]).
#![tactic(auto)]

mod collect;
mod compare;
mod config;
mod create;
mod data_place;
mod doorbell;
mod host;
pub mod laws;
mod look;
mod moving;
mod open;
mod place;
mod post;
mod queue;
mod queues;
mod reap;
mod record;
mod records;
mod refused;
mod release;
mod reserve;
mod reset;
mod retire;
mod rights;
mod ring;
mod rings;
mod send;
mod spare;
mod submit;
mod tables;
mod view;
pub mod worked;

pub use config::Config;
pub use data_place::DataPlace;
pub use doorbell::Doorbell;
pub use entry_codec::{Hints, Status};
pub use host::Host;
pub use io_commands::{
    AdminCommand, BlockRange, BlockSize, FillFault, Flags, Kind, PageUse, Piece, Pieces, Request,
    RequestFault,
};
pub use machine_model::words::{HostState, OpenRefusal, Peer, Reaped, Refusal, RejectedFor};
pub use open::Opened;
pub use page_ledger::{Counts, Owner, Role};
pub use page_memory::{Half, PageNo, Unreadable};
pub use queue_pair::HostPositions;
pub use reap::Reap;
pub use refused::Refused;
pub use rights::{QueueMemory, Right, Run, Runs};
