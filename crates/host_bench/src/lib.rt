//! A host with its pages, whose commands are named by numbers.
//!
//! A [`HostBench`] is a [`host_core::Host`] with its pages and with the values of its outstanding commands: each call names a command by its queue and
//! identifier ([`Call`]). The controller is somebody else's: it reads and writes the pages between calls ([`HostBench::read`],
//! [`HostBench::write`]), and sees the doorbells that a ring and a reap tell ([`Doorbell`]).
//!
//! Each call is one of the host, whose contract holds against any controller, or of the value that it names.
#![tactic(auto)]

mod bench;
mod bench_tables;
mod call;
mod calls;
mod fill;
mod pool;
mod reach;
pub mod values;

pub use bench::HostBench;
pub use call::{Call, CallIn, Reply, ReplyIn};
pub use host_core::{
    AdminCommand, BlockRange, BlockSize, Config, Counts, DataPlace, Doorbell, FillFault, Flags,
    Hints, HostPositions, HostState, Kind, OpenRefusal, Owner, PageNo, PageUse, Piece, Pieces,
    QueueMemory, Reaped, Refusal, RejectedFor, Request, RequestFault, Right, Role, Run, Runs,
    Status, Unreadable,
};
pub use io_commands::Bytes;
