//! I/O commands as values and as jobs (NVM Command Set Specification 1.0: Read, Write, Compare and others), and admin commands of
//! the caller's own as values.
//!
//! The host: a [`Request`] is checked, a [`Draft`] is filled and built, a [`Ticket`] stands for a submitted command, and
//! [`Finished`] is what came of it. The controller: a [`Job`] is a fetched command.
#![tactic(auto)]

mod admin;
mod block_size;
mod byte_list;
mod data_bytes;
mod draft;
mod finished;
mod job;
pub mod laws;
mod layout;
mod least;
mod range;
mod request;
mod ticket;

pub use admin::{AdminCommand, PageUse};
pub use block_size::BlockSize;
pub use byte_list::Bytes;
pub use draft::{Draft, DraftParts, FillFault};
pub use finished::{Finished, FinishedParts};
pub use job::{
    Job, begin_job, block_number, finish_job, first_block, first_bytes, kind_of, lacks_read,
};
pub use range::BlockRange;
pub use request::{
    Flags, Kind, MAX_COMMAND_BLOCKS, MAX_PIECES, MAX_RANGES, Piece, Pieces, Request, RequestFault,
    RequestOf,
};
pub use ticket::Ticket;
