//! The two sides of a queue pair: a submission ring and a completion ring over pages.
//!
//! A queue pair has two halves of n entries each, of 64 bytes in the submission ring and of 16 in the completion ring. A half is
//! a run of consecutive pages, reached through [`page_memory::Dma`]. The host posts submission entries and takes completions
//! ([`HostPair`]); the controller takes submission entries and posts completions ([`DevicePair`]). Each side moves its own
//! position in a ring and is told the other's: by doorbells, and by the submission head pointer of a completion. A ring is empty
//! where its head is its tail, and full where n - 1 slots lie between them. A completion is new where its phase bit is the one
//! that the host expects (NVM Express Base Specification 2.0, "Memory-based transport queue model", section 3.3.1).
//!
//! Contracts see each side as a record of numbers, and the rings as lists over the memory: the entries that were posted and not
//! taken, and the completions that were posted and not taken. Each call says how it changes the record and the memory, and what
//! that makes of the lists. The rings hold on whatever bytes a slot has.
#![tactic(auto)]

mod device;
mod fault;
mod half;
mod host;
mod image;
pub mod laws;
mod positions;
mod slots;

pub use device::DevicePair;
pub use fault::{BadBell, BadHead, PostFault, QueueFull, SlotOut};
pub use half::{doorbell, half_pages};
pub use host::HostPair;
pub use positions::{ControllerPositions, HostPositions};
