//! Who owns each page of a pool, and how many pages each class has.
//!
//! A pool has 8 to 65,536 pages. Each is free, or belongs to one half of a queue, or to a command, for its data or
//! for its chain of SGL segments (NVM Express Base Specification 2.0, "Scatter Gather List (SGL)", section 4.1.2,
//! and memory-based queue pairs). Contracts see the [`Ledger`] as the list of the pages' owners. Pages are granted lowest first
//! (own). Only [`Ledger::open`] takes memory.
//!
//! `specs/Owners.antt` says which pages are free and what a grant and a give-back leave, `specs/Counting.antt` what is
//! counted, `specs/Runs.antt` what the lowest run is, and `specs/Lists.antt` what a caller who names the pages that it gives
//! back must ensure. The laws in [`laws`] tie these to one another, and [`worked`] runs them on small pools.
#![tactic(auto)]

pub mod laws;
mod ledger;
mod owner;
pub mod worked;

pub use ledger::Ledger;
pub use owner::{Counts, NoPages, Owner, Role};
pub use page_memory::OpenFault;
