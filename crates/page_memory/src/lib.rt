//! The pages of a pool, and the memory that a controller reaches through them.
//!
//! A pool has 8 to 65,536 pages of 4,096 bytes. A page is *in* the [`Store`], where the controller reaches its bytes
//! by address, or *out*, moved into a value of the driver as a [`Page`]. The page of an address is the address divided by 4,096.
//! An address outside the pool, or on a page that is out, is unreadable. What a controller does with memory goes
//! through the trait [`Dma`], whose calls note the pages that they touch. [`TouchRecord`] shows these and forgets them: it is
//! for whoever lends the memory, and not part of what it is lent as. A second memory that meets both is [`flat::FlatMemory`], for
//! tests of what is written over any memory.
//!
//! The profile is this project's own; memory pages are those of the NVM Express Base Specification 2.0, with a
//! memory page size of 4,096 bytes.
#![tactic(auto)]

mod dma;
pub mod flat;
pub mod laws;
mod page;
mod store;

pub use dma::{Dma, TouchRecord, Unreadable};
pub use flat::FlatMemory;
pub use page::{Half, PAGE_BYTES, Page, PageNo};
pub use store::{MAX_PAGES, OpenFault, Store};
