//! Queue entries and their bytes: the 64 bytes of a submission queue entry and the 16 bytes of a completion queue entry,
//! both ways, and the status codes and opcodes in them (NVM Express Base Specification 2.0, NVM Command Set
//! Specification 1.0). [`status_names`] has the names of status codes, for people.
//!
//! Reading takes every string of bytes. What is reserved or ignored is written as zero and skipped on reading, so
//! two strings read alike exactly where they agree outside of it.
#![tactic(auto)]

pub mod admin_opcode;
pub mod completion;
pub mod feature;
pub mod hints;
pub mod io_opcode;
pub mod status;
pub mod status_names;
pub mod submission;

pub use completion::ComEntry;
pub use hints::Hints;
pub use status::Status;
pub use submission::SubEntry;
