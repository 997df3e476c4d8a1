//! The controller alone over the caller's memory, for C: `c/nvmectl.h` declares what is exported here.
//!
//! A [`Handle`] is a [`controller_core::Controller`] that C keeps between its calls, or none. A call that reaches memory is lent it until it returns: a pool as a slice
//! (`calls`, `next`), or a guest's memory as a table of [`crate::words::CRegion`]s (`region_calls`, `lent_calls`). Each export states the clause of the controller's call in one relation:
//! what is in the handle and in the memory before and after, the code, and the [`crate::words::Answer`] that is written. A call that is not done
//! changes nothing.

mod any_controller;
mod bytes;
mod calls;
mod code;
mod doorbells;
mod handle;
mod lent_calls;
mod lent_over;
mod looks;
mod next;
mod opening;
mod options;
mod over;
mod region_calls;
mod regions;

pub use handle::Handle;
pub use lent_over::CWanted;
pub use looks::CCommand;
pub use next::CStep;
pub use options::{CQueue, Options};
