//! The walk of a controller over a command's scatter-gather list (NVM Express Base Specification 2.0, "Scatter Gather List (SGL)", section
//! 4.1.2).
//!
//! A [`Walk`] begins at the descriptor in a command's entry and goes over its list one unit a step: a step takes
//! the next descriptor, or moves the part of the current Data Block that lies in one page. The entry's descriptor is
//! the first of the list and is taken without reading memory. A Bit Bucket and an empty Data Block are finished by the
//! step that takes them. The step that counts or moves the last of the bytes that the command wants answers `End`; a list may
//! be longer: of its last part only the wanted prefix is counted or moved, and no descriptor after it is read. The step that
//! finishes the last descriptor of a list that is too short answers a fault, as does each step that meets one. [`Walk::fault`] says
//! which fault of the table it was, and at which descriptor.
//!
//! `specs/Units.antt` defines, for any memory, the units of a list and its verdict, with the table of faults. A step's
//! contract is that it does the first of what is left and leaves the others, and [`laws::steps_do_units`] says that the
//! t-th step does the t-th unit while nobody else writes the list's descriptors or changes which bytes are missing, and the list moves no
//! byte onto its descriptors. [`laws::lists_move_along_targets`] and [`laws::lists_move_all_bytes`] tie the units to the targets of the list's parts.
//! Whatever the memory holds, each step returns, a list takes at most 4,096 descriptors, and each `More` lowers [`Walk::left`].
//!
//! Nothing here takes memory. The order of the faults is this project's own, as is the limit of 4,096 descriptors.
#![tactic(auto)]

mod cause;
mod cursor;
mod faults;
pub mod laws;
mod progress;
mod walk;
pub mod worked;

pub use cause::{DescriptorAt, FaultCause, WalkFault};
pub use sgl_descriptor::Direction;
pub use walk::{Walk, WalkState};
