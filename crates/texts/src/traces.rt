//! What a step moved, for people: entries, lists, completions and doorbells, in bytes and decoded.
//!
//! [`Traced::of`] keeps which step is made, before it is made; [`put_trace`] puts lines below its answer, from looks at the bench after it.
//! [`put_submission_fields`], [`put_completion_fields`] and [`put_descriptor`] put a single entry or descriptor. The fields have their names of the NVM Express Base Specification 2.0. Numbers are decimal, and bytes, addresses, offsets and opcodes are
//! hexadecimal. The layout is this project's own.

mod bytes;
mod descriptors;
mod entries;
mod lists;
mod rings;
mod slots;
mod trace;

pub use descriptors::{KEYED, TRANSPORT, put_descriptor, subtype_name, type_name, type_of};
pub use entries::{
    opcode_name, put_completion_fields, put_entry_head, put_entry_words, put_submission_fields,
};
pub use trace::{Traced, put_trace};
