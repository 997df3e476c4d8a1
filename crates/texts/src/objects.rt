//! Replies, owners and counts as JSON, one object on each line, for programs that read them.
//!
//! [`put_reply_object`] tells what a step answered, [`put_owners_object`] and [`put_counts_object`] who owns the pages; [`put_object`], [`put_text`] and [`put_number`] are for objects of others. Numbers of 64 bits are
//! hexadecimal texts, since many programs read a number of JSON as one of 53 bits; bytes are hexadecimal digits, and a status is `SCT:SC`. A name is that of the
//! lines of `nvmesgl steps`. Each clause says the whole object; but the name of a status may be any.

mod line;
mod members;
mod pages;
mod steps;

pub use line::{hex_bytes, hex_number, put_object};
pub use members::{put_number, put_text};
pub use pages::{put_counts_object, put_owners_object};
pub use steps::put_reply_object;
