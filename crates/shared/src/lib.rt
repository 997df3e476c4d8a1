//! One lock over whatever makes steps: a world, a host with its pages, or a type of yours. It knows no steps: whoever has the lock passes a closure.
//!
//! [`Shared`] has a [`Machine`] under one lock. [`Shared::with`] does something with it, and [`Shared::when`] waits first; what no closure can do is
//! done between [`Shared::lock`] and [`Shared::leave`]. Whoever takes the lock finds a sound machine. Of a world or a host: each page has one
//! owner, the counts add up, and the identifiers of a queue are distinct. A call says of its closure all that the closure says of itself.
//!
//! ```text
//! let ticket = shared.with(rt, Changes::NONE, draft, |world, draft| world.submit(draft));
//! ```
//!
//! Whoever waits sleeps until a change is told ([`Change`]). So a call names the changes that its closure may make ([`Changes`]). The lock itself
//! sees whether there are completions, or something that the controller can do. Nothing is written down: the memory does not grow.
#![tactic(auto)]

pub mod calls;
mod changes;
mod host;
pub mod laws;
mod lock;
mod machine;
mod serving;
mod world;

pub use changes::{Change, Changes};
pub use lock::{Locked, Shared};
pub use machine::Machine;
pub use serving::ServedStep;
