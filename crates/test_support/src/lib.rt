//! What tests share: an allocator that refuses calls on purpose and counts what it has given out, arbitrary numbers that are the same in
//! each run, and comparisons that tell what was found in place of what was wanted.
//!
//! A [`Refusing`] passes each call on to another allocator, except those that its [`RefusedCalls`] names: they get an `AllocError` and reach nobody. Its
//! [`Tally`] counts calls and blocks, so that a test sees that a refused call leaked no byte. Collections hold a `&` to it, and threads may share it.
//! A clause can name no value of an atomic word, so a contract says which calls a refusal names, and tests say that the allocator keeps to it.
//!
//! A [`Seen`] compares. An `assert_eq!` is proved anew at each of its uses, in five times the time of a call.
#![tactic(auto)]

pub mod allocator;
pub mod numbers;
pub mod refusal;
pub mod seen;
pub mod tally;

pub use allocator::Refusing;
pub use numbers::Numbers;
pub use refusal::RefusedCalls;
pub use seen::{Difference, Seen};
pub use tally::Tally;
