//! What the calls of a queue pair refuse.

use thiserror::Error;

/// The submission ring has n - 1 entries from the head that the host knows to its tail.
#[derive(Clone, Copy, Debug, PartialEq, Eq, Error)]
#[error("the submission queue is full")]
pub struct QueueFull;

/// A submission head pointer lies outside the head that the host knows to its tail, in ring order.
#[derive(Clone, Copy, Debug, PartialEq, Eq, Error)]
#[error("the submission head pointer is outside the queue")]
pub struct BadHead;

/// A tail that is no slot of its ring, or a head outside the known head to the tail, in ring order. The controller then ignores
/// it (own).
#[derive(Clone, Copy, Debug, PartialEq, Eq, Error)]
#[error("the doorbell value is outside the queue")]
pub struct BadBell;

/// A byte of the slot is missing from the memory: of a store, its page is out or outside the pool.
#[derive(Clone, Copy, Debug, PartialEq, Eq, Error)]
#[error("the slot lies on a page that is out")]
pub struct SlotOut;

/// Why a completion was not posted.
#[derive(Clone, Copy, Debug, PartialEq, Eq, Error)]
pub enum PostFault {
    /// The completion ring has n - 1 entries from the head that the controller knows to its tail.
    #[error("the completion queue is full")]
    Full,
    /// A byte of the slot is missing from the memory: of a store, its page is out or outside the pool.
    #[error("the slot lies on a page that is out")]
    SlotOut,
}
