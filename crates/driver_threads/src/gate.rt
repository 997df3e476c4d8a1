//! Gates tell where submitters are, and may hold them there.

use thiserror::Error;

/// Where a job of a submitter is. No lock is held there.
#[derive(Clone, Copy, Debug, PartialEq, Eq)]
pub enum Point {
    /// It has its draft, which is not filled yet.
    Reserved,
    /// Its draft was submitted, and its queue's doorbell written.
    Submitted,
    /// Its command was released.
    Released,
}

/// A gate was closed.
#[derive(Clone, Copy, Debug, PartialEq, Eq, Error)]
#[error("the gate is closed")]
pub struct GateClosed;

/// Is told where each submitter is, and may hold it there.
pub trait Gate {
    /// The submitter of this number is at this point of a job.
    ///
    /// # Errors
    ///
    /// Where the gate is closed. The job is carried through all the same; the run answers it at its end.
    fn at(&self, worker: u16, point: Point) -> Result<(), GateClosed>;
}

/// A gate that holds nobody.
#[derive(Clone, Copy, Debug, PartialEq, Eq)]
pub struct Open;

impl Gate for Open {
    fn at(&self, _worker: u16, _point: Point) -> Result<(), GateClosed> {
        Ok(())
    }
}
