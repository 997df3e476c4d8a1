//! How long commands took.

use crate::histogram::Histogram;
use crate::plan::Planned;
use crate::task::TaskEnd;
use io_commands::Kind;
use std::alloc::{AllocError, Global};

/// How long commands with status 0:00 took, in nanoseconds.
#[derive(Drop)]
pub struct Measured {
    /// Reads.
    pub reads: Histogram,
    /// Writes and Compares.
    pub writes: Histogram,
}

impl Measured {
    /// Nothing.
    pub(crate) fn new(alloc: Global) -> Result<Measured, AllocError> {
        Ok(Measured {
            reads: Histogram::new(alloc)?,
            writes: Histogram::new(alloc)?,
        })
    }

    /// Counts how long the commands of a submitter took; those that were not refused are told, in their order.
    pub(crate) fn add(&mut self, plan: &[Planned], ends: &[TaskEnd], took: &[u64]) {
        let mut rest = took;
        for (planned, end) in plan.iter().zip(ends) {
            let TaskEnd::Done { status, .. } = end else {
                continue;
            };
            let Some((nanos, behind)) = rest.split_first() else {
                return;
            };
            rest = behind;
            if !status.is_success() {
                continue;
            }
            match planned.kind {
                Kind::Read => self.reads.add(*nanos),
                _ => self.writes.add(*nanos),
            }
        }
    }
}
