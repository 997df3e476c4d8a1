//! Why a transcript is not read, or not played.

use crate::{ImageFault, LineFault, RunFault};
use std::alloc::AllocError;
use thiserror::Error;

/// Why a text is not a transcript.
#[derive(Clone, Copy, Debug, PartialEq, Eq, Error)]
pub enum TranscriptFault {
    /// The first line of a script that is at fault.
    #[error("line {number}: {fault}")]
    Line {
        /// The line's number, from 1.
        number: u32,
        /// Its first fault.
        fault: LineFault,
    },
    /// Options that are not those of a first line: another word than an option with its number, an option given twice, or a later line.
    #[error("line {number}: BadOptions")]
    BadOptions {
        /// The line's number, from 1.
        number: u32,
    },
    /// It has more than 16,777,216 bytes.
    #[error("too long")]
    TooLong,
    /// Memory was refused.
    #[error("memory")]
    Memory,
}

impl From<AllocError> for TranscriptFault {
    fn from(_fault: AllocError) -> Self {
        TranscriptFault::Memory
    }
}

/// Why nothing was opened for a transcript.
#[derive(Clone, Copy, Debug, PartialEq, Eq, Error)]
pub enum OpeningFault {
    /// The image does not have 1 to 65,536 blocks, or memory was refused for it.
    #[error("{0}")]
    Image(ImageFault),
    /// The pool or its queues are refused, or memory was refused for them.
    #[error("{0}")]
    World(RunFault),
}
