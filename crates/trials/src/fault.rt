//! Why the program ended early.

use std::alloc::AllocError;
use thiserror::Error;

/// Why the program ended early.
#[derive(Clone, Copy, Debug, Error)]
pub enum TrialFault {
    /// The arguments are at fault.
    #[error("usage: trials threads SUBMITTERS JOBS BLOCKS [DEPTH] | alone SUBMITTERS JOBS BLOCKS TIMES | heap | all")]
    Usage,
    /// A bench was not opened.
    #[error("a bench was not opened")]
    NotOpened,
    /// A command that is measured was not carried through.
    #[error("a command was not carried through")]
    Refused,
    /// Memory was refused.
    #[error("memory was refused")]
    Memory,
    /// The output could not be written.
    #[error("the output could not be written")]
    Output,
}

impl From<AllocError> for TrialFault {
    fn from(_refused: AllocError) -> Self {
        TrialFault::Memory
    }
}
