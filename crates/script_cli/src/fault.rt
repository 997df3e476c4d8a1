//! The faults of a script, and of its run.

ghost use Rattle.std.specs.Prelude.{◌≡◌};
ghost use Rattle.script_cli.specs.Faults.{fault_of_script, fault_of_opening, status_of_run};

use std::alloc::AllocError;
use step_core::OpenRefusal;
use thiserror::Error;

/// Why a line of a script is at fault.
#[derive(Clone, Copy, Debug, PartialEq, Eq, Error)]
pub enum LineFault {
    /// It is line 65,537.
    #[error("TooManyLines")]
    TooManyLines,
    /// It has more than 16,384 bytes.
    #[error("LongLine")]
    LongLine,
    /// It has a byte of 128 or more.
    #[error("NotAscii")]
    NotAscii,
    /// Its first word is not a verb.
    #[error("UnknownVerb")]
    UnknownVerb,
    /// It lacks a word.
    #[error("MissingWord")]
    MissingWord,
    /// A word is not a kind of command.
    #[error("BadKind")]
    BadKind,
    /// A word is not a number, or is too large.
    #[error("BadNumber")]
    BadNumber,
    /// A word is not bytes in hexadecimal digits, or not the 16 that are expected.
    #[error("BadHex")]
    BadHex,
    /// A word is not a piece.
    #[error("BadPiece")]
    BadPiece,
    /// A word is left over.
    #[error("ExtraWord")]
    ExtraWord,
}

/// Why a line of a script was not read.
#[derive(Clone, Copy, Debug, PartialEq, Eq, Error)]
pub enum LineError {
    /// It is at fault.
    #[error("{0}")]
    Fault(LineFault),
    /// Memory was refused.
    #[error("memory")]
    Memory,
}

impl From<LineFault> for LineError {
    ghost use Rattle.script_cli.specs.declared.fault.LineError.{LineError};
    ghost use Rattle.std.specs.Prelude.{◌≡◌};

    ghost from_gives = { λ fault error. error ≡ LineError.Fault fault };

    fn from(fault: LineFault) -> Self {
        LineError::Fault(fault)
    }
}

impl From<AllocError> for LineError {
    ghost use Rattle.script_cli.specs.declared.fault.LineError.{LineError};
    ghost use Rattle.std.specs.Prelude.{◌≡◌};

    ghost from_gives = { λ _ error. error ≡ LineError.Memory };

    fn from(_refused: AllocError) -> Self {
        LineError::Memory
    }
}

/// Why a script was not read.
#[derive(Clone, Copy, Debug, PartialEq, Eq, Error)]
pub enum ScriptFault {
    /// It has more than 1,048,576 bytes.
    #[error("script: too long")]
    TooLong,
    /// The first line that is at fault.
    #[error("line {number}: {fault}")]
    Line {
        /// The line's number, from 1.
        number: u32,
        /// Its first fault.
        fault: LineFault,
    },
    /// Memory was refused.
    #[error("memory")]
    Memory,
}

/// Why the book of a run of threads was not closed.
#[derive(Clone, Copy, Debug, PartialEq, Eq, Error)]
pub enum NotClosed {
    /// A submission is in no receipt.
    #[error("Missing")]
    Missing,
    /// A seat was not handed in.
    #[error("SeatOut")]
    SeatOut,
    /// A command was still outstanding.
    #[error("StillOut")]
    StillOut,
    /// A gate was closed to a submitter.
    #[error("GateClosed")]
    GateClosed,
}

/// Why a run of a script ended early.
#[derive(Clone, Copy, Debug, PartialEq, Eq, Error)]
pub enum RunFault {
    /// The first line of the script that is at fault.
    #[error("line {number}: {fault}")]
    Line {
        /// The line's number, from 1.
        number: u32,
        /// Its first fault.
        fault: LineFault,
    },
    /// The script has more than 1,048,576 bytes.
    #[error("script: too long")]
    TooLong,
    /// A read of the script failed.
    #[error("script: unreadable")]
    Unreadable,
    /// A number of the configuration lies outside its limits.
    #[error("open: BadConfig")]
    BadConfig,
    /// The pool has too few pages for the halves of all queues.
    #[error("open: NoPages need {need} free {free}")]
    NoPages {
        /// How many are needed.
        need: u32,
        /// How many the pool has.
        free: u32,
    },
    /// A thread could not be made.
    #[error("thread")]
    NoThread,
    /// The book of the threads was not closed.
    #[error("close: {0}")]
    Close(NotClosed),
    /// Memory was refused; in a run of steps, not inside a step.
    #[error("memory")]
    Memory,
    /// A write or the flush failed. After it nothing more was written.
    #[error("output failed")]
    OutputFailed,
}

impl RunFault {
    /// The exit status that a program ends with.
    pub fn exit_status(self) -> u8
        ensures { result ≡ status_of_run self }
    {
        match self {
            RunFault::Line { .. } | RunFault::TooLong | RunFault::Unreadable => 1,
            RunFault::BadConfig | RunFault::NoPages { .. } => 2,
            RunFault::NoThread | RunFault::Close(_) | RunFault::Memory | RunFault::OutputFailed => {
                3
            }
        }
    }
}

impl From<AllocError> for RunFault {
    ghost use Rattle.script_cli.specs.declared.fault.RunFault.{RunFault};
    ghost use Rattle.std.specs.Prelude.{◌≡◌};

    ghost from_gives = { λ _ fault. fault ≡ RunFault.Memory };

    fn from(_fault: AllocError) -> Self {
        RunFault::Memory
    }
}

/// The fault of a run whose script is at fault.
pub fn script_at_fault(why: ScriptFault) -> RunFault
    ensures { result ≡ fault_of_script why }
{
    match why {
        ScriptFault::TooLong => RunFault::TooLong,
        ScriptFault::Line { number, fault } => RunFault::Line { number, fault },
        ScriptFault::Memory => RunFault::Memory,
    }
}

/// The fault of a run whose world was not opened.
pub fn not_opened(why: OpenRefusal) -> RunFault
    ensures { result ≡ fault_of_opening why }
{
    match why {
        OpenRefusal::BadConfig => RunFault::BadConfig,
        OpenRefusal::NoPages { need, free } => RunFault::NoPages { need, free },
        OpenRefusal::Memory => RunFault::Memory,
    }
}
