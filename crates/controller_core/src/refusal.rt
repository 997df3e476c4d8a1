//! Why a call was refused.

ghost use Rattle.std.specs.Prelude.{◌≡◌};

use std::alloc::AllocError;
use thiserror::Error;

/// Why a call was refused. Each call names those that it may answer, in the order of their checks.
#[derive(Clone, Copy, Debug, PartialEq, Eq, Error)]
pub enum ControllerRefusal {
    /// There is nothing to fetch.
    #[error("there is nothing to fetch")]
    Idle,
    /// A byte of the slot is missing.
    #[error("a byte of the slot is missing")]
    SlotOut,
    /// The completion ring is full.
    #[error("the completion ring is full")]
    Full,
    /// The controller has no such command.
    #[error("there is no such command")]
    NoJob,
    /// The command has its verdict, and nothing is left to walk.
    #[error("the command has its verdict")]
    Nothing,
    /// The command's list isn't walked to the end.
    #[error("the command's list is not walked to the end")]
    Walking,
    /// The command waits for the end of another.
    #[error("the command waits for the end of another")]
    Waits,
    /// Memory was refused.
    #[error("out of memory")]
    Memory,
}

impl From<AllocError> for ControllerRefusal {
    ghost use Rattle.std.specs.Prelude.{◌≡◌};
    ghost use Rattle.controller_core.specs.declared.refusal.ControllerRefusal.TheVariants as refusals;

    ghost from_gives = { λ _ why. why ≡ refusals.Memory };

    fn from(_: AllocError) -> ControllerRefusal {
        ControllerRefusal::Memory
    }
}
