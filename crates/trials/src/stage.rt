//! The steps of a command behind its reservation.

ghost use Rattle.std.specs.Prelude.{◌≡◌};

use std::alloc::Allocator;
use step_core::{Step, StepIn};

/// A step that is done for each command, before the next one is done for any.
#[derive(Clone, Copy)]
pub enum Stage {
    /// Lay its list.
    Build,
    /// Submit it.
    Submit,
    /// Ring its queue.
    Ring,
    /// The controller fetches it.
    Fetch,
    /// The controller does a unit of its list.
    Walk,
    /// The controller completes it.
    Complete,
    /// Take its completion.
    Reap,
    /// Collect it.
    Collect,
    /// Gather its bytes.
    Gather,
    /// Release it.
    Release,
}

/// All of them, in order: a list of one descriptor is walked by two units.
pub const STAGES: [Stage; 11] = [
    Stage::Build,
    Stage::Submit,
    Stage::Ring,
    Stage::Fetch,
    Stage::Walk,
    Stage::Walk,
    Stage::Complete,
    Stage::Reap,
    Stage::Collect,
    Stage::Gather,
    Stage::Release,
];

impl Stage {
    /// The step of a command of the I/O queue.
    pub fn step<A: Allocator>(self, cid: u16) -> StepIn<A> {
        let q = 1;
        match self {
            Stage::Build => Step::Build { q, cid },
            Stage::Submit => Step::Submit { q, cid },
            Stage::Ring => Step::Ring { q },
            Stage::Fetch => Step::Fetch { q },
            Stage::Walk => Step::Walk { q, cid },
            Stage::Complete => Step::Complete { q, cid },
            Stage::Reap => Step::Reap { q },
            Stage::Collect => Step::Collect { q, cid },
            Stage::Gather => Step::Gather { q, cid },
            Stage::Release => Step::Release { q, cid },
        }
    }
}
