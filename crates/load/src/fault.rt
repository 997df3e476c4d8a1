//! Why a load did not run to its end.

ghost use Rattle.std.specs.Prelude.{◌≡◌};
ghost use Rattle.load.specs.Statuses.{status_of_load};

use script_cli::RunFault;
use std::alloc::AllocError;
use thiserror::Error;

/// Why a load did not run to its end.
#[derive(Clone, Copy, Debug, Error)]
pub enum LoadFault {
    /// The image has fewer blocks than are to be used, or those that are used have no slot for each submitter.
    #[error("load: {need} blocks are needed, for --size or for a slot of each submitter, and there are {blocks}")]
    TooFewBlocks {
        /// How many are needed.
        need: u32,
        /// How many there are.
        blocks: u32,
    },
    /// The opening is refused, memory was refused, or the output failed.
    #[error("{0}")]
    Run(RunFault),
    /// A round did not run to its end.
    #[error("load: {0}")]
    Round(driver_threads::RunFault),
}

impl LoadFault {
    /// The exit status that a program ends with.
    pub fn exit_status(self) -> u8
        ensures { result ≡ status_of_load self }
    {
        match self {
            LoadFault::TooFewBlocks { .. } => 2,
            LoadFault::Run(fault) => fault.exit_status(),
            LoadFault::Round(_) => 3,
        }
    }
}

impl From<AllocError> for LoadFault {
    ghost use Rattle.load.specs.declared.fault.LoadFault.{LoadFault};
    ghost use Rattle.script_cli.specs.declared.fault.RunFault.TheVariants as run;
    ghost use Rattle.std.specs.Prelude.{◌≡◌};

    ghost from_gives = { λ _ fault. fault ≡ LoadFault.Run run.Memory };

    fn from(_fault: AllocError) -> Self {
        LoadFault::Run(RunFault::Memory)
    }
}

impl From<RunFault> for LoadFault {
    ghost use Rattle.load.specs.declared.fault.LoadFault.{LoadFault};
    ghost use Rattle.std.specs.Prelude.{◌≡◌};

    ghost from_gives = { λ why fault. fault ≡ LoadFault.Run why };

    fn from(why: RunFault) -> Self {
        LoadFault::Run(why)
    }
}
