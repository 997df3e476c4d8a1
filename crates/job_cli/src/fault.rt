//! The faults of threads and of the close of their book, as those of a run.

ghost use Rattle.std.specs.Prelude.{◌≡◌};
ghost use Rattle.job_cli.specs.Faults.{fault_of_closing, fault_of_threads};

use driver_book::CloseFault;
use script_cli::{NotClosed, RunFault, not_opened};

/// The fault of a run whose book was not closed.
fn not_closed(why: CloseFault) -> RunFault
    ensures { result ≡ fault_of_closing why }
{
    match why {
        CloseFault::Missing { .. } => RunFault::Close(NotClosed::Missing),
        CloseFault::SeatOut => RunFault::Close(NotClosed::SeatOut),
        CloseFault::StillOut => RunFault::Close(NotClosed::StillOut),
        CloseFault::Memory => RunFault::Memory,
    }
}

/// The fault of a run whose threads failed.
pub(crate) fn not_run(why: driver_threads::RunFault) -> RunFault
    ensures { result ≡ fault_of_threads why }
{
    match why {
        driver_threads::RunFault::Open(why) => not_opened(why),
        driver_threads::RunFault::NoThread => RunFault::NoThread,
        driver_threads::RunFault::GateClosed { .. } => RunFault::Close(NotClosed::GateClosed),
        driver_threads::RunFault::Close(why) => not_closed(why),
        driver_threads::RunFault::Memory => RunFault::Memory,
    }
}
