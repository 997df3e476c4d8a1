//! What a load came to so far.

use crate::measured::Measured;
use crate::tally::Tally;

/// What a load came to, so far or at its end.
#[derive(Clone, Copy)]
pub struct Figures<'a> {
    /// How many commands ended how.
    pub tally: Tally,
    /// How long those took that ended with status 0:00.
    pub measured: &'a Measured,
    /// The bytes of a command.
    pub command_bytes: u64,
    /// How long its commands took in all, in nanoseconds.
    pub nanos: u64,
}

/// Who is told, while a load runs, what it came to so far.
pub trait ProgressReport {
    /// Takes it. What goes wrong with it is kept here, and ends no load.
    fn take(&mut self, so_far: &Figures<'_>);
}
