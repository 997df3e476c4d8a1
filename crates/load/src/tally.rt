//! How many commands ended how.

ghost use Rattle.std.specs.Prelude.{◌≡◌};
ghost use Rattle.load.specs.Tallies.{both, counted as spec_counted, is_good as spec_is_good};

/// How many commands ended how.
#[derive(Clone, Copy, Debug)]
pub struct Tally {
    /// Commands that ended with status 0:00.
    pub done: u64,
    /// Commands that were refused.
    pub refused: u64,
    /// Commands that ended with another status.
    pub failed: u64,
    /// Reads that brought what is there.
    pub verified: u64,
    /// Reads that brought other bytes.
    pub differ: u64,
}

impl Tally {
    /// No command.
    pub const NONE: Tally = Tally {
        done: 0,
        refused: 0,
        failed: 0,
        verified: 0,
        differ: 0,
    };

    /// The commands of both, as far as numbers go.
    pub(crate) fn and(self, other: Tally) -> Tally
        ensures { result ≡ both self other }
    {
        Tally {
            done: self.done.saturating_add(other.done),
            refused: self.refused.saturating_add(other.refused),
            failed: self.failed.saturating_add(other.failed),
            verified: self.verified.saturating_add(other.verified),
            differ: self.differ.saturating_add(other.differ),
        }
    }

    /// What is counted of a round: reads after the load are no commands of it, and of these none is done.
    pub(crate) fn counted(self, of_load: bool) -> Tally
        ensures { result ≡ spec_counted of_load self }
    {
        if of_load {
            self
        } else {
            Tally { done: 0, ..self }
        }
    }

    /// Whether no command was refused, failed or differs.
    pub fn is_good(self) -> bool
        ensures { result ≡ spec_is_good self }
    {
        self.refused == 0 && self.failed == 0 && self.differ == 0
    }
}
