//! Commands that did not end well.

use driver_threads::JobRefusal;
use entry_codec::Status;
use entry_codec::status_names::Named;
use io_commands::Kind;
use std::fmt;

/// What is wrong with a command.
#[derive(Clone, Copy)]
pub enum Why {
    /// It was refused.
    Refused(JobRefusal),
    /// It ended with a status that is not 0:00.
    Status(Status),
    /// It brought other bytes than are there.
    Differs,
}

impl fmt::Display for Why {
    fn fmt<W: fmt::Write>(&self, f: &mut fmt::Formatter<W>) -> fmt::Result {
        match self {
            Why::Refused(why) => write!(f, "refused: {why}"),
            Why::Status(status) => {
                let named = Named(*status);
                write!(f, "status {named}")
            }
            Why::Differs => f.write_str("other bytes than were written"),
        }
    }
}

/// A command that did not end well.
#[derive(Clone, Copy)]
pub struct Bad {
    /// Which command.
    pub kind: Kind,
    /// Its first block.
    pub slba: u32,
    /// How many blocks.
    pub blocks: u32,
    /// What is wrong.
    pub why: Why,
}

impl fmt::Display for Bad {
    fn fmt<W: fmt::Write>(&self, f: &mut fmt::Formatter<W>) -> fmt::Result {
        let name = self.kind.name();
        let Bad {
            slba,
            blocks,
            why,
            ..
        } = *self;
        write!(f, "{name} of {blocks} blocks from {slba}: {why}")
    }
}
