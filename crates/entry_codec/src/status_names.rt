//! The names of statuses, for people.
//!
//! [`NAMES`] has those that this project's controller answers, each with its name from the NVM Express Base Specification 2.0, section 3.3.3.2.1 (for LBA Out of
//! Range and Compare Failure, of the NVM Command Set Specification 1.0), without the words "Status" and "Error" of its group.

use crate::status::Status;
use std::fmt;

/// Each status and its name, in the order of types and codes.
pub const NAMES: [(Status, &str); 18] = [
    (Status::SUCCESS, "Successful Completion"),
    (Status::INVALID_OPCODE, "Invalid Command Opcode"),
    (Status::INVALID_FIELD, "Invalid Field in Command"),
    (Status::COMMAND_ID_CONFLICT, "Command ID Conflict"),
    (Status::DATA_TRANSFER_ERROR, "Data Transfer Error"),
    (Status::ABORT_REQUESTED, "Command Abort Requested"),
    (
        Status::ABORTED_SQ_DELETION,
        "Command Aborted due to SQ Deletion",
    ),
    (Status::INVALID_NAMESPACE, "Invalid Namespace or Format"),
    (
        Status::INVALID_SGL_SEGMENT,
        "Invalid SGL Segment Descriptor",
    ),
    (
        Status::INVALID_SGL_COUNT,
        "Invalid Number of SGL Descriptors",
    ),
    (Status::DATA_SGL_LENGTH_INVALID, "Data SGL Length Invalid"),
    (Status::SGL_TYPE_INVALID, "SGL Descriptor Type Invalid"),
    (Status::LBA_OUT_OF_RANGE, "LBA Out of Range"),
    (Status::COMPLETION_QUEUE_INVALID, "Completion Queue Invalid"),
    (Status::INVALID_QUEUE_IDENTIFIER, "Invalid Queue Identifier"),
    (Status::INVALID_QUEUE_SIZE, "Invalid Queue Size"),
    (Status::INVALID_QUEUE_DELETION, "Invalid Queue Deletion"),
    (Status::COMPARE_FAILURE, "Compare Failure"),
];

/// The name of a status; none for one that is not in the table, such as one of a forged entry.
pub fn name_of(status: Status) -> Option<&'static str> {
    for (named, name) in NAMES {
        if named == status {
            return Some(name);
        }
    }
    None
}

/// A status for people: `0:80 LBA Out of Range`, or `3:01` alone where it has no name here.
#[derive(Clone, Copy, Debug, PartialEq, Eq)]
pub struct Named(pub Status);

impl fmt::Display for Named {
    fn fmt<W: fmt::Write>(&self, f: &mut fmt::Formatter<W>) -> fmt::Result {
        let status = self.0;
        match name_of(status) {
            Some(name) => write!(f, "{status} {name}"),
            None => write!(f, "{status}"),
        }
    }
}
