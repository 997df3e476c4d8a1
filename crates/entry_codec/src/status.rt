//! The status of a completion.

ghost use Rattle.std.specs.Prelude.{◌≡◌, true, false, codes};
ghost use Rattle.entry_codec.specs.Status.{is_success, status_halfword, status_text};

use std::fmt;

/// How a command ended: a status code type and a status code (NVM Express Base Specification 2.0, "Status Field Definition").
///
/// The type has 3 bits in an entry, so it is below 8 in every status that is written.
#[derive(Clone, Copy, Debug, PartialEq, Eq)]
pub struct Status {
    /// Status code type.
    pub sct: u8,
    /// Status code.
    pub sc: u8,
}

impl Status {
    /// Successful Completion (Generic Command Status Values).
    pub const SUCCESS: Status = Status { sct: 0, sc: 0x00 };
    /// Invalid Command Opcode (Generic Command Status Values).
    pub const INVALID_OPCODE: Status = Status { sct: 0, sc: 0x01 };
    /// Invalid Field in Command (Generic Command Status Values).
    pub const INVALID_FIELD: Status = Status { sct: 0, sc: 0x02 };
    /// Command ID Conflict (Generic Command Status Values).
    pub const COMMAND_ID_CONFLICT: Status = Status { sct: 0, sc: 0x03 };
    /// Data Transfer Error (Generic Command Status Values).
    pub const DATA_TRANSFER_ERROR: Status = Status { sct: 0, sc: 0x04 };
    /// Command Abort Requested (Generic Command Status Values).
    pub const ABORT_REQUESTED: Status = Status { sct: 0, sc: 0x07 };
    /// Command Aborted due to SQ Deletion (Generic Command Status Values).
    pub const ABORTED_SQ_DELETION: Status = Status { sct: 0, sc: 0x08 };
    /// Invalid Namespace or Format (Generic Command Status Values).
    pub const INVALID_NAMESPACE: Status = Status { sct: 0, sc: 0x0B };
    /// Invalid SGL Segment Descriptor (Generic Command Status Values).
    pub const INVALID_SGL_SEGMENT: Status = Status { sct: 0, sc: 0x0D };
    /// Invalid Number of SGL Descriptors (Generic Command Status Values).
    pub const INVALID_SGL_COUNT: Status = Status { sct: 0, sc: 0x0E };
    /// Data SGL Length Invalid (Generic Command Status Values).
    pub const DATA_SGL_LENGTH_INVALID: Status = Status { sct: 0, sc: 0x0F };
    /// SGL Descriptor Type Invalid (Generic Command Status Values).
    pub const SGL_TYPE_INVALID: Status = Status { sct: 0, sc: 0x11 };
    /// LBA Out of Range (Generic Command Status Values, those of the NVM Command Set).
    pub const LBA_OUT_OF_RANGE: Status = Status { sct: 0, sc: 0x80 };
    /// Completion Queue Invalid (Command Specific Status Values).
    pub const COMPLETION_QUEUE_INVALID: Status = Status { sct: 1, sc: 0x00 };
    /// Invalid Queue Identifier (Command Specific Status Values).
    pub const INVALID_QUEUE_IDENTIFIER: Status = Status { sct: 1, sc: 0x01 };
    /// Invalid Queue Size (Command Specific Status Values).
    pub const INVALID_QUEUE_SIZE: Status = Status { sct: 1, sc: 0x02 };
    /// Invalid Queue Deletion (Command Specific Status Values).
    pub const INVALID_QUEUE_DELETION: Status = Status { sct: 1, sc: 0x0C };
    /// Compare Failure (Media and Data Integrity Errors).
    pub const COMPARE_FAILURE: Status = Status { sct: 2, sc: 0x85 };

    /// Whether it is Successful Completion.
    pub fn is_success(self) -> bool
        ensures { result ≡ is_success self }
    {
        self.sct == 0 && self.sc == 0
    }
}

/// `SCT:SC`: the type in decimal, the code as two upper case hexadecimal digits, as `2:85` or `0:0D` (own).
impl fmt::Display for Status {
    ghost use Rattle.std.specs.Prelude.{Some};
    ghost use Rattle.entry_codec.specs.Status.{status_text};

    ghost output = { λ status. Some (status_text status) };

    fn fmt<W: fmt::Write>(&self, f: &mut fmt::Formatter<W>) -> fmt::Result {
        let (sct, sc) = (self.sct, self.sc);
        write!(f, "{sct}:{sc:02X}")
    }
}

/// The status codes, by their numbers.
pub fn code_values()
    ensures success { Status.SUCCESS ≡ record { sct = 0; sc = 0x00 } }
    ensures invalid_opcode { Status.INVALID_OPCODE ≡ record { sct = 0; sc = 0x01 } }
    ensures invalid_field { Status.INVALID_FIELD ≡ record { sct = 0; sc = 0x02 } }
    ensures command_id_conflict { Status.COMMAND_ID_CONFLICT ≡ record { sct = 0; sc = 0x03 } }
    ensures data_transfer_error { Status.DATA_TRANSFER_ERROR ≡ record { sct = 0; sc = 0x04 } }
    ensures abort_requested { Status.ABORT_REQUESTED ≡ record { sct = 0; sc = 0x07 } }
    ensures aborted_sq_deletion { Status.ABORTED_SQ_DELETION ≡ record { sct = 0; sc = 0x08 } }
    ensures invalid_namespace { Status.INVALID_NAMESPACE ≡ record { sct = 0; sc = 0x0B } }
    ensures invalid_sgl_segment { Status.INVALID_SGL_SEGMENT ≡ record { sct = 0; sc = 0x0D } }
    ensures invalid_sgl_count { Status.INVALID_SGL_COUNT ≡ record { sct = 0; sc = 0x0E } }
    ensures data_sgl_length_invalid { Status.DATA_SGL_LENGTH_INVALID ≡ record { sct = 0; sc = 0x0F } }
    ensures sgl_type_invalid { Status.SGL_TYPE_INVALID ≡ record { sct = 0; sc = 0x11 } }
    ensures lba_out_of_range { Status.LBA_OUT_OF_RANGE ≡ record { sct = 0; sc = 0x80 } }
    ensures completion_queue_invalid { Status.COMPLETION_QUEUE_INVALID ≡ record { sct = 1; sc = 0x00 } }
    ensures invalid_queue_identifier { Status.INVALID_QUEUE_IDENTIFIER ≡ record { sct = 1; sc = 0x01 } }
    ensures invalid_queue_size { Status.INVALID_QUEUE_SIZE ≡ record { sct = 1; sc = 0x02 } }
    ensures invalid_queue_deletion { Status.INVALID_QUEUE_DELETION ≡ record { sct = 1; sc = 0x0C } }
    ensures compare_failure { Status.COMPARE_FAILURE ≡ record { sct = 2; sc = 0x85 } }
{}

/// The last halfwords of completions that have these codes and phases.
pub fn worked_halfwords()
    ensures invalid_sgl_segment { status_halfword Status.INVALID_SGL_SEGMENT true ≡ 0x001B }
    ensures invalid_sgl_count { status_halfword Status.INVALID_SGL_COUNT true ≡ 0x001D }
    ensures sgl_type_invalid { status_halfword Status.SGL_TYPE_INVALID true ≡ 0x0023 }
    ensures data_sgl_length_invalid { status_halfword Status.DATA_SGL_LENGTH_INVALID true ≡ 0x001F }
    ensures data_transfer_error { status_halfword Status.DATA_TRANSFER_ERROR true ≡ 0x0009 }
    ensures compare_failure { status_halfword Status.COMPARE_FAILURE true ≡ 0x050B }
    ensures lba_out_of_range { status_halfword Status.LBA_OUT_OF_RANGE true ≡ 0x0101 }
    ensures abort_requested { status_halfword Status.ABORT_REQUESTED true ≡ 0x000F }
    ensures aborted_sq_deletion { status_halfword Status.ABORTED_SQ_DELETION true ≡ 0x0011 }
    ensures success { status_halfword Status.SUCCESS true ≡ 0x0001 }
    ensures success_of_other_phase { status_halfword Status.SUCCESS false ≡ 0x0000 }
{}

/// The texts of some of these codes, and of the largest numbers.
pub fn worked_texts()
    ensures success { status_text Status.SUCCESS ≡ codes "0:00" }
    ensures invalid_sgl_segment { status_text Status.INVALID_SGL_SEGMENT ≡ codes "0:0D" }
    ensures lba_out_of_range { status_text Status.LBA_OUT_OF_RANGE ≡ codes "0:80" }
    ensures invalid_queue_deletion { status_text Status.INVALID_QUEUE_DELETION ≡ codes "1:0C" }
    ensures compare_failure { status_text Status.COMPARE_FAILURE ≡ codes "2:85" }
    ensures largest { status_text (record { sct = 255; sc = 255 }) ≡ codes "255:FF" }
{}
