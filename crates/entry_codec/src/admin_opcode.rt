//! Opcodes of the commands on the admin queue (NVM Express Base Specification 2.0, "Admin Command Set").

ghost use Rattle.std.specs.Prelude.{◌≡◌};

/// Delete I/O Submission Queue.
pub const DELETE_IO_SQ: u8 = 0x00;
/// Create I/O Submission Queue.
pub const CREATE_IO_SQ: u8 = 0x01;
/// Delete I/O Completion Queue.
pub const DELETE_IO_CQ: u8 = 0x04;
/// Create I/O Completion Queue.
pub const CREATE_IO_CQ: u8 = 0x05;
/// Get Log Page.
pub const GET_LOG_PAGE: u8 = 0x02;
/// Identify.
pub const IDENTIFY: u8 = 0x06;
/// Abort.
pub const ABORT: u8 = 0x08;
/// Set Features.
pub const SET_FEATURES: u8 = 0x09;
/// Get Features.
pub const GET_FEATURES: u8 = 0x0A;
/// Asynchronous Event Request.
pub const ASYNC_EVENT_REQUEST: u8 = 0x0C;
/// Doorbell Buffer Config.
pub const DOORBELL_BUFFER_CONFIG: u8 = 0x7C;

/// The opcodes, by their numbers.
pub fn values()
    ensures delete_io_sq { DELETE_IO_SQ ≡ 0x00 }
    ensures create_io_sq { CREATE_IO_SQ ≡ 0x01 }
    ensures delete_io_cq { DELETE_IO_CQ ≡ 0x04 }
    ensures create_io_cq { CREATE_IO_CQ ≡ 0x05 }
    ensures get_log_page { GET_LOG_PAGE ≡ 0x02 }
    ensures identify { IDENTIFY ≡ 0x06 }
    ensures abort { ABORT ≡ 0x08 }
    ensures set_features { SET_FEATURES ≡ 0x09 }
    ensures get_features { GET_FEATURES ≡ 0x0A }
    ensures async_event_request { ASYNC_EVENT_REQUEST ≡ 0x0C }
    ensures doorbell_buffer_config { DOORBELL_BUFFER_CONFIG ≡ 0x7C }
{}
