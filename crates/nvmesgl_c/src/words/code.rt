//! The codes that calls answer, as `c/nvmesgl.h` names them.

ghost use Rattle.std.specs.Prelude.{◌≡◌};
ghost use Rattle.nvmesgl_c.specs.Codes as codes;
ghost use Rattle.nvmesgl_c.specs.Keeping as keeping;

use io_commands::{FillFault, RequestFault};
use machine_model::words::{OpenRefusal, Refusal};

/// It was done.
pub const DONE: u32 = 0;
/// The handle is closed.
pub const CLOSED: u32 = 1;
/// The handle is open already.
pub const OPEN: u32 = 2;
/// No value of the fitting kind has this queue and identifier.
pub const NO_VALUE: u32 = 3;
/// No kind of command has this number.
pub const NO_KIND: u32 = 4;
/// The buffer is too short.
pub const TOO_SHORT: u32 = 5;
/// The pool has no such page.
pub const NO_PAGE: u32 = 6;
/// The options, or a request, have another size.
pub const BAD_SIZE: u32 = 7;
/// A reserved word of the options, or of a request, is not 0, or a flag or the block size of a request is unknown.
pub const BAD_OPTION: u32 = 8;
/// The image is not 1 to 65,536 whole blocks.
pub const BAD_IMAGE: u32 = 9;
/// Memory was refused.
pub const MEMORY: u32 = 15;
/// The kind of a piece is neither data nor a bucket.
pub const BAD_PIECE: u32 = 56;
/// No blocks, or more than a command moves.
pub const BAD_COUNT: u32 = 43;

/// No handle of the kind that the call takes.
pub const NO_HANDLE: u32 = 57;

/// The code of a handle that keeps nothing, by its mark: it is closed, or not of this kind.
pub fn code_of_mark(mark: u32) -> u32
    ensures { result ≡ keeping.code_of_mark mark }
{
    if mark == 0 { CLOSED } else { NO_HANDLE }
}

/// What an opening of a handle is refused with, by its mark and by that of its kind: it is open, or not of this kind.
pub fn cause_of_mark(mark: u32, own: u32) -> Option<u32>
    ensures { result ≡ keeping.cause_by own mark }
{
    if mark == own {
        return Some(OPEN);
    }
    if mark == 0 { None } else { Some(NO_HANDLE) }
}

/// The code of a fault of a request.
fn code_of_request_fault(why: RequestFault) -> u32
    ensures { result ≡ codes.code_of_request_fault why }
{
    match why {
        RequestFault::TooManyPieces => 40,
        RequestFault::EmptyPiece => 41,
        RequestFault::CrossesPage => 42,
        RequestFault::BadCount => BAD_COUNT,
        RequestFault::LengthMismatch => 44,
        RequestFault::HostsOwn => 47,
    }
}

/// The code of a refusal.
pub fn code_of_refusal(why: Refusal) -> u32
    ensures { result ≡ codes.code_of_refusal why }
{
    match why {
        Refusal::NoQueue => 10,
        Refusal::Deleting => 11,
        Refusal::Bad(fault) => code_of_request_fault(fault),
        Refusal::OtherBlocks => 35,
        Refusal::NoIdentifier => 13,
        Refusal::NoPages { .. } => 14,
        Refusal::Memory => 15,
        Refusal::Stranger => 16,
        Refusal::NotBuilt => 17,
        Refusal::QueueGone => 18,
        Refusal::QueueFull => 19,
        Refusal::NotYet => 20,
        Refusal::WrongState => 21,
        Refusal::NoSuchCommand => 22,
        Refusal::NotDeleted => 23,
        Refusal::NotDrained => 24,
        Refusal::Outstanding => 25,
        Refusal::NoRun { .. } => 26,
        Refusal::NoSlot => 27,
        Refusal::Idle => 28,
        Refusal::SlotOut => 29,
        Refusal::Full => 30,
        Refusal::NoJob => 31,
        Refusal::Nothing => 32,
        Refusal::Walking => 33,
        Refusal::Waits => 34,
    }
}

/// The code of a draft that was not filled.
pub fn code_of_fill_fault(why: FillFault) -> u32
    ensures { result ≡ codes.code_of_fill_fault why }
{
    match why {
        FillFault::NotASource => 45,
        FillFault::WrongLength => 46,
    }
}

/// The code of an opening that was refused.
pub fn code_of_open_refusal(why: OpenRefusal) -> u32
    ensures { result ≡ codes.code_of_open_refusal why }
{
    match why {
        OpenRefusal::BadConfig => 12,
        OpenRefusal::NoPages { .. } => 14,
        OpenRefusal::Memory => 15,
    }
}
