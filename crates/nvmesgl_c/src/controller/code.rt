//! The code of each answer.

ghost use Rattle.std.specs.Prelude.{◌≡◌};
ghost use Rattle.nvmesgl_c.specs.ControllerCodes as codes;

use controller_core::ControllerRefusal;

/// No queue of this number takes the call.
pub(crate) const NO_QUEUE: u32 = 10;
/// There is no such job.
pub(crate) const NO_JOB: u32 = 31;
/// The value is no position that the doorbell can take.
pub(crate) const BAD_DOORBELL: u32 = 50;
/// The pool has more than 65,536 pages.
pub(crate) const POOL_TOO_LONG: u32 = 51;
/// The buffer is not whole blocks, or the image does not have this many starting at the block.
pub(crate) const NO_BLOCKS: u32 = 52;

/// Blocks are wanted, and not all of them are lent.
pub(crate) const NOT_LENT: u32 = 58;
/// The call is of a controller of the other kind: one that holds an image, or one whose blocks are lent.
pub(crate) const OTHER_CALL: u32 = 59;

/// The code of a refusal.
pub(crate) fn code_of_refusal(why: ControllerRefusal) -> u32
    ensures { result ≡ codes.code_of_refusal why }
{
    match why {
        ControllerRefusal::Memory => 15,
        ControllerRefusal::Idle => 28,
        ControllerRefusal::SlotOut => 29,
        ControllerRefusal::Full => 30,
        ControllerRefusal::NoJob => 31,
        ControllerRefusal::Nothing => 32,
        ControllerRefusal::Walking => 33,
        ControllerRefusal::Waits => 34,
    }
}
