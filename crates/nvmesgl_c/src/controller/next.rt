//! What the controller can do next.

ghost use Rattle.std.specs.Prelude.{◌≡◌, slice_get};
ghost use Rattle.nvmesgl_c.specs.ControllerKept.{kept_in, lends_in};
ghost use Rattle.nvmesgl_c.specs.ControllerNext as next;
ghost use Rattle.nvmesgl_c.specs.ControllerNext.{Sees, TellsNext};

use crate::controller::any_controller::AnyController;
use crate::controller::calls::take_for;
use crate::controller::handle::Handle;
use crate::words::code::DONE;
use crate::words::{LentMemory, Recorded, or_code};
use arrayvec::ArrayVec;
use controller_core::ControllerStep;
use std::alloc::Global;

/// What a controller can do.
#[repr(C)]
#[derive(Clone, Copy)]
pub struct CStep {
    /// 0 nothing, 1 fetch the entry at the head of the queue, 2 a unit of the command's list, 3 complete the command.
    pub kind: u32,
    /// The queue.
    pub q: u16,
    /// The command's identifier.
    pub cid: u16,
    /// Zeros.
    pub reserved: [u32; 4],
}

/// A step, as C sees it.
pub(crate) fn step_of(step: Option<ControllerStep>) -> CStep
    ensures { result ≡ next.step_of step }
{
    let (kind, q, cid) = match step {
        None => (0, 0, 0),
        Some(ControllerStep::Fetch { q }) => (1, q, 0),
        Some(ControllerStep::Walk { q, cid }) => (2, q, cid),
        Some(ControllerStep::Complete { q, cid }) => (3, q, cid),
    };
    CStep {
        kind,
        q,
        cid,
        reserved: [0; 4],
    }
}

/// Looks for a step over a memory that is lent and recorded: both borrows are the same ones afterwards.
fn look_over(
    controller: &AnyController,
    memory: &mut Recorded<'_, LentMemory<'_>>,
) -> Option<ControllerStep>
    ensures lent { memory.new.lent.ghost_name ≡ memory.old.lent.ghost_name }
    ensures same { memory.new.lent.now.bytes.ghost_name ≡ memory.old.lent.now.bytes.ghost_name }
    ensures kept { slice_get memory.new.lent.now.bytes.now ≡ slice_get memory.old.lent.now.bytes.now }
    ensures sees { Sees controller.now.contents (slice_get memory.old.lent.now.bytes.now) result }
{
    controller.next_step(memory)
}

/// Looks for a step over a memory that is lent: the borrow is the same one afterwards.
fn look(controller: &AnyController, memory: &mut LentMemory<'_>) -> Option<ControllerStep>
    ensures same { memory.new.bytes.ghost_name ≡ memory.old.bytes.ghost_name }
    ensures kept { slice_get memory.new.bytes.now ≡ slice_get memory.old.bytes.now }
    ensures sees { Sees controller.now.contents (slice_get memory.old.bytes.now) result }
{
    let mut recorded = Recorded {
        lent: memory,
        unlisted: 0,
    };
    look_over(controller, &mut recorded)
}

/// Tells what the controller can do, if there is anything. It does nothing.
#[unsafe(no_mangle)]
pub extern "C" fn nvmectl_next(
    alloc: Global,
    handle: &mut Handle,
    pool: &mut [u8],
    step: &mut CStep,
) -> u32
    ensures tells { TellsNext (kept_in handle.old) pool.old result step.old step.new (kept_in handle.new) pool.new }
    ensures kind { lends_in handle.new ≡ lends_in handle.old }
{
    let controller = or_code!(take_for(alloc, handle, pool.len()));
    let mut memory = LentMemory {
        bytes: pool,
        touched: ArrayVec::new(),
    };
    *step = step_of(look(&controller, &mut memory));
    handle.put(controller);
    DONE
}
