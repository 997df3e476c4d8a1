//! The controller's calls over the bytes of a pool that is lent.

ghost use Rattle.std.specs.Prelude.{◌≡◌, false, ◌/◌, [], length, slice_get};
ghost use Rattle.nvmesgl_c.specs.ControllerCalls.{FetchesBy, WalksBy, CompletesBy};

use crate::controller::any_controller::AnyController;
use crate::controller::code::code_of_refusal;
use crate::words::code::DONE;
use crate::words::{Answer, LentMemory, touching, walked};

/// Fetches over a memory that is lent, and tells what was fetched. The borrow is the same one afterwards.
pub(crate) fn fetch(
    controller: &mut AnyController,
    q: u16,
    memory: &mut LentMemory,
    answer: &mut Answer,
) -> u32
    requires fresh { memory.old.touched.items ≡ [] }
    requires own { controller.old.lends ≡ false }
    ensures kind { controller.new.lends ≡ false }
    ensures same { memory.new.bytes.ghost_name ≡ memory.old.bytes.ghost_name }
    ensures fetches { FetchesBy q controller.old.contents (length memory.old.bytes.now / 4096) (slice_get memory.old.bytes.now) result answer.new controller.new.contents (slice_get memory.new.bytes.now) }
{
    let fetched = controller.fetch(q, memory);
    *answer = touching(memory.touched.as_slice());
    match fetched {
        Ok(cid) => {
            answer.cid = cid;
            DONE
        }
        Err(why) => code_of_refusal(why),
    }
}

/// Does a unit of a command's list over a memory that is lent, and tells how the list stands. The borrow is the same one afterwards.
pub(crate) fn walk(
    controller: &mut AnyController,
    q: u16,
    cid: u16,
    memory: &mut LentMemory,
    answer: &mut Answer,
) -> u32
    requires fresh { memory.old.touched.items ≡ [] }
    ensures kind { controller.new.lends ≡ controller.old.lends }
    ensures same { memory.new.bytes.ghost_name ≡ memory.old.bytes.ghost_name }
    ensures walks { WalksBy q cid controller.old.contents (length memory.old.bytes.now / 4096) (slice_get memory.old.bytes.now) result answer.new controller.new.contents (slice_get memory.new.bytes.now) }
{
    match controller.walk(q, cid, memory) {
        Ok(state) => {
            *answer = walked(state, memory.touched.as_slice());
            DONE
        }
        Err(why) => {
            *answer = touching(memory.touched.as_slice());
            code_of_refusal(why)
        }
    }
}

/// Completes a command over a memory that is lent. The borrow is the same one afterwards.
pub(crate) fn complete(
    controller: &mut AnyController,
    q: u16,
    cid: u16,
    memory: &mut LentMemory,
    answer: &mut Answer,
) -> u32
    requires fresh { memory.old.touched.items ≡ [] }
    requires own { controller.old.lends ≡ false }
    ensures kind { controller.new.lends ≡ false }
    ensures same { memory.new.bytes.ghost_name ≡ memory.old.bytes.ghost_name }
    ensures completes { CompletesBy q cid controller.old.contents (length memory.old.bytes.now / 4096) (slice_get memory.old.bytes.now) result answer.new controller.new.contents (slice_get memory.new.bytes.now) }
{
    let completed = controller.complete(q, cid, memory);
    *answer = touching(memory.touched.as_slice());
    match completed {
        Ok(()) => DONE,
        Err(why) => code_of_refusal(why),
    }
}
