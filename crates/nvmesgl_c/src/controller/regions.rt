//! The controller's calls over regions of memory that are lent.

ghost use Rattle.std.specs.Prelude.{◌≡◌, false, []};
ghost use Rattle.nvmesgl_c.specs.ControllerCalls.{FetchesBy, WalksBy, CompletesBy};
ghost use Rattle.nvmesgl_c.specs.ControllerNext.{Sees};
ghost use Rattle.nvmesgl_c.specs.Regions.{hidden_in, memory_of, table_of};

use crate::controller::any_controller::AnyController;
use crate::controller::code::code_of_refusal;
use crate::words::code::DONE;
use crate::words::{Answer, LentRegions, Recorded, touching, walked};
use controller_core::ControllerStep;

/// Fetches over a memory that is lent, and tells what was fetched. The borrow, the table and what no address shows are the same afterwards.
pub(crate) fn fetch(
    controller: &mut AnyController,
    q: u16,
    memory: &mut LentRegions<'_, '_>,
    answer: &mut Answer,
) -> u32
    requires fresh { memory.old.touched.items ≡ [] }
    requires own { controller.old.lends ≡ false }
    ensures kind { controller.new.lends ≡ false }
    ensures same { memory.new.regions.ghost_name ≡ memory.old.regions.ghost_name }
    ensures table { table_of memory.new.regions.now ≡ table_of memory.old.regions.now }
    ensures hidden { hidden_in memory.new.regions.now ≡ hidden_in memory.old.regions.now }
    ensures fetches { FetchesBy q controller.old.contents memory.old.pages (memory_of memory.old.regions.now) result answer.new controller.new.contents (memory_of memory.new.regions.now) }
{
    let fetched = controller.fetch(q, memory);
    *answer = touching(memory.touched.as_slice());
    match fetched {
        Ok(cid) => {
            answer.cid = cid;
            DONE
        }
        Err(why) => code_of_refusal(why),
    }
}

/// Does a unit of a command's list over a memory that is lent, and tells how the list stands. The borrow, the table and what no address shows are the same afterwards.
pub(crate) fn walk(
    controller: &mut AnyController,
    q: u16,
    cid: u16,
    memory: &mut LentRegions<'_, '_>,
    answer: &mut Answer,
) -> u32
    requires fresh { memory.old.touched.items ≡ [] }
    ensures kind { controller.new.lends ≡ controller.old.lends }
    ensures same { memory.new.regions.ghost_name ≡ memory.old.regions.ghost_name }
    ensures table { table_of memory.new.regions.now ≡ table_of memory.old.regions.now }
    ensures hidden { hidden_in memory.new.regions.now ≡ hidden_in memory.old.regions.now }
    ensures walks { WalksBy q cid controller.old.contents memory.old.pages (memory_of memory.old.regions.now) result answer.new controller.new.contents (memory_of memory.new.regions.now) }
{
    match controller.walk(q, cid, memory) {
        Ok(state) => {
            *answer = walked(state, memory.touched.as_slice());
            DONE
        }
        Err(why) => {
            *answer = touching(memory.touched.as_slice());
            code_of_refusal(why)
        }
    }
}

/// Completes a command over a memory that is lent. The borrow, the table and what no address shows are the same afterwards.
pub(crate) fn complete(
    controller: &mut AnyController,
    q: u16,
    cid: u16,
    memory: &mut LentRegions<'_, '_>,
    answer: &mut Answer,
) -> u32
    requires fresh { memory.old.touched.items ≡ [] }
    requires own { controller.old.lends ≡ false }
    ensures kind { controller.new.lends ≡ false }
    ensures same { memory.new.regions.ghost_name ≡ memory.old.regions.ghost_name }
    ensures table { table_of memory.new.regions.now ≡ table_of memory.old.regions.now }
    ensures hidden { hidden_in memory.new.regions.now ≡ hidden_in memory.old.regions.now }
    ensures completes { CompletesBy q cid controller.old.contents memory.old.pages (memory_of memory.old.regions.now) result answer.new controller.new.contents (memory_of memory.new.regions.now) }
{
    let completed = controller.complete(q, cid, memory);
    *answer = touching(memory.touched.as_slice());
    match completed {
        Ok(()) => DONE,
        Err(why) => code_of_refusal(why),
    }
}

/// Looks for a step over a memory that is lent and recorded. Both borrows, the table and what no address shows are the same afterwards.
fn look_over(
    controller: &AnyController,
    memory: &mut Recorded<'_, LentRegions<'_, '_>>,
) -> Option<ControllerStep>
    ensures lent { memory.new.lent.ghost_name ≡ memory.old.lent.ghost_name }
    ensures same { memory.new.lent.now.regions.ghost_name ≡ memory.old.lent.now.regions.ghost_name }
    ensures table { table_of memory.new.lent.now.regions.now ≡ table_of memory.old.lent.now.regions.now }
    ensures hidden { hidden_in memory.new.lent.now.regions.now ≡ hidden_in memory.old.lent.now.regions.now }
    ensures kept { memory_of memory.new.lent.now.regions.now ≡ memory_of memory.old.lent.now.regions.now }
    ensures sees { Sees controller.now.contents (memory_of memory.old.lent.now.regions.now) result }
{
    controller.next_step(memory)
}

/// Looks for a step over a memory that is lent. The borrow, the table and what no address shows are the same afterwards.
pub(crate) fn look(
    controller: &AnyController,
    memory: &mut LentRegions<'_, '_>,
) -> Option<ControllerStep>
    ensures same { memory.new.regions.ghost_name ≡ memory.old.regions.ghost_name }
    ensures table { table_of memory.new.regions.now ≡ table_of memory.old.regions.now }
    ensures hidden { hidden_in memory.new.regions.now ≡ hidden_in memory.old.regions.now }
    ensures kept { memory_of memory.new.regions.now ≡ memory_of memory.old.regions.now }
    ensures sees { Sees controller.now.contents (memory_of memory.old.regions.now) result }
{
    let mut recorded = Recorded {
        lent: memory,
        unlisted: 0,
    };
    look_over(controller, &mut recorded)
}
