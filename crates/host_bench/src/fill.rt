//! A draft is filled, written and built.

ghost use Rattle.std.specs.Prelude.{◌≡◌, List, slice_get};
ghost use Rattle.std.specs.Fn.{FnOnceReturnsAtMut};
ghost use Rattle.std.specs.Option.{option_map};
ghost use Rattle.host_bench.specs.Reach.{WritesDraft};
ghost use Rattle.host_bench.specs.BenchTables.{BuildsDraft, BuildsRow, FillsDraft};
ghost use Rattle.host_bench.specs.CommandValues.{as_draft};

use crate::call::{Reply, ReplyIn};
use crate::values::CommandValue;
use io_commands::Draft;
use machine_model::words::Refusal;
use std::alloc::Allocator;

/// What is answered where memory is refused.
pub(crate) fn no_memory<A: Allocator>() -> ReplyIn<A>
    ensures { result ≡ Reply.Refused Refusal.Memory }
{
    Reply::Refused(Refusal::Memory)
}

/// Fills a draft with the bytes, and with zeros after them.
pub(crate) fn fill_draft<A: Allocator>(draft: &mut Draft<A>, bytes: &[u8]) -> ReplyIn<A>
    ensures { FillsDraft draft.old bytes.now result draft.new }
{
    match draft.fill_padded(bytes) {
        Ok(()) => Reply::Accepted,
        Err(fault) => Reply::NotFilled(fault),
    }
}

/// Gives the bytes of the page of a data piece to a closure, if the draft has such a piece.
pub(crate) fn write_draft<A: Allocator, T, F: FnOnce(&mut [u8]) -> T>(
    draft: &mut Draft<A>,
    i: usize,
    write: F,
) -> Option<T>
    requires { F.IsAlwaysCallable write }
    ensures { WritesDraft (λ old answer left. FnOnceReturnsAtMut F.FnOnce write old answer left) draft.old i (option_map (λ page. page.1) (slice_get draft.old.data_pages i)) result draft.new }
{
    if i >= draft.data_pages().len() {
        return None;
    }
    Some(write(draft.data_mut(i)))
}

/// Builds a draft.
fn build_draft<A: Allocator + Clone>(draft: &mut Draft<A>, alloc: A) -> ReplyIn<A>
    ensures { BuildsDraft draft.old result draft.new }
{
    match draft.build(alloc) {
        Ok(()) => Reply::Accepted,
        Err(_) => no_memory(),
    }
}

/// Builds the draft in a row.
pub(crate) fn build_row<A: Allocator + Clone>(
    row: &mut Option<CommandValue<A>>,
    alloc: A,
) -> ReplyIn<A>
    ensures { BuildsRow row.old (as_draft row.old) result row.new }
{
    match row {
        Some(CommandValue::Draft(draft)) => build_draft(draft, alloc),
        _ => Reply::NoValue,
    }
}
