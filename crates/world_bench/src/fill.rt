//! A draft on a bench is filled and built.

ghost use Rattle.std.specs.Prelude.{◌≡◌, []};
ghost use Rattle.world_bench.specs.BenchTables.{BuildsDraft, FillsDraft};

use io_commands::Draft;
use machine_model::words::Refusal;
use std::alloc::Allocator;
use step_core::{Bytes, Reply, ReplyIn, Touched};

/// What is answered where memory is refused.
pub(crate) fn no_memory<A: Allocator>() -> ReplyIn<A>
    ensures { result ≡ Reply.Refused Refusal.Memory [] }
{
    Reply::Refused {
        why: Refusal::Memory,
        touched: Touched::none(),
    }
}

/// Fills a draft with the bytes, and with zeros after them.
pub(crate) fn fill_draft<A: Allocator>(draft: &mut Draft<A>, bytes: Bytes<A>) -> ReplyIn<A>
    ensures { FillsDraft draft.old bytes result draft.new }
{
    match draft.fill_padded(bytes.as_slice()) {
        Ok(()) => Reply::Accepted,
        Err(fault) => Reply::NotFilled(fault),
    }
}

/// Builds a draft.
pub(crate) fn build_draft<A: Allocator + Clone>(draft: &mut Draft<A>, alloc: A) -> ReplyIn<A>
    ensures { BuildsDraft draft.old result draft.new }
{
    match draft.build(alloc) {
        Ok(()) => Reply::Accepted,
        Err(_) => no_memory(),
    }
}
