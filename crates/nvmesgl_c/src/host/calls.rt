//! Calls of the host that a handle keeps.

ghost use Rattle.std.specs.Prelude.{◌≡◌};
ghost use Rattle.nvmesgl_c.specs.HostKept.{kept_in};
ghost use Rattle.nvmesgl_c.specs.HostCalls.{DoesKept, Says, Refuses};

use crate::host::answer::told;
use crate::host::code::code_of_reply;
use crate::host::handle::Handle;
use crate::words::{Answer, nothing, or_code};
use host_bench::{Call, Reply};
use std::alloc::Global;

/// Makes a call of the host that is kept.
///
/// # Errors
///
/// The code, where none is kept.
pub(crate) fn make(alloc: Global, handle: &mut Handle, what: Call) -> Result<Reply, u32>
    ensures { DoesKept (kept_in handle.old) what result (kept_in handle.new) }
{
    let mut kept = handle.take(alloc)?;
    let answer = kept.bench.call(what);
    handle.put(kept);
    Ok(answer)
}

/// Makes a call, and tells what it answered.
pub(crate) fn say(alloc: Global, handle: &mut Handle, what: Call, answer: &mut Answer) -> u32
    ensures { Says (kept_in handle.old) what result answer.new (kept_in handle.new) }
{
    let reply = make(alloc, handle, what);
    *answer = told(&reply);
    code_of_reply(&reply)
}

/// Makes no call, for a cause; a handle that keeps no host is told first.
pub(crate) fn refuse(alloc: Global, handle: &mut Handle, code: u32, answer: &mut Answer) -> u32
    ensures { Refuses (kept_in handle.old) code result answer.new (kept_in handle.new) }
{
    *answer = nothing();
    let bench = or_code!(handle.take(alloc));
    handle.put(bench);
    code
}
