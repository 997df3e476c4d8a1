//! The opening and the closing of a handle.

ghost use Rattle.std.specs.Prelude.{◌≡◌, IfOk, IfErr};
ghost use Rattle.nvmesgl_c.specs.HostKept.{Closes, kept_in};
ghost use Rattle.nvmesgl_c.specs.HostOptions.{Opens, IsOpened, IsWhy};

use crate::host::handle::Handle;
use crate::host::options::{Options, SIZE};
use crate::host::tagged::Tagged;
use crate::words::code::DONE;
use crate::words::{
    Answer, NotOpened, code_of_not_opened, fault_of_form, nothing, told_not_opened,
};
use host_bench::HostBench;
use host_core::Config;
use slot_table::LinkedTable;
use std::alloc::Global;

/// A host in a box.
fn open_bench(alloc: Global, given: &Options) -> Result<Box<Tagged, Global>, NotOpened>
    ensures opened { IfOk result (λ bench. IsOpened given.now bench.value) }
    ensures not_opened { IfErr result (λ why. IsWhy given.now why) }
{
    if let Some(why) = fault_of_form(given.size, SIZE, &given.reserved) {
        return Err(why);
    }
    let config = Config {
        pages: given.pages,
        queues: given.queues,
        entries: given.entries,
        segment: given.segment,
    };
    match HostBench::open(alloc, config) {
        Ok(bench) => {
            let tags = LinkedTable::new(alloc);
            match Box::new(alloc, Tagged { bench, tags }) {
                Ok(bench) => Ok(bench),
                Err(_) => Err(NotOpened::Memory),
            }
        }
        Err(why) => Err(NotOpened::Refused(why)),
    }
}

/// Opens a handle that is closed.
#[unsafe(no_mangle)]
pub extern "C" fn nvmehost_open(
    alloc: Global,
    handle: &mut Handle,
    given: &Options,
    answer: &mut Answer,
) -> u32
    ensures { Opens (kept_in handle.old) given.now result answer.new (kept_in handle.new) }
{
    *answer = nothing();
    if let Some(code) = handle.cause() {
        return code;
    }
    match open_bench(alloc, given) {
        Ok(bench) => {
            handle.put(bench);
            DONE
        }
        Err(why) => {
            *answer = told_not_opened(why);
            code_of_not_opened(why)
        }
    }
}

/// Closes a handle, if it is open, and else leaves it: all that it holds is let go, whatever is outstanding.
#[unsafe(no_mangle)]
pub extern "C" fn nvmehost_close(alloc: Global, handle: &mut Handle)
    ensures { Closes (kept_in handle.old) (kept_in handle.new) }
{
    if let Ok(bench) = handle.take(alloc) {
        drop(bench);
    }
}
