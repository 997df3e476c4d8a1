//! What a handle shows of the pool.

ghost use Rattle.nvmesgl_c.specs.MachineKept.{kept_in};
ghost use Rattle.nvmesgl_c.specs.MachineLooks.{TellsCounts, TellsOwner};

use crate::machine::handle::Handle;
use crate::words::code::{DONE, NO_PAGE};
use crate::words::{COwner, or_code, owner_of};
use std::alloc::Global;

/// How many pages a pool has and each class of them, and whether nothing was forged since the opening or the last reset.
#[repr(C)]
#[derive(Clone, Copy)]
pub struct CCounts {
    /// All pages.
    pub pages: u32,
    /// The pages that nobody owns.
    pub free_pages: u32,
    /// The pages of queues.
    pub queue_pages: u32,
    /// The pages that hold segments of commands' lists.
    pub chain_pages: u32,
    /// The pages that hold commands' data.
    pub data_pages: u32,
    /// Whether nothing was forged.
    pub trusted: bool,
    /// Zeros.
    pub reserved: [u32; 4],
}

/// Tells how many pages the pool has and each class of them.
#[unsafe(no_mangle)]
pub extern "C" fn nvmesgl_counts(alloc: Global, handle: &mut Handle, counts: &mut CCounts) -> u32
    ensures { TellsCounts (kept_in handle.old) result counts.old counts.new (kept_in handle.new) }
{
    let desk = or_code!(handle.take(alloc));
    *counts = desk.counts();
    handle.put(desk);
    DONE
}

/// Tells who owns a page.
#[unsafe(no_mangle)]
pub extern "C" fn nvmesgl_owner(
    alloc: Global,
    handle: &mut Handle,
    page: u32,
    owner: &mut COwner,
) -> u32
    ensures { TellsOwner (kept_in handle.old) page result owner.old owner.new (kept_in handle.new) }
{
    let desk = or_code!(handle.take(alloc));
    let found = desk.owner(page);
    handle.put(desk);
    let Some(found) = found else {
        return NO_PAGE;
    };
    *owner = owner_of(found);
    DONE
}
