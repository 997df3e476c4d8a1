//! What C opens a controller with.

ghost use Rattle.std.specs.Prelude.{◌≡◌, ◌≤◌, IfOk, OnOk, length, map};
ghost use Rattle.std.specs.Result.{result_err};
ghost use Rattle.nvmesgl_c.specs.ControllerOptions as options;

use crate::words::{NotOpened, fault_of_form};
use controller_core::QueuePages;
use machine_model::words::OpenRefusal;
use page_memory::PageNo;
use std::alloc::{AllocError, Global};

/// How many bytes [`Options`] has.
const SIZE: u32 = 32;

/// What a controller is opened with, besides the pages of its queues and an image. A later version may give a meaning to a word that is reserved now.
#[repr(C)]
#[derive(Clone, Copy)]
pub struct Options {
    /// How many bytes the struct has, 32.
    pub size: u32,
    /// The entries of each ring, 2 to 1,024.
    pub entries: u32,
    /// The blocks of an image of zeros, 1 to 65,536; read only where no image is given.
    pub blocks: u32,
    /// Zeros.
    pub reserved: [u32; 5],
}

/// Where the two halves of a queue begin.
#[repr(C)]
#[derive(Clone, Copy)]
pub struct CQueue {
    /// The first page of its submission queue.
    pub sq: u32,
    /// The first page of its completion queue.
    pub cq: u32,
}

/// The entries of each ring.
///
/// # Errors
///
/// What is wrong with the options, or that there are too many queues.
pub(crate) fn entries_of(given: &Options, queues: &[CQueue]) -> Result<u16, NotOpened>
    ensures fault { result_err result ≡ options.fault_of given.now (length queues.now) }
    ensures entries { IfOk result (λ entries. entries ≡ given.now.entries) }
    ensures least { IfOk result (λ entries. 2 ≤ entries) }
    ensures most { IfOk result (λ entries. entries ≤ 1024) }
    ensures few { OnOk result (length queues.now ≤ 65536) }
{
    if let Some(why) = fault_of_form(given.size, SIZE, &given.reserved) {
        return Err(why);
    }
    if given.entries < 2 || given.entries > 1024 || queues.len() > 65_536 {
        return Err(NotOpened::Refused(OpenRefusal::BadConfig));
    }
    Ok(given.entries as u16)
}

/// The pages of a queue.
fn pages_of_queue(queue: CQueue) -> QueuePages
    ensures { result ≡ options.pages_of_queue queue }
{
    QueuePages {
        sq: PageNo(queue.sq),
        cq: PageNo(queue.cq),
    }
}

/// The pages of the queues.
///
/// # Errors
///
/// Where memory is refused.
pub(crate) fn pages_of(alloc: Global, queues: &[CQueue]) -> Result<Vec<QueuePages>, AllocError>
    ensures { IfOk result (λ made. made.items ≡ map options.pages_of_queue queues.now) }
{
    let mut made = Vec::new(alloc);
    for queue in queues {
        made.push(pages_of_queue(*queue))?;
    }
    Ok(made)
}
