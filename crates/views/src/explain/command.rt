//! A command, from its entry to its status.

ghost use Rattle.std.specs.Prelude.{◌≡◌, ◌≢◌, ◌≤◌, ◌<◌, ◌*◌, [], ℕ, Bool, None, Some, IfOk, IfSome, false, length, replicate};
ghost use Rattle.controller_walk.specs.Faults.{next_of};
ghost use Rattle.controller_walk.specs.Laws.{IsApart};
ghost use Rattle.controller_walk.specs.Walks.{course, direction_of, is_over, need_of};
ghost use Rattle.entry_codec.specs.declared.submission.SubEntry.{SubEntry};
ghost use Rattle.views.specs.Ending.{Ends, ends_with, list_of};
ghost use Rattle.views.specs.Fetched.{bytes_fetched};
ghost use Rattle.io_commands.specs.BlockSizes.{most_blocks};
ghost use Rattle.views.specs.Stored.{bytes_moved, field_fault, stored_of};
ghost use Rattle.views.specs.Taking.{AreOf, own};
ghost use Rattle.io_commands.specs.declared.request.Kind.TheVariants.{Read};
ghost use Rattle.io_commands.specs.Jobs.{kind_of_opcode, block_number as spec_block_number, direction_of_entry};
ghost use Rattle.page_memory.specs.Memory.{Memory};
ghost use Rattle.views.specs.Sparse.{byte_in};

use crate::explain::list::{Taken, Walked, walk_list};
use crate::explain::namespace::{Namespace, checked, stored};
use crate::sparse_memory::SparseMemory;
use controller_walk::{Walk, WalkFault};
use entry_codec::{Status, SubEntry};
use io_commands::{BlockSize, Kind, block_number};
use std::alloc::{AllocError, Global};

/// What became of a command.
#[derive(Debug, Drop)]
pub struct Explanation {
    /// How many bytes it moves; none where its fields are at fault.
    pub need: u32,
    /// The descriptors of its list that were taken, in order.
    pub taken: Vec<Taken>,
    /// Why its list is refused, if it is.
    pub fault: Option<WalkFault>,
    /// The status that it completes with.
    pub status: Status,
}

/// How a command ends whose list was walked, by what is in its blocks and by its own bytes.
fn final_status(kind: Kind, stored: &[u8], bytes: &[u8], fault: Option<WalkFault>) -> Status
    ensures { (e : SubEntry) → kind_of_opcode e.opcode ≡ Some kind → result ≡ ends_with stored.now e bytes.now fault }
{
    match fault {
        Some(fault) => fault.cause.status(),
        None if kind == Kind::Compare && stored != bytes => Status::COMPARE_FAILURE,
        None => Status::SUCCESS,
    }
}

/// The bytes that a command begins with: those in the blocks of a Read, and zeros for what a Write or a Compare fetches.
fn first_bytes(alloc: Global, kind: Kind, stored: &[u8]) -> Result<Vec<u8>, AllocError>
    ensures len { IfOk result (λ bytes. length bytes.items ≡ length stored.now) }
    ensures zeros { IfOk result (λ bytes. kind ≢ Read → bytes.items ≡ replicate (length stored.now) 0) }
{
    match kind {
        Kind::Read => Vec::from_slice(alloc, stored),
        _ => Ok(vec![in alloc; 0; stored.len()]?),
    }
}

/// The walk over the list of a command that passed its field checks.
pub(crate) fn walk_of(entry: &SubEntry, kind: Kind, size: BlockSize) -> Walk
    requires kind { kind_of_opcode entry.now.opcode ≡ Some kind }
    requires most { spec_block_number entry.now ≤ most_blocks size }
    ensures course { (m : Memory) → course m result ≡ list_of size m entry.now }
    ensures open { is_over result ≡ false }
    ensures direction { direction_of result ≡ direction_of_entry entry.now }
    ensures need { need_of result ≡ bytes_moved size entry.now }
    ensures next { next_of result ≡ Some own }
{
    let need = size.bytes_of(block_number(entry));
    Walk::begin(entry.sgl1, kind.direction(), need)
}

/// Walks the list of a command of an I/O queue, over the pages of a pool and the blocks of a namespace.
///
/// The field checks are those of `io_commands`, for any namespace, and the walk is a [`Walk`]. A Read's bytes come from its blocks and are moved into
/// memory; the blocks are not written.
///
/// # Errors
///
/// Where memory is refused.
pub fn explain(
    alloc: Global,
    entry: &SubEntry,
    namespace: &Namespace,
    memory: &mut SparseMemory,
) -> Result<Explanation, AllocError>

    // Where the field checks find a fault, the command ends with its status, and no list is walked.
    ensures refused { IfOk result (λ told. IfSome (field_fault namespace.now.number namespace.now.size namespace.now.blocks entry.now) (λ status. (told.status ≡ status) × (told.fault ≡ None) × (told.taken.items ≡ []))) }

    // Else the fault is that with which its list ends, where that list moves no byte onto its own descriptors,
    ensures fault { IfOk result (λ told. field_fault namespace.now.number namespace.now.size namespace.now.blocks entry.now ≡ None → (at : ℕ → Bool)
        → IsApart at (direction_of_entry entry.now) (list_of namespace.now.size (byte_in memory.old.pool) entry.now)
        → Ends at (byte_in memory.old.pool) (list_of namespace.now.size (byte_in memory.old.pool) entry.now) told.fault) }

    // the descriptors told are those that its list reads, all of them, each with the bytes at its address,
    ensures told { IfOk result (λ told. field_fault namespace.now.number namespace.now.size namespace.now.blocks entry.now ≡ None → (at : ℕ → Bool)
        → IsApart at (direction_of_entry entry.now) (list_of namespace.now.size (byte_in memory.old.pool) entry.now)
        → AreOf (byte_in memory.old.pool) entry.now.sgl1 (list_of namespace.now.size (byte_in memory.old.pool) entry.now) told.taken.items) }

    // and the status is that of the fault, or, of a command whose list was accepted, that of the bytes which its list fetched.
    ensures status { IfOk result (λ told. field_fault namespace.now.number namespace.now.size namespace.now.blocks entry.now ≡ None
        → told.status ≡ ends_with (stored_of namespace.now.size namespace.now.given.items entry.now) entry.now (bytes_fetched namespace.now.size (byte_in memory.old.pool) entry.now) told.fault) }
{
    let kind = match checked(entry, namespace) {
        Ok(kind) => kind,
        Err(status) => {
            return Ok(Explanation {
                need: 0,
                taken: Vec::new(alloc),
                fault: None,
                status,
            });
        }
    };
    let stored = stored(alloc, entry, namespace)?;
    let mut bytes = first_bytes(alloc, kind, stored.as_slice())?;
    let walk = walk_of(entry, kind, namespace.size);
    let Walked { taken, fault } = walk_list(
        alloc,
        walk,
        &entry.sgl1,
        memory,
        bytes.as_mut_slice(),
    )?;
    Ok(Explanation {
        need: walk.need(),
        taken,
        fault,
        status: final_status(kind, stored.as_slice(), bytes.as_slice(), fault),
    })
}
