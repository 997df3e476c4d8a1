//! What of a single entry or descriptor is refused, whatever memory holds.

ghost use Rattle.std.specs.Prelude.{◌≡◌, ◌≤◌, Some, false, length};
ghost use Rattle.controller_walk.specs.Walks.{is_over, need_of};
ghost use Rattle.io_commands.specs.Jobs.{block_number, kind_of_opcode};
ghost use Rattle.io_commands.specs.BlockSizes.{most_blocks};

use crate::explain::cause::put_cause;
use crate::explain::command::walk_of;
use crate::explain::list::Taken;
use crate::explain::namespace::{Namespace, checked};
use crate::explain::rule::put_rule;
use crate::sparse_memory::SparseMemory;
use controller_walk::{Direction, Walk, WalkFault};
use entry_codec::{Status, SubEntry};
use io_commands::{BlockSize, Kind};
use std::alloc::{AllocError, Global};

/// What is refused.
#[derive(Clone, Copy, Debug, PartialEq, Eq)]
pub(crate) enum Refusal {
    /// The descriptor in SGL1.
    First(WalkFault),
    /// A field of the entry.
    Field(Status),
}

impl Refusal {
    /// What is refused, in a word.
    pub(crate) fn what(self) -> &'static str {
        match self {
            Refusal::First(_) => "sgl1",
            Refusal::Field(_) => "entry",
        }
    }

    /// The status that a command with it completes with.
    pub(crate) fn status(self) -> Status {
        match self {
            Refusal::First(fault) => fault.cause.status(),
            Refusal::Field(status) => status,
        }
    }

    /// Puts the rule that the entry breaks.
    pub(crate) fn put_rule(
        self,
        alloc: Global,
        out: &mut String,
        entry: &SubEntry,
    ) -> Result<(), AllocError> {
        match self {
            Refusal::First(fault) => put_first_rule(out, &entry.sgl1, fault),
            Refusal::Field(status) => {
                put_rule(out, &from_zero(entry), &any_namespace(alloc), status)
            }
        }
    }
}

/// Puts the rule that a descriptor in SGL1 breaks.
pub(crate) fn put_first_rule(
    out: &mut String,
    bytes: &[u8; 16],
    fault: WalkFault,
) -> Result<(), AllocError> {
    let taken = Taken {
        at: fault.at,
        bytes: *bytes,
        counted: 0,
    };
    put_cause(out, fault.cause, Some(&taken))
}

/// The entry, but for block 0.
fn from_zero(entry: &SubEntry) -> SubEntry {
    SubEntry {
        cdw10: 0,
        cdw11: 0,
        ..*entry
    }
}

/// The namespace 1, with as many blocks as may be.
fn any_namespace(alloc: Global) -> Namespace {
    Namespace {
        number: 1,
        size: BlockSize::Bytes512,
        blocks: u64::MAX,
        given: Vec::new(alloc),
    }
}

/// The fault of the entry's own descriptor, if it has one, whatever memory holds: the first step of a walk reads none.
fn first_fault(
    alloc: Global,
    walk: Walk,
    staging: &mut [u8],
) -> Result<Option<WalkFault>, AllocError>
    requires open { is_over walk ≡ false }
    requires staging { length staging.old ≡ need_of walk }
{
    let mut memory = SparseMemory::open(alloc, 0, 0)?;
    let mut walk = walk;
    walk.step(&mut memory, staging);
    Ok(walk.fault())
}

/// The fault of a descriptor as SGL1 of an entry, for any number of bytes.
pub(crate) fn descriptor_fault(
    alloc: Global,
    bytes: &[u8; 16],
) -> Result<Option<WalkFault>, AllocError> {
    let walk = Walk::begin(*bytes, Direction::Destination, 1);
    first_fault(alloc, walk, &mut [0])
}

/// The fault of the own descriptor of an entry, if it has one.
fn own_fault(
    alloc: Global,
    entry: &SubEntry,
    kind: Kind,
    size: BlockSize,
) -> Result<Option<WalkFault>, AllocError>
    requires kind { kind_of_opcode entry.now.opcode ≡ Some kind }
    requires few { block_number entry.now ≤ most_blocks size }
{
    let walk = walk_of(entry, kind, size);
    let mut staging = vec![in alloc; 0; walk.need() as usize]?;
    first_fault(alloc, walk, staging.as_mut_slice())
}

/// What of an entry is refused before its list is read, whichever blocks the image has.
pub(crate) fn entry_refusal(
    alloc: Global,
    entry: &SubEntry,
) -> Result<Option<Refusal>, AllocError> {
    let entry = from_zero(entry);
    let namespace = any_namespace(alloc);
    match checked(&entry, &namespace) {
        Ok(kind) => match own_fault(alloc, &entry, kind, namespace.size)? {
            Some(fault) => Ok(Some(Refusal::First(fault))),
            None => Ok(None),
        },
        Err(status) => Ok(Some(Refusal::Field(status))),
    }
}
