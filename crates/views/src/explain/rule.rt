//! The rules for the fields of an entry, each with the values that break it.

ghost use Rattle.std.specs.Prelude.{◌≡◌};
ghost use Rattle.std.specs.Option.{option_map};
ghost use Rattle.views.specs.Rules.{status_of_rule};
ghost use Rattle.views.specs.Stored.{field_fault};

use crate::explain::entry::plural;
use crate::explain::namespace::{Namespace, is_outside};
use entry_codec::{Status, SubEntry};
use io_commands::{block_number, first_block, kind_of};
use std::alloc::AllocError;

/// A rule for a field of an entry, in the order in which they are checked.
#[derive(Clone, Copy, PartialEq, Eq)]
pub(crate) enum FieldRule {
    /// OPC is Read, Write or Compare.
    Opcode,
    /// NSID is the namespace's number.
    Namespace,
    /// FUSE is 0.
    Fuse,
    /// PSDT is 1.
    Psdt,
    /// The blocks have 1 MiB at most.
    Blocks,
    /// The blocks are the namespace's.
    Range,
}

/// The first rule that an entry breaks, if it breaks one.
pub(crate) fn broken_rule(entry: &SubEntry, namespace: &Namespace) -> Option<FieldRule>
    ensures { option_map status_of_rule result ≡ field_fault namespace.now.number namespace.now.size namespace.now.blocks entry.now }
{
    let number = block_number(entry);
    if kind_of(entry.opcode).is_none() {
        Some(FieldRule::Opcode)
    } else if entry.nsid != namespace.number {
        Some(FieldRule::Namespace)
    } else if entry.fuse != 0 {
        Some(FieldRule::Fuse)
    } else if entry.psdt != 1 {
        Some(FieldRule::Psdt)
    } else if number > namespace.size.most_blocks() {
        Some(FieldRule::Blocks)
    } else if is_outside(first_block(entry), u64::from(number), namespace.blocks) {
        Some(FieldRule::Range)
    } else {
        None
    }
}

/// Puts what a field has whose rule is broken, and what is wanted of it.
fn put_broken(
    out: &mut String,
    rule: FieldRule,
    entry: &SubEntry,
    namespace: &Namespace,
) -> Result<(), AllocError> {
    let number = block_number(entry);
    match rule {
        FieldRule::Opcode => {
            let opcode = entry.opcode;
            write!(out, "OPC is {opcode:02X}h, none of Write, Read and Compare")
        }
        FieldRule::Namespace => {
            let (nsid, wanted) = (entry.nsid, namespace.number);
            write!(out, "NSID is {nsid}, and {wanted} is wanted")
        }
        FieldRule::Fuse => {
            let fuse = entry.fuse;
            write!(out, "FUSE is {fuse}, and 0 is wanted")
        }
        FieldRule::Psdt => {
            let psdt = entry.psdt;
            write!(out, "PSDT is {psdt}, and 1 is wanted: data by a list")
        }
        FieldRule::Blocks => {
            let most = namespace.size.most_blocks();
            write!(out, "NLB asks for {number} blocks, and {most} are the most")
        }
        FieldRule::Range => {
            let (first, blocks) = (first_block(entry), namespace.blocks);
            let more = plural(number);
            write!(
                out,
                "SLBA is {first}, for {number} block{more}, and the namespace has {blocks}"
            )
        }
    }
}

/// Puts why a command has this status, where its list is not at fault.
pub(crate) fn put_rule(
    out: &mut String,
    entry: &SubEntry,
    namespace: &Namespace,
    status: Status,
) -> Result<(), AllocError> {
    match broken_rule(entry, namespace) {
        Some(rule) => put_broken(out, rule, entry, namespace),
        None if status == Status::COMPARE_FAILURE => {
            out.push_str("its bytes are not those of the image's blocks")
        }
        None => out.push_str("it is refused"),
    }
}
