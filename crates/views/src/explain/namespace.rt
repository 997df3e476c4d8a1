//! The namespace that a command is for.

ghost use Rattle.std.specs.Prelude.{◌≡◌, ◌+◌, ◌<◌, ◌≤◌, ◌++◌, ◌==◌, IfOk, OnOk, length, vec_len, find, nat_lt};
ghost use Rattle.std.specs.Option.{option_copied};
ghost use Rattle.std.specs.Result.{result_err};
ghost use Rattle.io_commands.specs.Jobs.{kind_of_opcode, first_block as spec_first_block, block_number as spec_block_number};
ghost use Rattle.io_commands.specs.BlockSizes.{block_bytes, most_blocks};
ghost use Rattle.views.specs.Stored.{bytes_moved, bytes_of_block, field_fault, stored_of};

use entry_codec::{Status, SubEntry};
use io_commands::{BlockSize, Kind, block_number, first_block, kind_of};
use std::alloc::{AllocError, Global};

/// The most bytes that a block has.
pub(crate) const MAX_BLOCK_BYTES: usize = 4_096;

/// The bytes of a block that is given.
#[derive(Drop)]
pub struct GivenBlock {
    /// Its number, from 0.
    pub number: u64,
    /// Its bytes: the first ones, as many as a block has.
    pub bytes: [u8; MAX_BLOCK_BYTES],
}

/// The namespace that a command is for. Blocks that are not given are zeros.
#[derive(Drop)]
pub struct Namespace {
    /// The number that an entry must name.
    pub number: u32,
    /// How many bytes a block has.
    pub size: BlockSize,
    /// How many blocks it has.
    pub blocks: u64,
    /// The blocks that are given.
    pub given: Vec<GivenBlock>,
}

/// Whether this many blocks starting at a first one do not all lie in a namespace of this many.
pub(crate) fn is_outside(first: u64, number: u64, blocks: u64) -> bool
    ensures { result ≡ nat_lt blocks (first + number) }
{
    number > blocks || first > blocks - number
}

/// The field checks of an entry, in their order: the command, or the fault.
pub(crate) fn checked(entry: &SubEntry, namespace: &Namespace) -> Result<Kind, Status>
    ensures fault { result_err result ≡ field_fault namespace.now.number namespace.now.size namespace.now.blocks entry.now }
    ensures kind { IfOk result (λ kind. kind_of_opcode entry.now.opcode ≡ Some kind) }
    ensures few { IfOk result (λ _. spec_block_number entry.now ≤ most_blocks namespace.now.size) }
    ensures inside { IfOk result (λ _. spec_first_block entry.now + spec_block_number entry.now ≤ namespace.now.blocks) }
{
    let Some(kind) = kind_of(entry.opcode) else {
        return Err(Status::INVALID_OPCODE);
    };
    if entry.nsid != namespace.number {
        return Err(Status::INVALID_NAMESPACE);
    }
    if entry.fuse != 0 || entry.psdt != 1 {
        return Err(Status::INVALID_FIELD);
    }
    let number = block_number(entry);
    if number > namespace.size.most_blocks() {
        return Err(Status::INVALID_FIELD);
    }
    if is_outside(first_block(entry), u64::from(number), namespace.blocks) {
        return Err(Status::LBA_OUT_OF_RANGE);
    }
    Ok(kind)
}

/// The block of a number, where it is given.
fn block_of(given: &[GivenBlock], number: u64) -> Option<&GivenBlock>
    ensures { option_copied result ≡ find (λ block. block.number == number) given.now }
{
    given.iter().find(|block| block.number == number)
}

/// Puts the bytes of a block after others.
fn put_block(
    out: &mut Vec<u8>,
    size: BlockSize,
    given: &[GivenBlock],
    number: u64,
) -> Result<(), AllocError>
    ensures bytes { OnOk result (out.new.items ≡ out.old.items ++ bytes_of_block (block_bytes size) given.now number) }
    ensures len { OnOk result (vec_len out.new ≡ vec_len out.old + block_bytes size) }
{
    match block_of(given, number) {
        Some(block) => out.extend_from_slice(&block.bytes[..size.bytes()]),
        None => out.extend_from_slice(&[0; MAX_BLOCK_BYTES][..size.bytes()]),
    }
}

/// What is in the blocks of an entry, which the namespace has.
pub(crate) fn stored(
    alloc: Global,
    entry: &SubEntry,
    namespace: &Namespace,
) -> Result<Vec<u8>, AllocError>
    requires { spec_first_block entry.now + spec_block_number entry.now ≤ namespace.now.blocks }
    ensures bytes { IfOk result (λ bytes. bytes.items ≡ stored_of namespace.now.size namespace.now.given.items entry.now) }
    ensures len { IfOk result (λ bytes. length bytes.items ≡ bytes_moved namespace.now.size entry.now) }
{
    let first = first_block(entry);
    let mut bytes = Vec::new(alloc);
    for k in 0..block_number(entry) {
        put_block(
            &mut bytes,
            namespace.size,
            &namespace.given,
            first + u64::from(k),
        )?;
    }
    Ok(bytes)
}
