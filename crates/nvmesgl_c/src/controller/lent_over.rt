//! The controller's calls over regions of memory and over blocks, both lent.

ghost use Rattle.std.specs.Prelude.{◌≡◌, ◌↔◌, IsTrue, [], Some, true};
ghost use Rattle.block_image.specs.Blocks.{IsPart, block_count};
ghost use Rattle.nvmesgl_c.specs.Answers.{nothing};
ghost use Rattle.nvmesgl_c.specs.ControllerLent as lents;
ghost use Rattle.nvmesgl_c.specs.ControllerLent.{CompletesBlocks, CompletesLentBy, FetchesBlocks, FetchesLentBy, code_of_lent, opcode_in, wanted_by};
ghost use Rattle.nvmesgl_c.specs.Regions.{hidden_in, memory_of, table_of};

use crate::controller::any_controller::AnyController;
use crate::controller::code::{NO_BLOCKS, NOT_LENT, code_of_refusal};
use crate::words::code::DONE;
use crate::words::{Answer, LentRegions, touching};
use block_image::{BLOCK_SIZE, Lent};
use controller_core::LentRefusal;
use entry_codec::io_opcode::READ;

/// Blocks that a command wants, and that were not lent.
#[repr(C)]
#[derive(Clone, Copy)]
pub struct CWanted {
    /// The first of them.
    pub slba: u64,
    /// How many.
    pub blocks: u32,
    /// The opcode of the command: 1 a Write, 2 a Read, 5 a Compare.
    pub opcode: u8,
    /// Zeros.
    pub reserved: [u8; 19],
}

/// Blocks that a command of an opcode wants.
fn wanting(opcode: u8, slba: u64, blocks: u32) -> CWanted
    ensures { result ≡ lents.wanting opcode slba blocks }
{
    CWanted {
        slba,
        blocks,
        opcode,
        reserved: [0; 19],
    }
}

/// The code of a call that was refused. Where it wants blocks, those are told.
fn refuse(why: LentRefusal, opcode: u8, wanted: &mut CWanted) -> u32
    ensures code { result ≡ code_of_lent why }
    ensures wanted { wanted.new ≡ wanted_by opcode (Some why) wanted.old }
{
    match why {
        LentRefusal::Refused(why) => code_of_refusal(why),
        LentRefusal::NotLent { slba, count } => {
            *wanted = wanting(opcode, slba, count);
            NOT_LENT
        }
    }
}

/// The opcode of a command, or 0 where there is no such command.
fn opcode_of(controller: &AnyController, q: u16, cid: u16) -> u8
    ensures { result ≡ opcode_in controller.now.contents q cid }
{
    match controller.command(q, cid) {
        Some(command) => command.work.entry().opcode,
        None => 0,
    }
}

/// Whether the bytes are whole blocks, which a namespace of this many blocks has from `first` on.
fn can_lend(blocks: u32, first: u64, bytes: &[u8]) -> bool
    ensures { IsTrue result ↔ IsPart blocks first bytes.now }
{
    if blocks == 0 || bytes.len() % BLOCK_SIZE != 0 {
        return false;
    }
    let count = (bytes.len() / BLOCK_SIZE) as u64;
    let most = u64::from(blocks);
    first <= most && count <= most - first
}

/// Lends bytes as blocks.
fn lend<'a>(blocks: u32, first: u64, bytes: &'a mut [u8]) -> Lent<'a>
    requires { IsPart blocks first bytes.old }
    ensures blocks { result.blocks ≡ blocks }
    ensures first { result.first ≡ first }
    ensures bytes { result.bytes.now ≡ bytes.old }
    ensures same { result.bytes.ghost_name ≡ bytes.entry.ghost_name }
{
    match Lent::new(blocks, first, bytes) {
        Some(lent) => lent,
        None => unreachable!(),
    }
}

/// Fetches over a memory and blocks that are lent, and tells what was fetched, or which blocks are wanted. The borrow of the regions, the table
/// and what no address shows are the same afterwards.
fn fetch_over(
    controller: &mut AnyController,
    q: u16,
    memory: &mut LentRegions<'_, '_>,
    lent: &Lent,
    wanted: &mut CWanted,
    answer: &mut Answer,
) -> u32
    requires fresh { memory.old.touched.items ≡ [] }
    requires lends { controller.old.lends ≡ true }
    requires as_many { lent.now.blocks ≡ block_count controller.old.contents.image }
    ensures kind { controller.new.lends ≡ true }
    ensures same { memory.new.regions.ghost_name ≡ memory.old.regions.ghost_name }
    ensures table { table_of memory.new.regions.now ≡ table_of memory.old.regions.now }
    ensures hidden { hidden_in memory.new.regions.now ≡ hidden_in memory.old.regions.now }
    ensures fetches { FetchesLentBy q lent.now.first lent.now.bytes.now wanted.old wanted.new controller.old.contents memory.old.pages (memory_of memory.old.regions.now) result answer.new controller.new.contents (memory_of memory.new.regions.now) }
{
    let fetched = controller.fetch_over(q, memory, lent);
    *answer = touching(memory.touched.as_slice());
    match fetched {
        Ok(cid) => {
            answer.cid = cid;
            DONE
        }
        Err(why) => refuse(why, READ, wanted),
    }
}

/// Completes a command over a memory and blocks that are lent, and tells which blocks are wanted. The borrows of the regions and of the blocks, the
/// table and what no address shows are the same afterwards.
fn complete_over(
    controller: &mut AnyController,
    q: u16,
    cid: u16,
    memory: &mut LentRegions<'_, '_>,
    lent: &mut Lent,
    wanted: &mut CWanted,
    answer: &mut Answer,
) -> u32
    requires fresh { memory.old.touched.items ≡ [] }
    requires lends { controller.old.lends ≡ true }
    requires as_many { lent.old.blocks ≡ block_count controller.old.contents.image }
    ensures kind { controller.new.lends ≡ true }
    ensures same { memory.new.regions.ghost_name ≡ memory.old.regions.ghost_name }
    ensures table { table_of memory.new.regions.now ≡ table_of memory.old.regions.now }
    ensures hidden { hidden_in memory.new.regions.now ≡ hidden_in memory.old.regions.now }
    ensures lies { lent.new.bytes.ghost_name ≡ lent.old.bytes.ghost_name }
    ensures completes { CompletesLentBy q cid lent.old.first lent.old.bytes.now lent.new.bytes.now wanted.old wanted.new controller.old.contents memory.old.pages (memory_of memory.old.regions.now) result answer.new controller.new.contents (memory_of memory.new.regions.now) }
{
    let opcode = opcode_of(controller, q, cid);
    let completed = controller.complete_over(q, cid, memory, lent);
    *answer = touching(memory.touched.as_slice());
    match completed {
        Ok(()) => DONE,
        Err(why) => refuse(why, opcode, wanted),
    }
}

/// Fetches over a memory that is lent, and over the blocks of a buffer, from `first` on. The borrow of the regions, the table and what no address
/// shows are the same afterwards.
pub(crate) fn fetch(
    controller: &mut AnyController,
    q: u16,
    memory: &mut LentRegions<'_, '_>,
    first: u64,
    blocks: &mut [u8],
    wanted: &mut CWanted,
    answer: &mut Answer,
) -> u32
    requires fresh { memory.old.touched.items ≡ [] }
    requires lends { controller.old.lends ≡ true }
    requires told { answer.old ≡ nothing }
    ensures kind { controller.new.lends ≡ true }
    ensures same { memory.new.regions.ghost_name ≡ memory.old.regions.ghost_name }
    ensures table { table_of memory.new.regions.now ≡ table_of memory.old.regions.now }
    ensures hidden { hidden_in memory.new.regions.now ≡ hidden_in memory.old.regions.now }
    ensures fetches { FetchesBlocks q first blocks.old blocks.new wanted.old wanted.new controller.old.contents memory.old.pages (memory_of memory.old.regions.now) result answer.new controller.new.contents (memory_of memory.new.regions.now) }
{
    let count = controller.blocks();
    if !can_lend(count, first, blocks) {
        return NO_BLOCKS;
    }
    let lent = lend(count, first, blocks);
    fetch_over(controller, q, memory, &lent, wanted, answer)
}

/// Completes a command over a memory that is lent, and over the blocks of a buffer, from `first` on. The borrow of the regions, the table and what
/// no address shows are the same afterwards.
pub(crate) fn complete(
    controller: &mut AnyController,
    q: u16,
    cid: u16,
    memory: &mut LentRegions<'_, '_>,
    first: u64,
    blocks: &mut [u8],
    wanted: &mut CWanted,
    answer: &mut Answer,
) -> u32
    requires fresh { memory.old.touched.items ≡ [] }
    requires lends { controller.old.lends ≡ true }
    requires told { answer.old ≡ nothing }
    ensures kind { controller.new.lends ≡ true }
    ensures same { memory.new.regions.ghost_name ≡ memory.old.regions.ghost_name }
    ensures table { table_of memory.new.regions.now ≡ table_of memory.old.regions.now }
    ensures hidden { hidden_in memory.new.regions.now ≡ hidden_in memory.old.regions.now }
    ensures completes { CompletesBlocks q cid first blocks.old blocks.new wanted.old wanted.new controller.old.contents memory.old.pages (memory_of memory.old.regions.now) result answer.new controller.new.contents (memory_of memory.new.regions.now) }
{
    let count = controller.blocks();
    if !can_lend(count, first, blocks) {
        return NO_BLOCKS;
    }
    let mut lent = lend(count, first, blocks);
    complete_over(controller, q, cid, memory, &mut lent, wanted, answer)
}
