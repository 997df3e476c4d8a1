//! Blocks that are lent for one call.

ghost use Rattle.std.specs.Prelude.{◌≡◌, ◌+◌, ◌≤◌, ◌++◌, ◌↔◌, IsSome, IfSome, true, length, take, drop};
ghost use Rattle.block_image.specs.Blocks.{IsPart, blocks_at, shown, is_lent};

use crate::BLOCK_SIZE;
use crate::blocks::Blocks;
use std::alloc::{AllocError, Allocator};

/// Blocks of a namespace that somebody lends for one call, who keeps the namespace elsewhere, as on a disk.
///
/// What is lent is whole blocks, one after another, from a first one on. Only these are at hand. All other blocks count as zeros. The namespace
/// has 1 to 2^32 - 1 blocks.
#[derive(Drop)]
pub struct Lent<'a> {
    blocks: u32,
    first: u64,
    bytes: &'a mut [u8],
    ghost part: { IsPart blocks first bytes.now },
}

/// Puts bytes in place of those from a place on.
fn put(into: &mut [u8], at: usize, bytes: &[u8])
    requires { at + length bytes.now ≤ length into.old }
    ensures { into.new ≡ take at into.old ++ bytes.now ++ drop (at + length bytes.now) into.old }
{
    into[at..at + bytes.len()].copy_from_slice(bytes);
}

impl<'a> Lent<'a> {
    /// The blocks of a buffer, from `first` on, of a namespace of this many blocks. `None` where the namespace has no block, the last block of the
    /// buffer is cut short, or the namespace ends before them.
    pub fn new(blocks: u32, first: u64, bytes: &'a mut [u8]) -> Option<Lent<'a>>
        ensures part { IsSome result ↔ IsPart blocks first bytes.old }
        ensures blocks { IfSome result (λ lent. lent.blocks ≡ blocks) }
        ensures first { IfSome result (λ lent. lent.first ≡ first) }
        ensures bytes { IfSome result (λ lent. lent.bytes.now ≡ bytes.old) }
        ensures same { IfSome result (λ lent. lent.bytes.ghost_name ≡ bytes.entry.ghost_name) }
    {
        if blocks == 0 || bytes.len() % BLOCK_SIZE != 0 {
            return None;
        }
        let count = (bytes.len() / BLOCK_SIZE) as u64;
        let most = u64::from(blocks);
        if first > most || count > most - first {
            return None;
        }
        Some(Lent {
            blocks,
            first,
            bytes,
        })
    }

    /// The bytes of `count` of the blocks that are lent, from `slba` on.
    fn blocks_from(&self, slba: u64, count: u64) -> &[u8]
        requires { is_lent self.now.first self.now.bytes.now slba count ≡ true }
        ensures { result.now ≡ blocks_at (shown self.now.blocks self.now.first self.now.bytes.now) slba count }
    {
        let start = BLOCK_SIZE * (slba - self.first) as usize;
        &self.bytes[start..start + BLOCK_SIZE * count as usize]
    }
}

impl<'a> Blocks for Lent<'a> {
    ghost use Rattle.std.specs.Prelude.{[], ◌∷◌, length};
    ghost use Rattle.block_image.specs.Blocks.{shown, is_lent};

    ghost bytes = { λ lent. shown lent.blocks lent.first lent.bytes.now };

    ghost at_hand = { λ lent. is_lent lent.first lent.bytes.now };

    // the borrow, so what stands in the bytes afterwards is the lender's, and where they lie in the namespace
    ghost place = { λ lent. lent.bytes.ghost_name ∷ lent.blocks ∷ lent.first ∷ length lent.bytes.now ∷ [] };

    fn blocks(&self) -> u32 {
        self.blocks
    }

    fn has(&self, slba: u64, count: u32) -> bool {
        let held = (self.bytes.len() / BLOCK_SIZE) as u64;
        slba >= self.first
            && slba - self.first <= held
            && u64::from(count) <= held - (slba - self.first)
    }

    fn copied<B: Allocator>(
        &self,
        alloc: B,
        slba: u64,
        count: u32,
    ) -> Result<Vec<u8, B>, AllocError> {
        if !self.has(slba, count) {
            return Err(AllocError);
        }
        Vec::from_slice(alloc, self.blocks_from(slba, u64::from(count)))
    }

    fn equal(&self, slba: u64, buffer: &[u8]) -> bool {
        self.blocks_from(slba, (buffer.len() / BLOCK_SIZE) as u64) == buffer
    }

    fn copy_in(&mut self, slba: u64, buffer: &[u8]) {
        put(
            self.bytes,
            BLOCK_SIZE * (slba - self.first) as usize,
            buffer,
        );
    }
}
