//! The image of the modelled controller's one namespace: a list of logical blocks of 512 bytes, numbered from 0.
//!
//! A clause sees an [`Image`] as the list of its bytes, one block after another. Each call reads or changes exactly
//! the blocks that it names, and none but [`Image::zeroed`] and [`Blocks::copied`] takes memory.
//!
//! A controller asks for its blocks as [`Blocks`]. An image holds them; with [`Lent`] somebody lends some of them for one call, who keeps the
//! namespace elsewhere, and [`Away`] says of them only how many there are.
#![tactic(auto)]

mod away;
mod blocks;
mod lent;

ghost use Rattle.std.specs.Prelude.{◌≡◌, ◌+◌, ◌*◌, ◌<◌, ◌≤◌, ◌↔◌, ◌⊎◌, [], ◌++◌, IsTrue, IsOk, IsErrOf, IfOk, IfErr, true, false, length, replicate};
ghost use Rattle.block_image.specs.Blocks.{IsImage, IsInRange, most_blocks, block_count, blocks_at, with_blocks, shown, is_lent, BlocksAreWhole, PutIsRead, PutKeepsOthers, PutKeepsLength};

pub use away::Away;
pub use blocks::Blocks;
pub use lent::Lent;
use std::alloc::{AllocError, Allocator, Global};
use std::marker::Model;
use thiserror::Error;

/// The bytes of a logical block (own: the one LBA format is 512 bytes with no metadata).
pub const BLOCK_SIZE: usize = 512;

/// The most blocks that an image has (own).
pub const MAX_BLOCKS: u32 = 65_536;

/// The most bytes that an image has, 32 MiB.
pub const MAX_BYTES: usize = BLOCK_SIZE * MAX_BLOCKS as usize;

/// Why [`Image::zeroed`] made no image: the first of these that holds.
#[derive(Clone, Copy, Debug, PartialEq, Eq, Error)]
pub enum ImageError {
    /// No block was asked for, or more than [`MAX_BLOCKS`].
    #[error("an image has 1 to 65536 blocks")]
    BadLength,
    /// The allocator refused.
    #[error("out of memory")]
    Memory,
}

/// The refusal of [`Image::from_bytes`]: no byte, or the last block is cut short, or more than [`MAX_BYTES`] bytes.
#[derive(Debug, Drop, Error)]
#[error("an image is 1 to 65536 blocks of 512 bytes")]
pub struct BadLength<A: Allocator = Global> {
    /// The bytes as they were handed in.
    pub bytes: Vec<u8, A>,
}

/// The blocks of the namespace, 1 to [`MAX_BLOCKS`] of [`BLOCK_SIZE`] bytes each.
///
/// A range of blocks is named by its first, the Starting LBA or SLBA of a Compare, Read or Write (NVM Command Set
/// Specification 1.0, sections 3.2.1, 3.2.4 and 3.2.6). How many blocks it has is said by a count, or by the buffer that goes with it.
#[derive(Debug, Drop)]
pub struct Image<A: Allocator = Global> {
    bytes: Vec<u8, A>,
}

impl<A: Allocator> Model for Image<A> {
    ghost use Rattle.std.specs.Prelude.{List, ℕ};
    ghost use Rattle.block_image.specs.Blocks.{IsImage};

    ghost Value = { List ℕ };

    ghost view = { λ image. image.bytes.items };

    ghost invariant = { λ image. IsImage image.bytes.items };
}

impl<A: Allocator> Image<A> {
    /// An image of this many blocks, each byte zero.
    pub fn zeroed(alloc: A, blocks: u32) -> Result<Self, ImageError>
        ensures zero { IfOk result (λ image. image ≡ replicate (512 * blocks) 0) }
        ensures image { IfOk result (λ image. IsImage image) }
        ensures bad_length { IsErrOf result ImageError.BadLength ↔ ((blocks ≡ 0) ⊎ (most_blocks < blocks)) }
    {
        if !(1..=MAX_BLOCKS).contains(&blocks) {
            return Err(ImageError::BadLength);
        }
        let len = BLOCK_SIZE * blocks as usize;
        let bytes = vec![in alloc; 0; len].map_err(|_| ImageError::Memory)?;
        Ok(Image { bytes })
    }

    /// The image that the bytes are. A refusal hands them back.
    pub fn from_bytes(bytes: Vec<u8, A>) -> Result<Self, BadLength<A>>
        ensures good_length { IsOk result ↔ IsImage bytes.items }
        ensures image { IfOk result (λ image. image ≡ bytes.items) }
        ensures handed_back { IfErr result (λ refused. refused.bytes ≡ bytes) }
    {
        if bytes.is_empty() || bytes.len() % BLOCK_SIZE != 0 || bytes.len() > MAX_BYTES {
            return Err(BadLength { bytes });
        }
        Ok(Image { bytes })
    }

    /// How many blocks the image has.
    pub fn blocks(&self) -> u32
        ensures count { result ≡ block_count self.now }
        ensures image { IsImage self.now }
    {
        (self.bytes.len() / BLOCK_SIZE) as u32
    }

    /// The bytes of this many blocks, from `slba` on.
    pub fn blocks_from(&self, slba: u64, count: u32) -> &[u8]
        requires { slba + count ≤ block_count self.now }
        ensures { result.now ≡ blocks_at self.now slba count }
    {
        let image = self.bytes.as_slice();
        let start = BLOCK_SIZE * slba as usize;
        &image[start..start + BLOCK_SIZE * count as usize]
    }

    /// Fills the buffer with blocks, from `slba` on.
    pub fn copy_out(&self, slba: u64, into: &mut [u8])
        requires { IsInRange self.now slba into.old }
        ensures { into.new ≡ blocks_at self.now slba (block_count into.old) }
    {
        let image = self.bytes.as_slice();
        let start = BLOCK_SIZE * slba as usize;
        into.copy_from_slice(&image[start..start + into.len()]);
    }

    /// Puts the blocks of the buffer in place of those from `slba` on.
    pub fn copy_in(&mut self, slba: u64, bytes: &[u8])
        requires { IsInRange self.old slba bytes.now }
        ensures changed { self.new ≡ with_blocks self.old slba bytes.now }
        ensures as_long { length self.new ≡ length self.old }
    {
        let image = self.bytes.as_mut_slice();
        let start = BLOCK_SIZE * slba as usize;
        image[start..start + bytes.len()].copy_from_slice(bytes);
    }

    /// Whether the blocks from `slba` on are those of the buffer.
    pub fn equal(&self, slba: u64, bytes: &[u8]) -> bool
        requires { IsInRange self.now slba bytes.now }
        ensures { IsTrue result ↔ (blocks_at self.now slba (block_count bytes.now) ≡ bytes.now) }
    {
        let image = self.bytes.as_slice();
        let start = BLOCK_SIZE * slba as usize;
        &image[start..start + bytes.len()] == bytes
    }
}

impl<A: Allocator> Blocks for Image<A> {
    ghost use Rattle.std.specs.Prelude.{true, []};

    ghost bytes = { λ image. image };

    ghost at_hand = { λ image slba n. true };

    ghost place = { λ image. [] };

    fn blocks(&self) -> u32 {
        Image::blocks(self)
    }

    fn has(&self, _slba: u64, _count: u32) -> bool {
        true
    }

    fn copied<B: Allocator>(
        &self,
        alloc: B,
        slba: u64,
        count: u32,
    ) -> Result<Vec<u8, B>, AllocError> {
        Vec::from_slice(alloc, self.blocks_from(slba, count))
    }

    fn equal(&self, slba: u64, buffer: &[u8]) -> bool {
        Image::equal(self, slba, buffer)
    }

    fn copy_in(&mut self, slba: u64, buffer: &[u8]) {
        Image::copy_in(self, slba, buffer)
    }
}

/// The laws of the definitions: n blocks are 512 n bytes, blocks that were put are read back, and all else stays.
pub fn laws_of_blocks()
    ensures whole { BlocksAreWhole }
    ensures read_back { PutIsRead }
    ensures others { PutKeepsOthers }
    ensures length { PutKeepsLength }
{}

/// Runs of the definitions over an image of two blocks, one of bytes 11h and one of bytes 22h, and over the first of them alone.
pub fn worked_blocks()
    ensures count { block_count (replicate 512 0x11 ++ replicate 512 0x22) ≡ 2 }
    ensures first { blocks_at (replicate 512 0x11 ++ replicate 512 0x22) 0 1 ≡ replicate 512 0x11 }
    ensures second { blocks_at (replicate 512 0x11 ++ replicate 512 0x22) 1 1 ≡ replicate 512 0x22 }
    ensures both { blocks_at (replicate 512 0x11 ++ replicate 512 0x22) 0 2 ≡ replicate 512 0x11 ++ replicate 512 0x22 }
    ensures none { blocks_at (replicate 512 0x11 ++ replicate 512 0x22) 2 0 ≡ [] }

    ensures put_first { with_blocks (replicate 512 0x11 ++ replicate 512 0x22) 0 (replicate 512 0x33)
        ≡ replicate 512 0x33 ++ replicate 512 0x22 }
    ensures put_second { with_blocks (replicate 512 0x11 ++ replicate 512 0x22) 1 (replicate 512 0x33)
        ≡ replicate 512 0x11 ++ replicate 512 0x33 }
    ensures put_none { with_blocks (replicate 512 0x11) 1 [] ≡ replicate 512 0x11 }
{}

/// One block of bytes 22h is lent, the second of three.
pub fn worked_lent()
    ensures shown { shown 3 1 (replicate 512 0x22) ≡ replicate 512 0x00 ++ replicate 512 0x22 ++ replicate 512 0x00 }
    ensures lent { is_lent 1 (replicate 512 0x22) 1 1 ≡ true }
    ensures before { is_lent 1 (replicate 512 0x22) 0 1 ≡ false }
    ensures past { is_lent 1 (replicate 512 0x22) 1 2 ≡ false }
    ensures behind { is_lent 1 (replicate 512 0x22) 2 1 ≡ false }
{}
