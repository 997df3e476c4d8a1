//! The blocks of a namespace, wherever they are kept.

ghost use Rattle.std.specs.Prelude.{◌≡◌, ◌+◌, ◌<◌, ◌≤◌, ◌%◌, ◌↔◌, IsTrue, IfOk, OnOk, length, true};
ghost use Rattle.block_image.specs.Blocks.{IsInRange, block_count, blocks_at, with_blocks};

use std::alloc::{AllocError, Allocator};

/// The blocks of a namespace, as a controller reads and writes them.
///
/// Not all of them need be *at hand*: whoever lends a call some blocks of a disk lends those that the call reads or writes. A range of blocks
/// is named as in an [`Image`](crate::Image).
pub trait Blocks {
    ghost use Rattle.std.specs.Prelude.{ℕ, List, Bool};

    // the bytes of all blocks, one block after another
    ghost bytes: { Self → List ℕ };

    // whether this many blocks from a first one on can be read and written now
    ghost at_hand: { Self → ℕ → ℕ → Bool };

    // where they lie, in numbers that no call changes
    ghost place: { Self → List ℕ };

    /// How many blocks the namespace has.
    fn blocks(&self) -> u32
        ensures count { result ≡ block_count (bytes self.now) }
        ensures whole { length (bytes self.now) % 512 ≡ 0 }
        ensures some { 0 < length (bytes self.now) };

    /// Whether this many blocks from `slba` on are at hand.
    fn has(&self, slba: u64, count: u32) -> bool
        ensures { result ≡ at_hand self.now slba count };

    /// A copy of this many blocks, from `slba` on.
    ///
    /// # Errors
    ///
    /// Where memory is refused, or a block is not at hand.
    fn copied<A: Allocator>(
        &self,
        alloc: A,
        slba: u64,
        count: u32,
    ) -> Result<Vec<u8, A>, AllocError>
        requires { slba + count ≤ block_count (bytes self.now) }
        ensures copy { IfOk result (λ copy. copy.items ≡ blocks_at (bytes self.now) slba count) }
        ensures there { OnOk result (at_hand self.now slba count ≡ true) };

    /// Whether the blocks from `slba` on are those of the buffer.
    fn equal(&self, slba: u64, buffer: &[u8]) -> bool
        requires range { IsInRange (bytes self.now) slba buffer.now }
        requires there { at_hand self.now slba (block_count buffer.now) ≡ true }
        ensures { IsTrue result ↔ (blocks_at (bytes self.now) slba (block_count buffer.now) ≡ buffer.now) };

    /// Puts the blocks of the buffer in place of those from `slba` on.
    fn copy_in(&mut self, slba: u64, buffer: &[u8])
        requires range { IsInRange (bytes self.old) slba buffer.now }
        requires there { at_hand self.old slba (block_count buffer.now) ≡ true }
        ensures changed { bytes self.new ≡ with_blocks (bytes self.old) slba buffer.now }
        ensures as_long { length (bytes self.new) ≡ length (bytes self.old) }
        ensures at_hand { (from n : ℕ) → at_hand self.new from n ≡ at_hand self.old from n }
        ensures place { place self.new ≡ place self.old };
}
