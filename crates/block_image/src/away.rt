//! The blocks of a namespace that is kept elsewhere.

ghost use Rattle.std.specs.Prelude.{◌≡◌, ◌<◌};

use crate::blocks::Blocks;
use std::alloc::{AllocError, Allocator};

/// Blocks of which none is at hand, and how many the namespace has of them: 1 to 2^32 - 1. Each byte counts as zero.
#[derive(Drop)]
pub struct Away {
    blocks: u32,
    ghost some: { 0 < blocks },
}

impl Away {
    /// This many blocks, none of them at hand.
    pub fn new(blocks: u32) -> Away
        requires { 0 < blocks }
        ensures { result.blocks ≡ blocks }
    {
        Away { blocks }
    }
}

impl Blocks for Away {
    ghost use Rattle.std.specs.Prelude.{◌*◌, ◌==◌, [], replicate};

    ghost bytes = { λ away. replicate (512 * away.blocks) 0 };

    // no block, but a range without blocks
    ghost at_hand = { λ away slba n. n == 0 };

    ghost place = { λ away. [] };

    fn blocks(&self) -> u32 {
        self.blocks
    }

    fn has(&self, _slba: u64, count: u32) -> bool {
        count == 0
    }

    fn copied<B: Allocator>(
        &self,
        alloc: B,
        _slba: u64,
        count: u32,
    ) -> Result<Vec<u8, B>, AllocError> {
        if count != 0 {
            return Err(AllocError);
        }
        Ok(Vec::new(alloc))
    }

    fn equal(&self, _slba: u64, _buffer: &[u8]) -> bool {
        true
    }

    fn copy_in(&mut self, _slba: u64, _buffer: &[u8]) {}
}
