//! A heap of fixed size, and how much of it is used.

ghost use Rattle.std.specs.Prelude.{◌≡◌, ◌≤◌, ◌⊎◌};

use crate::commands::carry;
use crate::fault::TrialFault;
use crate::pools::{IMAGE_BLOCKS, Pool};
use block_image::Image;
use linked_list_allocator::LocalHeap;
use std::alloc::Global;
use world_bench::Bench;

/// How many bytes of a heap were used.
#[derive(Clone, Copy)]
pub struct Used {
    /// With the image alone.
    pub image: usize,
    /// With the image and a bench without commands.
    pub opened: usize,
    /// At most, after any step.
    pub most: usize,
    /// Once all of it was given back.
    pub left: usize,
}

impl Used {
    /// Notes how many bytes are used after a step.
    pub fn note(&mut self, now: usize)
        ensures most { (now ≤ self.new.most) × (self.old.most ≤ self.new.most) }
        ensures met { (self.new.most ≡ now) ⊎ (self.new.most ≡ self.old.most) }
    {
        self.most = self.most.max(now);
    }
}

/// Opens a bench in a heap, carries the commands through, and ends the bench.
fn fill_heap(heap: &LocalHeap, pool: Pool, used: &mut Used) -> Result<(), TrialFault> {
    let Ok(image) = Image::zeroed(heap, IMAGE_BLOCKS) else {
        return Err(TrialFault::Memory);
    };
    used.image = heap.used();
    let Ok(mut bench) = Bench::open(heap, pool.config(), image) else {
        return Err(TrialFault::NotOpened);
    };
    used.opened = heap.used();
    let carried = carry(heap, &mut bench, pool.commands, used);
    let _ended = bench.end();
    carried
}

/// Carries the commands of a pool through in a heap, and answers how much of it was used.
///
/// # Errors
///
/// `Memory` where the heap cannot be had, or has no room for the image or a request; `NotOpened` or `Refused` where it is too small otherwise, or the pool
/// is none.
pub fn use_heap(alloc: Global, pool: Pool) -> Result<Used, TrialFault> {
    let heap = LocalHeap::new(alloc, pool.heap)?;
    let mut used = Used {
        image: 0,
        opened: 0,
        most: 0,
        left: 0,
    };
    fill_heap(&heap, pool, &mut used)?;
    used.left = heap.used();
    Ok(used)
}
