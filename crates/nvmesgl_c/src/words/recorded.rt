//! Lent memory, for a look that empties the touched list.

ghost use Rattle.std.specs.Prelude.{◌≡◌};

use crate::words::lent::Lent;
use arrayvec::ArrayVec;
use page_memory::{Dma, PageNo, TouchRecord, Unreadable};

/// Lent memory, and how many touches its list does not have any more.
#[derive(Drop)]
pub struct Recorded<'a, M> {
    /// The memory.
    pub lent: &'a mut M,
    /// How many touches were taken off its list.
    pub unlisted: u64,
}

impl<'a, M: Lent> Dma for Recorded<'a, M> {
    ghost use Rattle.nvmesgl_c.specs.{Named.named_memory, Regions.paired};

    // the name of the borrow and what the memory keeps are beyond all addresses, since each count here has another use
    ghost memory = { λ m. named_memory (M.memory m.lent.now) (paired m.lent.ghost_name (M.unlisted m.lent.now)) };

    ghost reached = { λ m. M.reached m.lent.now };

    ghost unlisted = { λ m. m.unlisted };

    ghost page_count = { λ m. M.page_count m.lent.now };

    fn pool_pages(&self) -> u32 {
        self.lent.pool_pages()
    }

    fn read(&mut self, addr: u64, into: &mut [u8]) -> Result<(), Unreadable> {
        self.lent.read(addr, into)
    }

    fn write(&mut self, addr: u64, bytes: &[u8]) -> Result<(), Unreadable> {
        self.lent.write(addr, bytes)
    }
}

impl<'a, M: Lent> TouchRecord for Recorded<'a, M> {
    fn touched(&self) -> &ArrayVec<PageNo, 4> {
        self.lent.touched()
    }

    fn touches(&self) -> u64 {
        self.unlisted.wrapping_add(self.lent.touched().len() as u64)
    }

    fn clear(&mut self) {
        self.unlisted = self.touches();
        self.lent.clear();
    }
}
