//! Lent regions, as the memory of a controller.

ghost use Rattle.std.specs.Prelude.{◌≡◌};

use crate::words::lent::{Lent, touch};
use crate::words::region::{CRegion, read_range, write_range};
use arrayvec::ArrayVec;
use page_memory::{Dma, PageNo, Unreadable};

/// Lent regions, and the pages touched through [`Dma`].
#[derive(Drop)]
pub struct LentRegions<'a, 'b> {
    /// The regions.
    pub regions: &'a mut [CRegion<'b>],
    /// How many pages there are up to the end of the region that ends last.
    pub pages: u32,
    /// The pages touched, in order.
    pub touched: ArrayVec<PageNo, 4>,
}

impl<'a, 'b> Dma for LentRegions<'a, 'b> {
    ghost use Rattle.nvmesgl_c.specs.Regions.{hidden_in, lists_number, memory_of, number_of, paired, table_of};

    ghost memory = { λ m. memory_of m.regions.now };

    ghost reached = { λ m. m.touched.items };

    // the name of the borrow, the table, and the bytes that no address shows: no call changes them, so what is in the regions afterwards is the
    // lender's
    ghost unlisted = { λ m. paired m.regions.ghost_name (paired (number_of (table_of m.regions.now)) (lists_number (hidden_in m.regions.now))) };

    ghost page_count = { λ m. m.pages };

    fn pool_pages(&self) -> u32 {
        self.pages
    }

    fn read(&mut self, addr: u64, into: &mut [u8]) -> Result<(), Unreadable> {
        let regions = &mut *self.regions;
        read_range(regions, addr, into)?;
        touch(&mut self.touched, addr, into.len());
        Ok(())
    }

    fn write(&mut self, addr: u64, bytes: &[u8]) -> Result<(), Unreadable> {
        let regions = &mut *self.regions;
        write_range(regions, addr, bytes)?;
        touch(&mut self.touched, addr, bytes.len());
        Ok(())
    }
}

impl<'a, 'b> Lent for LentRegions<'a, 'b> {
    fn touched(&self) -> &ArrayVec<PageNo, 4> {
        &self.touched
    }

    fn clear(&mut self) {
        self.touched.clear();
    }
}
