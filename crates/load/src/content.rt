//! What blocks hold.

ghost use Rattle.std.specs.Prelude.{◌≡◌, ◌<◌, ◌*◌, ◌++◌, IfOk, OnOk, vec_len};
ghost use Rattle.load.specs.Content.{block_bytes, rows, slot_content, written};

use crate::layout::Layout;
use rand_core::Rng;
use rand_pcg::Pcg64;
use std::alloc::{AllocError, Global};

/// Puts the rows of a block: the same bytes in each, after the row's number.
fn put_rows(out: &mut Vec<u8>, row: &[u8; 71]) -> Result<(), AllocError>
    ensures { OnOk result (out.new.items ≡ out.old.items ++ rows row.now 0 7) }
{
    for number in 0..7u8 {
        out.push(number)?;
        out.extend_from_slice(row)?;
    }
    Ok(())
}

/// Puts the bytes of a block as it is after this many writes: its number, how often it was written, and rows of bytes made of both and of the seed.
#[tactic(auto, unfolding(crate::specs::Content::block_bytes))]
fn put_block(out: &mut Vec<u8>, seed: u32, block: u32, generation: u32) -> Result<(), AllocError>
    ensures { OnOk result (out.new.items ≡ out.old.items ++ block_bytes seed block generation) }
{
    let state = (u128::from(seed) << 32) + u128::from(generation);
    let mut words = Pcg64::new(state, u128::from(block));
    let mut row = [0u8; 71];
    words.fill_bytes(&mut row);
    out.extend_from_slice(&block.to_le_bytes())?;
    out.extend_from_slice(&generation.to_le_bytes())?;
    put_rows(out, &row)
}

/// The bytes of a slot that was written this often, once at least.
pub(crate) fn written_slot(
    alloc: Global,
    layout: Layout,
    seed: u32,
    slot: usize,
    generation: u32,
) -> Result<Vec<u8>, AllocError>
    requires { slot < layout.submitters * layout.slots }
    ensures { IfOk result (λ bytes. bytes.items ≡ written layout seed slot generation) }
{
    let first = layout.first_block(slot);
    let mut bytes = Vec::with_capacity(alloc, layout.slot_bytes() as usize)?;
    for block in first..first + layout.slot_blocks {
        put_block(&mut bytes, seed, block, generation)?;
    }
    Ok(bytes)
}

/// What slots hold: what was written last, or else the image as it was at first.
#[derive(Drop)]
pub(crate) struct Content {
    pub(crate) seed: u32,
    /// The bytes of the image.
    pub(crate) first: Vec<u8>,
}

impl Content {
    /// The bytes of a slot that was written this often.
    pub(crate) fn of_slot(
        &self,
        alloc: Global,
        layout: Layout,
        slot: usize,
        generation: u32,
    ) -> Result<Vec<u8>, AllocError>
        requires whole { vec_len self.now.first ≡ 512 * layout.blocks }
        requires inside { slot < layout.submitters * layout.slots }
        ensures { IfOk result (λ bytes. bytes.items ≡ slot_content layout self.now.seed self.now.first.items slot generation) }
    {
        if generation > 0 {
            return written_slot(alloc, layout, self.seed, slot, generation);
        }
        let start = 512 * layout.first_block(slot) as usize;
        let first = self.first.as_slice();
        Vec::from_slice(alloc, &first[start..start + layout.slot_bytes() as usize])
    }
}
