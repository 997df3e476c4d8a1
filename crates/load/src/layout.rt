//! How the blocks of an image are shared out.

ghost use Rattle.std.specs.Prelude.{◌≡◌, ◌≤◌, ◌<◌, ◌+◌, ◌*◌, ◌/◌, ◌↔◌, IfSome, IsNone};

/// Each submitter's part of an image, cut into slots. The slots are numbered through, submitter by submitter; what is left over at the end
/// belongs to nobody.
#[derive(Clone, Copy)]
pub(crate) struct Layout {
    /// The blocks of the image, 65,536 at most.
    pub(crate) blocks: u32,
    /// Submitters, 1 to 16.
    pub(crate) submitters: u16,
    /// The blocks of a slot, 1 to 256.
    pub(crate) slot_blocks: u32,
    /// The slots of each submitter, 1 at least.
    pub(crate) slots: usize,
    ghost few_blocks: { blocks ≤ 65536 },
    ghost some_submitters: { 1 ≤ submitters },
    ghost few_submitters: { submitters ≤ 16 },
    ghost some_blocks: { 1 ≤ slot_blocks },
    ghost little: { slot_blocks ≤ 256 },
    ghost some: { 1 ≤ slots },
    ghost few: { slots ≤ 65536 },
    ghost inside: { submitters * slots * slot_blocks ≤ blocks },
    ghost all: { submitters * slots ≤ 65536 },
}

impl Layout {
    /// The blocks of an image, shared out; nothing where there is not a slot for each submitter.
    pub(crate) fn of(blocks: u32, submitters: u16, slot_blocks: u32) -> Option<Layout>
        requires few_blocks { blocks ≤ 65536 }
        requires some { 1 ≤ submitters }
        requires few { submitters ≤ 16 }
        requires some_blocks { 1 ≤ slot_blocks }
        requires little { slot_blocks ≤ 256 }
        ensures blocks { IfSome result (λ layout. layout.blocks ≡ blocks) }
        ensures submitters { IfSome result (λ layout. layout.submitters ≡ submitters) }
        ensures slot_blocks { IfSome result (λ layout. layout.slot_blocks ≡ slot_blocks) }
        ensures slots { IfSome result (λ layout. layout.slots ≡ blocks / (submitters * slot_blocks)) }
        ensures none { IsNone result ↔ (blocks < submitters * slot_blocks) }
    {
        let need = u32::from(submitters) * slot_blocks;
        let slots = (blocks / need) as usize;
        if slots == 0 {
            return None;
        }
        Some(Layout {
            blocks,
            submitters,
            slot_blocks,
            slots,
        })
    }

    /// How many slots there are.
    pub(crate) fn all_slots(self) -> usize
        ensures { result ≡ self.submitters * self.slots }
    {
        usize::from(self.submitters) * self.slots
    }

    /// The first slot of a submitter.
    pub(crate) fn first_slot(self, submitter: u16) -> usize
        requires { submitter < self.submitters }
        ensures first { result ≡ submitter * self.slots }
        ensures inside { result + self.slots ≤ self.submitters * self.slots }
    {
        usize::from(submitter) * self.slots
    }

    /// The first block of a slot.
    pub(crate) fn first_block(self, slot: usize) -> u32
        requires { slot < self.submitters * self.slots }
        ensures first { result ≡ slot * self.slot_blocks }
        ensures inside { result + self.slot_blocks ≤ self.blocks }
    {
        slot as u32 * self.slot_blocks
    }

    /// The bytes of a slot.
    pub(crate) fn slot_bytes(self) -> u64
        ensures { result ≡ 512 * self.slot_blocks }
    {
        512 * u64::from(self.slot_blocks)
    }
}
