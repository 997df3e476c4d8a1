//! Ranges of blocks, as a Deallocate names them.

ghost use Rattle.std.specs.Prelude.{◌≡◌};
ghost use Rattle.io_commands.specs.Ranges.{range_bytes};

/// A range of blocks (NVM Command Set Specification 1.0, "Dataset Management", Range Definition).
#[derive(Clone, Copy, Debug, PartialEq, Eq)]
pub struct BlockRange {
    /// The first block.
    pub slba: u64,
    /// How many blocks.
    pub blocks: u32,
}

impl BlockRange {
    /// Its 16 bytes: no context attributes, the number of blocks, the first block.
    pub fn to_bytes(self) -> [u8; 16]
        ensures { result ≡ range_bytes self }
    {
        let n = self.blocks.to_le_bytes();
        let a = self.slba.to_le_bytes();
        [
            0, 0, 0, 0, n[0], n[1], n[2], n[3], a[0], a[1], a[2], a[3], a[4], a[5], a[6], a[7],
        ]
    }
}
