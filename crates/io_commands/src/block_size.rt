//! How many bytes a block has.

ghost use Rattle.std.specs.Prelude.{◌≡◌, ◌≢◌, ◌≤◌, ◌*◌, IfSome, IfNone};
ghost use Rattle.io_commands.specs.BlockSizes.{block_bytes, most_blocks as spec_most_blocks, size_of};
ghost use Rattle.io_commands.specs.declared.block_size.BlockSize.{BlockSize};

/// How many bytes a block has: a namespace's LBA data size (NVM Command Set Specification 1.0, LBA Format Data Structure, LBADS 9 to 12).
#[derive(Clone, Copy, Debug, PartialEq, Eq)]
pub enum BlockSize {
    /// 512, as the modelled controller's.
    Bytes512,
    /// 1,024.
    Bytes1024,
    /// 2,048.
    Bytes2048,
    /// 4,096.
    Bytes4096,
}

impl BlockSize {
    /// The size of this many bytes; none where no block has that many.
    pub fn of(bytes: u64) -> Option<BlockSize>
        ensures size { result ≡ size_of bytes }
        ensures some { IfSome result (λ size. block_bytes size ≡ bytes) }
        ensures none { IfNone result ((size : BlockSize) → block_bytes size ≢ bytes) }
    {
        match bytes {
            512 => Some(BlockSize::Bytes512),
            1_024 => Some(BlockSize::Bytes1024),
            2_048 => Some(BlockSize::Bytes2048),
            4_096 => Some(BlockSize::Bytes4096),
            _ => None,
        }
    }

    /// In bytes.
    pub fn bytes(self) -> usize
        ensures bytes { result ≡ block_bytes self }
        ensures most { result ≤ 4096 }
    {
        match self {
            BlockSize::Bytes512 => 512,
            BlockSize::Bytes1024 => 1_024,
            BlockSize::Bytes2048 => 2_048,
            BlockSize::Bytes4096 => 4_096,
        }
    }

    /// How many blocks a command may have: those of 1 MiB.
    pub fn most_blocks(self) -> u32
        ensures most { result ≡ spec_most_blocks self }
        ensures few { result ≤ 2048 }
    {
        match self {
            BlockSize::Bytes512 => 2_048,
            BlockSize::Bytes1024 => 1_024,
            BlockSize::Bytes2048 => 512,
            BlockSize::Bytes4096 => 256,
        }
    }

    /// How many bytes this many blocks have, which a command may have.
    pub fn bytes_of(self, blocks: u32) -> u32
        requires { blocks ≤ spec_most_blocks self }
        ensures bytes { result ≡ block_bytes self * blocks }
        ensures least { blocks ≤ result }
        ensures most { result ≤ 1048576 }
    {
        match self {
            BlockSize::Bytes512 => 512 * blocks,
            BlockSize::Bytes1024 => 1_024 * blocks,
            BlockSize::Bytes2048 => 2_048 * blocks,
            BlockSize::Bytes4096 => 4_096 * blocks,
        }
    }
}
