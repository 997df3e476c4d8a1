//! What an allocator was asked for, and what it has given out.

/// What an allocator was asked for since its counts of calls were last set to 0, and what it has given out and not got back.
/// Counts are kept modulo 2^64.
#[derive(Clone, Copy, PartialEq, Eq, Debug)]
pub struct Tally {
    /// The calls that asked for a block.
    pub calls: u64,
    /// Those of them that were refused on purpose.
    pub refused: u64,
    /// The blocks that are out.
    pub blocks: u64,
    /// The bytes of the blocks that are out.
    pub bytes: u64,
}
