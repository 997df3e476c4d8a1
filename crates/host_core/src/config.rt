//! How a host is opened.

/// What a host is opened with. The opening checks the limits.
#[derive(Clone, Copy, Debug, PartialEq, Eq)]
pub struct Config {
    /// The pages of the pool, 8 to 65,536.
    pub pages: u32,
    /// The I/O queues, 1 to 64.
    pub queues: u32,
    /// The entries of each ring, 2 to 1,024.
    pub entries: u32,
    /// The most descriptors of a segment, 2 to 256.
    pub segment: u32,
}
