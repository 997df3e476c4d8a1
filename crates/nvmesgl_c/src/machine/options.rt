//! What C opens a handle with.

/// How many bytes [`Options`] has.
pub(crate) const SIZE: u32 = 64;

/// What a handle is opened with, besides an image. A later version may give a meaning to a word that is reserved now.
#[repr(C)]
#[derive(Clone, Copy)]
pub struct Options {
    /// How many bytes the struct has, 64.
    pub size: u32,
    /// The pages of the pool, 8 to 65,536.
    pub pages: u32,
    /// The I/O queues, 1 to 64.
    pub queues: u32,
    /// The entries of each ring, 2 to 1,024.
    pub entries: u32,
    /// The most descriptors of a segment, 2 to 256.
    pub segment: u32,
    /// The blocks of an image of zeros, 1 to 65,536; read only where no image is given.
    pub blocks: u32,
    /// Zeros.
    pub reserved: [u32; 10],
}
