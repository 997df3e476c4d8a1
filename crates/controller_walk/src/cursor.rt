//! Where a descriptor of a list is.

/// What names the segment in which a descriptor is.
#[derive(Clone, Copy, Debug)]
pub enum Named {
    /// Nothing: the segment is the entry's one descriptor.
    Unnamed,
    /// A Segment descriptor.
    BySegment,
    /// A Last Segment descriptor.
    ByLastSegment,
}

/// Where a descriptor is, and how many are left in its segment, itself among them.
#[derive(Clone, Copy, Debug)]
pub struct Cursor {
    /// The address of its 16 bytes; 0 for the entry's own descriptor.
    pub place: u64,
    /// How many descriptors are left in the segment.
    pub left: u32,
    /// What names the segment.
    pub named: Named,
}
