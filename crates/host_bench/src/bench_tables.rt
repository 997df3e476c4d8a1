//! What a host's bench holds.

use crate::values::CommandValues;
use host_core::Host;
use page_memory::Store;
use std::alloc::Allocator;

/// A host with its pages, and the values of its outstanding commands.
#[derive(Drop)]
pub(crate) struct BenchTables<A: Allocator> {
    /// The host.
    pub(crate) host: Host<A>,
    /// The pages of its pool.
    pub(crate) store: Store<A>,
    /// The value of each command that was reserved and is outstanding.
    pub(crate) values: CommandValues<A>,
    /// Where chains and gathered bytes are made.
    pub(crate) alloc: A,
}
