//! What a bench holds.

use host_bench::values::CommandValues;
use std::alloc::Allocator;
use step_core::World;

/// A world, and the values of its outstanding commands.
pub(crate) struct BenchTables<A: Allocator> {
    /// The world.
    pub(crate) world: World<A>,
    /// The value of each command that the bench reserved and that is outstanding.
    pub(crate) values: CommandValues<A>,
    /// Where chains, gathered bytes and lists are made.
    pub(crate) alloc: A,
}
