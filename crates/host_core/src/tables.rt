//! What a host holds.

use crate::queue::Queue;
use crate::record::Record;
use machine_model::words::Peer;
use page_ledger::Ledger;
use queue_pair::HostPair;
use slot_table::SlotTable;
use std::alloc::Allocator;

/// The tables of a host.
#[derive(Drop)]
pub(crate) struct HostTables<A: Allocator> {
    /// Where its lists are made.
    pub(crate) alloc: A,
    /// How many entries each ring has.
    pub(crate) entries: u16,
    /// The most descriptors of a segment.
    pub(crate) segment: u16,
    /// Whom it speaks to.
    pub(crate) peer: Peer,
    /// Who owns which page.
    pub(crate) ledger: Ledger<A>,
    /// The outstanding commands, in the order in which they were made.
    pub(crate) records: SlotTable<Record<A>, A>,
    /// The queues, by their numbers.
    pub(crate) queues: Vec<Queue<HostPair<A>>, A>,
}
