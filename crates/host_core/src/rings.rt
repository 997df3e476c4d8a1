//! Where the host stands in a queue's rings, and how much of the queue is in flight: looks that change nothing.

ghost use Rattle.std.specs.Prelude.{◌≡◌, length, slice_get};
ghost use Rattle.std.specs.Option.{option_map};
ghost use Rattle.machine_model.specs.State.{outstanding_on};
ghost use Rattle.queue_pair.specs.Positions.{host_positions};
ghost use Rattle.host_core.specs.Rows.{rows_on};

use crate::host::Host;
use crate::tables::HostTables;
use queue_pair::HostPositions;
use std::alloc::Allocator;

impl<A: Allocator> HostTables<A> {
    /// How many records are in the slots of a queue.
    fn count_records(&self, q: u16) -> usize
        ensures { result ≡ rows_on q self.now.records.rows }
    {
        let mut found = 0;
        let mut place = self.records.first();
        for _ in 0..self.records.len() {
            let Some((p, cid)) = place else {
                return found;
            };
            if p == q {
                found += 1;
            }
            place = self.records.next(p, cid);
        }
        found
    }
}

impl<A: Allocator> Host<A> {
    /// Where the host stands in both rings of a queue, if there is one of this number.
    pub fn positions(&self, q: u16) -> Option<HostPositions>
        ensures { result ≡ option_map (λ queue. host_positions queue.ring) (slice_get self.now.host.queues q) }
    {
        match self.parts.queues.get(usize::from(q)) {
            Some(queue) => Some(queue.host.positions()),
            None => None,
        }
    }

    /// How many commands of a queue are outstanding. It looks at each command that is outstanding.
    pub fn outstanding(&self, q: u16) -> usize
        ensures { result ≡ length (outstanding_on self.now.host q) }
    {
        self.parts.count_records(q)
    }
}
