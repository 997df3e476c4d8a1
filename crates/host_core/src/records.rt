//! The records of the outstanding commands, by queue and identifier.

ghost use Rattle.std.specs.Prelude.{◌≡◌, ◌++◌, ◌∷◌, [], None, false, find};
ghost use Rattle.std.specs.Option.{option_map_or};
ghost use Rattle.machine_model.specs.After.{held, lost, submitted};
ghost use Rattle.machine_model.specs.Refusals.{is_submitted};
ghost use Rattle.machine_model.specs.State.{is_at, with_record, without_record};
ghost use Rattle.slot_table.specs.Table.{IsPlace};
ghost use Rattle.slot_table.specs.Rows.{value_at};
ghost use Rattle.host_core.specs.Parts.{record_of, records_of, Becomes};

use crate::record::Record;
use crate::tables::HostTables;
use entry_codec::{Hints, Status};
use std::alloc::Allocator;

impl<A: Allocator> HostTables<A> {
    /// Whether a command waits for its completion.
    pub(crate) fn has_submitted(&self, q: u16, cid: u16) -> bool
        ensures { result ≡ option_map_or (λ r. is_submitted r.phase) (find (is_at q cid) (records_of self.now.records.rows)) false }
    {
        match self.records.get(q, cid) {
            Some(entry) => entry.is_submitted(),
            None => false,
        }
    }

    /// Keeps a new command, after all others.
    pub(crate) fn add_record(&mut self, q: u16, cid: u16, entry: Record<A>)
        requires place { IsPlace self.old.records q cid }
        requires empty { value_at self.old.records.rows q cid ≡ None }
        ensures { Becomes self.old (λ t. record t { records = t.records ++ record_of q cid entry ∷ [] }) self.new }
    {
        self.records.put(q, cid, entry);
    }

    /// Forgets a command.
    pub(crate) fn forget(&mut self, q: u16, cid: u16)
        ensures { Becomes self.old (λ t. record t { records = without_record q cid t.records }) self.new }
    {
        drop(self.records.take(q, cid));
    }

    /// Marks a command submitted.
    pub(crate) fn mark_submitted(&mut self, q: u16, cid: u16)
        ensures { Becomes self.old (λ t. record t { records = with_record q cid submitted t.records }) self.new }
    {
        match self.records.get_mut(q, cid) {
            Some(entry) => entry.submit(),
            None => {}
        }
    }

    /// Notes how a command ended.
    pub(crate) fn hold(&mut self, q: u16, cid: u16, status: Status, hints: Hints)
        ensures { Becomes self.old (λ t. record t { records = with_record q cid (held status hints) t.records }) self.new }
    {
        match self.records.get_mut(q, cid) {
            Some(entry) => entry.hold(status, hints),
            None => {}
        }
    }

    /// Ends a command, where no completion did.
    pub(crate) fn lose(&mut self, q: u16, cid: u16)
        ensures { Becomes self.old (λ t. record t { records = with_record q cid (lost q) t.records }) self.new }
    {
        match self.records.get_mut(q, cid) {
            Some(entry) => entry.lose(),
            None => {}
        }
    }
}
