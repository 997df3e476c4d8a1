//! How submitted commands ended: what the entries of a log starting at an index say about it, in a table.

ghost use Rattle.std.specs.Prelude.{◌≡◌, ◌+◌, ◌*◌, ◌<◌, ◌≤◌, Some, IfOk, List, length, slice_set};
ghost use Rattle.driver_book.specs.Entries.{Entry as AnEntry};
ghost use Rattle.driver_book.specs.Table.{earlier, status_in, with_single, Tells};

use crate::entry::EndAt;
use crate::log::Log;
use entry_codec::Status;
use std::alloc::{AllocError, Allocator};
use std::marker::Model;

/// An end of commands: where it is in the log, and the status that it gives them.
#[derive(Clone, Copy)]
pub(crate) struct End {
    pub(crate) place: usize,
    pub(crate) status: Status,
}

/// What the entries of a log starting at an index say about the ends of submitted commands. Three ends may be a command's: its own, the retirement of
/// its queue, and the reset of the controller; the first of them counts. So a retirement or a reset is written down once, however many commands it
/// ends.
#[derive(Drop)]
pub(crate) struct Ends<A: Allocator> {
    /// How many identifiers each queue has here.
    identifiers: usize,
    /// The first end of each command alone: those of queue 0 by their identifiers, then those of queue 1, and so on.
    single: Vec<Option<End>, A>,
    /// The first retirement of each queue.
    retired: Vec<Option<End>, A>,
    /// The first reset.
    reset: Option<End>,
}

impl<A: Allocator> Model for Ends<A> {
    ghost use Rattle.std.specs.Prelude.{◌≡◌, ◌*◌, length};
    ghost use Rattle.driver_book.specs.Table.{EndTable};

    ghost Value = { EndTable };

    ghost view = { λ e. record { single = e.single.items; retired = e.retired.items; reset = e.reset; identifiers = e.identifiers } };

    ghost invariant = { λ e. length e.single.items ≡ length e.retired.items * e.identifiers };
}

/// The first of two ends.
fn first_of(a: Option<End>, b: Option<End>) -> Option<End>
    ensures { result ≡ earlier a b }
{
    match (a, b) {
        (None, b) => b,
        (Some(a), None) => Some(a),
        (Some(a), Some(b)) => { if a.place < b.place { Some(a) } else { Some(b) } }
    }
}

/// Puts an end into a list, where it has such an index.
fn put(ends: &mut [Option<End>], index: usize, end: End)
    ensures { ends.new ≡ slice_set ends.old index (Some end) }
{
    if index < ends.len() {
        ends[index] = Some(end);
    }
}

impl<A: Allocator + Copy> Ends<A> {
    /// The table of no entries, for this many queues and identifiers.
    pub(crate) fn none(alloc: A, queues: usize, identifiers: usize) -> Result<Self, AllocError>
        requires queues { queues ≤ 65536 }
        requires identifiers { identifiers ≤ 65536 }
        ensures queues { IfOk result (λ ends. length ends.retired ≡ queues) }
        ensures identifiers { IfOk result (λ ends. ends.identifiers ≡ identifiers) }
        ensures tells { IfOk result (λ ends. (log : List AnEntry) → Tells ends log (length log)) }
    {
        let single = vec![in alloc; None; queues * identifiers]?;
        let retired = vec![in alloc; None; queues]?;
        Ok(Ends {
            identifiers,
            single,
            retired,
            reset: None,
        })
    }
}

impl<A: Allocator> Ends<A> {
    /// The status that the entries give a command.
    pub(crate) fn status_of(&self, q: u16, cid: u16) -> Option<Status>
        requires queue { q < length self.now.retired }
        requires identifier { cid < self.now.identifiers }
        ensures { result ≡ status_in self.now q cid }
    {
        let place = usize::from(q) * self.identifiers + usize::from(cid);
        let of_all = first_of(self.retired[usize::from(q)], self.reset);
        match first_of(self.single[place], of_all) {
            Some(end) => Some(end.status),
            None => None,
        }
    }

    /// Records an end of one command.
    fn end_one(&mut self, q: u16, cid: u16, end: End)
        ensures size { length self.old.single ≡ length self.old.retired * self.old.identifiers }
        ensures single { self.new.single ≡ with_single self.old q cid end }
        ensures retired { self.new.retired ≡ self.old.retired }
        ensures reset { self.new.reset ≡ self.old.reset }
        ensures identifiers { self.new.identifiers ≡ self.old.identifiers }
    {
        let (q, cid) = (usize::from(q), usize::from(cid));
        if q < self.retired.len() && cid < self.identifiers {
            put(self.single.as_mut_slice(), q * self.identifiers + cid, end);
        }
    }

    /// Records an end of a queue's commands.
    fn end_queue(&mut self, q: u16, end: End)
        ensures single { self.new.single ≡ self.old.single }
        ensures retired { self.new.retired ≡ slice_set self.old.retired q (Some end) }
        ensures reset { self.new.reset ≡ self.old.reset }
        ensures identifiers { self.new.identifiers ≡ self.old.identifiers }
    {
        put(self.retired.as_mut_slice(), usize::from(q), end);
    }

    /// Goes back by one entry of the log, the one at this index.
    pub(crate) fn go_back(&mut self, log: &Log<A>, place: usize)
        requires within { place < length log.now.entries }
        requires tells { Tells self.old log.now.entries (place + 1) }
        ensures tells { Tells self.new log.now.entries place }
        ensures queues { length self.new.retired ≡ length self.old.retired }
        ensures identifiers { self.new.identifiers ≡ self.old.identifiers }
    {
        let aborted = End {
            place,
            status: Status::ABORTED_SQ_DELETION,
        };
        match log.end_at(place) {
            EndAt::Nothing => {}
            EndAt::One { q, cid, status } => self.end_one(q, cid, End { place, status }),
            EndAt::Queue { q } => self.end_queue(q, aborted),
            EndAt::All => self.reset = Some(aborted),
        }
    }
}
