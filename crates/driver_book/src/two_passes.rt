//! How receipts are compared with a log in two passes: the first counts the submissions, the second goes back from the last entry, with a
//! table of how commands ended.

ghost use Rattle.std.specs.Prelude.{◌≡◌, ◌↔◌, ◌+◌, ◌-◌, ◌*◌, ◌/◌, ◌^◌, ◌<◌, ◌≤◌, Some, IsTrue, MatchOption, IfOk, length, max, slice_get};
ghost use Rattle.std.specs.List.{list_any};
ghost use Rattle.std.specs.Option.{option_map};
ghost use Rattle.driver_book.specs.State.{AreSeated};
ghost use Rattle.driver_book.specs.Close.{has, AllStand, IsMissing};
ghost use Rattle.driver_book.specs.Submissions.{submission_of};
ghost use Rattle.driver_book.specs.Table.{count_of, with_count, status_in, AreCounted, AreWithin, AreBelow, Tells};

use crate::Log;
use crate::book::LogBrand;
use crate::close::{Wanted, any_has, missing};
use crate::ends::Ends;
use crate::entry::Submission;
use crate::seat::Seat;
use std::alloc::{AllocError, Allocator};

/// How many cells the table may have for each entry of the log.
const CELLS_AN_ENTRY: usize = 16;

/// How many it may have besides.
const CELLS_BESIDES: usize = 4096;

/// No table was made: memory was refused, or it would be too large for its log.
struct NoTable;

/// How many accepted submissions of a log there are before an index.
#[derive(Drop)]
struct Counted<A: Allocator> {
    /// In all.
    number: u64,
    /// Of each seat, by its number.
    of_seats: Vec<usize, A>,
}

/// A number that is above those of all seats.
fn above_all<L: LogBrand, A: Allocator>(seats: &[Seat<L, A>]) -> usize
    ensures { AreBelow seats.now result }
{
    let mut end = 0;
    for seat in seats {
        end = end.max(usize::from(seat.number) + 1);
    }
    end
}

/// The count of a seat; 0 for a seat that has none.
fn count_at(counts: &[usize], seat: Option<u16>) -> usize
    ensures { result ≡ count_of counts.now seat }
{
    match seat {
        Some(number) => counts.get(usize::from(number)).copied().unwrap_or(0),
        None => 0,
    }
}

/// The bounds below which the queues and identifiers of submissions are.
#[derive(Clone, Copy)]
struct Bounds {
    queues: usize,
    identifiers: usize,
}

impl Bounds {
    /// The bounds with one more submission.
    fn with(self, made: Submission) -> Bounds
        requires queues { self.queues ≤ 65536 }
        requires identifiers { self.identifiers ≤ 65536 }
        ensures queues { result.queues ≡ max self.queues (made.q + 1) }
        ensures identifiers { result.identifiers ≡ max self.identifiers (made.cid + 1) }
        ensures few_queues { result.queues ≤ 65536 }
        ensures few_identifiers { result.identifiers ≤ 65536 }
    {
        Bounds {
            queues: self.queues.max(usize::from(made.q) + 1),
            identifiers: self.identifiers.max(usize::from(made.cid) + 1),
        }
    }

    /// Whether a table for these is small enough for a log of this many entries.
    fn are_small(self, entries: usize) -> bool
        requires queues { self.queues ≤ 65536 }
        requires identifiers { self.identifiers ≤ 65536 }
        ensures { IsTrue result ↔ ((self.queues * self.identifiers - CELLS_BESIDES) / CELLS_AN_ENTRY ≤ entries) }
    {
        let cells = self.queues * self.identifiers;
        cells.saturating_sub(CELLS_BESIDES) / CELLS_AN_ENTRY <= entries
    }
}

impl<A: Allocator + Copy> Counted<A> {
    /// Those of a whole log, each by the numbers of these seats; and the bounds of the log's submissions.
    fn of_log<L: LogBrand>(
        alloc: A,
        log: &Log<A>,
        seats: &[Seat<L, A>],
    ) -> Result<(Self, Bounds), AllocError>
        ensures counted { IfOk result (λ r. AreCounted r.0.number r.0.of_seats.items log.now.entries (length log.now.entries)) }
        ensures below { IfOk result (λ r. AreBelow seats.now (length r.0.of_seats.items)) }
        ensures within { IfOk result (λ r. AreWithin r.1.queues r.1.identifiers log.now.entries (length log.now.entries)) }
        ensures few_queues { IfOk result (λ r. r.1.queues ≤ 65536) }
        ensures few_identifiers { IfOk result (λ r. r.1.identifiers ≤ 65536) }
    {
        let mut counted = Counted {
            number: 0,
            of_seats: vec![in alloc; 0; above_all(seats)]?,
        };
        let mut bounds = Bounds {
            queues: 0,
            identifiers: 0,
        };
        for place in 0..log.len() {
            match counted.go_on(log, place) {
                Some(made) => bounds = bounds.with(made),
                None => {}
            }
        }
        Ok((counted, bounds))
    }
}

impl<A: Allocator> Counted<A> {
    /// Sets another count for a seat that has one.
    fn set_count(&mut self, seat: Option<u16>, count: usize)
        ensures seats { self.new.of_seats.items ≡ with_count self.old.of_seats.items seat count }
        ensures number { self.new.number ≡ self.old.number }
    {
        let Some(number) = seat else {
            return;
        };
        let index = usize::from(number);
        if index < self.of_seats.len() {
            self.of_seats[index] = count;
        }
    }

    /// Goes forward by one entry of the log, the one at this index: the submission there, if it is one.
    fn go_on(&mut self, log: &Log<A>, place: usize) -> Option<Submission>
        requires within { place < length log.now.entries }
        requires few { length log.now.entries < 2 ^ 64 }
        requires counted { AreCounted self.old.number self.old.of_seats.items log.now.entries place }
        ensures counted { AreCounted self.new.number self.new.of_seats.items log.now.entries (place + 1) }
        ensures seats { length self.new.of_seats.items ≡ length self.old.of_seats.items }
        ensures submission { option_map submission_of (slice_get log.now.entries place) ≡ Some result }
    {
        let made = log.submission_at(place)?;
        self.number += 1;
        let count = count_at(&self.of_seats, made.seat) + 1;
        self.set_count(made.seat, count);
        Some(made)
    }

    /// Goes back by one entry of the log, the one at this index: the submission there, if it is one.
    fn go_back(&mut self, log: &Log<A>, place: usize) -> Option<Submission>
        requires within { place < length log.now.entries }
        requires counted { AreCounted self.old.number self.old.of_seats.items log.now.entries (place + 1) }
        ensures counted { AreCounted self.new.number self.new.of_seats.items log.now.entries place }
        ensures seats { length self.new.of_seats.items ≡ length self.old.of_seats.items }
        ensures submission { option_map submission_of (slice_get log.now.entries place) ≡ Some result }
    {
        let made = log.submission_at(place)?;
        self.number -= 1;
        let count = count_at(&self.of_seats, made.seat).saturating_sub(1);
        self.set_count(made.seat, count);
        Some(made)
    }

    /// Whether the submission after those that were counted stands in the receipts, where the entries after it say this about ends.
    fn does_stand<L: LogBrand>(
        &self,
        made: Submission,
        ends: &Ends<A>,
        seats: &[Seat<L, A>],
    ) -> bool
        requires queue { made.q < length ends.now.retired }
        requires identifier { made.cid < ends.now.identifiers }
        ensures { result ≡ list_any (has made.seat (count_of self.now.of_seats.items made.seat) self.now.number made.q made.cid made.asked (status_in ends.now made.q made.cid)) seats.now }
    {
        let wanted = Wanted {
            number: self.number,
            q: made.q,
            cid: made.cid,
            asked: made.asked,
            status: ends.status_of(made.q, made.cid),
        };
        any_has(
            seats,
            made.seat,
            count_at(&self.of_seats, made.seat),
            wanted,
        )
    }
}

/// Goes back through a log whose submissions were counted: the first accepted submission that stands in no receipt, its seat and its
/// number.
fn first_behind<L: LogBrand, A: Allocator>(
    log: &Log<A>,
    seats: &[Seat<L, A>],
    counted: Counted<A>,
    ends: Ends<A>,
) -> Option<(u16, u64)>
    requires seated { AreSeated log.now.entries }
    requires counted { AreCounted counted.number counted.of_seats.items log.now.entries (length log.now.entries) }
    requires below { AreBelow seats.now (length counted.of_seats.items) }
    requires within { AreWithin (length ends.retired) ends.identifiers log.now.entries (length log.now.entries) }
    requires tells { Tells ends log.now.entries (length log.now.entries) }
    ensures { MatchOption result (AllStand log.now.entries seats.now) (λ m. IsMissing log.now.entries seats.now m.0 m.1) }
{
    let mut counted = counted;
    let mut ends = ends;
    let mut found = None;
    for place in (0..log.len()).rev() {
        match counted.go_back(log, place) {
            Some(made) => {
                if !counted.does_stand(made, &ends, seats) {
                    found = Some((made.seat.unwrap_or(0), counted.number));
                }
            }
            None => ends.go_back(log, place),
        }
    }
    found
}

/// The first accepted submission that stands in no receipt, by two passes through the log.
fn in_two_passes<L: LogBrand, A: Allocator + Copy>(
    alloc: A,
    log: &Log<A>,
    seats: &[Seat<L, A>],
) -> Result<Option<(u16, u64)>, NoTable>
    requires { AreSeated log.now.entries }
    ensures { IfOk result (λ found. MatchOption found (AllStand log.now.entries seats.now) (λ m. IsMissing log.now.entries seats.now m.0 m.1)) }
{
    let Ok((counted, bounds)) = Counted::of_log(alloc, log, seats) else {
        return Err(NoTable);
    };
    if !bounds.are_small(log.len()) {
        return Err(NoTable);
    }
    let Ok(ends) = Ends::none(alloc, bounds.queues, bounds.identifiers) else {
        return Err(NoTable);
    };
    Ok(first_behind(log, seats, counted, ends))
}

/// The first accepted submission that stands in no receipt: its seat and its number. It takes memory for its tables; where that is refused, or
/// they would be too large, the log is gone through for each seat.
pub(crate) fn first_missing<L: LogBrand, A: Allocator + Copy>(
    alloc: A,
    log: &Log<A>,
    seats: &[Seat<L, A>],
) -> Option<(u16, u64)>
    requires { AreSeated log.now.entries }
    ensures { MatchOption result (AllStand log.now.entries seats.now) (λ m. IsMissing log.now.entries seats.now m.0 m.1) }
{
    match in_two_passes(alloc, log, seats) {
        Ok(found) => found,
        Err(NoTable) => missing(log, seats),
    }
}
