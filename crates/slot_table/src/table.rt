//! The table.

ghost use Rattle.std.specs.Prelude.{◌≡◌, ℕ, ◌+◌, ◌-◌, ◌*◌, ◌<◌, ◌≤◌, ◌==◌, [], ◌∷◌, ◌++◌, length, None, Some, IsSome, IfNone, IfSome, IfOk, IfErr, MatchOption};
ghost use Rattle.std.specs.Option.{option_copied, option_copied_mut};
ghost use Rattle.std.specs.Borrow.{sem};
ghost use Rattle.slot_table.specs.Table.{AreInside, IsPlace, with_row};
ghost use Rattle.slot_table.specs.Rows.{IsDistinct, first_place, place_behind, value_at, without, NoneAt};
ghost use Rattle.slot_table.specs.Lends.{lends_content};

use crate::link::Link;
use std::alloc::{AllocError, Allocator, Global};
use std::marker::Model;
use std::mem;

/// Records by queue and identifier, in the order in which they were put.
#[derive(Drop)]
pub struct SlotTable<R, A: Allocator = Global> {
    queues: u32,
    places: u32,
    len: usize,
    records: Vec<Option<R>, A>,
    links: Vec<Link, A>,
}

impl<R, A: Allocator> Model for SlotTable<R, A> {
    ghost use Rattle.slot_table.specs.Table.{TableOf, table_code};

    ghost Value = { TableOf R };

    ghost coded = { table_code R.code };

    ghost use Rattle.slot_table.specs.Links.{rows_of, walk, after_of, IsThreaded};
    ghost use Rattle.std.specs.Prelude.{length};

    ghost view = { λ t. record {
      queues = t.queues;
      places = t.places;
      rows = rows_of t.places t.records.items
          (walk t.links.items (length t.records.items) (after_of t.links.items (length t.records.items)) (length t.records.items));
    } };

    ghost invariant = { λ t. IsThreaded t.queues t.places t.len t.records.items t.links.items };
}

impl<R, A: Allocator + Clone> SlotTable<R, A> {
    /// A table with no record: this many queues, starting at 0, of `entries - 1` slots each, as a ring of this many entries holds.
    ///
    /// # Errors
    ///
    /// Where memory is refused. No other call takes memory.
    pub fn open(alloc: A, queues: u32, entries: u32) -> Result<Self, AllocError>
        requires queues { queues ≤ 65536 }
        requires least { 1 ≤ entries }
        requires most { entries ≤ 65536 }
        ensures { IfOk result (λ table. table ≡ record { queues = queues; places = entries - 1; rows = [] }) }
    {
        let places = entries - 1;
        let end = queues * places;
        let at_end = Link {
            before: end,
            after: end,
        };
        let links = Vec::from_elem(alloc.clone()?, at_end, end as usize + 1)?;
        let mut records = Vec::with_capacity(alloc, end as usize)?;
        for _ in 0..end {
            records.push_reserved(None);
        }
        Ok(SlotTable {
            queues,
            places,
            len: 0,
            records,
            links,
        })
    }
}

impl<R, A: Allocator> SlotTable<R, A> {
    ghost use Rattle.slot_table.specs.Lends.{lends_get, lends_record};
    ghost use Rattle.slot_table.specs.Links.{place_of};

    /// How many records are in the table.
    pub fn len(&self) -> usize
        ensures count { result ≡ length self.now.rows }

        // At most one record is in a slot, and each in a slot that the table has.
        ensures distinct { IsDistinct self.now.rows }
        ensures inside { AreInside self.now.queues self.now.places self.now.rows }
    {
        self.len
    }

    /// Whether no record is in the table.
    pub fn is_empty(&self) -> bool
        ensures { result ≡ (length self.now.rows == 0) }
    {
        self.len == 0
    }

    /// The index of a slot, if the table has it.
    fn index(&self, q: u16, cid: u16) -> Option<usize>
        ensures { MatchOption result (NoneAt self.now.rows q cid) (λ i. IsPlace self.now q cid × (i ≡ q * self.now.places + cid)) }
    {
        if u32::from(q) >= self.queues {
            return None;
        }
        if u32::from(cid) >= self.places {
            return None;
        }
        Some((u32::from(q) * self.places + u32::from(cid)) as usize)
    }

    /// The record in a slot.
    pub fn get(&self, q: u16, cid: u16) -> Option<&R>
        ensures value { option_copied result ≡ value_at self.now.rows q cid }

        // It is in a slot that the table has, and is the only one there.
        ensures place { IfSome result (λ _. IsPlace self.now q cid) }
        ensures distinct { IfSome result (λ _. IsDistinct self.now.rows) }
    {
        let place = self.index(q, cid)?;
        self.records[place].as_ref()
    }

    /// The record in a slot, to be changed there.
    pub fn get_mut(&mut self, q: u16, cid: u16) -> Option<&mut R>
        ensures* writes_back { sem 𝓛 (lends_get R.row A.row A.Allocator self.entry q cid result) }
        ensures value { option_copied_mut result ≡ value_at self.old.rows q cid }

        // It's the only one there.
        ensures distinct { IfSome result (λ _. IsDistinct self.old.rows) }
    {
        if self.get(q, cid).is_some() {
            Some(self.record_mut(q, cid))
        } else {
            None
        }
    }

    fn record_mut(&mut self, q: u16, cid: u16) -> &mut R
        requires place { IsPlace self.old q cid }
        requires there { IsSome (value_at self.old.rows q cid) }
        ensures* writes_back { sem 𝓛 (lends_record R.row A.row A.Allocator self.entry q cid result) }
        ensures value { value_at self.old.rows q cid ≡ Some result.now }
    {
        let place = u32::from(q) * self.places + u32::from(cid);
        content_mut(&mut self.records[place as usize])
    }

    /// The slot of the first row, as its queue and its identifier.
    pub fn first(&self) -> Option<(u16, u16)>
        ensures { result ≡ first_place self.now.rows }
    {
        let end = self.queues * self.places;
        self.place_of(self.links[end as usize].after)
    }

    /// The slot of the row after the one in a slot. `None` where that row is the last, and where none is there.
    pub fn next(&self, q: u16, cid: u16) -> Option<(u16, u16)>
        ensures { result ≡ place_behind self.now.rows q cid }
    {
        let place = self.index(q, cid)?;
        if self.records[place].is_none() {
            return None;
        }
        self.place_of(self.links[place].after)
    }

    /// The queue and the identifier of the slot at an index, but for the end of the list.
    fn place_of(&self, index: u32) -> Option<(u16, u16)>
        requires { index ≤ self.now.queues * self.now.places }
        ensures { result ≡ place_of self.now.places (self.now.queues * self.now.places) index }
    {
        let end = self.queues * self.places;
        if index == end {
            return None;
        }
        Some(((index / self.places) as u16, (index % self.places) as u16))
    }

    /// Puts a record into an empty slot, after all others.
    pub fn put(&mut self, q: u16, cid: u16, value: R)
        requires place { IsPlace self.old q cid }
        requires empty { value_at self.old.rows q cid ≡ None }
        ensures { self.new ≡ with_row self.old q cid value }
    {
        let place = u32::from(q) * self.places + u32::from(cid);
        let end = self.queues * self.places;
        let last = self.links[end as usize].before;
        Link::join(&mut self.links, last, place);
        Link::join(&mut self.links, place, end);
        self.len += 1;
        match mem::replace(&mut self.records[place as usize], Some(value)) {
            None => {}
            // The slot is empty; a record could not be dropped.
            Some(_) => unreachable!(),
        }
    }

    /// Puts a record into a slot that may be taken or may not exist: then the record is handed back, and nothing changed.
    ///
    /// # Errors
    ///
    /// The record, where the table has no such slot, or a record is there.
    pub fn try_put(&mut self, q: u16, cid: u16, value: R) -> Result<(), R>
        ensures put { IfOk result (λ _. IsPlace self.old q cid × (value_at self.old.rows q cid ≡ None) × (self.new ≡ with_row self.old q cid value)) }
        ensures handed_back { IfErr result (λ back. (back ≡ value) × (self.new ≡ self.old)) }
        ensures refused { IfErr result (λ _. IsPlace self.old q cid → IsSome (value_at self.old.rows q cid)) }
    {
        if u32::from(q) >= self.queues || u32::from(cid) >= self.places {
            return Err(value);
        }
        if self.get(q, cid).is_some() {
            return Err(value);
        }
        self.put(q, cid, value);
        Ok(())
    }

    /// Takes the record out of a slot. The others keep their order.
    pub fn take(&mut self, q: u16, cid: u16) -> Option<R>
        ensures value { result ≡ value_at self.old.rows q cid }
        ensures rest { self.new ≡ record self.old { rows = without self.old.rows q cid } }
        ensures none { IfNone result (self.new ≡ self.old) }

        // It was the only one there.
        ensures distinct { IfSome result (λ _. IsDistinct self.old.rows) }
    {
        let place = self.index(q, cid)?;
        let value = self.records[place].take()?;
        let link = self.links[place];
        Link::join(&mut self.links, link.before, link.after);
        self.len -= 1;
        Some(value)
    }
}

/// The record in an occupied slot, to be changed there.
fn content_mut<R>(place: &mut Option<R>) -> &mut R
    requires { IsSome place.old }
    ensures* writes_back { sem 𝓛 (lends_content R.row place.entry result) }
    ensures value { place.old ≡ Some result.now }
{
    match place {
        Some(record) => record,
        // The slot is occupied: the caller guarantees it. `Option` has no `as_mut` here.
        None => unreachable!(),
    }
}
