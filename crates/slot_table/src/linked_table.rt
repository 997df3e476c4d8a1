//! The table of records whose slots are too many to make at the opening: a hash map whose nodes name the one before and the one after.

ghost use Rattle.std.specs.Prelude.{◌≡◌, ◌==◌, [], length, None, IfNone, IfOk, IfSome, IfErr};
ghost use Rattle.std.specs.Option.{option_copied, option_copied_mut};
ghost use Rattle.std.specs.Borrow.{sem};
ghost use Rattle.slot_table.specs.Rows.{IsDistinct, first_place, place_behind, value_at, with_last, without};

use crate::nodes::{Node, Nodes};
use std::alloc::{Allocator, Global};
use std::collections::HashMap;
use std::marker::Model;

/// Records by queue and identifier, in the order in which they were put.
#[derive(Drop)]
pub struct LinkedTable<R, A: Allocator = Global> {
    nodes: Nodes<R, A>,
}

impl<R, A: Allocator> Model for LinkedTable<R, A> {
    ghost use Rattle.std.specs.Prelude.{List};
    ghost use Rattle.std.specs.Coded.{coded_list};
    ghost use Rattle.std.specs.HashMap.{hash_map_len};
    ghost use Rattle.slot_table.specs.Rows.{Row, row_code};
    ghost use Rattle.slot_table.specs.Nodes.{IsThreaded, rows_in, thread_of};

    ghost Value = { List (Row R) };

    ghost coded = { coded_list (row_code R.code) };

    ghost view = { λ t. rows_in (thread_of t.nodes.map t.nodes.first t.nodes.last) (hash_map_len t.nodes.map) };

    ghost invariant = { λ t. IsThreaded (thread_of t.nodes.map t.nodes.first t.nodes.last) (hash_map_len t.nodes.map) };
}

impl<R, A: Allocator> LinkedTable<R, A> {
    ghost use Rattle.slot_table.specs.Lends.{lends_linked};

    /// A table with no record. It takes no memory yet.
    pub fn new(alloc: A) -> Self
        ensures { result ≡ [] }
    {
        LinkedTable {
            nodes: Nodes {
                map: HashMap::new(alloc),
                first: None,
                last: None,
            },
        }
    }

    /// How many records are in the table.
    pub fn len(&self) -> usize
        ensures count { result ≡ length self.now }

        // At most one record is in a slot.
        ensures distinct { IsDistinct self.now }
    {
        self.nodes.map.len()
    }

    /// Whether no record is in the table.
    pub fn is_empty(&self) -> bool
        ensures { result ≡ (length self.now == 0) }
    {
        self.len() == 0
    }

    /// The record in a slot.
    pub fn get(&self, q: u16, cid: u16) -> Option<&R>
        ensures value { option_copied result ≡ value_at self.now q cid }

        // It's the only one there.
        ensures distinct { IfSome result (λ _. IsDistinct self.now) }
    {
        match self.nodes.map.get(&(q, cid)) {
            Some(node) => Some(&node.value),
            None => None,
        }
    }

    /// The record in a slot, to be changed there.
    pub fn get_mut(&mut self, q: u16, cid: u16) -> Option<&mut R>
        ensures* writes_back { sem 𝓛 (lends_linked R.row A.row A.Allocator self.entry q cid result) }
        ensures value { option_copied_mut result ≡ value_at self.old q cid }

        // It's the only one there.
        ensures distinct { IfSome result (λ _. IsDistinct self.old) }
    {
        match self.nodes.map.get_mut(&(q, cid)) {
            Some(node) => Some(&mut node.value),
            None => None,
        }
    }

    /// The slot of the first row, as its queue and its identifier.
    pub fn first(&self) -> Option<(u16, u16)>
        ensures { result ≡ first_place self.now }
    {
        self.nodes.first
    }

    /// The slot of the row after the one in a slot. `None` where that row is the last, and where none is there.
    pub fn next(&self, q: u16, cid: u16) -> Option<(u16, u16)>
        ensures { result ≡ place_behind self.now q cid }
    {
        self.nodes.map.get(&(q, cid))?.after
    }

    /// Takes out all records. The table keeps the room of its map for the next ones.
    pub fn clear(&mut self)
    where
        R: Drop,
        ensures { self.new ≡ [] }
    {
        let Nodes { map, first, last } = &mut self.nodes;
        map.clear();
        *first = None;
        *last = None;
    }

    /// Takes the record out of a slot. The others keep their order.
    pub fn take(&mut self, q: u16, cid: u16) -> Option<R>
        ensures value { result ≡ value_at self.old q cid }
        ensures rest { self.new ≡ without self.old q cid }
        ensures none { IfNone result (self.new ≡ self.old) }

        // It was the only one there.
        ensures distinct { IfSome result (λ _. IsDistinct self.old) }
    {
        let node = self.nodes.map.remove(&(q, cid))?;
        self.nodes.link_after(node.before, node.after);
        self.nodes.link_before(node.after, node.before);
        Some(node.value)
    }
}

impl<R, A: Allocator + Clone> LinkedTable<R, A> {
    /// Puts a record into an empty slot, after all others.
    ///
    /// # Errors
    ///
    /// The record, where memory is refused. Then nothing changed.
    pub fn put(&mut self, q: u16, cid: u16, value: R) -> Result<(), R>
        requires empty { value_at self.old q cid ≡ None }
        ensures put { IfOk result (λ _. self.new ≡ with_last self.old q cid value) }
        ensures handed_back { IfErr result (λ back. (back ≡ value) × (self.new ≡ self.old)) }
    {
        let last = self.nodes.last;
        let node = Node {
            value,
            before: last,
            after: None,
        };
        match self.nodes.map.insert((q, cid), node) {
            Ok(old) => match old {
                None => {}
                // The slot is empty; a record could not be dropped.
                Some(_) => unreachable!(),
            },
            Err(refused) => return Err(refused.value.1.value),
        }
        self.nodes.link_after(last, Some((q, cid)));
        self.nodes.last = Some((q, cid));
        Ok(())
    }
}
