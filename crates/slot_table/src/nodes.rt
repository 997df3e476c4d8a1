//! The records of a table, and the list that is threaded through them.

ghost use Rattle.std.specs.Prelude.{◌≡◌};
ghost use Rattle.std.specs.HashMap.{hash_map_len};
ghost use Rattle.slot_table.specs.Nodes.{thread_of, IsEnd, LinksAfter, LinksBefore};

use std::alloc::Allocator;
use std::collections::HashMap;
use std::hash::{BuildHasherDefault, FoldHasher};

/// A queue and an identifier.
pub(crate) type Place = (u16, u16);

/// A record, and the slots before and after its own in the list. `None` is the list's end, on both sides.
#[derive(Drop)]
pub(crate) struct Node<R> {
    pub(crate) value: R,
    pub(crate) before: Option<Place>,
    pub(crate) after: Option<Place>,
}

/// The records by their slots, and the first and the last of the list.
#[derive(Drop)]
pub(crate) struct Nodes<R, A: Allocator> {
    pub(crate) map: HashMap<Place, Node<R>, BuildHasherDefault<FoldHasher>, A>,
    pub(crate) first: Option<Place>,
    pub(crate) last: Option<Place>,
}

impl<R, A: Allocator> Nodes<R, A> {
    /// Makes `after` the slot that follows a slot or the start.
    pub(crate) fn link_after(&mut self, place: Option<Place>, after: Option<Place>)
        requires { IsEnd (thread_of self.old.map self.old.first self.old.last) place }
        ensures links { LinksAfter (thread_of self.old.map self.old.first self.old.last) (thread_of self.new.map self.new.first self.new.last) place after }
        ensures count { hash_map_len self.new.map ≡ hash_map_len self.old.map }
    {
        match place {
            None => self.first = after,
            Some(key) => self.map.get_mut(&key).unwrap().after = after,
        }
    }

    /// Makes `before` the slot that a slot or the end follows.
    pub(crate) fn link_before(&mut self, place: Option<Place>, before: Option<Place>)
        requires { IsEnd (thread_of self.old.map self.old.first self.old.last) place }
        ensures links { LinksBefore (thread_of self.old.map self.old.first self.old.last) (thread_of self.new.map self.new.first self.new.last) place before }
        ensures count { hash_map_len self.new.map ≡ hash_map_len self.old.map }
    {
        match place {
            None => self.last = before,
            Some(key) => self.map.get_mut(&key).unwrap().before = before,
        }
    }
}
