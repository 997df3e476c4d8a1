//! The list that is threaded through the slots of a table.

ghost use Rattle.std.specs.Prelude.{◌<◌, vec_len};

use std::alloc::Allocator;

/// The slots before and after a slot in the list. The number of slots stands for the list's end, on both sides.
#[derive(Clone, Copy)]
pub(crate) struct Link {
    pub(crate) before: u32,
    pub(crate) after: u32,
}

impl Link {
    ghost use Rattle.slot_table.specs.Links.{Rejoins};

    /// Makes `after` the slot that follows `before`.
    pub(crate) fn join<A: Allocator>(links: &mut Vec<Link, A>, before: u32, after: u32)
        requires before_in { before < vec_len links.old }
        requires after_in { after < vec_len links.old }
        ensures { Rejoins links.old.items links.new.items before after }
    {
        links[before as usize].after = after;
        links[after as usize].before = before;
    }
}
