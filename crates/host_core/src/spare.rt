//! The lists of commands that are over, whose memory those that come take.

ghost use Rattle.std.specs.Prelude.{◌≡◌, ◌≤◌, [], vec_len, vec_capacity, IfOk};

use io_commands::Pieces;
use page_memory::{Page, PageNo};
use std::alloc::{AllocError, Allocator};

/// The lists of how many commands are kept at most (own).
const MOST_COMMANDS: usize = 64;

/// Lists of one kind that nobody uses any more, up to a number that is set at the opening. Their contents mean nothing.
#[derive(Drop)]
pub(crate) struct Lists<T: Drop, A: Allocator> {
    lists: Vec<Vec<T, A>, A>,
}

impl<T: Drop, A: Allocator> Lists<T, A> {
    /// None yet, with room for this many.
    ///
    /// # Errors
    ///
    /// Where memory is refused.
    fn open(alloc: A, places: usize) -> Result<Self, AllocError> {
        Ok(Lists {
            lists: Vec::with_capacity(alloc, places)?,
        })
    }

    /// An empty list with room for this many, in the memory of a list that was kept, where there is one.
    ///
    /// # Errors
    ///
    /// Where memory is refused. It is asked for only where that list has too little.
    pub(crate) fn with_room(&mut self, alloc: A, room: usize) -> Result<Vec<T, A>, AllocError>
        ensures items { IfOk result (λ list. list.items ≡ []) }
        ensures len { IfOk result (λ list. vec_len list ≡ 0) }
        ensures room { IfOk result (λ list. room ≤ vec_capacity list) }
    {
        if room == 0 {
            return Ok(Vec::new(alloc));
        }
        let mut list = match self.lists.pop() {
            Some(list) => list,
            None => Vec::new(alloc),
        };
        list.clear();
        list.reserve(room)?;
        Ok(list)
    }

    /// Keeps a list that has capacity, where there is room for it. It takes no memory.
    pub(crate) fn keep(&mut self, list: Vec<T, A>) {
        if list.capacity() > 0 && self.lists.len() < self.lists.capacity() {
            self.lists.push_reserved(list);
        }
    }
}

/// The lists of commands that are over. A command makes its own of these, so that in the long run it takes no memory of the allocator's.
#[derive(Drop)]
pub(crate) struct Spares<A: Allocator> {
    pub(crate) numbers: Lists<PageNo, A>,
    pub(crate) pages: Lists<Page<A>, A>,
    pieces: Vec<Pieces<A>, A>,
}

impl<A: Allocator + Copy> Spares<A> {
    /// None yet, with room for the lists of this many commands, at most 64.
    ///
    /// # Errors
    ///
    /// Where memory is refused.
    pub(crate) fn open(alloc: A, commands: usize) -> Result<Self, AllocError> {
        let commands = commands.min(MOST_COMMANDS);
        Ok(Spares {
            numbers: Lists::open(alloc, 2 * commands)?,
            pages: Lists::open(alloc, commands)?,
            pieces: Vec::with_capacity(alloc, 2 * commands)?,
        })
    }
}

impl<A: Allocator> Spares<A> {
    /// Pieces that nobody uses any more.
    pub(crate) fn pieces(&mut self, alloc: A) -> Pieces<A> {
        match self.pieces.pop() {
            Some(pieces) => pieces,
            None => Pieces::new(alloc),
        }
    }

    /// Keeps pieces, where there is room for them. It takes no memory.
    pub(crate) fn keep_pieces(&mut self, pieces: Pieces<A>) {
        if self.pieces.len() < self.pieces.capacity() {
            self.pieces.push_reserved(pieces);
        }
    }
}
