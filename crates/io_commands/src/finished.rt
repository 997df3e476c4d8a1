//! A command that has ended, with its pages taken out again.

ghost use Rattle.std.specs.Prelude.{◌≡◌, ◌<◌, ◌≤◌, ◌++◌, drop, length, IfOk, IfErr, OnErr, []};
ghost use Rattle.std.specs.Str.{bytes_eq};
ghost use Rattle.io_commands.specs.Requests.{data_count};
ghost use Rattle.io_commands.specs.DataBytes.{gathered};
ghost use Rattle.io_commands.specs.Lent.{bytes_of};
ghost use Rattle.io_commands.specs.Values.{IsGood, data_part, chain_part, gathered_from, gathered_length};

use crate::data_bytes::{holds, lay, push_data};
use crate::request::{Kind, Request};
use entry_codec::{Hints, Status};
use page_memory::Page;
use std::alloc::{AllocError, Allocator, Global};
use std::marker::Model;

/// A command that has ended: its status and hints, and its pages with their bytes. It must be spent: it is no `Drop`.
pub struct Finished<A: Allocator = Global> {
    q: u16,
    cid: u16,
    request: Request<A>,
    status: Status,
    hints: Hints,
    pages: Vec<Page<A>, A>,
}

impl<A: Allocator> Model for Finished<A> {
    ghost use Rattle.io_commands.specs.Values.{FinishedContents};
    ghost use Rattle.io_commands.specs.Finisheds.{contents_of, IsFinished};

    ghost Value = { FinishedContents };

    ghost view = { contents_of };

    ghost invariant = { IsFinished };
}

/// What a finished command is made of.
#[derive(Drop)]
pub struct FinishedParts<A: Allocator = Global> {
    /// The queue.
    pub q: u16,
    /// The identifier.
    pub cid: u16,
    /// What the host asked for.
    pub request: Request<A>,
    /// How it ended.
    pub status: Status,
    /// What its completion hinted at.
    pub hints: Hints,
    /// The pages with their bytes: one for each data piece, then those of the chain.
    pub pages: Vec<Page<A>, A>,
}

impl<A: Allocator> Finished<A> {
    /// A command that has ended. The pages are those of the data pieces, in order, and then those of the chain.
    pub fn make(
        q: u16,
        cid: u16,
        request: Request<A>,
        status: Status,
        hints: Hints,
        pages: Vec<Page<A>, A>,
    ) -> Self
        requires good { IsGood request }
        requires enough { data_count request.pieces ≤ length pages.items }
        ensures { result ≡ record { q = q; cid = cid; request = request; status = status; hints = hints; data_pages = data_part request pages.items; chain_pages = chain_part request pages.items } }
    {
        Finished {
            q,
            cid,
            request,
            status,
            hints,
            pages,
        }
    }

    /// The command's queue.
    pub fn q(&self) -> u16
        ensures { result ≡ self.now.q }
    {
        self.q
    }

    /// The command's identifier.
    pub fn cid(&self) -> u16
        ensures { result ≡ self.now.cid }
    {
        self.cid
    }

    /// What the host asked for.
    pub fn request(&self) -> &Request<A>
        ensures { result.now ≡ self.now.request }
    {
        &self.request
    }

    /// Which command it was.
    pub fn kind(&self) -> Kind
        ensures { result ≡ self.now.request.kind }
    {
        self.request.kind
    }

    /// How many of its pages are those of its data pieces.
    pub fn data_pages(&self) -> usize
        ensures { result ≡ length self.now.data_pages }
    {
        self.request.pieces.data_pages()
    }

    /// How the command ended.
    pub fn status(&self) -> Status
        ensures { result ≡ self.now.status }
    {
        self.status
    }

    /// What its completion hinted at; nothing where none ended it.
    pub fn hints(&self) -> Hints
        ensures { result ≡ self.now.hints }
    {
        self.hints
    }

    /// The pages with their bytes: one for each data piece, then those of the chain.
    pub fn pages(&self) -> &[Page<A>]
        ensures { result.now ≡ self.now.data_pages ++ self.now.chain_pages }
    {
        &self.pages
    }

    /// The bytes of the page of a data piece: its own stand at its offset. The pieces are counted from 0, buckets left aside.
    pub fn data(&self, i: usize) -> &[u8]
        requires { i < length self.now.data_pages }
        ensures value { result.now ≡ bytes_of self.now.data_pages i }
        ensures len { length result.now ≡ 4096 }
    {
        self.pages[i].bytes()
    }

    /// The bytes of the data pieces of a command that brings data ([`Kind::brings_data`]), one after the other, as they stand in its
    /// pages; nothing for another command.
    ///
    /// # Errors
    ///
    /// Where memory is refused, which is asked for once, and only where data pieces were read.
    pub fn gather<B: Allocator>(&self, alloc: B) -> Result<Vec<u8, B>, AllocError>
        ensures gathered { IfOk result (λ bytes. bytes.items ≡ gathered_from self.now) }
        ensures refused { OnErr result (0 < gathered_length self.now.request.kind self.now.request.pieces) }
    {
        if !self.request.kind.brings_data() {
            return Ok(Vec::new(alloc));
        }
        let data = self.request.pieces.data_pages();
        let mut bytes = Vec::with_capacity(alloc, self.request.data_bytes() as usize)?;
        push_data(
            self.request.pieces.as_slice(),
            &self.pages[..data],
            &mut bytes,
        )?;
        Ok(bytes)
    }

    /// Lays the bytes that [`Finished::gather`] would bring at the front of a buffer: how many they are. It takes no memory.
    ///
    /// # Errors
    ///
    /// How many they are, where the buffer is too short. Then nothing is laid.
    pub fn gather_into(&self, into: &mut [u8]) -> Result<usize, usize>
        ensures laid { IfOk result (λ n. into.new ≡ gathered_from self.now ++ drop n into.old) }
        ensures count { IfOk result (λ n. n ≡ length (gathered_from self.now)) }
        ensures wanted { IfErr result (λ n. n ≡ gathered_length self.now.request.kind self.now.request.pieces) }
        ensures short { IfErr result (λ n. length into.old < n) }
        ensures kept { OnErr result (into.new ≡ into.old) }
    {
        if !self.request.kind.brings_data() {
            return Ok(0);
        }
        let count = self.request.data_bytes() as usize;
        if into.len() < count {
            return Err(count);
        }
        let data = self.request.pieces.data_pages();
        lay(self.request.pieces.as_slice(), &self.pages[..data], into);
        Ok(count)
    }

    /// Whether these are the bytes that [`Finished::gather`] would bring. It takes no memory, and copies nothing.
    pub fn brings(&self, bytes: &[u8]) -> bool
        ensures { result ≡ bytes_eq (gathered_from self.now) bytes.now }
    {
        if !self.request.kind.brings_data() {
            return bytes.is_empty();
        }
        let data = self.request.pieces.data_pages();
        holds(self.request.pieces.as_slice(), &self.pages[..data], bytes)
    }

    /// What it was made of, with the pages as they are now.
    pub fn apart(self) -> FinishedParts<A>
        ensures queue { result.q ≡ self.q }
        ensures identifier { result.cid ≡ self.cid }
        ensures request { result.request ≡ self.request }
        ensures status { result.status ≡ self.status }
        ensures hints { result.hints ≡ self.hints }
        ensures pages { result.pages.items ≡ self.data_pages ++ self.chain_pages }
    {
        let Finished {
            q,
            cid,
            request,
            status,
            hints,
            pages,
        } = self;
        FinishedParts {
            q,
            cid,
            request,
            status,
            hints,
            pages,
        }
    }
}
