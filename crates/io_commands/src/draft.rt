//! A command that is being prepared, outside the store.

ghost use Rattle.std.specs.Prelude.{◌≡◌, ◌≢◌, ◌<◌, ◌≤◌, ◌+◌, ◌-◌, ◌++◌, ◌↔◌, true, false, length, replicate, sum_by, Err, IfOk, OnOk, OnErr, None, Some};
ghost use Rattle.io_commands.specs.declared.request.Kind.TheVariants.{Admin};
ghost use Rattle.io_commands.specs.Requests.{brings_data, has_list, is_admin, joined_parts, FitsRequest};
ghost use Rattle.io_commands.specs.DataBytes.{data_length, filled};
ghost use Rattle.io_commands.specs.Values.{IsGood, numbers_of, data_part, chain_part};
ghost use Rattle.io_commands.specs.Least.{pages_with};
ghost use Rattle.io_commands.specs.Drafts.{built, caller_entry, dword_10 as spec_dword_10, dword_11 as spec_dword_11, dword_12 as spec_dword_12, IsDraft, SpellsItsParts, io_entry as spec_io_entry};
ghost use Rattle.io_commands.specs.Lent.{lends_data, bytes_of};
ghost use Rattle.std.specs.Borrow.{sem};

use crate::admin::{AdminCommand, page_pointer};
use crate::data_bytes::fill_first;
use crate::layout::{chain_of, lay_all};
use crate::request::{Kind, Request};
use entry_codec::SubEntry;
use page_memory::Page;
use std::alloc::{AllocError, Allocator, Global};
use std::marker::Model;
use thiserror::Error;

/// A command that is being prepared: its pages are out of the store, so nobody else reaches them. It must be spent: it
/// is no `Drop`.
pub struct Draft<A: Allocator = Global> {
    q: u16,
    cid: u16,
    request: Request<A>,
    pages: Vec<Page<A>, A>,
    segment: usize,
    entry: Option<SubEntry>,
}

impl<A: Allocator> Model for Draft<A> {
    ghost use Rattle.io_commands.specs.Drafts.{DraftContents};

    ghost Value = { DraftContents };

    ghost use Rattle.io_commands.specs.Drafting.{contents_of, KeepsDraft};

    ghost view = { contents_of };

    ghost invariant = { KeepsDraft };
}

/// What a draft is made of.
#[derive(Drop)]
pub struct DraftParts<A: Allocator = Global> {
    /// The queue.
    pub q: u16,
    /// The identifier.
    pub cid: u16,
    /// What the host asks for.
    pub request: Request<A>,
    /// The pages with their bytes: one for each data piece, then those of the chain.
    pub pages: Vec<Page<A>, A>,
    /// The most descriptors of a segment.
    pub segment: usize,
}

/// Why a draft was not filled.
#[derive(Clone, Copy, Debug, PartialEq, Eq, Error)]
pub enum FillFault {
    /// It is a Read, or an admin command, that brings data to the pages.
    #[error("a Read is not filled")]
    NotASource,
    /// The bytes are not as many as the data pieces take.
    #[error("the bytes are not as many as the data pieces take")]
    WrongLength,
}

impl<A: Allocator> Draft<A> {
    /// A draft, not yet built. The pages are those of the data pieces, in order, and then those of the chain, in order:
    /// as many as the chain of its parts takes in these data pages, where neighbours that join are one
    /// ([`Request::chain_pages`]). `segment` is the most descriptors of a segment.
    pub fn make(
        q: u16,
        cid: u16,
        request: Request<A>,
        pages: Vec<Page<A>, A>,
        segment: usize,
    ) -> Self
        requires good { IsGood request }
        requires low { 2 ≤ segment }
        requires high { segment ≤ 256 }
        requires pages { length pages.items ≡ pages_with request.pieces segment (joined_parts request.pieces (numbers_of (data_part request pages.items))) }
        ensures { result ≡ record {
          q = q;
          cid = cid;
          request = request;
          data_pages = data_part request pages.items;
          chain_pages = chain_part request pages.items;
          segment = segment;
          entry = None;
        } }
    {
        Draft {
            q,
            cid,
            request,
            pages,
            segment,
            entry: None,
        }
    }

    /// The command's queue.
    pub fn q(&self) -> u16
        ensures { result ≡ self.now.q }
    {
        self.q
    }

    /// The command's identifier.
    pub fn cid(&self) -> u16
        ensures { result ≡ self.now.cid }
    {
        self.cid
    }

    /// What the host asks for.
    pub fn request(&self) -> &Request<A>
        ensures request { result.now ≡ self.now.request }
        ensures draft { IsDraft self.now }
        ensures fits { FitsRequest self.now.request }
    {
        &self.request
    }

    /// The most descriptors of a segment.
    pub fn segment(&self) -> usize
        ensures { result ≡ self.now.segment }
    {
        self.segment
    }

    /// The pages with their bytes: one for each data piece, then those of the chain.
    pub fn pages(&self) -> &[Page<A>]
        ensures { result.now ≡ self.now.data_pages ++ self.now.chain_pages }
    {
        &self.pages
    }

    /// The pages of the data with their bytes, one for each data piece.
    pub fn data_pages(&self) -> &[Page<A>]
        ensures { result.now ≡ self.now.data_pages }
    {
        &self.pages[..self.request.data_pages()]
    }

    /// The pages of the chain with their bytes.
    pub fn chain_pages(&self) -> &[Page<A>]
        ensures { result.now ≡ self.now.chain_pages }
    {
        &self.pages[self.request.data_pages()..]
    }

    /// The command's entry; `None` before the draft is built.
    pub fn entry(&self) -> Option<SubEntry>
        ensures { result ≡ self.now.entry }
    {
        self.entry
    }

    /// Puts the bytes into the data pieces, one piece after the other. Nothing else changes: a built draft stays built.
    ///
    /// # Errors
    ///
    /// The draft is then as it was. 1. `NotASource` exactly for a command that brings data ([`Kind::brings_data`]). 2. `WrongLength`
    /// exactly where it brings none and the bytes are not as many as the data pieces take.
    pub fn fill(&mut self, bytes: &[u8]) -> Result<(), FillFault>
        ensures filled { OnOk result (self.new ≡ record self.old { data_pages = filled self.old.request.pieces self.old.data_pages bytes.now }) }
        ensures length { OnOk result (length bytes.now ≡ sum_by data_length self.old.request.pieces) }
        ensures not_a_source { (result ≡ Err FillFault.NotASource) ↔ (brings_data self.old.request.kind ≡ true) }
        ensures wrong_length { (result ≡ Err FillFault.WrongLength)
            ↔ ((brings_data self.old.request.kind ≡ false) × (length bytes.now ≢ sum_by data_length self.old.request.pieces)) }
        ensures refused { OnErr result (self.new ≡ self.old) }
    {
        let few = (bytes.len() as u64) < self.request.data_bytes();
        if few && !self.request.kind.brings_data() {
            return Err(FillFault::WrongLength);
        }
        self.fill_padded(bytes)
    }

    /// Puts the bytes into the data pieces, one piece after the other, and zeros after them. Nothing else changes: a built
    /// draft stays built.
    ///
    /// # Errors
    ///
    /// The draft is then as it was. 1. `NotASource` exactly for a command that brings data ([`Kind::brings_data`]). 2. `WrongLength`
    /// exactly where it brings none and the bytes are more than the data pieces take.
    pub fn fill_padded(&mut self, bytes: &[u8]) -> Result<(), FillFault>
        ensures filled { OnOk result (self.new ≡ record self.old {
          data_pages = filled self.old.request.pieces self.old.data_pages (bytes.now ++ replicate (sum_by data_length self.old.request.pieces - length bytes.now) 0);
        }) }
        ensures length { OnOk result (length bytes.now ≤ sum_by data_length self.old.request.pieces) }
        ensures not_a_source { (result ≡ Err FillFault.NotASource) ↔ (brings_data self.old.request.kind ≡ true) }
        ensures wrong_length { (result ≡ Err FillFault.WrongLength)
            ↔ ((brings_data self.old.request.kind ≡ false) × (sum_by data_length self.old.request.pieces < length bytes.now)) }
        ensures refused { OnErr result (self.new ≡ self.old) }
    {
        if self.request.kind.brings_data() {
            return Err(FillFault::NotASource);
        }
        if bytes.len() as u64 > self.request.data_bytes() {
            return Err(FillFault::WrongLength);
        }
        let data = self.request.data_pages();
        let pieces = self.request.pieces();
        fill_first(pieces, &mut self.pages, data, bytes);
        Ok(())
    }

    /// The bytes of the page of a data piece, to write in place: its own stand at its offset. The pieces are counted from 0, buckets
    /// left aside. The draft ends with the bytes that are left there, and nothing else changes: a built draft stays built.
    pub fn data_mut(&mut self, i: usize) -> &mut [u8]
        requires { i < length self.old.data_pages }
        ensures* writes_back { sem 𝓛 (lends_data A.row A.Allocator i self.entry result) }
        ensures value { result.now ≡ bytes_of self.old.data_pages i }
        ensures len { length result.now ≡ 4096 }
    {
        self.pages[i].bytes_mut()
    }

    /// Lays the chain of the command's parts into the draft's own pages, and makes its entry; a command without a list
    /// ([`Kind::has_list`]) has no chain. A second build lays the same bytes. It takes no lock and reaches no store.
    ///
    /// # Errors
    ///
    /// Where memory is refused; the draft is then as it was.
    pub fn build<B: Allocator + Clone>(&mut self, alloc: B) -> Result<(), AllocError>
        ensures built { OnOk result (self.new ≡ built self.old) }
        ensures spells { OnOk result (SpellsItsParts self.new) }
        ensures refused { OnErr result (self.new ≡ self.old) }
    {
        match self.request.kind {
            Kind::Read | Kind::Write | Kind::Compare | Kind::Deallocate => {
                self.build_with_list(alloc)
            }
            Kind::WriteZeroes | Kind::Verify | Kind::Flush => {
                self.build_without_list();
                Ok(())
            }
            Kind::Admin(command) => {
                self.build_admin(command);
                Ok(())
            }
        }
    }

    /// Lays the chain of a command with a list, and makes its entry.
    fn build_with_list<B: Allocator + Clone>(&mut self, alloc: B) -> Result<(), AllocError>
        requires list { has_list self.old.request.kind ≡ true }
        ensures built { OnOk result (self.new ≡ built self.old) }
        ensures spells { OnOk result (SpellsItsParts self.new) }
        ensures refused { OnErr result (self.new ≡ self.old) }
    {
        let chain = chain_of(alloc, &self.request, self.pages.as_slice(), self.segment)?;
        let data = self.request.data_pages();
        lay_all(&chain, &mut self.pages, data);
        let first = chain.first().write();
        self.entry = Some(io_entry(self.cid, &self.request, first));
        Ok(())
    }

    /// Makes the entry of an admin command.
    fn build_admin(&mut self, command: AdminCommand)
        requires kind { self.old.request.kind ≡ Admin command }
        ensures built { self.new ≡ built self.old }
        ensures spells { SpellsItsParts self.new }
    {
        self.entry = Some(admin_entry(self.cid, self.request.nsid, command, self.data_pages()));
    }

    /// Makes the entry of a command of blocks without a list.
    fn build_without_list(&mut self)
        requires still { has_list self.old.request.kind ≡ false }
        requires blocks { is_admin self.old.request.kind ≡ false }
        ensures built { self.new ≡ built self.old }
        ensures spells { SpellsItsParts self.new }
    {
        self.entry = Some(io_entry(self.cid, &self.request, [0; 16]));
    }

    /// What it was made of, with the pages as they are now.
    pub fn apart(self) -> DraftParts<A>
        ensures queue { result.q ≡ self.q }
        ensures identifier { result.cid ≡ self.cid }
        ensures request { result.request ≡ self.request }
        ensures pages { result.pages.items ≡ self.data_pages ++ self.chain_pages }
        ensures segment { result.segment ≡ self.segment }
    {
        let Draft {
            q,
            cid,
            request,
            pages,
            segment,
            entry: _,
        } = self;
        DraftParts {
            q,
            cid,
            request,
            pages,
            segment,
        }
    }
}

/// The entry that the driver sends for an admin command (NVM Express Base Specification 2.0, section 3.3.3.1): the page, if there is
/// one, as PRP1 (PSDT 00b), and the command's own words.
fn admin_entry<A: Allocator>(
    cid: u16,
    nsid: u32,
    command: AdminCommand,
    pages: &[Page<A>],
) -> SubEntry
    ensures { result ≡ caller_entry cid nsid command (numbers_of pages.now) }
{
    SubEntry {
        opcode: command.opcode,
        fuse: 0,
        psdt: 0,
        cid,
        nsid,
        mptr: 0,
        sgl1: match pages.first() {
            Some(page) => page_pointer(page.number()),
            None => [0; 16],
        },
        cdw10: command.cdw10,
        cdw11: command.cdw11,
        cdw12: command.cdw12,
        cdw13: command.cdw13,
        cdw14: command.cdw14,
        cdw15: command.cdw15,
    }
}

/// Command Dword 10: the low half of the first block; of ranges their number less one.
fn dword_10<A: Allocator>(request: &Request<A>) -> u32
    ensures { result ≡ spec_dword_10 request.now }
{
    if request.kind.names_ranges() {
        request.blocks.saturating_sub(1)
    } else {
        (request.slba % (1 << 32)) as u32
    }
}

/// Command Dword 11: the high half of the first block; of ranges the attribute Deallocate, bit 2.
fn dword_11<A: Allocator>(request: &Request<A>) -> u32
    ensures { result ≡ spec_dword_11 request.now }
{
    if request.kind.names_ranges() {
        1 << 2
    } else {
        (request.slba >> 32) as u32
    }
}

/// Command Dword 12: the number of blocks less one, if it names any, and the flags; of ranges nothing.
fn dword_12<A: Allocator>(request: &Request<A>) -> u32
    requires few { request.now.blocks ≤ 2048 }
    ensures { result ≡ spec_dword_12 request.now }
{
    if request.kind.names_ranges() {
        0
    } else {
        request.blocks.saturating_sub(1) + request.flags.bits()
    }
}

/// The entry that the driver sends for a request of blocks or ranges (NVM Command Set Specification 1.0, section 3.2): SGLs in the data
/// pointer (PSDT 01b) where there is a list, the request's namespace, and its first three words; all else zero (own).
fn io_entry<A: Allocator>(cid: u16, request: &Request<A>, sgl1: [u8; 16]) -> SubEntry
    requires few { request.now.blocks ≤ 2048 }
    ensures { result ≡ spec_io_entry cid request.now sgl1 }
{
    let has_list = request.kind.has_list();
    SubEntry {
        opcode: request.kind.opcode(),
        fuse: 0,
        psdt: if has_list { 1 } else { 0 },
        cid,
        nsid: request.nsid,
        mptr: 0,
        sgl1: if has_list { sgl1 } else { [0; 16] },
        cdw10: dword_10(request),
        cdw11: dword_11(request),
        cdw12: dword_12(request),
        cdw13: 0,
        cdw14: 0,
        cdw15: 0,
    }
}
