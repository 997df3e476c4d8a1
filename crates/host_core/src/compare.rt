//! Whether a moved value is the one that a record was made for.

ghost use Rattle.std.specs.Prelude.{◌≡◌, ℕ, length, nat_eq, true};
ghost use Rattle.std.specs.Cmp.Lexicographic.{pointwise};
ghost use Rattle.io_commands.specs.Values.{numbers_of};
ghost use Rattle.machine_model.specs.Proper.{ArePages, IsProperDraft};
ghost use Rattle.machine_model.specs.Refusals.{is_of, asks_for as spec_asks_for, same_piece as spec_same_piece, same_pieces as spec_same_pieces, same_request as spec_same_request};
ghost use Rattle.host_core.specs.Commands.{phase_of_end, has_drafted, has_record as spec_has_record};
ghost use Rattle.host_core.specs.Parts.{record_of, records_of};

use crate::record::Record;
use crate::tables::HostTables;
use io_commands::{Draft, Piece, Request};
use machine_model::words::Work;
use page_memory::{PAGE_BYTES, Page, PageNo};
use std::alloc::Allocator;

/// Whether two pieces are the same.
fn same_piece(a: Piece, b: Piece) -> bool
    ensures { result ≡ spec_same_piece a b }
{
    match (a, b) {
        (
            Piece::Data { offset, len },
            Piece::Data {
                offset: at,
                len: many,
            },
        ) => offset == at && len == many,
        (Piece::Bucket { len }, Piece::Bucket { len: many }) => len == many,
        (Piece::Data { .. }, Piece::Bucket { .. }) | (Piece::Bucket { .. }, Piece::Data { .. }) => {
            false
        }
    }
}

/// Whether two lists of pieces are the same.
fn same_pieces(a: &[Piece], b: &[Piece]) -> bool
    ensures { result ≡ spec_same_pieces a.now b.now }
{
    if a.len() != b.len() {
        return false;
    }
    for (i, piece) in a.iter().enumerate() {
        if !same_piece(*piece, b[i]) {
            return false;
        }
    }
    true
}

/// Whether two requests are the same.
fn same_request<A: Allocator>(a: &Request<A>, b: &Request<A>) -> bool
    ensures { result ≡ spec_same_request a.now b.now }
{
    a.kind.is_same(b.kind)
        && a.nsid == b.nsid
        && a.flags.is_same(b.flags)
        && a.slba == b.slba
        && a.block_size.bytes() == b.block_size.bytes()
        && a.blocks == b.blocks
        && same_pieces(a.pieces.as_slice(), b.pieces.as_slice())
}

/// Whether a command is one for this request.
fn asks_for<A: Allocator>(request: &Request<A>, work: &Work<Request<A>>) -> bool
    ensures { result ≡ spec_asks_for request.now work.now }
{
    match work {
        Work::Io(asked) => same_request(request, asked),
        Work::Management(_) => false,
    }
}

/// Whether pages have these numbers.
fn same_numbers<A: Allocator>(pages: &[Page<A>], numbers: &[PageNo]) -> bool
    ensures { result ≡ pointwise nat_eq (numbers_of pages.now) numbers.now }
{
    if pages.len() != numbers.len() {
        return false;
    }
    for (i, page) in pages.iter().enumerate() {
        let here = page.number();
        let there = numbers[i];
        if here.0 != there.0 {
            return false;
        }
    }
    true
}

impl<A: Allocator> Record<A> {
    /// Whether it is that of a moved value with these pages for its data and for its chain.
    fn belongs(
        &self,
        ended: bool,
        request: &Request<A>,
        data_pages: &[Page<A>],
        chain_pages: &[Page<A>],
    ) -> bool
        ensures { (q cid : ℕ) → result ≡ is_of (phase_of_end ended) request.now (numbers_of data_pages.now) (numbers_of chain_pages.now) (record_of q cid self.now) }
    {
        self.is_handed_out(ended)
            && asks_for(request, &self.work)
            && same_numbers(data_pages, &self.data_pages)
            && same_numbers(chain_pages, &self.chain_pages)
    }
}

/// Whether a page has 4,096 bytes. Each has, by its type.
fn is_whole<A: Allocator>(page: &Page<A>) -> bool
    ensures always { result ≡ true }
    ensures whole { length page.now.1 ≡ 4096 }
{
    page.bytes().len() == PAGE_BYTES
}

/// Whether each page has 4,096 bytes. This is for a `prove!` to say: each has, by its type.
pub(crate) fn are_whole<A: Allocator>(pages: &[Page<A>]) -> bool
    ensures always { result ≡ true }
    ensures whole { ArePages pages.now }
{
    for page in pages {
        if !is_whole(page) {
            return false;
        }
    }
    true
}

impl<A: Allocator> HostTables<A> {
    /// Whether a command has a record, and that is the one of a moved value with these pages for its data and for its chain.
    pub(crate) fn has_record(
        &self,
        ended: bool,
        command: (u16, u16),
        request: &Request<A>,
        data_pages: &[Page<A>],
        chain_pages: &[Page<A>],
    ) -> bool
        ensures { result ≡ spec_has_record (records_of self.now.records.rows) ended command.0 command.1 request.now (numbers_of data_pages.now) (numbers_of chain_pages.now) }
    {
        match self.records.get(command.0, command.1) {
            Some(entry) => entry.belongs(ended, request, data_pages, chain_pages),
            None => false,
        }
    }

    /// Whether a draft's command has a record, and that is the draft's.
    pub(crate) fn has_draft(&self, draft: &Draft<A>) -> bool
        ensures told { result ≡ has_drafted (records_of self.now.records.rows) draft.now }
        ensures proper { IsProperDraft draft.now }
    {
        prove!(are_whole(draft.pages()));
        let request = draft.request();
        let (data_pages, chain_pages) = draft.pages().split_at(request.pieces.data_pages());
        let command = (draft.q(), draft.cid());
        self.has_record(false, command, request, data_pages, chain_pages)
    }
}
