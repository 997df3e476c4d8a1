//! What a log keeps of requests and drafts: they are in its lists, whose indices have 32 bits.

ghost use Rattle.std.specs.Prelude.{◌≡◌, ◌+◌, ◌++◌, ◌∷◌, ◌<◌, ◌≤◌, [], OnOk, OnErr, length, vec_len, vec_capacity};
ghost use Rattle.io_commands.specs.Values.{numbers_of};
ghost use Rattle.driver_book.specs.History.{logged};
ghost use Rattle.driver_book.specs.Keeping.{most_places, places, FitsIn, DraftFits, shown_request, shown_draft};

use crate::entry::{KeptDraft, KeptRequest, Span};
use io_commands::{Draft, Piece, Request, RequestOf};
use page_memory::{Page, PageNo};
use std::alloc::{AllocError, Allocator};

/// Makes room for this many more elements in a list whose indices have 32 bits.
pub(crate) fn reserve_places<T, A: Allocator>(
    list: &mut Vec<T, A>,
    additional: usize,
) -> Result<(), AllocError>
    requires { vec_len list.old ≤ most_places }
    ensures room { OnOk result (vec_len list.new + additional ≤ places (vec_capacity list.new)) }
    ensures full { OnErr result (places (vec_capacity list.old) < vec_len list.old + additional) }
    ensures capacity { vec_capacity list.old ≤ vec_capacity list.new }
    ensures items { list.new.items ≡ list.old.items }
    ensures len { vec_len list.new ≡ vec_len list.old }
{
    if u32::MAX as usize - list.len() < additional {
        return Err(AllocError);
    }
    list.reserve(additional)
}

/// Adds pieces after those of a list that has room for them: where they are.
fn keep_pieces<A: Allocator>(list: &mut Vec<Piece, A>, pieces: &[Piece]) -> Span
    requires { vec_len list.old + length pieces.now ≤ places (vec_capacity list.old) }
    ensures items { list.new.items ≡ list.old.items ++ pieces.now }
    ensures len { vec_len list.new ≡ vec_len list.old + length pieces.now }
    ensures capacity { vec_capacity list.new ≡ vec_capacity list.old }
    ensures start { result.start ≡ vec_len list.old }
    ensures end { result.end ≡ vec_len list.new }
{
    let start = list.len() as u32;
    for piece in pieces {
        list.push_reserved(*piece);
    }
    Span {
        start,
        end: list.len() as u32,
    }
}

/// Adds the numbers of pages after those of a list that has room for them: where they are.
fn keep_numbers<A: Allocator, B: Allocator>(list: &mut Vec<PageNo, A>, pages: &[Page<B>]) -> Span
    requires { vec_len list.old + length pages.now ≤ places (vec_capacity list.old) }
    ensures items { list.new.items ≡ list.old.items ++ numbers_of pages.now }
    ensures len { vec_len list.new ≡ vec_len list.old + length pages.now }
    ensures capacity { vec_capacity list.new ≡ vec_capacity list.old }
    ensures start { result.start ≡ vec_len list.old }
    ensures end { result.end ≡ vec_len list.new }
{
    let start = list.len() as u32;
    for page in pages {
        list.push_reserved(page.number());
    }
    Span {
        start,
        end: list.len() as u32,
    }
}

/// Keeps a request, whose pieces have room.
fn keep_request<A: Allocator, B: Allocator>(
    list: &mut Vec<Piece, A>,
    request: &Request<B>,
) -> KeptRequest
    requires { vec_len list.old + length request.now.pieces ≤ places (vec_capacity list.old) }
    ensures items { list.new.items ≡ list.old.items ++ request.now.pieces }
    ensures len { vec_len list.new ≡ vec_len list.old + length request.now.pieces }
    ensures capacity { vec_capacity list.new ≡ vec_capacity list.old }
    ensures shown { shown_request list.new.items result ≡ request.now }
    ensures fits { FitsIn (length list.new.items) result.pieces }
{
    RequestOf {
        kind: request.kind,
        nsid: request.nsid,
        flags: request.flags,
        block_size: request.block_size,
        slba: request.slba,
        blocks: request.blocks,
        pieces: keep_pieces(list, request.pieces()),
    }
}

/// Keeps a request that gave no draft, whose pieces have room.
pub(crate) fn keep_without_draft<A: Allocator, B: Allocator>(
    list: &mut Vec<Piece, A>,
    request: &Request<B>,
) -> KeptDraft
    requires { vec_len list.old + length request.now.pieces ≤ places (vec_capacity list.old) }
    ensures items { list.new.items ≡ list.old.items ++ request.now.pieces }
    ensures len { vec_len list.new ≡ vec_len list.old + length request.now.pieces }
    ensures capacity { vec_capacity list.new ≡ vec_capacity list.old }
    ensures shown { shown_request list.new.items result.request ≡ request.now }
    ensures fits { DraftFits (length list.new.items) 0 result }
{
    let none = Span { start: 0, end: 0 };
    KeptDraft {
        request: keep_request(list, request),
        data_pages: none,
        chain_pages: none,
    }
}

/// Keeps a draft, whose request and pages have room.
pub(crate) fn keep_draft<A: Allocator, B: Allocator>(
    pieces: &mut Vec<Piece, A>,
    pages: &mut Vec<PageNo, A>,
    draft: &Draft<B>,
) -> KeptDraft
    requires pieces { vec_len pieces.old + length draft.now.request.pieces ≤ places (vec_capacity pieces.old) }
    requires pages { vec_len pages.old + (length draft.now.data_pages + length draft.now.chain_pages) ≤ places (vec_capacity pages.old) }
    ensures pieces { pieces.new.items ≡ pieces.old.items ++ draft.now.request.pieces }
    ensures pages { pages.new.items ≡ pages.old.items ++ (numbers_of draft.now.data_pages ++ numbers_of draft.now.chain_pages) }
    ensures pieces_len { vec_len pieces.new ≡ vec_len pieces.old + length draft.now.request.pieces }
    ensures pages_len { vec_len pages.new ≡ vec_len pages.old + (length draft.now.data_pages + length draft.now.chain_pages) }
    ensures pieces_capacity { vec_capacity pieces.new ≡ vec_capacity pieces.old }
    ensures pages_capacity { vec_capacity pages.new ≡ vec_capacity pages.old }
    ensures shown { shown_draft pieces.new.items pages.new.items result ≡ logged draft.now }
    ensures fits { DraftFits (length pieces.new.items) (length pages.new.items) result }
{
    let request = keep_request(pieces, draft.request());
    let data_pages = keep_numbers(pages, draft.data_pages());
    let chain_pages = keep_numbers(pages, draft.chain_pages());
    KeptDraft {
        request,
        data_pages,
        chain_pages,
    }
}

/// Adds a draft after those of a list that has room for it: its index.
pub(crate) fn put_draft<A: Allocator>(list: &mut Vec<KeptDraft, A>, draft: KeptDraft) -> u32
    requires { vec_len list.old < places (vec_capacity list.old) }
    ensures items { list.new.items ≡ list.old.items ++ draft ∷ [] }
    ensures len { vec_len list.new ≡ vec_len list.old + 1 }
    ensures capacity { vec_capacity list.new ≡ vec_capacity list.old }
    ensures place { result ≡ vec_len list.old }
{
    let place = list.len() as u32;
    list.push_reserved(draft);
    place
}
