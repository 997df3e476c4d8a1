//! Entries as a log shows them.

ghost use Rattle.std.specs.Prelude.{◌≡◌, length};
ghost use Rattle.driver_book.specs.Keeping.{part_of, shown_request as spec_shown_request, shown_step as spec_shown_step, shown_draft as spec_shown_draft, shown as spec_shown, FitsIn, DraftFits, StepFits, EntryFits, PiecesFit, AllDraftsFit};

use crate::entry::{
    Entry, KeptDraft, KeptEntry, KeptRequest, KeptStep, LoggedDraft, NoBytes, Span,
};
use io_commands::{Piece, RequestOf};
use page_memory::PageNo;
use std::marker::Model;
use step_core::{Reply, Step};

/// The pieces of a request that is in a log. Contracts see that list.
#[derive(Debug, Drop)]
pub struct PieceList<'a> {
    pieces: &'a [Piece],
}

impl<'a> Model for PieceList<'a> {
    ghost use Rattle.std.specs.Prelude.{List};
    ghost use Rattle.io_commands.specs.declared.request.Piece.{Piece};

    ghost Value = { List Piece };

    ghost view = { λ p. p.pieces.now };
}

impl<'a> PieceList<'a> {
    /// The pieces.
    pub fn as_slice(&self) -> &'a [Piece]
        ensures { result.now ≡ self.now }
    {
        self.pieces
    }
}

/// The page numbers of a draft that is in a log. Contracts see that list.
#[derive(Debug, Drop)]
pub struct PageNumbers<'a> {
    pages: &'a [PageNo],
}

impl<'a> Model for PageNumbers<'a> {
    ghost use Rattle.std.specs.Prelude.{List, ℕ};

    ghost Value = { List ℕ };

    ghost view = { λ p. p.pages.now };
}

impl<'a> PageNumbers<'a> {
    /// The numbers.
    pub fn as_slice(&self) -> &'a [PageNo]
        ensures { result.now ≡ self.now }
    {
        self.pages
    }
}

/// A step as a log shows it.
pub type ShownStep<'a> = Step<RequestOf<PieceList<'a>>, NoBytes>;

/// An entry as a log shows it: its request and its pages are in the log.
pub type ShownEntry<'a> = Entry<RequestOf<PieceList<'a>>, NoBytes, PageNumbers<'a>>;

/// A request that is in a list of pieces.
fn shown_request<'a>(pieces: &'a [Piece], request: &KeptRequest) -> RequestOf<PieceList<'a>>
    requires { FitsIn (length pieces.now) request.now.pieces }
    ensures { result ≡ spec_shown_request pieces.now request.now }
{
    let span = request.pieces;
    RequestOf {
        kind: request.kind,
        nsid: request.nsid,
        flags: request.flags,
        block_size: request.block_size,
        slba: request.slba,
        blocks: request.blocks,
        pieces: PieceList {
            pieces: &pieces[span.start as usize..span.end as usize],
        },
    }
}

/// Numbers that are in a list of them.
fn shown_pages<'a>(pages: &'a [PageNo], span: Span) -> PageNumbers<'a>
    requires { FitsIn (length pages.now) span }
    ensures { result ≡ part_of pages.now span }
{
    PageNumbers {
        pages: &pages[span.start as usize..span.end as usize],
    }
}

/// A step whose request is in a list of drafts, and its pieces in one of those.
fn shown_step<'a>(pieces: &'a [Piece], drafts: &[KeptDraft], step: &KeptStep) -> ShownStep<'a>
    requires step { StepFits (length drafts.now) step.now }
    requires pieces { PiecesFit (length pieces.now) drafts.now }
    ensures { result ≡ spec_shown_step pieces.now drafts.now step.now }
{
    match step {
        Step::Reserve { q, request } => Step::Reserve {
            q: *q,
            request: shown_request(pieces, &drafts[*request as usize].request),
        },
        Step::Fill { q, cid, bytes } => Step::Fill {
            q: *q,
            cid: *cid,
            bytes: *bytes,
        },
        Step::Build { q, cid } => Step::Build { q: *q, cid: *cid },
        Step::Submit { q, cid } => Step::Submit { q: *q, cid: *cid },
        Step::Cancel { q, cid } => Step::Cancel { q: *q, cid: *cid },
        Step::Ring { q } => Step::Ring { q: *q },
        Step::Fetch { q } => Step::Fetch { q: *q },
        Step::Walk { q, cid } => Step::Walk { q: *q, cid: *cid },
        Step::Complete { q, cid } => Step::Complete { q: *q, cid: *cid },
        Step::Reap { q } => Step::Reap { q: *q },
        Step::Collect { q, cid } => Step::Collect { q: *q, cid: *cid },
        Step::Gather { q, cid } => Step::Gather { q: *q, cid: *cid },
        Step::Release { q, cid } => Step::Release { q: *q, cid: *cid },
        Step::Abort { q, cid } => Step::Abort { q: *q, cid: *cid },
        Step::DeleteSq { q } => Step::DeleteSq { q: *q },
        Step::DeleteCq { q } => Step::DeleteCq { q: *q },
        Step::CreateCq { q, vector } => Step::CreateCq {
            q: *q,
            vector: *vector,
        },
        Step::CreateSq { q } => Step::CreateSq { q: *q },
        Step::Retire { q } => Step::Retire { q: *q },
        Step::Forge { q, slot, bytes } => Step::Forge {
            q: *q,
            slot: *slot,
            bytes: *bytes,
        },
        Step::Reset => Step::Reset,
    }
}

/// The same answer once more.
fn shown_answer(answer: &Reply<NoBytes>) -> Reply<NoBytes>
    ensures { result ≡ answer.now }
{
    match answer {
        Reply::Reserved {
            q,
            cid,
            data,
            chain,
        } => Reply::Reserved {
            q: *q,
            cid: *cid,
            data: *data,
            chain: *chain,
        },
        Reply::Accepted => Reply::Accepted,
        Reply::Fetched { cid, touched } => Reply::Fetched {
            cid: *cid,
            touched: touched.copied(),
        },
        Reply::Walked { state, touched } => Reply::Walked {
            state: *state,
            touched: touched.copied(),
        },
        Reply::Completed { touched } => Reply::Completed {
            touched: touched.copied(),
        },
        Reply::Reaps(what) => Reply::Reaps(*what),
        Reply::Collected { status, hints } => Reply::Collected {
            status: *status,
            hints: *hints,
        },
        Reply::Gathered(bytes) => Reply::Gathered(*bytes),
        Reply::Sent { cid } => Reply::Sent { cid: *cid },
        Reply::NoValue => Reply::NoValue,
        Reply::NotFilled(why) => Reply::NotFilled(*why),
        Reply::Refused { why, touched } => Reply::Refused {
            why: *why,
            touched: touched.copied(),
        },
    }
}

/// A draft whose pieces and pages are in these lists.
fn shown_draft<'a>(
    pieces: &'a [Piece],
    pages: &'a [PageNo],
    draft: &KeptDraft,
) -> LoggedDraft<RequestOf<PieceList<'a>>, PageNumbers<'a>>
    requires { DraftFits (length pieces.now) (length pages.now) draft.now }
    ensures { result ≡ spec_shown_draft pieces.now pages.now draft.now }
{
    LoggedDraft {
        request: shown_request(pieces, &draft.request),
        data_pages: shown_pages(pages, draft.data_pages),
        chain_pages: shown_pages(pages, draft.chain_pages),
    }
}

/// An entry whose request and draft are in these lists.
pub(crate) fn shown_entry<'a>(
    pieces: &'a [Piece],
    pages: &'a [PageNo],
    drafts: &[KeptDraft],
    kept: &KeptEntry,
) -> ShownEntry<'a>
    requires entry { EntryFits (length drafts.now) kept.now }
    requires drafts { AllDraftsFit (length pieces.now) (length pages.now) drafts.now }
    ensures { result ≡ spec_shown pieces.now pages.now drafts.now kept.now }
{
    let draft = match kept.draft {
        Some(place) => Some(shown_draft(pieces, pages, &drafts[place as usize])),
        None => None,
    };
    Entry {
        seat: kept.seat,
        step: shown_step(pieces, drafts, &kept.step),
        answer: shown_answer(&kept.answer),
        draft,
    }
}
