//! The log itself.

ghost use Rattle.std.specs.Prelude.{◌≡◌, ◌+◌, ◌<◌, ◌≤◌, ◌^◌, ◌++◌, ◌∷◌, [], ◌==◌, None, Some, false, OnOk, OnErr, IfSome, IfNone, length, slice_get};
ghost use Rattle.std.specs.Option.{option_map};
ghost use Rattle.driver_book.specs.Entries.{Entry as AnEntry};
ghost use Rattle.machine_model.specs.Events as events;
ghost use Rattle.driver_book.specs.History.{entry, entry_of};
ghost use Rattle.driver_book.specs.Submissions.{submitted_by, submission_of, ended_by, end_of};
ghost use Rattle.driver_book.specs.Keeping.{HasNoRequest, PlaceFits, bare_step, draft_at, may_end as may_end_step};
ghost use Rattle.driver_book.specs.Entries.{IsNoLess, Takes, Lacks, asked_in, left, answered};

use crate::entry::{EndAt, KeptDraft, KeptEntry, KeptStep, NoBytes, Submission};
use crate::keep::{keep_draft, keep_without_draft, put_draft, reserve_places};
use crate::report::Asked;
use crate::shown::{ShownEntry, shown_entry};
use io_commands::{Draft, Piece, Request};
use machine_model::words::Reaped;
use page_memory::PageNo;
use std::alloc::{AllocError, Allocator, Global};
use std::marker::Model;
use step_core::{Reply, Step};

/// The entries of a world's steps, the oldest first. Contracts see them, with their requests and page numbers, and how many more entries,
/// pieces and page numbers it takes before its lists have to grow.
#[derive(Drop)]
pub struct Log<A: Allocator = Global> {
    kept: Vec<KeptEntry, A>,
    drafts: Vec<KeptDraft, A>,
    pieces: Vec<Piece, A>,
    pages: Vec<PageNo, A>,
    /// How many more entries have room, each with a draft.
    entries_left: usize,
}

impl<A: Allocator> Model for Log<A> {
    ghost use Rattle.std.specs.Prelude.{◌+◌, ◌-◌, ◌≤◌, map, vec_len, vec_capacity};
    ghost use Rattle.driver_book.specs.Entries.{LogContents};
    ghost use Rattle.driver_book.specs.Keeping.{places, shown, Stands};

    ghost Value = { LogContents };

    ghost view = { λ l. record { entries = map (shown l.pieces.items l.pages.items l.drafts.items) l.kept.items; room = record { entries = l.entries_left; pieces = places (vec_capacity l.pieces) - vec_len l.pieces; pages = places (vec_capacity l.pages) - vec_len l.pages } } };

    ghost invariant = { λ l. Stands l.pieces.items l.pages.items l.drafts.items l.kept.items × (vec_len l.kept + l.entries_left ≤ vec_capacity l.kept) × (vec_len l.drafts + l.entries_left ≤ places (vec_capacity l.drafts)) };
}

impl<A: Allocator + Copy> Log<A> {
    /// A log without entries. It takes no memory.
    pub fn new(alloc: A) -> Self
        ensures { result ≡ record { entries = []; room = record { entries = 0; pieces = 0; pages = 0 } } }
    {
        Log {
            kept: Vec::new(alloc),
            drafts: Vec::new(alloc),
            pieces: Vec::new(alloc),
            pages: Vec::new(alloc),
            entries_left: 0,
        }
    }
}

/// Whether a step may end submitted commands: a reap, a retirement and a reset may.
fn may_end(step: &KeptStep) -> bool
    ensures { result ≡ may_end_step step.now }
{
    matches!(step, Step::Reap { .. } | Step::Retire { .. } | Step::Reset)
}

/// What the draft at an index asks for, where an entry has one.
fn asked_at(drafts: &[KeptDraft], place: Option<u32>) -> Option<Asked>
    requires { PlaceFits (length drafts.now) place }
    ensures { result ≡ asked_in (draft_at drafts.now place) }
{
    match place {
        Some(place) => Some(Asked::of(&drafts[place as usize].request)),
        None => None,
    }
}

/// The submission that the step of an entry is, where it was accepted, with what its draft asks for.
fn submission_in(entry: &KeptEntry, drafts: &[KeptDraft]) -> Option<Submission>
    requires { PlaceFits (length drafts.now) entry.now.draft }
    ensures { result ≡ submitted_by entry.now.seat entry.now.step entry.now.answer (draft_at drafts.now entry.now.draft) }
{
    match &entry.step {
        Step::Submit { q, cid } => match &entry.answer {
            Reply::Accepted => Some(Submission {
                seat: entry.seat,
                q: *q,
                cid: *cid,
                asked: asked_at(drafts, entry.draft),
            }),
            _ => None,
        },
        _ => None,
    }
}

/// Which submitted commands a step ended.
fn end_in(step: &KeptStep, answer: &Reply<NoBytes>) -> EndAt
    ensures { result ≡ ended_by step.now answer.now }
{
    match step {
        Step::Reap { q } => match answer {
            Reply::Reaps(Reaped::Done { cid, status }) => EndAt::One {
                q: *q,
                cid: *cid,
                status: *status,
            },
            _ => EndAt::Nothing,
        },
        Step::Retire { q } => match answer {
            Reply::Accepted => EndAt::Queue { q: *q },
            _ => EndAt::Nothing,
        },
        Step::Reset => match answer {
            Reply::Accepted => EndAt::All,
            _ => EndAt::Nothing,
        },
        _ => EndAt::Nothing,
    }
}

impl<A: Allocator> Log<A> {
    /// Makes room for one entry and its draft.
    fn make_room_for_entry(&mut self) -> Result<(), AllocError>
        ensures room { OnOk result (0 < self.new.room.entries) }
        ensures full { OnErr result (self.old.room.entries ≡ 0) }
        ensures no_less { self.old.room.entries ≤ self.new.room.entries }
        ensures pieces { self.new.room.pieces ≡ self.old.room.pieces }
        ensures pages { self.new.room.pages ≡ self.old.room.pages }
        ensures same { self.new.entries ≡ self.old.entries }
    {
        if self.entries_left > 0 {
            return Ok(());
        }
        self.kept.reserve(1)?;
        reserve_places(&mut self.drafts, 1)?;
        let drafts_left = self.drafts.capacity().min(u32::MAX as usize) - self.drafts.len();
        self.entries_left = drafts_left.min(self.kept.capacity() - self.kept.len());
        Ok(())
    }

    /// Makes room for one entry, with this many pieces of requests and this many page numbers of drafts.
    ///
    /// # Errors
    ///
    /// Where memory is refused, or a list would have 2^32 elements. The entries stay; one of the three had too little room. Whatever room there was
    /// is still there.
    pub fn make_room(&mut self, pieces: usize, pages: usize) -> Result<(), AllocError>
        ensures room { OnOk result (Takes self.new.room pieces pages) }
        ensures full { OnErr result (Lacks self.old.room pieces pages) }
        ensures no_less { IsNoLess self.old.room self.new.room }
        ensures same { self.new.entries ≡ self.old.entries }
    {
        self.make_room_for_entry()?;
        reserve_places(&mut self.pieces, pieces)?;
        reserve_places(&mut self.pages, pages)?;
        Ok(())
    }

    /// Writes a step without a request after the others. It takes no memory.
    pub fn push(&mut self, seat: Option<u16>, step: KeptStep, answer: Reply<NoBytes>)
        requires room { 0 < self.old.room.entries }
        requires bare { HasNoRequest step }
        ensures entries { self.new.entries ≡ self.old.entries ++ entry seat (bare_step step) answer None ∷ [] }
        ensures room { self.new.room ≡ left self.old.room 0 0 }
    {
        self.entries_left -= 1;
        self.kept.push_reserved(KeptEntry {
            seat,
            draft: None,
            step,
            answer,
        });
    }

    /// Writes a reservation that gave no draft, with its request, after the others. It takes no memory.
    pub fn push_request<B: Allocator>(
        &mut self,
        seat: Option<u16>,
        q: u16,
        request: &Request<B>,
        answer: Reply<NoBytes>,
    )
        requires { Takes self.old.room (length request.now.pieces) 0 }
        ensures entries { self.new.entries ≡ self.old.entries ++ entry seat (Step.Reserve q request.now) answer None ∷ [] }
        ensures room { self.new.room ≡ left self.old.room (length request.now.pieces) 0 }
    {
        let kept = keep_without_draft(&mut self.pieces, request);
        let place = put_draft(&mut self.drafts, kept);
        self.entries_left -= 1;
        self.kept.push_reserved(KeptEntry {
            seat,
            draft: None,
            step: Step::Reserve { q, request: place },
            answer,
        });
    }

    /// Writes, after the others, the reservation that gave this draft. It takes no memory.
    pub fn push_reservation<B: Allocator>(&mut self, seat: Option<u16>, draft: &Draft<B>)
        requires { Takes self.old.room (length draft.now.request.pieces) (length draft.now.data_pages + length draft.now.chain_pages) }
        ensures entries { self.new.entries ≡ self.old.entries ++ entry_of seat (events.Reserve draft.now.q draft.now.request) (events.Reserved draft.now) ∷ [] }
        ensures room { self.new.room ≡ left self.old.room (length draft.now.request.pieces) (length draft.now.data_pages + length draft.now.chain_pages) }
    {
        let kept = keep_draft(&mut self.pieces, &mut self.pages, draft);
        let place = put_draft(&mut self.drafts, kept);
        self.entries_left -= 1;
        self.kept.push_reserved(KeptEntry {
            seat,
            draft: Some(place),
            step: Step::Reserve {
                q: draft.q(),
                request: place,
            },
            answer: Reply::reserved(draft),
        });
    }

    /// Writes the submission of a draft after the others, as an accepted one ([`Log::answer_last`] says otherwise). It takes no memory, so it may be
    /// written before the draft is given away.
    pub fn push_submission<B: Allocator>(&mut self, seat: Option<u16>, draft: &Draft<B>)
        requires { Takes self.old.room (length draft.now.request.pieces) (length draft.now.data_pages + length draft.now.chain_pages) }
        ensures entries { self.new.entries ≡ self.old.entries ++ entry_of seat (events.Submit draft.now) events.Accepted ∷ [] }
        ensures room { self.new.room ≡ left self.old.room (length draft.now.request.pieces) (length draft.now.data_pages + length draft.now.chain_pages) }
        ensures few { length self.new.entries < 2 ^ 63 }
    {
        let kept = keep_draft(&mut self.pieces, &mut self.pages, draft);
        let place = put_draft(&mut self.drafts, kept);
        self.entries_left -= 1;
        self.kept.push_reserved(KeptEntry {
            seat,
            draft: Some(place),
            step: Step::Submit {
                q: draft.q(),
                cid: draft.cid(),
            },
            answer: Reply::Accepted,
        });
    }

    /// Makes the last entry say this answer.
    pub fn answer_last(&mut self, answer: Reply<NoBytes>)
        ensures entries { self.new.entries ≡ answered answer self.old.entries }
        ensures room { self.new.room ≡ self.old.room }
    {
        if let Some(last) = self.kept.pop() {
            self.kept.push_reserved(KeptEntry { answer, ..last });
        }
    }

    /// How many entries there are.
    pub fn len(&self) -> usize
        ensures { result ≡ length self.now.entries }
    {
        self.kept.len()
    }

    /// Whether there is none.
    pub fn is_empty(&self) -> bool
        ensures { result ≡ (length self.now.entries == 0) }
    {
        self.kept.is_empty()
    }

    /// The entry at an index, counted from 0.
    pub fn at<'a>(&'a self, index: usize) -> ShownEntry<'a>
        requires { index < length self.now.entries }
        ensures { slice_get self.now.entries index ≡ Some result }
    {
        shown_entry(&self.pieces, &self.pages, &self.drafts, &self.kept[index])
    }

    /// The entry at an index, counted from 0, where its step may end submitted commands: a reap, a retirement or a reset.
    pub fn ending_at<'a>(&'a self, index: usize) -> Option<ShownEntry<'a>>
        requires { index < length self.now.entries }
        ensures ending { IfSome result (λ entry. slice_get self.now.entries index ≡ Some entry) }
        ensures other { IfNone result (option_map (λ (e : AnEntry). may_end_step e.step) (slice_get self.now.entries index) ≡ Some false) }
    {
        if may_end(&self.kept[index].step) {
            Some(self.at(index))
        } else {
            None
        }
    }

    /// The submission that the entry at an index tells of, counted from 0, where it was accepted.
    pub(crate) fn submission_at(&self, index: usize) -> Option<Submission>
        requires { index < length self.now.entries }
        ensures { option_map submission_of (slice_get self.now.entries index) ≡ Some result }
    {
        submission_in(&self.kept[index], &self.drafts)
    }

    /// Which submitted commands the step of the entry at an index ended, counted from 0.
    pub(crate) fn end_at(&self, index: usize) -> EndAt
        requires { index < length self.now.entries }
        ensures { option_map end_of (slice_get self.now.entries index) ≡ Some result }
    {
        let entry = &self.kept[index];
        end_in(&entry.step, &entry.answer)
    }

    /// The entry at an index, counted from 0, if there is one.
    pub fn get<'a>(&'a self, index: usize) -> Option<ShownEntry<'a>>
        ensures { result ≡ slice_get self.now.entries index }
    {
        if index < self.kept.len() {
            Some(self.at(index))
        } else {
            None
        }
    }
}
