//! Entries, and how a log keeps them.

ghost use Rattle.std.specs.Prelude.{◌≡◌, []};
ghost use Rattle.driver_book.specs.Entries.{asked_in as asked_in_draft};

use crate::report::Asked;
use entry_codec::Status;
use io_commands::RequestOf;
use std::marker::Model;
use step_core::{Reply, Step};

/// An entry of a log: a step of the world, who made it, what was answered, and for an accepted reservation and for each submission what the draft
/// was. The bytes of drafts and of finished commands are left out.
#[derive(Drop)]
pub struct Entry<R, B, P> {
    /// The number of the seat that made the step, if one did.
    pub seat: Option<u16>,
    /// The step.
    pub step: Step<R, B>,
    /// What it answered.
    pub answer: Reply<B>,
    /// The draft that came of it, or that it took.
    pub draft: Option<LoggedDraft<R, P>>,
}

/// A draft without the bytes of its pages.
#[derive(Debug, Drop)]
pub struct LoggedDraft<R, P> {
    /// What the host asked for.
    pub request: R,
    /// The numbers of its data pages, one for each data piece, in their order.
    pub data_pages: P,
    /// The numbers of the pages of its chain, in their order.
    pub chain_pages: P,
}

/// Which part of a list: from one index up to, but not including, another.
#[derive(Clone, Copy)]
pub(crate) struct Span {
    pub(crate) start: u32,
    pub(crate) end: u32,
}

/// What is in a log where a step or an answer has bytes: none. Contracts see the empty list.
#[derive(Clone, Copy, Debug)]
pub struct NoBytes;

impl Model for NoBytes {
    ghost use Rattle.std.specs.Prelude.{List, ℕ, []};

    ghost Value = { List ℕ };

    ghost view = { λ _. [] };

    ghost inverse = { λ _. record {} };
}

/// A request as a log keeps it: its pieces are a part of the log's list of pieces.
pub(crate) type KeptRequest = RequestOf<Span>;

/// A draft as a log keeps it, or a request that gave no draft, which has no pages.
pub(crate) type KeptDraft = LoggedDraft<KeptRequest, Span>;

/// A step as a log keeps it: a request is an index into the log's list of drafts.
pub type KeptStep = Step<u32, NoBytes>;

/// An entry as a log keeps it.
#[derive(Drop)]
pub(crate) struct KeptEntry {
    /// The number of the seat that made the step, if one did.
    pub(crate) seat: Option<u16>,
    /// The index of its draft in the log's list of drafts, if it has one.
    pub(crate) draft: Option<u32>,
    /// The step.
    pub(crate) step: KeptStep,
    /// What it answered.
    pub(crate) answer: Reply<NoBytes>,
}

/// What the draft of an entry asks for, where it has one.
pub(crate) fn asked_in<P, Q>(draft: &Option<LoggedDraft<RequestOf<P>, Q>>) -> Option<Asked>
    ensures { result ≡ asked_in_draft draft.now }
{
    match draft {
        Some(draft) => Some(Asked::of(&draft.request)),
        None => None,
    }
}

/// A submission that was accepted.
#[derive(Clone, Copy)]
pub(crate) struct Submission {
    /// The number of the seat that made it, if one did.
    pub(crate) seat: Option<u16>,
    /// The command's queue.
    pub(crate) q: u16,
    /// Its identifier.
    pub(crate) cid: u16,
    /// What its draft asks for, where its entry has one.
    pub(crate) asked: Option<Asked>,
}

/// Which submitted commands a step ended.
#[derive(Clone, Copy)]
pub(crate) enum EndAt {
    /// None.
    Nothing,
    /// One, whose completion was reaped.
    One {
        /// Its queue.
        q: u16,
        /// Its identifier.
        cid: u16,
        /// How it ended.
        status: Status,
    },
    /// Those of a queue, which was retired.
    Queue {
        /// The queue.
        q: u16,
    },
    /// All: the controller was reset.
    All,
}
