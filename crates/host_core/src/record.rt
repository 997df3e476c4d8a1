//! An outstanding command at the host.

ghost use Rattle.std.specs.Prelude.{◌≡◌, ℕ};
ghost use Rattle.machine_model.specs.After.{collected, held, lost, submitted};
ghost use Rattle.machine_model.specs.Refusals.{deletes_cq_of, is_submitted as spec_is_submitted};
ghost use Rattle.host_core.specs.Commands.{phase_of_end};
ghost use Rattle.host_core.specs.Parts.{record_of};
ghost use Rattle.host_core.specs.Reaping.{kind_of};

use admin_commands::AdminKind;
use entry_codec::{Hints, Status};
use io_commands::Request;
use machine_model::words::{Phase, Work};
use page_memory::PageNo;
use std::alloc::{Allocator, Global};
use std::marker::Model;

/// What the host keeps of an outstanding command, beside the queue and the identifier under which it stands.
#[derive(Drop)]
pub struct Record<A: Allocator = Global> {
    /// How far it has come.
    pub phase: Phase,
    /// What it is for.
    pub work: Work<Request<A>>,
    /// The pages of its data pieces.
    pub data_pages: Vec<PageNo, A>,
    /// The pages of its chain.
    pub chain_pages: Vec<PageNo, A>,
    /// How it ended, once that is known.
    pub status: Option<Status>,
    /// What its completion hinted at; nothing until it has ended, and where no completion ended it.
    pub hints: Hints,
}

impl<A: Allocator> Model for Record<A> {
    ghost use Rattle.host_core.specs.Rows.{RecordRow};

    ghost Value = { RecordRow };

    ghost view = { λ r. record { phase = r.phase; work = r.work; data_pages = r.data_pages.items; chain_pages = r.chain_pages.items; status = r.status; hints = r.hints } };
}

impl<A: Allocator> Record<A> {
    /// Whether it waits for its completion.
    pub(crate) fn is_submitted(&self) -> bool
        ensures { result ≡ spec_is_submitted self.now.phase }
    {
        match self.phase {
            Phase::Submitted => true,
            Phase::Drafted | Phase::Held | Phase::Collected => false,
        }
    }

    /// Whether it is drafted, or, for a value that has ended, collected.
    pub(crate) fn is_handed_out(&self, ended: bool) -> bool
        ensures { result ≡ phase_of_end ended self.now.phase }
    {
        match self.phase {
            Phase::Drafted => !ended,
            Phase::Collected => ended,
            Phase::Submitted | Phase::Held => false,
        }
    }

    /// The command that the host sent itself, if it is one.
    pub(crate) fn kind(&self) -> Option<AdminKind>
        ensures { result ≡ kind_of self.now.work }
    {
        match &self.work {
            Work::Io(_) => None,
            Work::Management(kind) => Some(*kind),
        }
    }

    /// Whether it deletes the completion side of a queue.
    pub(crate) fn deletes_completion(&self, q: u16) -> bool
        ensures { result ≡ deletes_cq_of q self.now.work }
    {
        match &self.work {
            Work::Management(AdminKind::DeleteCq { q: named }) => *named == q,
            _ => false,
        }
    }

    /// Marks it submitted.
    pub(crate) fn submit(&mut self)
        ensures { (q cid : ℕ) → record_of q cid self.new ≡ submitted (record_of q cid self.old) }
    {
        self.phase = Phase::Submitted;
    }

    /// Marks it collected.
    pub(crate) fn collect(&mut self)
        ensures { (q cid : ℕ) → record_of q cid self.new ≡ collected (record_of q cid self.old) }
    {
        self.phase = Phase::Collected;
    }

    /// Notes how it ended.
    pub(crate) fn hold(&mut self, status: Status, hints: Hints)
        ensures { (q cid : ℕ) → record_of q cid self.new ≡ held status hints (record_of q cid self.old) }
    {
        self.phase = Phase::Held;
        self.status = Some(status);
        self.hints = hints;
    }

    /// Ends it, where no completion did.
    pub(crate) fn lose(&mut self)
        ensures { (q cid : ℕ) → record_of q cid self.new ≡ lost q (record_of q cid self.old) }
    {
        if self.is_submitted() {
            self.hold(Status::ABORTED_SQ_DELETION, Hints::NONE);
        }
    }
}
