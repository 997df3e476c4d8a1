//! What the data of commands are: bytes that are made as a draft is filled, and compared as a command is given up.

ghost use Rattle.std.specs.Prelude.{◌≡◌, ◌<◌, ◌*◌, IfOk, IfSome, option_map, vec_len};
ghost use Rattle.load.specs.Planning.{IsInside, bytes_for};
ghost use Rattle.load.specs.Tallies.{wanted_of};

use crate::content::{Content, written_slot};
use crate::layout::Layout;
use crate::plan::Planned;
use driver_threads::{Data, Job, JobEnd, JobEnds, Unfilled};
use io_commands::{Draft, FillFault, Finished, Kind, Request};
use std::alloc::{AllocError, Global};
use std::marker::Model;

/// What is found of the bytes that a command brought.
#[derive(Clone, Copy)]
pub(crate) enum Found {
    /// They are not compared.
    NotCompared,
    /// They are what its slot must hold.
    Same,
    /// They are not.
    Differs,
}

/// What a command's data are made of, and what a Read is compared with, where that is done.
#[derive(Drop)]
pub(crate) struct Task<'a> {
    layout: Layout,
    seed: u32,
    content: &'a Option<Content>,
    planned: Planned,
}

impl<'a> Model for Task<'a> {
    ghost use Rattle.std.specs.Prelude.{◌≡◌, ◌*◌, IfSome, vec_len};
    ghost use Rattle.load.specs.Planning.{IsInside, TaskContents};

    ghost Value = { TaskContents };

    ghost view = { λ t. record { layout = t.layout; seed = t.seed; content = t.content.now; planned = t.planned } };

    ghost invariant = { λ t. IsInside t.layout t.planned × IfSome t.content.now (λ c. vec_len c.first ≡ 512 * t.layout.blocks) };
}

/// A job of a load.
pub(crate) type TaskJob<'a> = Job<Request, Task<'a>>;

/// How a job of a load ended.
pub(crate) type TaskEnd = JobEnd<Found>;

/// How the jobs of submitters ended.
pub(crate) type TaskEnds = JobEnds<Global, Found>;

impl<'a> Task<'a> {
    /// The data of a command, where slots held this content at first.
    pub(crate) fn new(
        layout: Layout,
        seed: u32,
        content: &'a Option<Content>,
        planned: Planned,
    ) -> Task<'a>
        requires inside { IsInside layout planned }
        requires whole { IfSome content.now (λ c. vec_len c.first ≡ 512 * layout.blocks) }
        ensures { result ≡ record { layout = layout; seed = seed; content = content.now; planned = planned } }
    {
        Task {
            layout,
            seed,
            content,
            planned,
        }
    }

    /// The bytes of a Write; of another command none.
    fn bytes(&self, alloc: Global) -> Result<Vec<u8>, AllocError>
        ensures { IfOk result (λ bytes. bytes.items ≡ bytes_for self.now) }
    {
        let Planned {
            slot,
            kind,
            generation,
        } = self.planned;
        match kind {
            Kind::Write => written_slot(alloc, self.layout, self.seed, slot, generation),
            _ => Ok(Vec::new(alloc)),
        }
    }

    /// What the command must bring, where that is compared.
    fn wanted(&self, alloc: Global) -> Result<Option<Vec<u8>>, AllocError>
        ensures { IfOk result (λ wanted. option_map (λ bytes. bytes.items) wanted ≡ wanted_of self.now.layout self.now.content self.now.planned) }
    {
        match (self.content, self.planned.kind) {
            (Some(content), Kind::Read) => {
                let Planned {
                    slot,
                    generation,
                    ..
                } = self.planned;
                Ok(Some(content.of_slot(alloc, self.layout, slot, generation)?))
            }
            _ => Ok(None),
        }
    }
}

impl Data<Found, Global> for Task<'_> {
    ghost use Rattle.load.specs.Planning.{bytes_for};
    ghost use Rattle.load.specs.Tallies.{KeepsFound};

    ghost bytes = { bytes_for };

    ghost keeps = { KeepsFound };

    fn fill(&self, alloc: Global, draft: &mut Draft) -> Result<(), Unfilled> {
        let Ok(bytes) = self.bytes(alloc) else {
            return Err(Unfilled::Memory);
        };
        match draft.fill_padded(&bytes) {
            Ok(()) | Err(FillFault::NotASource) => Ok(()),
            Err(FillFault::WrongLength) => Err(Unfilled::WrongLength),
        }
    }

    fn keep(self, alloc: Global, finished: &Finished) -> Result<Found, AllocError> {
        let Some(wanted) = self.wanted(alloc)? else {
            return Ok(Found::NotCompared);
        };
        if finished.brings(&wanted) {
            Ok(Found::Same)
        } else {
            Ok(Found::Differs)
        }
    }
}
