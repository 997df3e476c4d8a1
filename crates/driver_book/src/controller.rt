//! The controller's steps, each written down unless it answers `Memory`.

ghost use Rattle.std.specs.Prelude.{◌≡◌, ◌⊎◌, [], None};
ghost use Rattle.machine_model.specs.Events as events;
ghost use Rattle.step_core.specs.Replies.{complete_reply, fetch_reply, walk_reply};
ghost use Rattle.step_core.specs.Touching.{StaysAllowed, TellsAll};
ghost use Rattle.driver_book.specs.Calls.{Does, WantsMemoryFor, IsLogFull, MayWorldWant};

use crate::book::{Book, LogBrand};
use crate::note::{completed, fetched, note, walked};
use machine_model::words::Refusal;
use std::alloc::Allocator;
use step_core::{Completed, Fetched, Step, StepRefused, Touched, Walked};

/// A step for which the log did not grow.
fn unlogged() -> StepRefused
    ensures why { result.why ≡ Refusal.Memory }
    ensures touched { result.touched ≡ [] }
{
    StepRefused {
        why: Refusal::Memory,
        touched: Touched::none(),
    }
}

impl<L: LogBrand, A: Allocator + Copy> Book<L, A> {
    /// [`step_core::World::fetch`].
    ///
    /// # Errors
    ///
    /// As there, and `Memory` where the log cannot grow: then only the spare room of the book's log may differ.
    pub fn fetch(&mut self, q: u16) -> Result<Fetched, StepRefused>
        ensures step { Does self.old None (events.Fetch q) (fetch_reply result) self.new }
        ensures touches { StaysAllowed self.old.world (events.Fetch q) (fetch_reply result) }
        ensures tells { TellsAll self.old.touches (fetch_reply result) self.new.touches }
        ensures memory { WantsMemoryFor (IsLogFull self.old ⊎ MayWorldWant self.old (events.Fetch q)) (fetch_reply result) }
    {
        let Ok(()) = self.log.make_room(0, 0) else {
            return Err(unlogged());
        };
        let answer = self.world.fetch(q);
        note(&mut self.log, None, Step::Fetch { q }, fetched(&answer));
        answer
    }

    /// [`step_core::World::walk`].
    ///
    /// # Errors
    ///
    /// As there, and `Memory` where the log cannot grow: then only the spare room of the book's log may differ.
    pub fn walk(&mut self, q: u16, cid: u16) -> Result<Walked, StepRefused>
        ensures step { Does self.old None (events.Walk q cid) (walk_reply result) self.new }
        ensures touches { StaysAllowed self.old.world (events.Walk q cid) (walk_reply result) }
        ensures tells { TellsAll self.old.touches (walk_reply result) self.new.touches }
        ensures memory { WantsMemoryFor (IsLogFull self.old) (walk_reply result) }
    {
        let Ok(()) = self.log.make_room(0, 0) else {
            return Err(unlogged());
        };
        let answer = self.world.walk(q, cid);
        note(&mut self.log, None, Step::Walk { q, cid }, walked(&answer));
        answer
    }

    /// [`step_core::World::complete`].
    ///
    /// # Errors
    ///
    /// As there, and `Memory` where the log cannot grow: then only the spare room of the book's log may differ.
    pub fn complete(&mut self, q: u16, cid: u16) -> Result<Completed, StepRefused>
        ensures step { Does self.old None (events.Complete q cid) (complete_reply result) self.new }
        ensures touches { StaysAllowed self.old.world (events.Complete q cid) (complete_reply result) }
        ensures tells { TellsAll self.old.touches (complete_reply result) self.new.touches }
        ensures memory { WantsMemoryFor (IsLogFull self.old) (complete_reply result) }
    {
        let Ok(()) = self.log.make_room(0, 0) else {
            return Err(unlogged());
        };
        let answer = self.world.complete(q, cid);
        note(
            &mut self.log,
            None,
            Step::Complete { q, cid },
            completed(&answer),
        );
        answer
    }
}
