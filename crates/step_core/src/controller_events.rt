//! The controller's steps: it fetches, walks and completes.

ghost use Rattle.std.specs.Prelude.{◌≡◌};
ghost use Rattle.machine_model.specs.Events as events;
ghost use Rattle.machine_model.specs.Step.{Step};
ghost use Rattle.step_core.specs.Replies.{fetch_reply, walk_reply, complete_reply};
ghost use Rattle.step_core.specs.Touching.{StaysAllowed, TellsAll};
ghost use Rattle.two_sides.specs.Serving as serving;
ghost use Rattle.two_sides.specs.Serving.{why_of};

use crate::refused::{Completed, Fetched, StepRefused, Touched, Walked, touched_by};
use crate::world::World;
use controller_core::ControllerRefusal;
use controller_walk::WalkState;
use machine_model::words::Refusal;
use page_memory::TouchRecord;
use std::alloc::Allocator;

/// The machine's word for a cause that the controller reports.
fn word_of(why: ControllerRefusal) -> Refusal
    ensures { result ≡ why_of why }
{
    match why {
        ControllerRefusal::Idle => Refusal::Idle,
        ControllerRefusal::SlotOut => Refusal::SlotOut,
        ControllerRefusal::Full => Refusal::Full,
        ControllerRefusal::NoJob => Refusal::NoJob,
        ControllerRefusal::Nothing => Refusal::Nothing,
        ControllerRefusal::Walking => Refusal::Walking,
        ControllerRefusal::Waits => Refusal::Waits,
        ControllerRefusal::Memory => Refusal::Memory,
    }
}

/// A refusal of the controller, with the pages that it touched before.
fn refused(why: ControllerRefusal, touched: Touched) -> StepRefused
    ensures { result ≡ record { why = why_of why; touched = touched } }
{
    StepRefused {
        why: word_of(why),
        touched,
    }
}

/// What a fetch answers, with the pages that it touched.
fn fetched(answer: Result<u16, ControllerRefusal>, touched: Touched) -> Result<Fetched, StepRefused>
    ensures { fetch_reply result ≡ serving.fetch_reply answer touched }
{
    match answer {
        Ok(cid) => Ok(Fetched { cid, touched }),
        Err(why) => Err(refused(why, touched)),
    }
}

/// What a walk's step answers, with the pages that it touched.
fn walked(
    answer: Result<WalkState, ControllerRefusal>,
    touched: Touched,
) -> Result<Walked, StepRefused>
    ensures { walk_reply result ≡ serving.walk_reply answer touched }
{
    match answer {
        Ok(state) => Ok(Walked { state, touched }),
        Err(why) => Err(refused(why, touched)),
    }
}

/// What a completion answers, with the page that it touched.
fn completed(
    answer: Result<(), ControllerRefusal>,
    touched: Touched,
) -> Result<Completed, StepRefused>
    ensures { complete_reply result ≡ serving.complete_reply answer touched }
{
    match answer {
        Ok(()) => Ok(Completed { touched }),
        Err(why) => Err(refused(why, touched)),
    }
}

impl<A: Allocator + Copy> World<A> {
    /// The controller fetches the entry at the head of a submission queue (NVM Express Base Specification 2.0, "Submission Queue Entry",
    /// section 3.3.3.1).
    ///
    /// Where nothing was forged, an entry of an I/O queue begins a job: where a field check fails, that is its verdict, and a Read takes
    /// its blocks from the image as it is now. An entry of queue 0 is decided here: an Abort stops its command, the deletion of a
    /// submission queue stops that queue and its commands, the deletion of a completion queue drops it, and a creation makes its queue.
    /// An entry with the identifier of a fetched, uncompleted command of the queue is completed at once, with Command ID Conflict.
    ///
    /// # Errors
    ///
    /// Nothing changed. Where nothing was forged, it is the first of these that holds, else any of them: 1. `Idle`: there is no such
    /// queue, nothing is fetched from it any more, or its doorbell announced nothing. 2. `SlotOut`: the page of the entry's slot is out. Where the
    /// completion is posted at once: 3. `Full`: the completion ring is full. 4. `SlotOut`: the page of the completion's slot is out.
    /// Else 5. `Memory`, where memory is refused.
    pub fn fetch(&mut self, q: u16) -> Result<Fetched, StepRefused>
        ensures step { Step self.old.state (events.Fetch q) (fetch_reply result) self.new.state }
        ensures touches { StaysAllowed self.old.state (events.Fetch q) (fetch_reply result) }
        ensures tells { TellsAll self.old.touches (fetch_reply result) self.new.touches }
    {
        self.store.clear();
        let answer = self.controller.fetch(q, &mut self.store);
        prove!(self.store.pages() <= 65_536);
        fetched(answer, touched_by(&self.store))
    }

    /// The controller does the next unit of the list of a fetched command (NVM Express Base Specification 2.0, "Scatter Gather
    /// List (SGL)", section 4.1.2): it takes a descriptor, or moves the bytes of one page. Where nothing was forged, it answers `End` or a
    /// fault with the last unit, which is then the command's verdict. No memory is allocated.
    ///
    /// # Errors
    ///
    /// Nothing changed, and no page was touched. Where nothing was forged, it is the first of these that holds, else either:
    /// 1. `NoJob`: the controller has no such command. 2. `Nothing`: it has its verdict already, as each admin command has.
    pub fn walk(&mut self, q: u16, cid: u16) -> Result<Walked, StepRefused>
        ensures step { Step self.old.state (events.Walk q cid) (walk_reply result) self.new.state }
        ensures touches { StaysAllowed self.old.state (events.Walk q cid) (walk_reply result) }
        ensures tells { TellsAll self.old.touches (walk_reply result) self.new.touches }
    {
        self.store.clear();
        let answer = self.controller.walk(q, cid, &mut self.store);
        prove!(self.store.pages() <= 65_536);
        walked(answer, touched_by(&self.store))
    }

    /// The controller posts the completion of a fetched command, and forgets the command (NVM Express Base Specification 2.0, "Common Completion
    /// Queue Entry", section 3.3.3.2). Where nothing was forged, a Write that ends well changes the image here, and a successful deletion of a
    /// submission queue removes that queue.
    ///
    /// # Errors
    ///
    /// Nothing changed. Where nothing was forged, it is the first of these that holds, else any of them: 1. `NoJob`: the controller has
    /// no such command. 2. `Walking`: its list isn't walked to the end. 3. `Waits`: an Abort waits for the command that it stopped, a
    /// deletion for the commands of its queue. 4. `Full`: the completion ring is full. 5. `SlotOut`: the page of the slot is out.
    pub fn complete(&mut self, q: u16, cid: u16) -> Result<Completed, StepRefused>
        ensures step { Step self.old.state (events.Complete q cid) (complete_reply result) self.new.state }
        ensures touches { StaysAllowed self.old.state (events.Complete q cid) (complete_reply result) }
        ensures tells { TellsAll self.old.touches (complete_reply result) self.new.touches }
    {
        self.store.clear();
        let answer = self.controller.complete(q, cid, &mut self.store);
        prove!(self.store.pages() <= 65_536);
        completed(answer, touched_by(&self.store))
    }
}
