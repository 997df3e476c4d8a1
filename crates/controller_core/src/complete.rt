//! The controller completes a command.

ghost use Rattle.std.specs.Prelude.{◌≡◌, ◌<◌, ◌≤◌, IfErr, IfOk, IsSome, Some, false, OnOk, OnErr, length, find};
ghost use Rattle.std.specs.Option.{option_and_then};
ghost use Rattle.std.specs.Result.{result_err};
ghost use Rattle.block_image.specs.Blocks.{block_count};
ghost use Rattle.page_memory.specs.Memory.{Memory};
ghost use Rattle.controller_core.specs.Posting.{post_refusal_at};
ghost use Rattle.controller_core.specs.Completing.{complete_refusal, status_of_end, image_of_end, queues_of_end, without_submission, CanEnd, CompletesTo};
ghost use Rattle.controller_core.specs.Contents.{contents, change, dw0_of_work, verdict_of_work, is_command, is_deletion, IsController};
ghost use Rattle.controller_core.specs.Lending.{command_lacks, unready, work_lacks};

use crate::command::FetchedWork;
use crate::commands::Commands;
use crate::controller::Controller;
use crate::post::post_at;
use crate::queue::ControllerQueue;
use crate::refusal::ControllerRefusal;
use admin_commands::{SqState, queue_of};
use block_image::Blocks;
use entry_codec::admin_opcode::DELETE_IO_SQ;
use entry_codec::{Status, SubEntry};
use io_commands::{Job, finish_job};
use page_memory::Dma;
use std::alloc::Allocator;

/// Whether an admin command that ends so has deleted a submission queue.
fn deletes(entry: &SubEntry, status: Status) -> bool
    ensures { result ≡ is_deletion entry.now status }
{
    entry.opcode == DELETE_IO_SQ && status.is_success()
}

/// Leaves nothing of a queue's submission side, where there is such a queue.
#[tactic(auto, using(crate::proofs::Lists::change_at, crate::proofs::Lists::change_past))]
fn drop_submission<A: Allocator>(queues: &mut Vec<ControllerQueue, A>, q: u16)
    ensures { queues.new.items ≡ change q without_submission queues.old.items }
{
    if usize::from(q) < queues.len() {
        queues[usize::from(q)].state = SqState::Absent;
    }
}

impl<A: Allocator> FetchedWork<Job<A>> {
    /// How a command ends over an image: the status of its completion, and its command specific double word.
    fn end<I: Blocks>(&self, image: &I) -> (Status, u32)
        requires verdict { IsSome (verdict_of_work self.now) }
        requires over { CanEnd (block_count (I.bytes image.now)) self.now }
        requires at_hand { work_lacks (I.at_hand image.now) self.now ≡ false }
        ensures status { result.0 ≡ status_of_end (I.bytes image.now) self.now }
        ensures dw0 { result.1 ≡ dw0_of_work self.now }
    {
        match self {
            FetchedWork::Io(job) => (job.final_status(image), 0),
            FetchedWork::Admin { status, dw0, .. } => (*status, *dw0),
        }
    }

    /// Whether the command's end reads or writes blocks that are not at hand.
    pub(crate) fn lacks_blocks<I: Blocks>(&self, image: &I) -> bool
        ensures { result ≡ work_lacks (I.at_hand image.now) self.now }
    {
        match self {
            FetchedWork::Io(job) => job.lacks_blocks(image),
            FetchedWork::Admin { .. } => false,
        }
    }
}

/// Does what a command does at its end: a Write that ended well puts its bytes over its blocks, and after a successful deletion of a
/// submission queue that queue is not there.
fn settle<A: Allocator, I: Blocks>(
    queues: &mut Vec<ControllerQueue, A>,
    image: &mut I,
    work: FetchedWork<Job<A>>,
)
    requires verdict { IsSome (verdict_of_work work) }
    requires over { CanEnd (block_count (I.bytes image.old)) work }
    requires at_hand { work_lacks (I.at_hand image.old) work ≡ false }
    ensures queues { queues.new.items ≡ queues_of_end work queues.old.items }
    ensures image { I.bytes image.new ≡ image_of_end (I.bytes image.old) work }
    ensures as_long { length (I.bytes image.new) ≡ length (I.bytes image.old) }
    ensures place { I.place image.new ≡ I.place image.old }
{
    match work {
        FetchedWork::Io(job) => {
            finish_job(job, image);
        }
        FetchedWork::Admin { entry, status, .. } => {
            if deletes(&entry, status) {
                drop_submission(queues, queue_of(&entry));
            }
        }
    }
}

/// Posts the completion of a command that can complete, forgets the command, and does what it does at its end, over blocks that are at hand for
/// it. Where the posting is refused nothing changed.
pub(crate) fn finish_at<A: Allocator, I: Blocks, D: Dma>(
    queues: &mut Vec<ControllerQueue, A>,
    commands: &mut Commands<A>,
    image: &mut I,
    q: u16,
    cid: u16,
    dma: &mut D,
) -> Result<(), ControllerRefusal>
    requires sound { IsController (contents queues.old.items commands.old.list (I.bytes image.old)) }
    requires ended { IsSome (option_and_then (λ k. verdict_of_work k.work) (find (is_command q cid) commands.old.list)) }
    requires ready { (m : Memory) → complete_refusal (contents queues.old.items commands.old.list (I.bytes image.old)) m q cid ≡ post_refusal_at queues.old.items m q }
    requires at_hand { command_lacks (I.at_hand image.old) commands.old.list q cid ≡ false }
    requires room { length (D.reached dma.old) ≤ 2 }
    ensures refusal { result_err result ≡ post_refusal_at queues.old.items (D.memory dma.old) q }
    ensures refused { OnErr result ((queues.new.items ≡ queues.old.items) × (commands.new ≡ commands.old) × (I.bytes image.new ≡ I.bytes image.old) × (D.memory dma.new ≡ D.memory dma.old) × (D.reached dma.new ≡ D.reached dma.old)) }
    ensures completes { OnOk result (CompletesTo (contents queues.old.items commands.old.list (I.bytes image.old)) q cid (D.memory dma.old) (D.reached dma.old) (contents queues.new.items commands.new.list (I.bytes image.new)) (D.memory dma.new) (D.reached dma.new)) }
    ensures sound { IsController (contents queues.new.items commands.new.list (I.bytes image.new)) }
    ensures counted { commands.new.queues ≡ commands.old.queues }
    ensures count { length queues.new.items ≡ length queues.old.items }
    ensures place { I.place image.new ≡ I.place image.old }
    ensures unlisted { D.unlisted dma.new ≡ D.unlisted dma.old }
    ensures pool { D.page_count dma.new ≡ D.page_count dma.old }
{
    let (status, dw0) = commands.get(q, cid).unwrap().work.end(image);
    post_at(queues, q, cid, status, dw0, dma)?;
    let command = commands.take(q, cid).unwrap();
    settle(queues, image, command.work);
    Ok(())
}

impl<A: Allocator, I: Blocks> Controller<A, I> {
    /// Whether a command can complete, as far as that lies in the command.
    ///
    /// # Errors
    ///
    /// The first cause against it.
    pub(crate) fn check_complete(&self, q: u16, cid: u16) -> Result<(), ControllerRefusal>
        ensures cause { result_err result ≡ unready self.now q cid }
        ensures refused { IfErr result (λ why. (m : Memory) → complete_refusal self.now m q cid ≡ Some why) }
        ensures ready { IfOk result (λ _. (m : Memory) → complete_refusal self.now m q cid ≡ post_refusal_at self.now.queues m q) }
        ensures ended { IfOk result (λ _. IsSome (option_and_then (λ k. verdict_of_work k.work) (find (is_command q cid) self.now.commands))) }
    {
        let Some(command) = self.commands.get(q, cid) else {
            return Err(ControllerRefusal::NoJob);
        };
        if command.work.verdict().is_none() {
            return Err(ControllerRefusal::Walking);
        }
        if self.commands.is_waiting(command) {
            return Err(ControllerRefusal::Waits);
        }
        Ok(())
    }
}

impl<A: Allocator> Controller<A> {
    /// Posts the completion of a fetched command, and forgets the command. A Write that ends well changes the image here, and
    /// after a successful deletion of a submission queue that is not there (NVM Express Base Specification 2.0, "Common Completion Queue Entry",
    /// section 3.3.3.2). The list of the touched pages has two pages at most before, and gets that of the slot.
    ///
    /// # Errors
    ///
    /// 1. `NoJob`: there is no such command. 2. `Walking`: its list isn't walked to the end. 3. `Waits`: an Abort waits for the
    /// command that it stopped, a successful deletion of a submission queue for the queue's commands. 4. `Full`: the completion ring is full. 5. `SlotOut`: a
    /// byte of the slot is missing. Then nothing changed, and no page was touched.
    pub fn complete<D: Dma>(
        &mut self,
        q: u16,
        cid: u16,
        dma: &mut D,
    ) -> Result<(), ControllerRefusal>
        requires room { length (D.reached dma.old) ≤ 2 }
        ensures refusal { result_err result ≡ complete_refusal self.old (D.memory dma.old) q cid }
        ensures refused { OnErr result ((self.new ≡ self.old) × (D.memory dma.new ≡ D.memory dma.old) × (D.reached dma.new ≡ D.reached dma.old)) }
        ensures completes { OnOk result (CompletesTo self.old q cid (D.memory dma.old) (D.reached dma.old) self.new (D.memory dma.new) (D.reached dma.new)) }
        ensures sound { IsController self.new }
        ensures unlisted { D.unlisted dma.new ≡ D.unlisted dma.old }
        ensures pool { D.page_count dma.new ≡ D.page_count dma.old }
    {
        self.check_complete(q, cid)?;
        finish_at(
            &mut self.queues,
            &mut self.commands,
            &mut self.image,
            q,
            cid,
            dma,
        )
    }
}
