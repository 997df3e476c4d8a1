//! The controller's value, and its opening.

ghost use Rattle.std.specs.Prelude.{◌≡◌, ◌≤◌, ◌+◌, ◌++◌, [], ℕ, Some, IfOk, IfErr, find, length};
ghost use Rattle.std.specs.Option.{option_copied};
ghost use Rattle.block_image.specs.Blocks.{block_count};
ghost use Rattle.controller_core.specs.Contents.{is_command};
ghost use Rattle.controller_core.specs.Looks.{name_at};
ghost use Rattle.controller_core.specs.Opening.{fresh_queue, queues_from, opened};

use crate::command::FetchedCommand;
use crate::commands::Commands;
use crate::queue::{ControllerQueue, QueuePages};
use admin_commands::SqState;
use block_image::{Blocks, Image};
use io_commands::Job;
use queue_pair::DevicePair;
use std::alloc::{AllocError, Allocator, Global};
use std::marker::Model;
use thiserror::Error;

/// A controller. Contracts see its queues, the commands that it fetched and did not complete, in the order of the fetches, and its image.
///
/// The blocks of its namespace are those of an image that it holds, or, with [`Away`](block_image::Away), are lent for each call that reads or
/// writes them.
#[derive(Drop)]
pub struct Controller<A: Allocator = Global, I: Blocks = Image<A>> {
    pub(crate) alloc: A,
    pub(crate) queues: Vec<ControllerQueue, A>,
    pub(crate) commands: Commands<A>,
    pub(crate) image: I,
}

impl<A: Allocator, I: Blocks> Model for Controller<A, I> {
    ghost use Rattle.std.specs.Prelude.{◌≡◌, ◌≤◌, length};
    ghost use Rattle.controller_core.specs.Contents.{Contents, IsController};

    ghost Value = { Contents };

    ghost view = { λ c. record { queues = c.queues.items; commands = c.commands.list; image = I.bytes c.image } };

    ghost invariant = { λ c. IsController (record { queues = c.queues.items; commands = c.commands.list; image = I.bytes c.image }) × (c.commands.queues ≡ length c.queues.items) × (length c.queues.items ≤ 65536) };
}

/// Memory was refused to a controller that opens.
#[derive(Debug, Drop, Error)]
#[error("out of memory")]
pub struct OpenRefused<A: Allocator = Global> {
    /// The image, as it was handed in.
    pub image: Image<A>,
}

/// A queue that opens.
fn open_queue(q: u16, entries: u16, pages: QueuePages) -> ControllerQueue
    requires least { 2 ≤ entries }
    requires most { entries ≤ 1024 }
    ensures { result ≡ fresh_queue entries q pages }
{
    ControllerQueue {
        state: SqState::Live,
        cq_there: true,
        controller: DevicePair::open(q, entries, pages.sq, pages.cq),
    }
}

/// The queues that open, by their numbers.
fn open_queues<A: Allocator>(
    alloc: A,
    entries: u16,
    pages: &[QueuePages],
) -> Result<Vec<ControllerQueue, A>, AllocError>
    requires least { 2 ≤ entries }
    requires most { entries ≤ 1024 }
    requires few { length pages.now ≤ 65536 }
    ensures { IfOk result (λ queues. queues.items ≡ queues_from entries 0 pages.now) }
{
    let mut queues = Vec::with_capacity(alloc, pages.len())?;
    for (i, halves) in pages.iter().enumerate() {
        queues.push_reserved(open_queue(i as u16, entries, *halves));
    }
    Ok(queues)
}

/// The queues that open, and no commands of them.
pub(crate) fn open_parts<A: Allocator + Copy>(
    alloc: A,
    entries: u16,
    pages: &[QueuePages],
) -> Result<(Vec<ControllerQueue, A>, Commands<A>), AllocError>
    requires least { 2 ≤ entries }
    requires most { entries ≤ 1024 }
    requires few { length pages.now ≤ 65536 }
    ensures queues { IfOk result (λ parts. parts.0.items ≡ queues_from entries 0 pages.now) }
    ensures commands { IfOk result (λ parts. parts.1 ≡ record { queues = length parts.0.items; list = [] }) }
{
    let queues = open_queues(alloc, entries, pages)?;
    let commands = Commands::open(alloc, queues.len())?;
    Ok((queues, commands))
}

impl<A: Allocator + Copy> Controller<A> {
    /// A controller over an image, with this many entries in each ring. Queue i has the i-th of the pages; queue 0 is the admin queue. Each
    /// queue is live with empty rings, and nothing is fetched.
    ///
    /// # Errors
    ///
    /// Where memory is refused. The image comes back.
    pub fn open(
        alloc: A,
        entries: u16,
        pages: &[QueuePages],
        image: Image<A>,
    ) -> Result<Controller<A>, OpenRefused<A>>
        requires least { 2 ≤ entries }
        requires most { entries ≤ 1024 }
        requires few { length pages.now ≤ 65536 }
        ensures opened { IfOk result (λ controller. controller ≡ opened entries pages.now image) }
        ensures handed_back { IfErr result (λ refused. refused.image ≡ image) }
    {
        match open_parts(alloc, entries, pages) {
            Ok((queues, commands)) => Ok(Controller {
                alloc,
                queues,
                commands,
                image,
            }),
            Err(_) => Err(OpenRefused { image }),
        }
    }
}

impl<A: Allocator> Controller<A> {
    /// The image.
    pub fn image(&self) -> &Image<A>
        ensures { result.now ≡ self.now.image }
    {
        &self.image
    }
}

impl<A: Allocator, I: Blocks> Controller<A, I> {
    /// How many blocks its namespace has.
    pub fn blocks(&self) -> u32
        ensures { result ≡ block_count self.now.image }
    {
        self.image.blocks()
    }

    /// The queues, by their numbers.
    pub fn queues(&self) -> &[ControllerQueue]
        ensures { result.now ≡ self.now.queues }
    {
        &self.queues
    }

    /// The command of this identifier that was fetched from a queue and not completed.
    pub fn command(&self, q: u16, cid: u16) -> Option<&FetchedCommand<Job<A>>>
        ensures { option_copied result ≡ find (is_command q cid) self.now.commands }
    {
        self.commands.get(q, cid)
    }

    /// How many commands were fetched and not completed.
    pub fn command_count(&self) -> usize
        ensures { result ≡ length self.now.commands }
    {
        self.commands.len()
    }

    /// The queue and the identifier of the command that was fetched first, of those that are not completed.
    pub fn first_command(&self) -> Option<(u16, u16)>
        ensures { result ≡ name_at self.now.commands 0 }
    {
        self.commands.first()
    }

    /// The queue and the identifier of the command that was fetched next after the one of this name, of those that are not completed.
    pub fn next_command(&self, q: u16, cid: u16) -> Option<(u16, u16)>
        ensures { (n : ℕ) → name_at self.now.commands n ≡ Some (q, cid) → result ≡ name_at self.now.commands (n + 1) }
    {
        self.commands.next(q, cid)
    }
}
