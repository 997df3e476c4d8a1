//! A controller that holds no blocks: they are lent for each call that reads or writes them.

ghost use Rattle.std.specs.Prelude.{◌≡◌, ◌*◌, ◌<◌, ◌≤◌, IfOk, OnOk, OnErr, length, replicate};
ghost use Rattle.std.specs.Result.{result_err};
ghost use Rattle.block_image.specs.Blocks.{block_count};
ghost use Rattle.controller_core.specs.Completing.{CompletesTo};
ghost use Rattle.controller_core.specs.Contents.{IsController};
ghost use Rattle.controller_core.specs.Lending.{with_image, bytes_lent, is_in, not_lent, lacked, fetch_lacked, lent_refusal, FetchesLent};
ghost use Rattle.controller_core.specs.Opening.{opened};

use crate::complete::finish_at;
use crate::controller::{Controller, open_parts};
use crate::queue::QueuePages;
use crate::refusal::ControllerRefusal;
use block_image::{Away, Lent};
use entry_codec::SubEntry;
use io_commands::{begin_job, block_number, first_block, lacks_read};
use page_memory::Dma;
use std::alloc::{AllocError, Allocator};
use thiserror::Error;

/// Why a call that is lent blocks was refused.
#[derive(Clone, Copy, Debug, PartialEq, Eq, Error)]
pub enum LentRefusal {
    /// As over an image.
    #[error("{0}")]
    Refused(ControllerRefusal),
    /// The command wants these blocks, and not all of them are lent.
    #[error("{count} blocks from {slba} on are wanted, and not all of them are lent")]
    NotLent {
        /// The first of them.
        slba: u64,
        /// How many.
        count: u32,
    },
}

impl From<ControllerRefusal> for LentRefusal {
    ghost use Rattle.std.specs.Prelude.{◌≡◌};
    ghost use Rattle.controller_core.specs.declared.lending.LentRefusal.TheVariants as refusals;

    ghost from_gives = { λ why given. given ≡ refusals.Refused why };

    fn from(why: ControllerRefusal) -> LentRefusal {
        LentRefusal::Refused(why)
    }
}

impl From<AllocError> for LentRefusal {
    ghost use Rattle.std.specs.Prelude.{◌≡◌};
    ghost use Rattle.controller_core.specs.declared.lending.LentRefusal.TheVariants as refusals;
    ghost use Rattle.controller_core.specs.declared.refusal.ControllerRefusal.TheVariants as causes;

    ghost from_gives = { λ _ given. given ≡ refusals.Refused causes.Memory };

    fn from(_: AllocError) -> LentRefusal {
        LentRefusal::Refused(ControllerRefusal::Memory)
    }
}

/// The refusal for want of the blocks that an entry names.
fn wants(entry: &SubEntry) -> LentRefusal
    ensures { result ≡ not_lent entry.now }
{
    LentRefusal::NotLent {
        slba: first_block(entry),
        count: block_number(entry),
    }
}

impl<A: Allocator + Copy> Controller<A, Away> {
    /// A controller of a namespace of this many blocks, which are kept elsewhere. All else is as [`Controller::open`] opens it.
    ///
    /// # Errors
    ///
    /// Where memory is refused.
    pub fn open_over(
        alloc: A,
        entries: u16,
        pages: &[QueuePages],
        blocks: u32,
    ) -> Result<Controller<A, Away>, AllocError>
        requires least { 2 ≤ entries }
        requires most { entries ≤ 1024 }
        requires few { length pages.now ≤ 65536 }
        requires some { 0 < blocks }
        ensures { IfOk result (λ controller. controller ≡ opened entries pages.now (replicate (512 * blocks) 0)) }
    {
        let (queues, commands) = open_parts(alloc, entries, pages)?;
        Ok(Controller {
            alloc,
            queues,
            commands,
            image: Away::new(blocks),
        })
    }

    /// Fetches the entry at the head of a submission queue, as [`Controller::fetch`] does, over the blocks of which some are lent. Those of a Read
    /// that passes its field checks are wanted. The namespace of what is lent has as many blocks as that of the controller.
    ///
    /// # Errors
    ///
    /// Those of [`Controller::fetch`], and `NotLent` where a Read begins and its blocks are not all lent: before it asks for memory, after all
    /// other causes. Then nothing changed but the touched list, which has the entry's page.
    pub fn fetch_over<D: Dma>(
        &mut self,
        q: u16,
        dma: &mut D,
        lent: &Lent,
    ) -> Result<u16, LentRefusal>
        requires room { length (D.reached dma.old) ≤ 1 }
        requires as_many { lent.now.blocks ≡ block_count self.old.image }
        ensures fetches { FetchesLent (with_image self.old (bytes_lent lent.now)) (D.page_count dma.old) (D.memory dma.old) (D.reached dma.old) q result (with_image self.new (bytes_lent lent.now)) (D.memory dma.new) (D.reached dma.new) }
        ensures lacks { lacked result ≡ fetch_lacked (is_in lent.now) self.old (D.memory dma.old) q }
        ensures image { self.new.image ≡ self.old.image }
        ensures sound { IsController self.new }
        ensures unlisted { D.unlisted dma.new ≡ D.unlisted dma.old }
        ensures pool { D.page_count dma.new ≡ D.page_count dma.old }
    {
        let entry = self.look(q, dma)?;
        let cid = entry.cid;
        if self.take_at_once(q, entry, dma)? {
            return Ok(cid);
        }
        if lacks_read(&entry, lent) {
            return Err(wants(&entry));
        }
        let job = begin_job(self.alloc, &entry, lent)?;
        self.keep_job(q, job)?;
        Ok(cid)
    }

    /// Completes a fetched command, as [`Controller::complete`] does, over the blocks of which some are lent. Those of a Compare and of a Write
    /// whose data was moved are wanted; what a Write writes then stands in what is lent. The namespace of what is lent has as many blocks as that
    /// of the controller.
    ///
    /// # Errors
    ///
    /// Those of [`Controller::complete`], and `NotLent` where the blocks of such a command are not all lent: after `Waits`, before the
    /// completion is posted. Then nothing changed.
    pub fn complete_over<D: Dma>(
        &mut self,
        q: u16,
        cid: u16,
        dma: &mut D,
        lent: &mut Lent,
    ) -> Result<(), LentRefusal>
        requires room { length (D.reached dma.old) ≤ 2 }
        requires as_many { lent.old.blocks ≡ block_count self.old.image }
        ensures refusal { result_err result ≡ lent_refusal (is_in lent.old) self.old (D.memory dma.old) q cid }
        ensures refused { OnErr result ((self.new ≡ self.old) × (bytes_lent lent.new ≡ bytes_lent lent.old) × (D.memory dma.new ≡ D.memory dma.old) × (D.reached dma.new ≡ D.reached dma.old)) }
        ensures completes { OnOk result (CompletesTo (with_image self.old (bytes_lent lent.old)) q cid (D.memory dma.old) (D.reached dma.old) (with_image self.new (bytes_lent lent.new)) (D.memory dma.new) (D.reached dma.new)) }
        ensures image { self.new.image ≡ self.old.image }
        ensures sound { IsController self.new }
        ensures same { lent.new.bytes.ghost_name ≡ lent.old.bytes.ghost_name }
        ensures blocks { lent.new.blocks ≡ lent.old.blocks }
        ensures first { lent.new.first ≡ lent.old.first }
        ensures length { length lent.new.bytes.now ≡ length lent.old.bytes.now }
        ensures unlisted { D.unlisted dma.new ≡ D.unlisted dma.old }
        ensures pool { D.page_count dma.new ≡ D.page_count dma.old }
    {
        self.check_complete(q, cid)?;
        let work = &self.commands.get(q, cid).unwrap().work;
        if work.lacks_blocks(lent) {
            return Err(wants(work.entry()));
        }
        finish_at(&mut self.queues, &mut self.commands, lent, q, cid, dma)?;
        Ok(())
    }
}
