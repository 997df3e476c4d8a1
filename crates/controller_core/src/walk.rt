//! The controller walks the list of a command.

ghost use Rattle.std.specs.Prelude.{◌≡◌, ◌≤◌, None, IfOk, OnErr, length};
ghost use Rattle.std.specs.Result.{result_err};
ghost use Rattle.controller_core.specs.Contents.{IsController};
ghost use Rattle.controller_core.specs.Walking.{ended_refusal, refusal_among, walk_refusal, WalksOne, WalksTo};

use crate::command::{FetchedCommand, FetchedWork};
use crate::commands::Commands;
use crate::controller::Controller;
use crate::refusal::ControllerRefusal;
use block_image::Blocks;
use controller_walk::WalkState;
use io_commands::Job;
use page_memory::Dma;
use std::alloc::Allocator;

impl<A: Allocator> FetchedCommand<Job<A>> {
    /// Does the next unit of its list.
    ///
    /// # Errors
    ///
    /// `Nothing` where it has its verdict, as an admin command has from its fetch on. Then nothing changed.
    pub(crate) fn walk<D: Dma>(&mut self, dma: &mut D) -> Result<WalkState, ControllerRefusal>
        requires few { ended_refusal self.old ≡ None → self.old.units_done ≤ 12545 }
        requires room { length (D.reached dma.old) ≤ 2 }
        ensures refusal { result_err result ≡ ended_refusal self.old }
        ensures refused { OnErr result ((self.new ≡ self.old) × (D.memory dma.new ≡ D.memory dma.old) × (D.reached dma.new ≡ D.reached dma.old)) }
        ensures walks { IfOk result (λ state. WalksOne self.old (D.memory dma.old) (D.reached dma.old) state self.new (D.memory dma.new) (D.reached dma.new)) }
        ensures unlisted { D.unlisted dma.new ≡ D.unlisted dma.old }
        ensures pool { D.page_count dma.new ≡ D.page_count dma.old }
    {
        match &mut self.work {
            FetchedWork::Io(job) => {
                if job.verdict().is_some() {
                    return Err(ControllerRefusal::Nothing);
                }
                let state = job.step(dma);
                self.units_done += 1;
                Ok(state)
            }
            FetchedWork::Admin { .. } => Err(ControllerRefusal::Nothing),
        }
    }
}

impl<A: Allocator> Commands<A> {
    /// Whether the walk of a command goes on.
    ///
    /// # Errors
    ///
    /// The first cause against it.
    pub(crate) fn check_walk(&self, q: u16, cid: u16) -> Result<(), ControllerRefusal>
        ensures refusal { result_err result ≡ refusal_among self.now.list q cid }
    {
        let Some(command) = self.get(q, cid) else {
            return Err(ControllerRefusal::NoJob);
        };
        match command.work.verdict() {
            Some(_) => Err(ControllerRefusal::Nothing),
            None => Ok(()),
        }
    }
}

impl<A: Allocator, I: Blocks> Controller<A, I> {
    /// Does the next unit of the list of a fetched command: takes a descriptor, or moves the bytes of one page. With the last unit it
    /// answers `End` or a fault, which is then the command's verdict (NVM Express Base Specification 2.0, "Scatter Gather List
    /// (SGL)", section 4.1.2). The list of the touched pages has two pages at most before, and gets those of the unit.
    ///
    /// # Errors
    ///
    /// 1. `NoJob`: there is no such command. 2. `Nothing`: it has its verdict already, as each admin command has. Then nothing
    /// changed, and no page was touched.
    pub fn walk<D: Dma>(
        &mut self,
        q: u16,
        cid: u16,
        dma: &mut D,
    ) -> Result<WalkState, ControllerRefusal>
        requires room { length (D.reached dma.old) ≤ 2 }
        ensures refusal { result_err result ≡ walk_refusal self.old q cid }
        ensures refused { OnErr result ((self.new ≡ self.old) × (D.memory dma.new ≡ D.memory dma.old) × (D.reached dma.new ≡ D.reached dma.old)) }
        ensures walks { IfOk result (λ state. WalksTo self.old q cid (D.memory dma.old) (D.reached dma.old) state self.new (D.memory dma.new) (D.reached dma.new)) }
        ensures sound { IsController self.new }
        ensures unlisted { D.unlisted dma.new ≡ D.unlisted dma.old }
        ensures pool { D.page_count dma.new ≡ D.page_count dma.old }
    {
        self.commands.walk(q, cid, dma)
    }
}
