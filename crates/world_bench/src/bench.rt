//! A bench: lists of steps are run on a world, with the drafts, tickets and finished commands that it keeps.

ghost use Rattle.std.specs.Prelude.{◌≡◌, ◌+◌, ◌*◌, ◌<◌, ◌≤◌, [], length, vec_len, vec_capacity, Some, None, IfOk, IfErr, IfNone, IfSome, IsTrue, OnOk, OnErr, slice_get};
ghost use Rattle.std.specs.Bool.{OnTrue};
ghost use Rattle.std.specs.List.{Contains};
ghost use Rattle.std.specs.Option.{option_copied, option_map};
ghost use Rattle.machine_model.specs.Claims.{claims_of, counts_of, IsSound};
ghost use Rattle.machine_model.specs.Script.{finished_at, table};
ghost use Rattle.machine_model.specs.State.{outstanding_on};
ghost use Rattle.page_memory.specs.Memory.{bytes_at};
ghost use Rattle.page_memory.specs.Pages.{byte_at};
ghost use Rattle.queue_pair.specs.Positions.{host_positions};
ghost use Rattle.page_ledger.specs.Counting.{total};
ghost use Rattle.machine_model.specs.Refusals.{refusal_of};
ghost use Rattle.step_core.specs.Bench.{Does, DoesAll};
ghost use Rattle.step_core.specs.Looks.{IsAtRest, event_of};
ghost use Rattle.world_bench.specs.BenchTables.{table_of, contents_of};
ghost use Rattle.host_bench.specs.CommandValues.{IsBench};
ghost use Rattle.step_core.specs.Rings.{ShowsHalves, TellsRung, TellsFetching, TellsPosting};
ghost use Rattle.host_core.specs.Opening.{refusal_of_config, RefusesOpening};
ghost use Rattle.step_core.specs.Opening.{opening_of};
ghost use Rattle.step_core.specs.Touching.{LooksAtMost, StepTouches};
ghost use Rattle.world_bench.specs.Collecting.{CollectsOnce};
ghost use Rattle.world_bench.specs.TouchingAll.{TouchAll};

use crate::bench_tables::BenchTables;
use block_image::Image;
use host_bench::values::finished_in;
use host_core::{Config, Host};
use io_commands::Finished;
use machine_model::words::{OpenRefusal, Peer};
use page_ledger::{Counts, Owner};
use page_memory::{PageNo, Unreadable};
use slot_table::SlotTable;
use std::alloc::{AllocError, Allocator, Global};
use std::marker::Model;
use step_core::{ControllerStep, Ended, OpenRefused, ReplyIn, Rings, StepIn, World};

/// A world, with the drafts, tickets and finished commands that it keeps. Contracts see the world's state and these lists (`table`), a
/// ticket as its queue and identifier, and how many pages were touched so far (`touches`).
pub struct Bench<A: Allocator = Global> {
    kept: BenchTables<A>,
}

impl<A: Allocator> Model for Bench<A> {
    ghost use Rattle.world_bench.specs.BenchTables.{BenchContents, contents_of};
    ghost use Rattle.host_bench.specs.CommandValues.{IsBench};

    ghost Value = { BenchContents };

    ghost view = { λ b. contents_of b.kept };

    ghost invariant = { λ b. IsBench b.kept.world.state b.kept.values };
}

impl<A: Allocator + Copy> BenchTables<A> {
    /// Does the steps in order, with room for their answers.
    fn do_all(&mut self, steps: Vec<StepIn<A>, A>, replies: &mut Vec<ReplyIn<A>, A>)
        requires bench { IsBench self.old.world.state self.old.values }
        requires answers { vec_len replies.old + length steps.items ≤ vec_capacity replies.old }
        requires none { replies.old.items ≡ [] }
        ensures does { DoesAll (table_of self.old) steps.items replies.new.items (table_of self.new) }
        ensures touches { TouchAll (contents_of self.old) steps.items replies.new.items (contents_of self.new) }
        ensures kept { IsBench self.new.world.state self.new.values }
    {
        for step in steps {
            let reply = self.step(step);
            replies.push_reserved(reply);
        }
    }
}

impl<A: Allocator + Copy> Bench<A> {
    /// Opens a world over an image, with no kept values.
    ///
    /// # Errors
    ///
    /// As [`World::open`]. The image comes back.
    pub fn open(alloc: A, config: Config, image: Image<A>) -> Result<Bench<A>, OpenRefused<A>>
        ensures fits { IfOk result (λ bench. refusal_of_config config ≡ None) }
        ensures opened { IfOk result (λ bench. bench ≡ record { table = table (opening_of config image); touches = 0 }) }
        ensures refused { IfErr result (λ refused. RefusesOpening config refused.why) }
        ensures handed_back { IfErr result (λ refused. refused.image ≡ image) }
    {
        let opened = match Host::open(alloc, config, Peer::Modelled) {
            Ok(opened) => opened,
            Err(why) => return Err(OpenRefused { image, why }),
        };
        let values = match SlotTable::open(alloc, config.queues + 1, config.entries) {
            Ok(values) => values,
            Err(_) => {
                return Err(OpenRefused {
                    image,
                    why: OpenRefusal::Memory,
                });
            }
        };
        match World::over(opened, alloc, config, image) {
            Ok(world) => Ok(Bench {
                kept: BenchTables {
                    world,
                    values,
                    alloc,
                },
            }),
            Err(refused) => Err(refused),
        }
    }

    /// Does the steps, one after the other, and answers what each answered. A step that is refused changes nothing, and the next
    /// one is done all the same; lack of memory inside a step is that step's answer.
    ///
    /// # Errors
    ///
    /// Where memory is refused for the answers. Then no step was done.
    pub fn run(&mut self, steps: Vec<StepIn<A>, A>) -> Result<Vec<ReplyIn<A>, A>, AllocError>
        ensures ran { IfOk result (λ replies. DoesAll self.old.table steps.items replies.items self.new.table) }
        ensures touches { IfOk result (λ replies. TouchAll self.old steps.items replies.items self.new) }
        ensures refused { OnErr result (self.new ≡ self.old) }
    {
        let mut replies = Vec::with_capacity(self.kept.alloc, steps.len())?;
        self.kept.do_all(steps, &mut replies);
        Ok(replies)
    }

    /// Does one step, and answers what it answered. A step that is refused changes nothing; lack of memory inside the step is its answer.
    pub fn step(&mut self, step: StepIn<A>) -> ReplyIn<A>
        ensures does { Does self.old.table step result self.new.table }
        ensures touches { StepTouches self.old.table.world.entries self.old.touches step result self.new.table self.new.touches }
        ensures once { CollectsOnce self.old.table step result }
    {
        self.kept.step(step)
    }

    /// The image as it is.
    pub fn image(&self) -> &Image<A>
        ensures { result.now ≡ self.now.table.world.controller.image }
    {
        self.kept.world.image()
    }

    /// Fills the buffer with the bytes of the pool starting at an address, as [`World::read`] does.
    ///
    /// # Errors
    ///
    /// As there.
    pub fn read(&mut self, addr: u64, into: &mut [u8]) -> Result<(), Unreadable>
        requires some { 0 < length into.old }
        requires few { length into.old ≤ 4096 }
        ensures read { OnOk result (bytes_at (byte_at self.old.table.world.memory) addr (length into.old) ≡ Some into.new) }
        ensures missing { OnErr result (bytes_at (byte_at self.old.table.world.memory) addr (length into.old) ≡ None) }
        ensures kept { OnErr result (into.new ≡ into.old) }
        ensures same { self.new.table ≡ self.old.table }
        ensures looks { LooksAtMost 2 self.old.touches self.new.touches }
    {
        self.kept.world.read(addr, into)
    }

    /// A collected command, to look at and to gather its bytes from where they lie; none where no such command is collected.
    pub fn finished(&self, q: u16, cid: u16) -> Option<&Finished<A>>
        ensures { option_copied result ≡ finished_at q cid self.now.table.finished }
    {
        finished_in(&self.kept.values, q, cid)
    }

    /// Where both sides stand in the rings of a queue, as [`World::rings`] reports it.
    pub fn rings(&self, q: u16) -> Option<Rings>
        ensures state { option_map (λ rings. rings.state) result ≡ option_map (λ queue. queue.state) (slice_get self.now.table.world.host.queues q) }
        ensures host { option_map (λ rings. rings.host) result ≡ option_map (λ queue. host_positions queue.ring) (slice_get self.now.table.world.host.queues q) }
        ensures outstanding { IfSome result (λ rings. rings.outstanding ≡ length (outstanding_on self.now.table.world.host q)) }
        ensures halves { IfSome result (λ rings. ShowsHalves self.now.table.world q rings) }
        ensures rung { IfSome result (λ rings. TellsRung self.now.table.world q rings) }
        ensures fetching { IfSome result (λ rings. OnTrue self.now.table.world.trusted (TellsFetching self.now.table.world q rings)) }
        ensures posting { IfSome result (λ rings. OnTrue self.now.table.world.trusted (TellsPosting self.now.table.world q rings)) }
    {
        self.kept.world.rings(q)
    }

    /// The owner of a page of the pool: that of the one claim that contains it.
    pub fn owner(&self, p: PageNo) -> Owner
        requires { p < length self.now.table.world.memory }
        ensures { Contains (claims_of self.now.table.world.host) (p, result) }
    {
        self.kept.world.owner(p)
    }

    /// How many pages are free, and how many belong to queues, to chains and to data.
    pub fn counts(&self) -> Counts
        ensures counts { result ≡ counts_of self.now.table.world.host }
        ensures all { total result ≡ length self.now.table.world.memory }
    {
        self.kept.world.counts()
    }

    /// How many pages the pool has, 8 to 65,536.
    pub fn pages(&self) -> u32
        ensures pages { result ≡ length self.now.table.world.memory }
        ensures least { 8 ≤ length self.now.table.world.memory }
        ensures most { length self.now.table.world.memory ≤ 65536 }
    {
        self.kept.world.pages()
    }

    /// Whether nothing was forged since the opening or the last reset.
    pub fn trusted(&self) -> bool
        ensures { result ≡ self.now.table.world.trusted }
    {
        self.kept.world.trusted()
    }

    /// How many pages were touched since the bench opened, as [`World::touches`] says.
    pub fn touches(&self) -> u64
        ensures { result ≡ self.now.touches }
    {
        self.kept.world.touches()
    }

    /// A step that the controller can do, as [`World::next_step`] reports it. It makes no step.
    pub fn next_step(&mut self) -> Option<ControllerStep>
        ensures possible { IfSome result (λ step. IsTrue self.old.table.world.trusted → refusal_of self.old.table.world (event_of step) ≡ None) }
        ensures rest { IfNone result (IsTrue self.old.table.world.trusted → IsAtRest self.old.table.world) }
        ensures same { self.new.table ≡ self.old.table }
        ensures looks { LooksAtMost (2 * length self.old.table.world.host.queues + 1) self.old.touches self.new.touches }
    {
        self.kept.world.next_step()
    }

    /// Shows that the bench's world is sound, whatever was forged, as [`World::check`] does. It does nothing.
    pub fn check(&self)
        ensures { IsSound self.now.table.world }
    {
        self.kept.world.check();
    }

    /// Ends the bench: its world, and each value that it keeps. It allocates no memory.
    pub fn end(self) -> Ended {
        let Bench { kept } = self;
        let BenchTables {
            world,
            values,
            alloc: _,
        } = kept;
        drop(values);
        world.end()
    }
}
