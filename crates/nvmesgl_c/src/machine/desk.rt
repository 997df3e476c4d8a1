//! A bench that ends where it is dropped.

ghost use Rattle.std.specs.Prelude.{◌≡◌, IfOk, IfErr, IfNone, IfSome, IsTrue, None, length};
ghost use Rattle.machine_model.specs.Script.{finished_at, table};
ghost use Rattle.nvmesgl_c.specs.Gathering.{IsGathered, IsUngathered};
ghost use Rattle.nvmesgl_c.specs.MachineLooks as looks;
ghost use Rattle.nvmesgl_c.specs.MachineLooks.{FindsOwner};
ghost use Rattle.step_core.specs.Bench.{Does};
ghost use Rattle.world_bench.specs.Collecting.{CollectsOnce};
ghost use Rattle.step_core.specs.Looks.{IsAtRest};
ghost use Rattle.host_core.specs.Opening.{refusal_of_config, RefusesOpening};
ghost use Rattle.step_core.specs.Opening.{opening_of};

use crate::machine::looks::CCounts;
use crate::words::gather_into;
use std::alloc::Global;
use std::marker::Model;
use step_core::{Config, ControllerStep, Image, OpenRefused, Owner, PageNo, Reply, Step};
use world_bench::Bench;

/// A bench that ends where it is dropped. Contracts see the bench's table.
pub struct Desk {
    bench: Bench,
}

impl Model for Desk {
    ghost use Rattle.machine_model.specs.Script.{Table};

    ghost Value = { Table };

    ghost view = { λ d. d.bench.table };
}

impl Desk {
    /// Opens a bench over an image.
    ///
    /// # Errors
    ///
    /// As `Bench::open`. The image comes back.
    pub fn open(alloc: Global, config: Config, image: Image) -> Result<Desk, OpenRefused>
        ensures fits { IfOk result (λ desk. refusal_of_config config ≡ None) }
        ensures opened { IfOk result (λ desk. desk ≡ table (opening_of config image)) }
        ensures refused { IfErr result (λ refused. RefusesOpening config refused.why) }
    {
        let bench = Bench::open(alloc, config, image)?;
        Ok(Desk { bench })
    }

    /// How many pages the pool has and each class of them, and whether nothing was forged.
    pub fn counts(&self) -> CCounts
        ensures { result ≡ looks.counts_of self.now }
    {
        let counts = self.bench.counts();
        CCounts {
            pages: self.bench.pages(),
            free_pages: counts.free_pages,
            queue_pages: counts.queue_pages,
            chain_pages: counts.chain_pages,
            data_pages: counts.data_pages,
            trusted: self.bench.trusted(),
            reserved: [0; 4],
        }
    }

    /// The owner of a page; none where the pool has no such page.
    pub fn owner(&self, page: u32) -> Option<Owner>
        ensures { FindsOwner self.now page result }
    {
        if page < self.bench.pages() {
            Some(self.bench.owner(PageNo(page)))
        } else {
            None
        }
    }

    /// A step that the controller can do, as `Bench::next_step` tells it.
    pub fn next_step(&mut self) -> Option<ControllerStep>
        ensures rest { IfNone result (IsTrue self.old.world.trusted → IsAtRest self.old.world) }
        ensures same { self.new ≡ self.old }
    {
        self.bench.next_step()
    }

    /// Gathers what a collected command brought to the start of a buffer, as [`gather_into`] does.
    pub fn gather_into(&self, q: u16, cid: u16, buffer: &mut [u8]) -> Option<usize>
        ensures laid { IfSome result (λ count. IsGathered (finished_at q cid self.now.finished) count buffer.old buffer.new) }
        ensures kept { IfNone result (buffer.new ≡ buffer.old) }
        ensures unlaid { IfNone result (IsUngathered (finished_at q cid self.now.finished) (length buffer.old)) }
    {
        gather_into(self.bench.finished(q, cid), buffer)
    }

    /// Does one step.
    pub fn step(&mut self, step: Step) -> Reply
        ensures does { Does self.old step result self.new }
        ensures once { CollectsOnce self.old step result }
    {
        self.bench.step(step)
    }
}

impl Drop for Desk {
    fn drop(self) {
        let Desk { bench } = self;
        drop(bench.end());
    }
}
