//! The opening of a world.

ghost use Rattle.std.specs.Prelude.{◌≡◌, ◌≤◌, None, IfOk, IfErr};
ghost use Rattle.host_core.specs.Opening.{refusal_of_config, opened_view, opened_pages, RefusesOpening};
ghost use Rattle.host_core.specs.Touching.{IsUntouched};
ghost use Rattle.machine_model.specs.declared.words.Peer.TheVariants.{Modelled};
ghost use Rattle.machine_model.specs.declared.words.OpenRefusal.TheVariants.{Memory};
ghost use Rattle.step_core.specs.Opening.{opening_of};
ghost use Rattle.two_sides.specs.Opening.{halves_from};

use crate::world::World;
use arrayvec::ArrayVec;
use block_image::Image;
use controller_core::{Controller, QueuePages};
use host_core::{Config, Host, Opened};
use machine_model::words::{OpenRefusal, Peer};
use page_memory::{Half, PageNo};
use queue_pair::half_pages;
use std::alloc::{Allocator, Global};

/// A world that was not opened.
#[derive(Debug, Drop)]
pub struct OpenRefused<A: Allocator = Global> {
    /// The image, as it was handed in.
    pub image: Image<A>,
    /// Why.
    pub why: OpenRefusal,
}

/// Where the halves of this many queues begin: they are the lowest pages, one queue's after the other's.
fn halves(entries: u16, count: u16) -> ArrayVec<QueuePages, 65>
    requires few { count ≤ 65 }
    requires most { entries ≤ 1024 }
    ensures { result.items ≡ halves_from 0 entries count }
{
    let submission = half_pages(entries, Half::Submission);
    let completion = half_pages(entries, Half::Completion);
    let mut halves = ArrayVec::new();
    for q in 0..count {
        let first = u32::from(q) * (submission + completion);
        halves.push(QueuePages {
            sq: PageNo(first),
            cq: PageNo(first + submission),
        });
    }
    halves
}

impl<A: Allocator + Copy> World<A> {
    /// Opens a world over an image. Every page is in and zero, every queue is live with empty rings, no command is outstanding, no page
    /// was touched, and nothing was forged.
    ///
    /// # Errors
    ///
    /// 1. `BadConfig` where a number lies outside its limits. 2. `NoPages` where the halves of all queues, those of queue 0 among
    /// them, need more pages than the pool has. 3. `Memory` where memory is refused. The image comes back.
    pub fn open(alloc: A, config: Config, image: Image<A>) -> Result<World<A>, OpenRefused<A>>
        ensures fits { IfOk result (λ world. refusal_of_config config ≡ None) }
        ensures opened { IfOk result (λ world. world.state ≡ opening_of config image) }
        ensures touches { IfOk result (λ world. world.touches ≡ 0) }
        ensures refused { IfErr result (λ refused. RefusesOpening config refused.why) }
        ensures handed_back { IfErr result (λ refused. refused.image ≡ image) }
    {
        match Host::open(alloc, config, Peer::Modelled) {
            Ok(opened) => World::over(opened, alloc, config, image),
            Err(why) => Err(OpenRefused { image, why }),
        }
    }

    /// Opens a world over an image, with a host that was opened.
    ///
    /// # Errors
    ///
    /// `Memory` where memory is refused. The image comes back.
    pub fn over(
        opened: Opened<A>,
        alloc: A,
        config: Config,
        image: Image<A>,
    ) -> Result<World<A>, OpenRefused<A>>
        requires fits { refusal_of_config config ≡ None }
        requires host { opened.host ≡ opened_view config Modelled }
        requires pages { opened.store.pages ≡ opened_pages config }
        requires untouched { IsUntouched opened.store }
        ensures opened { IfOk result (λ world. world.state ≡ opening_of config image) }
        ensures touches { IfOk result (λ world. world.touches ≡ 0) }
        ensures refused { IfErr result (λ refused. refused.why ≡ Memory) }
        ensures handed_back { IfErr result (λ refused. refused.image ≡ image) }
    {
        let Opened { host, store } = opened;
        let entries = config.entries as u16;
        let halves = halves(entries, config.queues as u16 + 1);
        match Controller::open(alloc, entries, &halves, image) {
            Ok(controller) => Ok(World {
                host,
                controller,
                store,
                trusted: true,
            }),
            Err(refused) => Err(OpenRefused {
                image: refused.image,
                why: OpenRefusal::Memory,
            }),
        }
    }
}
