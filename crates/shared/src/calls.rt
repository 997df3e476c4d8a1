//! Calls of a shared world by [`Shared::with`], one of each sort: what its caller knows afterwards is what the world's call says, of some sound
//! world. The others are written so too.

ghost use Rattle.std.specs.Prelude.{◌≡◌, IfErr, IfOk};
ghost use Rattle.machine_model.specs.Events as events;
ghost use Rattle.step_core.specs.Replies.{accept_reply, fetch_reply, reap_reply, ring_reply};
ghost use Rattle.shared.specs.Sharing.{Counted, Recovers, Served, Stepped, TellsOwner};

use crate::changes::Changes;
use crate::lock::Shared;
use io_commands::{Draft, Ticket};
use page_ledger::{Counts, Owner};
use page_memory::PageNo;
use std::alloc::Allocator;
use std::sync::Wait;
use step_core::{Fetched, Reaped, Refusal, Refused, StepRefused, World};

/// [`World::submit`], which takes a value.
///
/// # Errors
///
/// As there; the draft is handed back.
pub fn submit<A: Allocator + Copy, R: Wait>(
    shared: &Shared<World<A>>,
    rt: &R,
    draft: Draft<A>,
) -> Result<Ticket, Refused<Draft<A>>>
    ensures step { Stepped (events.Submit draft) (accept_reply result) }
    ensures back { IfErr result (λ r. r.value ≡ draft) }
    ensures ticket { IfOk result (λ ticket. ticket ≡ record { q = draft.q; cid = draft.cid }) }
{
    shared.with(rt, Changes::NONE, draft, |world, draft| world.submit(draft))
}

/// [`World::ring`].
///
/// # Errors
///
/// As there.
pub fn ring<A: Allocator + Copy, R: Wait>(
    shared: &Shared<World<A>>,
    rt: &R,
    q: u16,
) -> Result<(), Refusal>
    ensures { Stepped (events.Ring q) (ring_reply result) }
{
    shared.with(rt, Changes::NONE, q, |world, q| world.ring(q))
}

/// [`World::reap`]. Of queue 0 it may have changed a queue.
///
/// # Errors
///
/// As there.
pub fn reap<A: Allocator + Copy, R: Wait>(
    shared: &Shared<World<A>>,
    rt: &R,
    q: u16,
) -> Result<Reaped, Refusal>
    ensures { Stepped (events.Reap q) (reap_reply result) }
{
    let changes = if q == 0 { Changes::ALL } else { Changes::ENDED };
    shared.with(rt, changes, q, |world, q| world.reap(q))
}

/// [`World::fetch`], a step of the controller.
///
/// # Errors
///
/// As there.
pub fn fetch<A: Allocator + Copy, R: Wait>(
    shared: &Shared<World<A>>,
    rt: &R,
    q: u16,
) -> Result<Fetched, StepRefused>
    ensures { Served (events.Fetch q) (fetch_reply result) }
{
    shared.with(rt, Changes::NONE, q, |world, q| world.fetch(q))
}

/// [`World::reset`]. Whoever waits is woken: a command that the reset ended may be collected.
pub fn reset<A: Allocator + Copy, R: Wait>(shared: &Shared<World<A>>, rt: &R)
    ensures { Recovers }
{
    shared.with(rt, Changes::ALL, (), |world, ()| world.reset());
}

/// The owner of a page; `None` for one that the pool does not have.
pub fn owner<A: Allocator + Copy, R: Wait>(
    shared: &Shared<World<A>>,
    rt: &R,
    p: PageNo,
) -> Option<Owner>
    ensures { TellsOwner p result }
{
    shared.with(rt, Changes::NONE, p, |world, p| {
        if p.0 < world.pages() {
            Some(world.owner(p))
        } else {
            None
        }
    })
}

/// How many pages are free, and how many belong to queues, to chains and to data.
pub fn counts<A: Allocator + Copy, R: Wait>(shared: &Shared<World<A>>, rt: &R) -> Counts
    ensures { Counted result }
{
    shared.with(rt, Changes::NONE, (), |world, ()| world.counts())
}
