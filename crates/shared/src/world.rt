//! A world under the lock, and two calls that wait with a value that no closure may look at: a request, and a ticket.

ghost use Rattle.std.specs.Prelude.{◌≡◌, IfErr};
ghost use Rattle.machine_model.specs.Events as events;
ghost use Rattle.step_core.specs.Replies.{collect_reply, reserve_reply};
ghost use Rattle.shared.specs.Sharing.{Stepped};

use crate::changes::{Change, Changes};
use crate::lock::Shared;
use crate::machine::Machine;
use io_commands::{Draft, Finished, Request, Ticket};
use std::alloc::Allocator;
use std::sync::Wait;
use step_core::{Refusal, Refused, World};

impl<A: Allocator + Copy> Machine for World<A> {
    ghost use Rattle.std.specs.Prelude.{◌≡◌};
    ghost use Rattle.machine_model.specs.Claims.{IsSound};

    ghost is = { λ w. IsSound w.state };

    ghost stays = { λ before after. after.state ≡ before.state };

    fn confirm(&self) {
        self.check();
    }

    fn can_reap(&mut self) -> bool {
        self.next_completion().is_some()
    }

    fn can_serve(&mut self) -> bool {
        self.next_step().is_some()
    }
}

/// Whether a request on a queue waits for an identifier, or for pages. It waits for pages only where those that no queue owns are at least as
/// many as the fewest that the request could take.
fn waits_for_room<A: Allocator + Copy>(world: &World<A>, q: u16, request: &Request<A>) -> bool {
    match world.reserve_refusal(q, request) {
        Some(Refusal::NoIdentifier) => true,
        Some(Refusal::NoPages { .. }) => {
            let pool = world.pages() - world.counts().queue_pages;
            world.least_pages(request).is_ok_and(|need| need <= pool)
        }
        _ => false,
    }
}

/// Whether a command has not ended yet.
fn waits_for_end<A: Allocator + Copy>(world: &World<A>, q: u16, cid: u16) -> bool {
    matches!(world.collect_refusal(q, cid), Some(Refusal::NotYet))
}

impl<A: Allocator + Copy> Shared<World<A>> {
    /// [`World::reserve`], once no identifier or pages are wanting that others hold, or the workers are told to stop. A wait makes no step.
    ///
    /// # Errors
    ///
    /// As there; the request is handed back.
    pub fn reserve_when_free<R: Wait>(
        &self,
        rt: &R,
        q: u16,
        request: Request<A>,
    ) -> Result<Draft<A>, Refused<Request<A>>>
        ensures step { Stepped (events.Reserve q request) (reserve_reply result) }
        ensures back { IfErr result (λ r. r.value ≡ request) }
    {
        let mut locked = self.lock(rt);
        for _ in rt.forever() {
            if locked.stopping || !waits_for_room(&locked.machine, q, &request) {
                break;
            }
            locked = self.wait(rt, locked, Change::Room);
        }
        self.act_on(locked, Changes::NONE, request, |world, request| {
            world.reserve(q, request)
        })
    }

    /// [`World::collect`], once the command has ended, or the workers are told to stop. A wait makes no step.
    ///
    /// # Errors
    ///
    /// As there; the ticket is handed back.
    pub fn collect_when_ended<R: Wait>(
        &self,
        rt: &R,
        ticket: Ticket,
    ) -> Result<Finished<A>, Refused<Ticket>>
        ensures step { Stepped (events.Collect ticket.q ticket.cid) (collect_reply result) }
        ensures back { IfErr result (λ r. r.value ≡ ticket) }
    {
        let (q, cid) = (ticket.q(), ticket.cid());
        let mut locked = self.lock(rt);
        for _ in rt.forever() {
            if locked.stopping || !waits_for_end(&locked.machine, q, cid) {
                break;
            }
            locked = self.wait(rt, locked, Change::end_of(q, cid));
        }
        self.act_on(locked, Changes::NONE, ticket, |world, ticket| {
            world.collect(ticket)
        })
    }
}
