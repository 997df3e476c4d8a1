//! A command that has ended is collected.

ghost use Rattle.std.specs.Prelude.{◌≡◌, ◌+◌, ◌≤◌, ◌++◌, [], length, vec_len, vec_capacity, IfOk, IfErr};
ghost use Rattle.machine_model.specs.Events as events;
ghost use Rattle.machine_model.specs.Memory.{without_pages};
ghost use Rattle.machine_model.specs.Step.{Step, Refuses};
ghost use Rattle.host_core.specs.Alone.{HostStep, IsOver};
ghost use Rattle.host_core.specs.Collecting.{taken_pages, HasRoom, StandsAt, CollectTells};
ghost use Rattle.host_core.specs.Commands.{CanTake};
ghost use Rattle.host_core.specs.Parts.{tables_of, Over};
ghost use Rattle.host_core.specs.Replies.{collect_reply};
ghost use Rattle.host_core.specs.Tables.{state_of};
ghost use Rattle.host_core.specs.Whole.{IsWhole};
ghost use Rattle.host_core.specs.Touching.{HostTouches, TouchesBy};

use crate::host::Host;
use crate::moving::move_out;
use crate::record::Record;
use crate::refused::Refused;
use crate::spare::Spares;
use crate::tables::HostTables;
use entry_codec::{Hints, Status};
use io_commands::{Finished, Request, Ticket};
use machine_model::words::{Phase, Refusal, Work};
use page_memory::{Page, Store};
use std::alloc::{AllocError, Allocator};

/// What collect reads of a held command.
#[derive(Drop)]
pub(crate) struct Held<'a, A: Allocator> {
    request: &'a Request<A>,
    status: Status,
    hints: Hints,
    pages: usize,
}

/// What a finished command is made of, before its pages are taken out.
#[derive(Drop)]
struct Room<A: Allocator> {
    request: Request<A>,
    status: Status,
    hints: Hints,
    pages: Vec<Page<A>, A>,
}

/// Room for what a held command hands over.
fn room_for<A: Allocator + Copy>(
    spares: &mut Spares<A>,
    alloc: A,
    held: &Held<'_, A>,
) -> Result<Room<A>, AllocError>
    ensures same { IfOk result (λ room. (room.request ≡ held.now.request.now) × (room.status ≡ held.now.status) × (room.hints ≡ held.now.hints)) }
    ensures room { IfOk result (λ room. (room.pages.items ≡ []) × (vec_len room.pages ≡ 0) × (held.now.pages ≤ vec_capacity room.pages)) }
{
    let pages = spares.pages.with_room(alloc, held.pages)?;
    Ok(Room {
        request: held.request.copied_into(spares.pieces(alloc))?,
        status: held.status,
        hints: held.hints,
        pages,
    })
}

/// Takes a command's pages out.
fn take_pages<A: Allocator>(store: &mut Store<A>, entry: &Record<A>, into: &mut Vec<Page<A>, A>)
    requires room { (into.old.items ≡ []) × (vec_len into.old ≡ 0) × (length entry.now.data_pages + length entry.now.chain_pages ≤ vec_capacity into.old) }
    requires data_pages { CanTake entry.now.data_pages store.old.pages }
    requires chain_pages { CanTake entry.now.chain_pages (without_pages entry.now.data_pages store.old.pages) }
    ensures pages { store.new.pages ≡ without_pages entry.now.chain_pages (without_pages entry.now.data_pages store.old.pages) }
    ensures touches { TouchesBy (length entry.now.data_pages + length entry.now.chain_pages) store.old store.new }
    ensures items { into.new.items ≡ taken_pages entry.now.data_pages store.old.pages ++ taken_pages entry.now.chain_pages (without_pages entry.now.data_pages store.old.pages) }
{
    move_out(store, &entry.data_pages, into);
    move_out(store, &entry.chain_pages, into);
}

impl<A: Allocator> HostTables<A> {
    /// What collect reads of a command that is held.
    pub(crate) fn check_collect(&self, q: u16, cid: u16) -> Result<Held<'_, A>, Refusal>
        ensures stands { IfOk result (λ _. Over self.now (λ t. StandsAt t q cid)) }
        ensures tells { IfOk result (λ held. Over self.now (λ t. CollectTells t q cid held.request.now held.status held.hints)) }
        ensures pages { IfOk result (λ held. Over self.now (λ t. HasRoom t q cid held.pages)) }
        ensures refused { IfErr result (λ why. Over self.now (λ t. Refuses (state_of t) (events.Collect q cid) why [])) }
    {
        let Some(entry) = self.records.get(q, cid) else {
            return Err(Refusal::Stranger);
        };
        match (entry.phase, &entry.work, entry.status) {
            (Phase::Held, Work::Io(request), Some(status)) => Ok(Held {
                request,
                status,
                hints: entry.hints,
                pages: entry.data_pages.len() + entry.chain_pages.len(),
            }),
            (Phase::Submitted, _, _) => Err(Refusal::NotYet),
            // What is held has its request and its status, so this is drafted or collected.
            _ => Err(Refusal::Stranger),
        }
    }

    /// Takes a held command's pages out.
    fn commit_collect(
        &mut self,
        store: &mut Store<A>,
        q: u16,
        cid: u16,
        room: Room<A>,
    ) -> Finished<A>
        requires whole { IsWhole (tables_of self.old store.old.pages) }
        requires stands { StandsAt (tables_of self.old store.old.pages) q cid }
        requires tells { CollectTells (tables_of self.old store.old.pages) q cid room.request room.status room.hints }
        requires empty { (room.pages.items ≡ []) × (vec_len room.pages ≡ 0) }
        requires space { HasRoom (tables_of self.old store.old.pages) q cid (vec_capacity room.pages) }
        ensures step { Step (state_of (tables_of self.old store.old.pages)) (events.Collect q cid) (events.Collects result) (state_of (tables_of self.new store.new.pages)) }
        ensures whole { IsWhole (tables_of self.new store.new.pages) }
        ensures touches { TouchesBy (length result.data_pages + length result.chain_pages) store.old store.new }
    {
        let Room {
            request,
            status,
            hints,
            mut pages,
        } = room;
        let entry = self.records.get_mut(q, cid).unwrap();
        take_pages(store, entry, &mut pages);
        entry.collect();
        Finished::make(q, cid, request, status, hints, pages)
    }
}

impl<A: Allocator + Copy> Host<A> {
    /// Collects a command that has ended: its pages are taken out, with their bytes.
    ///
    /// # Errors
    ///
    /// The ticket is handed back, and nothing changed. 1. `Stranger` where no submitted or held command has its queue and
    /// identifier. 2. `NotYet` where it has not ended. 3. `Memory` where memory is refused.
    pub fn collect(
        &mut self,
        store: &mut Store<A>,
        ticket: Ticket,
    ) -> Result<Finished<A>, Refused<Ticket>>
        requires { IsOver self.old store.old.pages }
        ensures step { HostStep self.old store.old.pages (events.Collect ticket.q ticket.cid) (collect_reply result) self.new store.new.pages }
        ensures touches { HostTouches self.old.entries store.old (events.Collect ticket.q ticket.cid) (collect_reply result) store.new }
        ensures over { IsOver self.new store.new.pages }
        ensures back { IfErr result (λ r. r.value ≡ ticket) }
    {
        let alloc = self.parts.alloc;
        let held = match self.parts.check_collect(ticket.q(), ticket.cid()) {
            Ok(held) => held,
            Err(why) => return Err(Refused { value: ticket, why }),
        };
        let room = match room_for(&mut self.spares, alloc, &held) {
            Ok(room) => room,
            Err(_) => {
                return Err(Refused {
                    value: ticket,
                    why: Refusal::Memory,
                });
            }
        };
        let (q, cid) = ticket.apart();
        Ok(self.parts.commit_collect(store, q, cid, room))
    }
}
