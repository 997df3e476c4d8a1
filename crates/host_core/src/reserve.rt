//! A request gets an identifier and pages.

ghost use Rattle.std.specs.Prelude.{◌≡◌, ◌+◌, ◌≤◌, [], length, vec_len, vec_capacity, IfOk, IfErr};
ghost use Rattle.machine_model.specs.Events as events;
ghost use Rattle.machine_model.specs.Refusals.{takes as spec_takes};
ghost use Rattle.machine_model.specs.Step.{Refuses};
ghost use Rattle.host_core.specs.Alone.{HasPlacedPages, HostStep, IsLowest, IsOver};
ghost use Rattle.host_core.specs.Commands.{first_placed, then_placed, lacks as spec_lacks, reserved, Grants, new_draft};
ghost use Rattle.host_core.specs.Parts.{tables_of, Over};
ghost use Rattle.host_core.specs.Replies.{reserve_reply};
ghost use Rattle.host_core.specs.Tables.{state_of};
ghost use Rattle.host_core.specs.Whole.{IsHost, IsWhole};
ghost use Rattle.host_core.specs.Touching.{HostTouches, TouchesBy};

use crate::host::Host;
use crate::moving::move_out_zeroed;
use crate::place::{Grant, pages_wanted, place_command};
use crate::queues::{claim, host_state, is_deleting, next_identifier, takes_no_io};
use crate::record::Record;
use crate::refused::Refused;
use crate::spare::Spares;
use crate::tables::HostTables;
use entry_codec::Hints;
use io_commands::{BlockSize, Draft, Kind, Request};
use machine_model::words::{HostState, Peer, Phase, Refusal, Work};
use page_ledger::NoPages;
use page_memory::{Page, PageNo, Store};
use std::alloc::{AllocError, Allocator};

/// The lists that a command fills, made before anything changes.
#[derive(Drop)]
struct Room<A: Allocator> {
    data_numbers: Vec<PageNo, A>,
    chain_numbers: Vec<PageNo, A>,
    pages: Vec<Page<A>, A>,
    request: Request<A>,
}

/// Lists for a command that gets this many pages, and a copy of its request.
fn make_room<A: Allocator + Copy>(
    spares: &mut Spares<A>,
    alloc: A,
    request: &Request<A>,
    grant: Grant,
) -> Result<Room<A>, AllocError>
    requires { grant.data_pages + grant.chain_pages ≤ 65536 }
    ensures data_numbers { IfOk result (λ room. (room.data_numbers.items ≡ []) × (vec_len room.data_numbers + grant.data_pages ≤ vec_capacity room.data_numbers)) }
    ensures chain_numbers { IfOk result (λ room. (room.chain_numbers.items ≡ []) × (vec_len room.chain_numbers + grant.chain_pages ≤ vec_capacity room.chain_numbers)) }
    ensures pages { IfOk result (λ room. (room.pages.items ≡ []) × (vec_len room.pages + (grant.data_pages + grant.chain_pages) ≤ vec_capacity room.pages)) }
    ensures request { IfOk result (λ room. room.request ≡ request.now) }
{
    let pages = spares
        .pages
        .with_room(alloc, (grant.data_pages + grant.chain_pages) as usize)?;
    let request = request.copied_into(spares.pieces(alloc))?;
    Ok(Room {
        data_numbers: spares.numbers.with_room(alloc, grant.data_pages as usize)?,
        chain_numbers: spares.numbers.with_room(alloc, grant.chain_pages as usize)?,
        pages,
        request,
    })
}

/// Whether a host that speaks to this peer takes blocks of this size.
fn takes(peer: Peer, size: BlockSize) -> bool
    ensures { result ≡ spec_takes peer size }
{
    match (peer, size) {
        (Peer::Device, _) | (Peer::Modelled, BlockSize::Bytes512) => true,
        (Peer::Modelled, _) => false,
    }
}

/// Whether a host that speaks to this peer has no queue of this number, in this state, for a command of this kind.
fn lacks_queue(peer: Peer, q: u16, state: Option<HostState>, kind: Kind) -> bool
    ensures { result ≡ spec_lacks peer q state kind }
{
    if kind.is_admin() {
        peer != Peer::Device || q != 0
    } else {
        takes_no_io(q, state)
    }
}

impl<A: Allocator + Copy> HostTables<A> {
    /// What a request gets, or the first cause against it.
    pub(crate) fn check_reserve(&self, q: u16, request: &Request<A>) -> Result<Grant, Refusal>
        requires { IsHost (tables_of self.now []) }
        ensures granted { IfOk result (λ g. Over self.now (λ t. Grants t q request.now g.cid g.data_pages g.chain_pages)) }
        ensures refused { IfErr result (λ why. Over self.now (λ t. Refuses (state_of t) (events.Reserve q request.now) why [])) }
    {
        let state = host_state(&self.queues, q);
        if lacks_queue(self.peer, q, state, request.kind) {
            return Err(Refusal::NoQueue);
        }
        if is_deleting(state) {
            return Err(Refusal::Deleting);
        }
        match request.check() {
            Ok(()) => {}
            Err(fault) => return Err(Refusal::Bad(fault)),
        }
        if !takes(self.peer, request.block_size) {
            return Err(Refusal::OtherBlocks);
        }
        let Some(cid) = next_identifier(&self.queues, q) else {
            return Err(Refusal::NoIdentifier);
        };
        match pages_wanted(&self.ledger, request, self.segment) {
            Ok((data_pages, chain_pages)) => Ok(Grant {
                cid,
                data_pages,
                chain_pages,
            }),
            Err(NoPages { need, free }) => Err(Refusal::NoPages { need, free }),
        }
    }

    /// Gives a command what it gets.
    fn commit_reserve(
        &mut self,
        store: &mut Store<A>,
        q: u16,
        grant: Grant,
        request: Request<A>,
        room: Room<A>,
    ) -> Draft<A>
        requires whole { IsWhole (tables_of self.old store.old.pages) }
        requires granted { Grants (tables_of self.old store.old.pages) q request grant.cid grant.data_pages grant.chain_pages }
        requires data_numbers { (room.data_numbers.items ≡ []) × (vec_len room.data_numbers + grant.data_pages ≤ vec_capacity room.data_numbers) }
        requires chain_numbers { (room.chain_numbers.items ≡ []) × (vec_len room.chain_numbers + grant.chain_pages ≤ vec_capacity room.chain_numbers) }
        requires pages { (room.pages.items ≡ []) × (vec_len room.pages + (grant.data_pages + grant.chain_pages) ≤ vec_capacity room.pages) }
        requires request { room.request ≡ request }
        ensures draft { result ≡ new_draft q grant.cid request (first_placed self.old.ledger grant.data_pages) (then_placed self.old.ledger grant.data_pages grant.chain_pages) self.old.segment }
        ensures new { tables_of self.new store.new.pages ≡ reserved result (tables_of self.old store.old.pages) }
        ensures touches { TouchesBy (length result.data_pages + length result.chain_pages) store.old store.new }
    {
        let Room {
            mut data_numbers,
            mut chain_numbers,
            mut pages,
            request: kept,
        } = room;
        place_command(
            &mut self.ledger,
            q,
            grant,
            &mut data_numbers,
            &mut chain_numbers,
        );
        move_out_zeroed(store, &data_numbers, &mut pages);
        move_out_zeroed(store, &chain_numbers, &mut pages);
        claim(&mut self.queues, q, grant.cid);
        let record = Record {
            phase: Phase::Drafted,
            work: Work::Io(kept),
            data_pages: data_numbers,
            chain_pages: chain_numbers,
            status: None,
            hints: Hints::NONE,
        };
        self.add_record(q, grant.cid, record);
        Draft::make(q, grant.cid, request, pages, usize::from(self.segment))
    }
}

impl<A: Allocator + Copy> Host<A> {
    /// Reserves for a request an identifier of the queue, the lowest that is free, and pages: one for each data piece, in the
    /// lowest run of consecutive free pages where there is one, else in the lowest free pages; and, in the same way, those of
    /// the chain of its parts, where neighbours that join are one. They are out of the store, and hold zeros.
    ///
    /// # Errors
    ///
    /// The request is handed back, and nothing changed. 1. `NoQueue` for an admin command anywhere but on queue 0 of a host that speaks to
    /// a device, and for another command on queue 0, an unknown queue, and one whose submission half was given back and is not made
    /// again. 2. `Deleting` where the queue is being deleted. 3. `Bad` for the first fault of the request. 4. `OtherBlocks` where the
    /// host takes no blocks of the request's size. 5. `NoIdentifier` where each identifier of the queue is outstanding. 6. `NoPages` where
    /// too few pages are free: `need` is what this placement takes, and where even the data has no room the fewest pages that the request
    /// could take. 7. `Memory` where memory is refused.
    pub fn reserve(
        &mut self,
        store: &mut Store<A>,
        q: u16,
        request: Request<A>,
    ) -> Result<Draft<A>, Refused<Request<A>>>
        requires { IsOver self.old store.old.pages }
        ensures step { HostStep self.old store.old.pages (events.Reserve q request) (reserve_reply result) self.new store.new.pages }
        ensures identifier { IfOk result (λ draft. IsLowest self.old.host q draft.cid) }
        ensures pages { IfOk result (λ draft. HasPlacedPages self.old.host draft) }
        ensures touches { HostTouches self.old.entries store.old (events.Reserve q request) (reserve_reply result) store.new }
        ensures over { IsOver self.new store.new.pages }
        ensures back { IfErr result (λ r. r.value ≡ request) }
    {
        let grant = match self.parts.check_reserve(q, &request) {
            Ok(grant) => grant,
            Err(why) => {
                return Err(Refused {
                    value: request,
                    why,
                });
            }
        };
        let alloc = self.parts.alloc;
        let room = match make_room(&mut self.spares, alloc, &request, grant) {
            Ok(room) => room,
            Err(_) => {
                return Err(Refused {
                    value: request,
                    why: Refusal::Memory,
                });
            }
        };
        Ok(self.parts.commit_reserve(store, q, grant, request, room))
    }
}
