//! Where the pages of a command are placed: its data in a run of consecutive free pages where there is one, else in the lowest
//! free pages, and its chain in the same way among those that are left.

ghost use Rattle.std.specs.Prelude.{◌≡◌, ◌+◌, ◌<◌, ◌≤◌, [], false, length, take, vec_len, vec_capacity, IfOk, IfErr};
ghost use Rattle.io_commands.specs.Requests.{data_count, joined_parts};
ghost use Rattle.io_commands.specs.Values.{IsGood};
ghost use Rattle.sgl_chain.specs.Chains.{pages_needed};
ghost use Rattle.machine_model.specs.Placement.{chain_wanted, placed as spec_placed, wanted_of};
ghost use Rattle.page_ledger.specs.Owners.{free_pages, is_free, with_owner};
ghost use Rattle.host_core.specs.Commands.{first_placed, then_placed};

use io_commands::Request;
use page_ledger::{Ledger, NoPages, Owner, Role};
use page_memory::{MAX_PAGES, PageNo};
use std::alloc::Allocator;

/// What a request gets: an identifier, and this many pages for its data and for its chain.
#[derive(Clone, Copy)]
pub(crate) struct Grant {
    pub(crate) cid: u16,
    pub(crate) data_pages: u32,
    pub(crate) chain_pages: u32,
}

/// How many chain pages a good request takes whose data has the lowest free pages. Their list is on the stack, which costs more to
/// make than all else here, so it is not on the path of a request whose data has a run.
#[inline(never)]
fn scattered_chain<A: Allocator, B: Allocator>(
    ledger: &Ledger<A>,
    request: &Request<B>,
    data_pages: u32,
    segment: u16,
) -> u32
    requires good { IsGood request.now }
    requires data_pages { data_pages ≡ data_count request.now.pieces }
    requires enough { data_pages ≤ length (free_pages ledger.now) }
    requires low { 2 ≤ segment }
    requires high { segment ≤ 256 }
    ensures count { result ≡ pages_needed (length (joined_parts request.now.pieces (take data_pages (free_pages ledger.now)))) segment }
    ensures few { result ≤ pages_needed (length request.now.pieces) segment }
{
    request.chain_pages(&ledger.lowest_free(data_pages), segment)
}

/// How many pages a good request wants: those of its placement, which in a run are the fewest that it can take; and the fewest where
/// not even its data has room.
fn need_of<A: Allocator, B: Allocator>(
    ledger: &Ledger<A>,
    request: &Request<B>,
    segment: u16,
) -> u32
    requires good { IsGood request.now }
    requires low { 2 ≤ segment }
    requires high { segment ≤ 256 }
    ensures { result ≡ wanted_of (free_pages ledger.now) segment request.now.pieces }
{
    let data_pages = request.data_pages() as u32;
    if data_pages == 0 || ledger.counts().free_pages < data_pages {
        return request.least_pages(segment);
    }
    match ledger.lowest_run(data_pages) {
        Some(_) => request.least_pages(segment),
        None => data_pages + scattered_chain(ledger, request, data_pages, segment),
    }
}

/// How many pages a good request takes for its data, and for the chain of its parts where the data is placed; else how many it wants
/// in all, where fewer are free.
pub(crate) fn pages_wanted<A: Allocator, B: Allocator>(
    ledger: &Ledger<A>,
    request: &Request<B>,
    segment: u16,
) -> Result<(u32, u32), NoPages>
    requires good { IsGood request.now }
    requires low { 2 ≤ segment }
    requires high { segment ≤ 256 }
    ensures data_pages { IfOk result (λ pages. pages.0 ≡ data_count request.now.pieces) }
    ensures chain_pages { IfOk result (λ pages. pages.1 ≡ chain_wanted (free_pages ledger.now) segment request.now.pieces) }
    ensures enough { IfOk result (λ pages. pages.0 + pages.1 ≤ length (free_pages ledger.now)) }
    ensures need { IfErr result (λ e. e.need ≡ wanted_of (free_pages ledger.now) segment request.now.pieces) }
    ensures free { IfErr result (λ e. e.free ≡ length (free_pages ledger.now)) }
    ensures too_few { IfErr result (λ e. e.free < e.need) }
{
    let free = ledger.counts().free_pages;
    let need = need_of(ledger, request, segment);
    if free < need {
        return Err(NoPages { need, free });
    }
    let data_pages = request.data_pages() as u32;
    Ok((data_pages, need - data_pages))
}

/// Places this many pages: the lowest run of free pages where there is one, else the lowest free pages, get the owner.
fn place<A: Allocator>(ledger: &mut Ledger<A>, owner: Owner, count: u32, into: &mut Vec<PageNo, A>)
    requires owned { is_free owner ≡ false }
    requires enough { count ≤ length (free_pages ledger.old) }
    requires room { (into.old.items ≡ []) × (vec_len into.old + count ≤ vec_capacity into.old) }
    ensures pages { into.new.items ≡ spec_placed (free_pages ledger.old) count }
    ensures owners { ledger.new ≡ with_owner ledger.old into.new.items owner }
{
    if count == 0 {
        return;
    }
    prove!(ledger.pages() <= MAX_PAGES);
    match ledger.grant_run(owner, count) {
        Some(first) => {
            for i in 0..count {
                into.push_reserved(PageNo(first.0 + i));
            }
        }
        None => ledger.grant(owner, count, into).unwrap(),
    }
}

/// Places the pages of a command, first those for its data, then those for its chain.
pub(crate) fn place_command<A: Allocator>(
    ledger: &mut Ledger<A>,
    q: u16,
    grant: Grant,
    data_numbers: &mut Vec<PageNo, A>,
    chain_numbers: &mut Vec<PageNo, A>,
)
    requires enough { grant.data_pages + grant.chain_pages ≤ length (free_pages ledger.old) }
    requires data_room { (data_numbers.old.items ≡ []) × (vec_len data_numbers.old + grant.data_pages ≤ vec_capacity data_numbers.old) }
    requires chain_room { (chain_numbers.old.items ≡ []) × (vec_len chain_numbers.old + grant.chain_pages ≤ vec_capacity chain_numbers.old) }
    ensures data_numbers { data_numbers.new.items ≡ first_placed ledger.old grant.data_pages }
    ensures chain_numbers { chain_numbers.new.items ≡ then_placed ledger.old grant.data_pages grant.chain_pages }
    ensures owners { ledger.new ≡ with_owner (with_owner ledger.old data_numbers.new.items (Owner.Command q grant.cid Role.Data)) chain_numbers.new.items (Owner.Command q grant.cid Role.Chain) }
{
    let cid = grant.cid;
    let for_data = Owner::Command {
        q,
        cid,
        role: Role::Data,
    };
    place(ledger, for_data, grant.data_pages, data_numbers);
    let for_chain = Owner::Command {
        q,
        cid,
        role: Role::Chain,
    };
    place(ledger, for_chain, grant.chain_pages, chain_numbers);
}
