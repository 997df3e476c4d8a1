//! The opening of a host, with its pages.

ghost use Rattle.std.specs.Prelude.{◌≡◌, ◌+◌, ◌-◌, ◌*◌, ◌<◌, ◌≤◌, [], false, length, replicate, Some, None, IfOk, IfErr, IsSome};
ghost use Rattle.machine_model.specs.Opening.{is_config, pages_of_queues};
ghost use Rattle.page_ledger.specs.Owners.{is_free, pages_from, with_owner};
ghost use Rattle.page_ledger.specs.Runs.{lowest_run};
ghost use Rattle.page_memory.specs.Pages.{zero_page};
ghost use Rattle.page_memory.specs.declared.page.Half.TheVariants.{Submission, Completion};
ghost use Rattle.queue_pair.specs.Memory.{half_pages as pages_of_half};
ghost use Rattle.host_core.specs.Alone.{IsOver};
ghost use Rattle.host_core.specs.Opening.{refusal_of_config, opened_view, opened_pages, RefusesOpening, HalvesGranted, sq_from, cq_from, fresh_at, fresh_queues};
ghost use Rattle.host_core.specs.Touching.{IsUntouched};

use crate::config::Config;
use crate::host::Host;
use crate::queue::Queue;
use crate::record::Record;
use crate::spare::Spares;
use crate::tables::HostTables;
use machine_model::words::{HostState, OpenRefusal, Peer};
use page_ledger::{Ledger, Owner};
use page_memory::{Half, MAX_PAGES, OpenFault, PageNo, Store};
use queue_pair::{HostPair, half_pages};
use slot_table::SlotTable;
use std::alloc::{AllocError, Allocator};

/// A host that opened, and the pages that are its own.
#[derive(Drop)]
pub struct Opened<A: Allocator> {
    /// The host.
    pub host: Host<A>,
    /// The pages of its pool.
    pub store: Store<A>,
}

impl<A: Allocator + Copy> Host<A> {
    /// Opens a host, with its pages. Every page is in and zero, every queue is live with empty rings, and no command is outstanding.
    /// It takes the requests that this peer can be asked.
    ///
    /// # Errors
    ///
    /// 1. `BadConfig` where a number lies outside its limits. 2. `NoPages` where the halves of all queues, those of queue 0 among
    /// them, need more pages than the pool has. 3. `Memory` where memory is refused.
    pub fn open(alloc: A, config: Config, peer: Peer) -> Result<Opened<A>, OpenRefusal>
        ensures fits { IfOk result (λ opened. refusal_of_config config ≡ None) }
        ensures host { IfOk result (λ opened. opened.host ≡ opened_view config peer) }
        ensures pages { IfOk result (λ opened. opened.store.pages ≡ opened_pages config) }
        ensures untouched { IfOk result (λ opened. IsUntouched opened.store) }
        ensures over { IfOk result (λ opened. IsOver opened.host opened.store.pages) }
        ensures refused { IfErr result (λ why. RefusesOpening config why) }
    {
        match refusal_of(config) {
            Some(why) => return Err(why),
            None => {}
        }
        let commands = config.queues.saturating_mul(config.entries) as usize;
        let Ok(spares) = Spares::open(alloc, commands) else {
            return Err(OpenRefusal::Memory);
        };
        match open_tables(alloc, config) {
            Ok((store, ledger, records, queues)) => Ok(Opened {
                host: Host {
                    parts: HostTables {
                        alloc,
                        entries: config.entries as u16,
                        segment: config.segment as u16,
                        peer,
                        ledger,
                        records,
                        queues,
                    },
                    spares,
                },
                store,
            }),
            Err(_) => Err(OpenRefusal::Memory),
        }
    }
}

/// Why it opens no host, ignoring want of memory.
fn refusal_of(config: Config) -> Option<OpenRefusal>
    ensures { result ≡ refusal_of_config config }
{
    if !is_within_limits(config) {
        return Some(OpenRefusal::BadConfig);
    }
    let need = pages_needed(config);
    if config.pages < need {
        return Some(OpenRefusal::NoPages {
            need,
            free: config.pages,
        });
    }
    None
}

/// Whether each number lies within its limits.
fn is_within_limits(config: Config) -> bool
    ensures { result ≡ is_config config.pages config.queues config.entries config.segment }
{
    8 <= config.pages
        && config.pages <= MAX_PAGES
        && 1 <= config.queues
        && config.queues <= 64
        && 2 <= config.entries
        && config.entries <= 1024
        && 2 <= config.segment
        && config.segment <= 256
}

/// How many pages the halves of all queues need.
fn pages_needed(config: Config) -> u32
    requires queues { config.queues ≤ 64 }
    requires entries { config.entries ≤ 1024 }
    ensures { result ≡ pages_of_queues config.queues config.entries }
{
    let entries = config.entries as u16;
    (config.queues + 1)
        * (half_pages(entries, Half::Submission) + half_pages(entries, Half::Completion))
}

/// The pages, their owners, the slots for records and the queues of a host that opens.
fn open_tables<A: Allocator + Copy>(
    alloc: A,
    config: Config,
) -> Result<
    (
        Store<A>,
        Ledger<A>,
        SlotTable<Record<A>, A>,
        Vec<Queue<HostPair<A>>, A>,
    ),
    OpenFault,
>
    requires { refusal_of_config config ≡ None }
    ensures pages { IfOk result (λ tables. tables.0.pages ≡ replicate config.pages (Some zero_page)) }
    ensures untouched { IfOk result (λ tables. IsUntouched tables.0) }
    ensures owners { IfOk result (λ tables. length tables.1 ≡ config.pages) }
    ensures granted { IfOk result (λ tables. HalvesGranted config.entries (config.queues + 1) tables.1) }
    ensures records { IfOk result (λ tables. tables.2 ≡ record { queues = config.queues + 1; places = config.entries - 1; rows = [] }) }
    ensures queues { IfOk result (λ tables. tables.3.items ≡ fresh_queues config.entries (config.queues + 1)) }
{
    let store = Store::open(alloc, config.pages)?;
    let mut ledger = Ledger::open(alloc, config.pages)?;
    let queues = open_queues(
        alloc,
        &mut ledger,
        config.queues as u16 + 1,
        config.entries as u16,
    )?;
    let records = SlotTable::open(alloc, config.queues + 1, config.entries)?;
    Ok((store, ledger, records, queues))
}

/// The queues of a host that opens, whose halves are the lowest pages.
fn open_queues<A: Allocator + Copy>(
    alloc: A,
    ledger: &mut Ledger<A>,
    count: u16,
    entries: u16,
) -> Result<Vec<Queue<HostPair<A>>, A>, AllocError>
    requires least { 2 ≤ entries }
    requires most { entries ≤ 1024 }
    requires free { HalvesGranted entries 0 ledger.old }
    requires fits { sq_from (pages_of_half entries Submission) (pages_of_half entries Completion) count ≤ length ledger.old }
    ensures queues { IfOk result (λ queues. queues.items ≡ fresh_queues entries count) }
    ensures granted { IfOk result (λ _. HalvesGranted entries count ledger.new) }
    ensures size { length ledger.new ≡ length ledger.old }
{
    let mut queues = Vec::with_capacity(alloc, usize::from(count))?;
    for q in 0..count {
        let (sq, cq) = grant_halves(ledger, q, entries);
        let queue = open_queue(alloc, q, entries, sq, cq)?;
        queues.push_reserved(queue);
    }
    Ok(queues)
}

/// A queue that opens, with its halves starting at these pages.
fn open_queue<A: Allocator + Copy>(
    alloc: A,
    q: u16,
    entries: u16,
    sq: PageNo,
    cq: PageNo,
) -> Result<Queue<HostPair<A>>, AllocError>
    requires least { 2 ≤ entries }
    requires most { entries ≤ 1024 }
    ensures { IfOk result (λ queue. queue ≡ fresh_at entries sq cq q) }
{
    Ok(Queue {
        state: HostState::Live,
        host: HostPair::open(alloc, q, entries, sq, cq)?,
    })
}

/// Gives the lowest free pages to both halves of a queue, and answers where these begin.
fn grant_halves<A: Allocator>(ledger: &mut Ledger<A>, q: u16, entries: u16) -> (PageNo, PageNo)
    requires least { 2 ≤ entries }
    requires granted { HalvesGranted entries q ledger.old }
    requires fits { sq_from (pages_of_half entries Submission) (pages_of_half entries Completion) (q + 1) ≤ length ledger.old }
    ensures submission { result.0 ≡ sq_from (pages_of_half entries Submission) (pages_of_half entries Completion) q }
    ensures completion { result.1 ≡ cq_from (pages_of_half entries Submission) (pages_of_half entries Completion) q }
    ensures granted { HalvesGranted entries (q + 1) ledger.new }
    ensures size { length ledger.new ≡ length ledger.old }
{
    let sq = grant_half(
        ledger,
        Owner::Queue {
            q,
            half: Half::Submission,
        },
        half_pages(entries, Half::Submission),
    );
    let cq = grant_half(
        ledger,
        Owner::Queue {
            q,
            half: Half::Completion,
        },
        half_pages(entries, Half::Completion),
    );
    (sq, cq)
}

/// Gives the lowest run of this many free pages to an owner, and answers its first page.
fn grant_half<A: Allocator>(ledger: &mut Ledger<A>, owner: Owner, pages: u32) -> PageNo
    requires some { 0 < pages }
    requires owned { is_free owner ≡ false }
    requires run { IsSome (lowest_run pages ledger.old) }
    ensures first { lowest_run pages ledger.old ≡ Some result }
    ensures granted { ledger.new ≡ with_owner ledger.old (pages_from result pages) owner }
{
    ledger.grant_run(owner, pages).unwrap()
}
