//! Runs in which whoever rings serves: what comes right after each ring in the log.

ghost use Rattle.std.specs.Prelude.{◌≡◌};
ghost use Rattle.step_core.specs.Opening.{opening_of};

use crate::jobs::{Asked, READ, Wanted, lists_of, see_ends};
use crate::looks::see;
use block_image::Image;
use driver_book::{BlankBook, Log, LogBrand};
use driver_threads::{Open, Ran, Server, run_threads};
use entry_codec::Status;
use std::alloc::Global;
use std::marker::Brand;
use std::process::Abort;
use std::sync::Wait;
use std::thread::Threads;
use step_core::{Config, Step};

/// Reads that submitters do on queue 1, all alike, of an image of zeros.
#[derive(Clone, Copy)]
struct Reads {
    /// How many submitters do them.
    submitters: u8,
    /// How many each has in flight at most.
    depth: usize,
    /// Each of them.
    read: Asked,
    /// The steps that come in the log without a break starting at its ring, by their letters.
    behind: &'static [u8],
}

/// Its two units come after its ring, and nothing is left to the controller.
const SHORT: Reads = Reads {
    submitters: 4,
    depth: 3,
    read: READ,
    behind: b"RFWWCP",
};

/// The blocks lie past the image, so the fetch has the verdict, and no list is walked.
const OUTSIDE: Reads = Reads {
    read: Asked {
        slba: 64,
        end: Wanted::Done(Status::LBA_OUT_OF_RANGE, 512),
        entries: 8,
        ..READ
    },
    behind: b"RFCP",
    ..SHORT
};

/// A Read with a list of a link and 64 descriptors, which moves 64 pages.
const READ_LONG: Asked = Asked {
    blocks: 64,
    end: Wanted::Done(Status::SUCCESS, 64 * 512),
    entries: 8 + 129,
    ..READ
};

/// The fetch and 63 units are all that a submitter does at once.
const LONG: Reads = Reads {
    submitters: 1,
    depth: 1,
    read: READ_LONG,
    behind: b"RFWWWWWWWWWWWWWWWWWWWWWWWWWWWWWWWWWWWWWWWWWWWWWWWWWWWWWWWWWWWWWWW",
};

/// The same beside others: after a fetch come units of any of them.
const LONG_BESIDE_OTHERS: Reads = Reads {
    read: READ_LONG,
    behind: b"RF",
    ..SHORT
};

const READS: [Reads; 4] = [SHORT, OUTSIDE, LONG, LONG_BESIDE_OTHERS];

/// How many Reads each submitter does.
const JOBS: u8 = 12;

/// Room for four commands of 64 pages.
const ROOMY: Config = Config {
    pages: 300,
    queues: 1,
    entries: 16,
    segment: 256,
};

/// The letters of the steps of a log: of a ring, a fetch, a unit of a list, a completion, a reap and any other.
fn letters_of<R: Abort>(rt: &R, alloc: Global, log: &Log) -> Vec<u8> {
    let mut letters = Vec::new(alloc);
    for index in 0..log.len() {
        let Some(entry) = log.get(index) else {
            break;
        };
        let letter = match &entry.step {
            Step::Ring { .. } => b'R',
            Step::Fetch { .. } => b'F',
            Step::Walk { .. } => b'W',
            Step::Complete { .. } => b'C',
            Step::Reap { .. } => b'P',
            _ => b'-',
        };
        assert!(rt; letters.push(letter).is_ok());
    }
    letters
}

/// How often these letters occur there.
fn times(letters: &[u8], behind: &[u8]) -> usize {
    let mut times: usize = 0;
    for at in 0..letters.len() {
        if letters[at..].starts_with(behind) {
            times = times.saturating_add(1);
        }
    }
    times
}

/// Runs the Reads over a new book, and sees what its log has.
fn see_served<L: LogBrand + Send + Sync, R: Abort + Threads + Wait + Sync>(
    rt: &R,
    alloc: Global,
    config: Config,
    image: Image,
    blank: BlankBook,
    reads: &Reads,
)
    requires name { blank.ledger.name ≡ L.name }
    requires parts { blank.ledger.parts ≡ L.parts }
    requires number { blank.ledger.parts ≡ 65536 }
    requires list { blank.drafts.name ≡ L.list }
    requires opening { L.opening ≡ opening_of config image }
{
    let Reads {
        submitters,
        depth,
        read,
        behind,
    } = reads;
    let asked = [*read];
    let lists = lists_of(alloc, &asked, *submitters, JOBS).expect(rt, "memory");
    assert!(rt; !lists.is_empty() && lists.len() <= 16);
    let depth = *depth;
    assert!(rt; 1 <= depth && depth <= 256);
    let server = Server::Ringer;
    let ran: Ran<L> = match run_threads(
        rt, alloc, config, image, lists, depth, server, &Open, blank,
    ) {
        Ok(ran) => ran,
        Err(fault) => panic!(rt; "{fault}"),
    };
    see_ends(rt, ran.jobs.as_slice(), &asked, *submitters, JOBS);
    let letters = letters_of(rt, alloc, ran.book.log());
    let commands = usize::from(*submitters).saturating_mul(JOBS.into());
    see(rt, &times(&letters, behind), &commands);
    see(rt, &letters.len(), &commands.saturating_mul(read.entries));
    let _ended = ran.book.end();
}

#[test]
fn what_who_rings_serves(rt: HostRuntime) {
    for reads in &READS {
        let image = Image::zeroed(rt.alloc(), 64).expect(&rt, "an image");
        see_served::<Brand, HostRuntime>(&rt, rt.alloc(), ROOMY, image, BlankBook::new(), reads);
    }
}
