//! What a load measures, over a clock of which each look is known.

ghost use Rattle.std.specs.Prelude.{◌≤◌};

use crate::expecting::same_at;
use block_image::Image;
use load::{Figures, ProgressReport, Server, run_load};
use script_cli::workload::{Load, OutputFormat, Pattern};
use std::alloc::AllocGlobal;
use std::fmt::Display;
use std::io;
use std::process::Abort;
use std::rt::Clock;
use std::sync::Wait;
use std::sync::atomic::{AtomicU64, Ordering};
use std::thread::Threads;
use std::time::Duration;
use step_core::Config;

/// A runtime with a clock that goes on as it is looked at. It says nothing on standard error.
#[derive(Drop)]
struct Paced<'a, R> {
    rt: &'a R,
    looks: AtomicU64,
}

impl<R> Clock for Paced<'_, R> {
    /// From one look to the next it is a microsecond; from the looks on that are named here 4, 30, 200 and 3,000.
    fn monotonic(&self) -> io::Result<Duration> {
        let look = self.looks.fetch_add(1, Ordering::SeqCst);
        let mut micros = look;
        for (from, more) in [(148, 3), (260, 26), (290, 170), (301, 2_800)] {
            micros = micros.wrapping_add(look.saturating_sub(from).wrapping_mul(more));
        }
        Ok(Duration::from_micros(micros))
    }

    fn since_1970(&self) -> io::Result<Duration> {
        self.monotonic()
    }
}

impl<R: Eprint> Eprint for Paced<'_, R> {
    fn eprint<D: Display + Drop>(&self, value: D) -> io::Result<()> {
        self.rt.eprint(value)
    }

    fn eprintln<D: Display + Drop>(&self, value: D) -> io::Result<()> {
        self.rt.eprintln(value)
    }
}

impl<R: Wait> Wait for Paced<'_, R> {}

impl<R: Threads> Threads for Paced<'_, R> {}

/// Is told nothing.
#[derive(Drop)]
struct Nobody;

impl ProgressReport for Nobody {
    fn take(&mut self, _so_far: &Figures<'_>) {}
}

/// 16 pages and one I/O queue of 4 entries.
const USUAL: Config = Config {
    pages: 16,
    queues: 1,
    entries: 4,
    segment: 256,
};

/// What is before the reads, between them and the writes, and after these.
const TEXTS: [&str; 3] = [
    r#"{
  "nvmesgl version": "1",
  "runtime_ns": 18696000,
  "commands": {
    "done": 100,
    "refused": 0,
    "failed": 0,
    "verified": 0,
    "differ": 0
  },
  "jobs": [
    {
      "jobname": "load",
      "read": "#,
    ",\n      \"write\": ",
    "\n    }\n  ]\n}\n",
];

/// The direction of all commands, one of them in flight. The first took 2 microseconds and the last 6,000. Up to half, nine tenths, 99 and 99.9
/// hundredths of them took 8, 60, 400 and 6,000 at most, and to a sixteenth more.
const ONE_IN_FLIGHT: &str = r#"{
        "io_bytes": 102400,
        "bw_bytes": 5477107,
        "iops": 5348,
        "runtime": 18,
        "total_ios": 100,
        "clat_ns": {
          "min": 2000,
          "max": 6000000,
          "mean": 83930,
          "stddev": 601887,
          "N": 100,
          "percentile": {
            "50.000000": 8191,
            "90.000000": 61439,
            "99.000000": 409599,
            "99.900000": 6000000
          }
        }
      }"#;

/// Three in flight: each has its pages for eight looks, but for the first and the last two of a round.
const THREE_IN_FLIGHT: &str = r#"{
        "io_bytes": 102400,
        "bw_bytes": 5477107,
        "iops": 5348,
        "runtime": 18,
        "total_ios": 100,
        "clat_ns": {
          "min": 4000,
          "max": 9200000,
          "mean": 255210,
          "stddev": 1206442,
          "N": 100,
          "percentile": {
            "50.000000": 23551,
            "90.000000": 245759,
            "99.000000": 6815743,
            "99.900000": 9200000
          }
        }
      }"#;

/// The direction of none.
const IDLE: &str = r#"{
        "io_bytes": 0,
        "bw_bytes": 0,
        "iops": 0,
        "runtime": 18,
        "total_ios": 0,
        "clat_ns": {
          "min": 0,
          "max": 0,
          "mean": 0,
          "stddev": 0,
          "N": 0,
          "percentile": {
            "50.000000": 0,
            "90.000000": 0,
            "99.000000": 0,
            "99.900000": 0
          }
        }
      }"#;

/// A hundred commands of two blocks, of one submitter.
const LOAD: Load<'static> = Load {
    pattern: Pattern::Read,
    reads: 50,
    command_blocks: 2,
    size: None,
    submitters: 1,
    depth: 1,
    log_limit: None,
    seed: 0,
    count: Some(100),
    runtime: None,
    verify: false,
    quiet: true,
    stats: None,
    interval: None,
    format: OutputFormat::Json,
};

/// Sees what is measured of commands, with this many in flight. The clock is looked at as they begin, before each round of 32 (each uses every block once),
/// and twice as they end; for each command as it gets its pages, as it is submitted, and as it gives its pages back.
fn see<R: Abort + AllocGlobal + Eprint + Sync + Threads + Wait>(
    rt: &R,
    pattern: Pattern,
    depth: u16,
    reads: &'static str,
    writes: &'static str,
)
    requires some { 1 ≤ depth }
    requires little { depth ≤ 256 }
{
    let alloc = rt.alloc();
    let load = Load {
        pattern,
        depth,
        ..LOAD
    };
    let Ok(image) = Image::zeroed(alloc, 64) else {
        panic!(rt; "no image");
    };
    let (paced, server) = (
        (
            Paced {
                rt,
                looks: AtomicU64::new(0),
            },
            alloc,
        ),
        Server::Ringer,
    );
    let mut out = Vec::new(alloc);
    let Ok(ran) = run_load(
        &paced,
        USUAL,
        image,
        &load,
        server,
        false,
        &mut Nobody,
        &mut out,
    ) else {
        panic!(rt; "it did not run to its end");
    };
    let found = ran.figures().json(alloc, "1").expect(rt, "memory");
    let [before, between, after] = TEXTS;
    let wanted = [before, reads, between, writes, after]
        .concat(alloc)
        .expect(rt, "memory");
    same_at(rt, depth, found.as_str(), wanted.as_str());
}

#[test]
fn commands_are_measured(rt: HostRuntime) {
    see(&rt, Pattern::Read, 1, ONE_IN_FLIGHT, IDLE);
    see(&rt, Pattern::Write, 1, IDLE, ONE_IN_FLIGHT);
    see(&rt, Pattern::Read, 3, THREE_IN_FLIGHT, IDLE);
}
