//! What was measured, as JSON.

ghost use Rattle.std.specs.Prelude.{◌≡◌, IfOk, OnOk, string_bytes};
ghost use Rattle.load.specs.Objects.{Adds, IsDirectionOf, IsJsonOf, IsLatenciesOf, IsStatsOf, job_events, number_events};

use crate::figures::Figures;
use crate::histogram::Histogram;
use crate::tally::Tally;
use script_cli::progress::each_second;
use serde::{Described, Serialize, Serializer};
use std::alloc::{AllocError, Global};

/// What the one job of a load is called.
const NAME: &str = "load";

/// The numbers up to which this many of a hundred lie.
#[derive(Clone, Copy)]
struct Percentiles {
    half: u64,
    nine_tenths: u64,
    all_but_a_hundredth: u64,
    all_but_a_thousandth: u64,
}

/// Latencies, in nanoseconds.
#[derive(Clone, Copy)]
struct Latencies {
    min: u64,
    max: u64,
    mean: u64,
    stddev: u64,
    many: u64,
    percentile: Percentiles,
}

/// The commands of one direction.
#[derive(Clone, Copy)]
struct Direction {
    io_bytes: u64,
    bw_bytes: u64,
    iops: u64,
    /// In milliseconds.
    runtime: u64,
    total_ios: u64,
    clat_ns: Latencies,
}

/// What a load came to, and in its one job reads and writes.
#[derive(Clone, Copy)]
struct Stats<'a> {
    version: &'a str,
    runtime_ns: u64,
    commands: Tally,
    read: Direction,
    write: Direction,
}

/// Puts a number under its name.
fn put_number<S: Serializer>(out: &mut S, name: &str, number: u64) -> Result<(), S::Error>
    ensures { OnOk result (Adds (number_events name.now number) (S.written out.old) (S.written out.new)) }
{
    out.key(name)?;
    out.u64(number)
}

impl Described for Tally {
    ghost use Rattle.load.specs.Objects.{Adds, tally_events};

    ghost writes = { λ tally. Adds (tally_events tally) };
}

impl Serialize for Tally {
    fn serialize<S: Serializer>(&self, out: &mut S) -> Result<(), S::Error> {
        out.begin_map(Some(5))?;
        put_number(out, "done", self.done)?;
        put_number(out, "refused", self.refused)?;
        put_number(out, "failed", self.failed)?;
        put_number(out, "verified", self.verified)?;
        put_number(out, "differ", self.differ)?;
        out.end_map()
    }
}

impl Described for Percentiles {
    ghost use Rattle.load.specs.Objects.{Adds, percentiles_events};

    ghost writes = { λ percentiles. Adds (percentiles_events percentiles) };
}

impl Serialize for Percentiles {
    fn serialize<S: Serializer>(&self, out: &mut S) -> Result<(), S::Error> {
        out.begin_map(Some(4))?;
        put_number(out, "50.000000", self.half)?;
        put_number(out, "90.000000", self.nine_tenths)?;
        put_number(out, "99.000000", self.all_but_a_hundredth)?;
        put_number(out, "99.900000", self.all_but_a_thousandth)?;
        out.end_map()
    }
}

impl Described for Latencies {
    ghost use Rattle.load.specs.Objects.{Adds, latencies_events};

    ghost writes = { λ latencies. Adds (latencies_events latencies) };
}

impl Serialize for Latencies {
    fn serialize<S: Serializer>(&self, out: &mut S) -> Result<(), S::Error> {
        out.begin_map(Some(6))?;
        put_number(out, "min", self.min)?;
        put_number(out, "max", self.max)?;
        put_number(out, "mean", self.mean)?;
        put_number(out, "stddev", self.stddev)?;
        put_number(out, "N", self.many)?;
        out.key("percentile")?;
        self.percentile.serialize(out)?;
        out.end_map()
    }
}

impl Described for Direction {
    ghost use Rattle.load.specs.Objects.{Adds, direction_events};

    ghost writes = { λ direction. Adds (direction_events direction) };
}

impl Serialize for Direction {
    fn serialize<S: Serializer>(&self, out: &mut S) -> Result<(), S::Error> {
        out.begin_map(Some(6))?;
        put_number(out, "io_bytes", self.io_bytes)?;
        put_number(out, "bw_bytes", self.bw_bytes)?;
        put_number(out, "iops", self.iops)?;
        put_number(out, "runtime", self.runtime)?;
        put_number(out, "total_ios", self.total_ios)?;
        out.key("clat_ns")?;
        self.clat_ns.serialize(out)?;
        out.end_map()
    }
}

impl Stats<'_> {
    /// Puts the one job.
    fn put_job<S: Serializer>(&self, out: &mut S) -> Result<(), S::Error>
        ensures { OnOk result (Adds (job_events self.now) (S.written out.old) (S.written out.new)) }
    {
        out.begin_map(Some(3))?;
        out.key("jobname")?;
        out.str(NAME)?;
        out.key("read")?;
        self.read.serialize(out)?;
        out.key("write")?;
        self.write.serialize(out)?;
        out.end_map()
    }
}

impl Described for Stats<'_> {
    ghost use Rattle.load.specs.Objects.{Adds, stats_events};

    ghost writes = { λ stats. Adds (stats_events stats) };
}

impl Serialize for Stats<'_> {
    fn serialize<S: Serializer>(&self, out: &mut S) -> Result<(), S::Error> {
        out.begin_map(Some(4))?;
        out.key("nvmesgl version")?;
        out.str(self.version)?;
        put_number(out, "runtime_ns", self.runtime_ns)?;
        out.key("commands")?;
        self.commands.serialize(out)?;
        out.key("jobs")?;
        out.begin_seq(Some(1))?;
        self.put_job(out)?;
        out.end_seq()?;
        out.end_map()
    }
}

/// The latencies that were counted.
fn latencies_of(took: &Histogram) -> Latencies
    ensures { IsLatenciesOf took.now result }
{
    Latencies {
        min: took.least(),
        max: took.most(),
        mean: took.mean(),
        stddev: took.deviation(),
        many: took.len(),
        percentile: Percentiles {
            half: took.percentile(500),
            nine_tenths: took.percentile(900),
            all_but_a_hundredth: took.percentile(990),
            all_but_a_thousandth: took.percentile(999),
        },
    }
}

/// The commands of one direction.
fn direction_of(figures: &Figures<'_>, took: &Histogram) -> Direction
    ensures { IsDirectionOf figures.now.command_bytes figures.now.nanos took.now result }
{
    let total_ios = took.len();
    let io_bytes = total_ios.saturating_mul(figures.command_bytes);
    Direction {
        io_bytes,
        bw_bytes: each_second(io_bytes, figures.nanos),
        iops: each_second(total_ios, figures.nanos),
        runtime: figures.nanos / 1_000_000,
        total_ios,
        clat_ns: latencies_of(took),
    }
}

impl Figures<'_> {
    /// The object of what was measured.
    fn stats<'a>(&self, version: &'a str) -> Stats<'a>
        ensures { IsStatsOf version.now self.now result }
    {
        Stats {
            version,
            runtime_ns: self.nanos,
            commands: self.tally,
            read: direction_of(self, &self.measured.reads),
            write: direction_of(self, &self.measured.writes),
        }
    }

    /// What was measured, as JSON in the form of fio: one job, whose `read` and `write` each have `io_bytes`, `bw_bytes`, `iops`, `runtime`,
    /// `total_ios` and `clat_ns`; besides it the program's version, `runtime_ns` and how many commands ended how.
    ///
    /// # Errors
    ///
    /// Where memory is refused.
    pub fn json(&self, alloc: Global, version: &str) -> Result<String, AllocError>
        ensures { IfOk result (λ text. IsJsonOf version.now self.now (string_bytes text)) }
    {
        let mut text = match serde_json::to_string_pretty(alloc, &self.stats(version)) {
            Ok(text) => text,
            Err(_) => return Err(AllocError),
        };
        text.push('\n')?;
        Ok(text)
    }
}
