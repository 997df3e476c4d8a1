//! What a load came to.

ghost use Rattle.std.specs.Prelude.{◌≡◌, ◌++◌, IfOk, OnOk, string_bytes};
ghost use Rattle.load.specs.Summaries.{latencies_text, rates_text, summary_text};

use crate::bad::Bad;
use crate::figures::Figures;
use crate::histogram::Histogram;
use crate::measured::Measured;
use crate::tally::Tally;
use script_cli::progress::each_second;
use std::alloc::{AllocError, Global};
use std::fmt;

/// What a load came to.
#[derive(Drop)]
pub struct LoadResult {
    /// How many commands ended how.
    pub tally: Tally,
    /// The first command that did not end well.
    pub bad: Option<Bad>,
    /// How long those took that ended with status 0:00.
    pub measured: Measured,
    /// The bytes of a command.
    pub command_bytes: u64,
    /// How long its commands took in all, in nanoseconds.
    pub nanos: u64,
}

/// Nanoseconds, which show as microseconds with a tenth.
#[derive(Clone, Copy)]
struct Micros(u64);

impl fmt::Display for Micros {
    ghost use Rattle.std.specs.Prelude.{Some};
    ghost use Rattle.load.specs.Summaries.{micros_text};

    ghost output = { λ micros. Some (micros_text micros.0) };

    fn fmt<W: fmt::Write>(&self, f: &mut fmt::Formatter<W>) -> fmt::Result {
        let micros = self.0 / 1000;
        let tenths = self.0 / 100 % 10;
        write!(f, "{micros}.{tenths}")
    }
}

/// Puts how many commands there were in a second, and how many MiB.
#[tactic(auto, unfolding(crate::specs::Summaries::rates_text))]
fn put_rates(out: &mut String, many: u64, command_bytes: u64, nanos: u64) -> Result<(), AllocError>
    ensures { OnOk result (string_bytes out.new ≡ string_bytes out.old ++ rates_text many command_bytes nanos) }
{
    let bytes = many.saturating_mul(command_bytes);
    let rate = each_second(many, nanos);
    let kib = each_second(bytes, nanos) / 1024;
    let mib = kib / 1024;
    let tenths = kib % 1024 * 10 / 1024;
    let millis = nanos / 1_000_000;
    write!(
        out,
        "{rate} commands a second, {mib}.{tenths} MiB a second, {millis} ms\n"
    )
}

/// Puts the latencies of reads or writes, if there are any.
#[tactic(auto, unfolding(crate::specs::Summaries::latencies_text))]
fn put_latencies(out: &mut String, name: &str, took: &Histogram) -> Result<(), AllocError>
    ensures { OnOk result (string_bytes out.new ≡ string_bytes out.old ++ latencies_text name.now took.now) }
{
    if took.len() == 0 {
        return Ok(());
    }
    let least = Micros(took.least());
    let mean = Micros(took.mean());
    let half = Micros(took.percentile(500));
    let tenth = Micros(took.percentile(900));
    let hundredth = Micros(took.percentile(990));
    let thousandth = Micros(took.percentile(999));
    let most = Micros(took.most());
    write!(
        out,
        "{name} us: min {least}, mean {mean}, 50% {half}, 90% {tenth}, 99% {hundredth}, 99.9% {thousandth}, max {most}\n"
    )
}

impl LoadResult {
    /// What it came to, for a report.
    pub fn figures(&self) -> Figures<'_>
        ensures tally { result.tally ≡ self.now.tally }
        ensures measured { result.measured.now ≡ self.now.measured }
        ensures command_bytes { result.command_bytes ≡ self.now.command_bytes }
        ensures nanos { result.nanos ≡ self.now.nanos }
    {
        Figures {
            tally: self.tally,
            measured: &self.measured,
            command_bytes: self.command_bytes,
            nanos: self.nanos,
        }
    }

    /// What was measured, for people: two or three lines.
    ///
    /// # Errors
    ///
    /// Where memory is refused.
    pub fn summary(&self, alloc: Global) -> Result<String, AllocError>
        ensures { IfOk result (λ text. string_bytes text ≡ summary_text self.now.measured self.now.command_bytes self.now.nanos) }
    {
        let reads = &self.measured.reads;
        let writes = &self.measured.writes;
        let many = reads.len().saturating_add(writes.len());
        let mut text = String::new(alloc);
        put_rates(&mut text, many, self.command_bytes, self.nanos)?;
        put_latencies(&mut text, "read ", reads)?;
        put_latencies(&mut text, "write", writes)?;
        Ok(text)
    }
}
