//! How far a long run is, on standard error, while it lasts.

ghost use Rattle.std.specs.Prelude.{◌≡◌, ◌*◌, ◌/◌, OnErr, OnOk, max, min};
ghost use Rattle.std.specs.Duration.{as_nanos};
ghost use Rattle.script_cli.specs.Progress.{begun, told_at};

use std::alloc::{AllocError, Global};
use std::rt::Clock;
use std::time::{Duration, Instant};

/// How long a line stays before another takes its place, in nanoseconds.
const EVERY: u64 = 200_000_000;

/// The nanoseconds of a duration.
pub fn nanos_of(duration: Duration) -> u64
    ensures { result ≡ min (as_nanos duration) 18446744073709551615 }
{
    duration
        .as_secs()
        .saturating_mul(1_000_000_000)
        .saturating_add(u64::from(duration.subsec_nanos()))
}

/// How many there are in a second, given this many in this many nanoseconds.
pub fn each_second(many: u64, nanos: u64) -> u64
    ensures { result ≡ min (many * 1000000) 18446744073709551615 / max (nanos / 1000) 1 }
{
    let micros = nanos / 1000;
    many.saturating_mul(1_000_000) / micros.max(1)
}

/// The time since a run began.
#[derive(Clone, Copy)]
pub struct Stopwatch {
    start: Option<Instant>,
}

impl Stopwatch {
    /// Begins.
    pub fn new<R: Clock>(rt: &R) -> Stopwatch {
        Stopwatch {
            start: Instant::now(rt).ok(),
        }
    }

    /// The nanoseconds since then; nothing where the clock cannot be read.
    pub fn nanos<R: Clock>(self, rt: &R) -> Option<u64> {
        let start = self.start?;
        let now = Instant::now(rt).ok()?;
        Some(nanos_of(now.duration_since(start)))
    }
}

/// How far a run is.
#[derive(Clone, Copy)]
pub struct Standing {
    /// Commands that have ended.
    pub done: u64,
    /// Commands in all, where their number bounds the run.
    pub all: Option<u64>,
    /// The most commands that are outstanding at once.
    pub in_flight: u64,
    /// The nanoseconds since it began.
    pub nanos: u64,
    /// The nanoseconds after which no more commands are begun, where time bounds the run.
    pub until: Option<u64>,
}

impl Standing {
    /// The seconds that are left, where the run is bounded.
    fn seconds_left(&self, rate: u64) -> Option<u64> {
        let by_count = self
            .all
            .map(|all| all.saturating_sub(self.done) / rate.max(1));
        let by_time = self
            .until
            .map(|until| until.saturating_sub(self.nanos) / 1_000_000_000);
        match (by_count, by_time) {
            (Some(count), Some(time)) => Some(count.min(time)),
            (left, None) | (None, left) => left,
        }
    }

    /// The words that say it.
    fn text(&self, alloc: Global) -> Result<String, AllocError> {
        let rate = each_second(self.done, self.nanos);
        let Standing {
            done,
            all,
            in_flight,
            ..
        } = *self;
        let mut text = String::new(alloc);
        write!(text, "{done}")?;
        if let Some(all) = all {
            write!(text, " of {all}")?;
        }
        write!(text, " done, {rate} a second, {in_flight} in flight")?;
        if let Some(left) = self.seconds_left(rate) {
            write!(text, ", {left} s left")?;
        }
        Ok(text)
    }
}

/// A line on standard error that says how far a run is, where that is a terminal.
#[derive(Clone, Copy)]
pub struct Progress {
    /// Whether there is such a line at all.
    pub shows: bool,
    /// Whether it was told yet.
    pub shown: bool,
    /// When the next line comes, in nanoseconds since the load began.
    pub next: u64,
}

impl Progress {
    /// No line yet, and none at all where it does not show.
    pub fn new(shows: bool) -> Progress
        ensures { result ≡ begun shows }
    {
        Progress {
            shows,
            shown: false,
            next: EVERY,
        }
    }

    /// Says how far the run is, at most every fifth of a second.
    ///
    /// # Errors
    ///
    /// Where memory is refused. Then nothing was told.
    pub fn tell<R: Eprint>(
        &mut self,
        rt: &R,
        alloc: Global,
        standing: Standing,
    ) -> Result<(), AllocError>
        ensures told { OnOk result (self.new ≡ told_at standing.nanos self.old) }
        ensures refused { OnErr result (self.new ≡ self.old) }
    {
        if !self.shows || standing.nanos < self.next {
            return Ok(());
        }
        let text = standing.text(alloc)?;
        self.next = standing.nanos.saturating_add(EVERY);
        self.shown = true;
        // Where standard error is closed, nothing is told.
        let _ = eprint!(rt; "\r{text:<72}");
        Ok(())
    }

    /// Says how far the run is in a line that stays, whatever standard error is.
    pub fn note<R: Eprint>(
        self,
        rt: &R,
        alloc: Global,
        standing: Standing,
    ) -> Result<(), AllocError> {
        let text = standing.text(alloc)?;
        self.end(rt);
        // Where standard error is closed, nothing is told.
        let _ = eprint!(rt; "{text}\n");
        Ok(())
    }

    /// Takes the line away.
    pub fn end<R: Eprint>(self, rt: &R) {
        if self.shown {
            let _ = eprint!(rt; "\r{:<72}\r", "");
        }
    }
}
