//! When figures are due, while a load runs.

/// When the next report is due.
#[derive(Clone, Copy)]
pub(crate) struct Interval {
    /// The nanoseconds from one to the next, if there are any.
    every: Option<u64>,
    next: u64,
}

impl Interval {
    /// A report each time that this many seconds have gone by, if that is said.
    pub(crate) fn new(seconds: Option<u32>) -> Interval {
        let every = seconds.map(|seconds| u64::from(seconds) * 1_000_000_000);
        Interval {
            every,
            next: every.unwrap_or(0),
        }
    }

    /// Whether a report is due after this many nanoseconds. Then the next is due an interval later.
    pub(crate) fn is_due(&mut self, nanos: u64) -> bool {
        let Some(every) = self.every else {
            return false;
        };
        if nanos < self.next {
            return false;
        }
        self.next = nanos.saturating_add(every);
        true
    }
}
