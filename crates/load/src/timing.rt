//! When commands got their pages and gave them back.

use driver_threads::{Gate, GateClosed, Point};
use script_cli::progress::nanos_of;
use std::alloc::{AllocError, Global};
use std::collections::VecDeque;
use std::rt::Clock;
use std::sync::{Mutex, Wait};
use std::time::Instant;

/// The commands of a submitter in a round.
#[derive(Drop)]
struct Times {
    /// When the last one got its pages, where it is not submitted yet.
    reserved: Option<Instant>,
    /// When each got its pages that is submitted and not released yet; the oldest first.
    submitted: VecDeque<Instant>,
    /// How long each took that was released, in nanoseconds.
    took: Vec<u64>,
}

/// A gate that holds nobody, and measures how long each command has its pages: from its reservation until they are free again. Whoever rings may
/// serve before the submission is told, so that is no beginning. Where the clock cannot be read, a submitter has no times.
#[derive(Drop)]
pub(crate) struct Timing<'a, R: Clock + Wait> {
    rt: &'a R,
    submitters: Vec<Mutex<Times>>,
}

impl<'a, R: Clock + Wait> Timing<'a, R> {
    /// No command yet of this many submitters.
    pub(crate) fn new(
        rt: &'a R,
        alloc: Global,
        submitters: u16,
    ) -> Result<Timing<'a, R>, AllocError> {
        let mut all = Vec::with_capacity(alloc, usize::from(submitters))?;
        for _ in 0..submitters {
            all.push(Mutex::new(Times {
                reserved: None,
                submitted: VecDeque::new(alloc),
                took: Vec::new(alloc),
            }))?;
        }
        Ok(Timing {
            rt,
            submitters: all,
        })
    }

    /// Takes how long the commands took that were released since, of each submitter in their order.
    pub(crate) fn take(&self, alloc: Global) -> Result<Vec<Vec<u64>>, AllocError> {
        let mut all = Vec::with_capacity(alloc, self.submitters.len())?;
        for times in &self.submitters {
            let mut times = times.lock(self.rt);
            all.push(Vec::from_slice(alloc, &times.took)?)?;
            times.took.clear();
            times.reserved = None;
            times.submitted.clear();
        }
        Ok(all)
    }
}

/// Notes that the command that got its pages last was submitted. One that was refused in between has no time.
fn note_submitted(times: &mut Times) {
    if let Some(then) = times.reserved.take() {
        // Without memory for it the command has no time.
        let _ = times.submitted.push_back(then);
    }
}

/// Notes when the oldest command was released.
fn note_released(times: &mut Times, now: Instant) {
    if let Some(then) = times.submitted.pop_front() {
        let _ = times.took.push(nanos_of(now.duration_since(then)));
    }
}

impl<R: Clock + Wait> Gate for Timing<'_, R> {
    fn at(&self, worker: u16, point: Point) -> Result<(), GateClosed> {
        let (Some(times), Ok(now)) = (
            self.submitters.get(usize::from(worker)),
            Instant::now(self.rt),
        ) else {
            return Ok(());
        };
        let mut times = times.lock(self.rt);
        match point {
            Point::Reserved => times.reserved = Some(now),
            Point::Submitted => note_submitted(&mut times),
            Point::Released => note_released(&mut times, now),
        }
        Ok(())
    }
}
