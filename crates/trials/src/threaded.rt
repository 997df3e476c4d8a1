//! Reads that threads carry through.

ghost use Rattle.std.specs.Prelude.{◌≡◌, ◌≤◌, vec_len, IfOk};
ghost use Rattle.step_core.specs.Opening.{opening_of};

use crate::fault::TrialFault;
use crate::reads::{Done, MOST_DEPTH, Shape, request};
use block_image::Image;
use driver_book::{BlankBook, LogBrand};
use driver_threads::{Job, JobEnd, JobEnds, Open, Ran, Server, run_threads};
use entry_codec::Status;
use std::alloc::{AllocError, Global};
use std::sync::Wait;
use std::thread::Threads;
use step_core::{Bytes, Config};

/// A submitter's jobs.
fn jobs_of(alloc: Global, worker: u16, shape: Shape) -> Result<Vec<Job>, AllocError> {
    let mut jobs = Vec::new(alloc);
    for _ in 0..shape.jobs {
        jobs.push(Job {
            q: 1,
            request: request(alloc, worker, shape.blocks)?,
            bytes: Bytes::from_vec(Vec::new(alloc)),
        })?;
    }
    Ok(jobs)
}

/// The jobs of all submitters.
fn all_jobs(alloc: Global, shape: Shape) -> Result<Vec<Vec<Job>>, AllocError> {
    let mut lists = Vec::new(alloc);
    for (worker, _) in (0..16u16).zip(0..shape.submitters) {
        lists.push(jobs_of(alloc, worker, shape)?)?;
    }
    Ok(lists)
}

/// How many bytes were read. `None` where a Read did not end well.
fn bytes_of(jobs: &JobEnds) -> Option<u64> {
    let mut all: u64 = 0;
    for list in jobs.as_slice() {
        for end in list {
            match end {
                JobEnd::Done { status, bytes } if *status == Status::SUCCESS => {
                    all = all.saturating_add(bytes.as_slice().len() as u64);
                }
                _ => return None,
            }
        }
    }
    Some(all)
}

/// Carries the Reads through in threads, over a new world. Each submitter has at most so many in flight at a time, and serves as it rings.
///
/// # Errors
///
/// `Refused` where the run fails or a Read does not end well, `Usage` where there is no submitter or the depth is not 1 to 256, and `Memory`
/// where it is refused for the jobs.
pub fn read_in_threads<L: LogBrand + Send + Sync, R: Threads + Wait + Sync>(
    rt: &R,
    alloc: Global,
    config: Config,
    shape: Shape,
    depth: u32,
    image: Image,
    blank: BlankBook,
) -> Result<Done, TrialFault>
    requires name { blank.ledger.name ≡ L.name }
    requires parts { blank.ledger.parts ≡ L.parts }
    requires number { blank.ledger.parts ≡ 65536 }
    requires list { blank.drafts.name ≡ L.list }
    requires opening { L.opening ≡ opening_of config image }
{
    let jobs = all_jobs(alloc, shape)?;
    if jobs.is_empty() || jobs.len() > 16 || depth == 0 || depth > MOST_DEPTH {
        return Err(TrialFault::Usage);
    }
    let depth = depth as usize;
    let server = Server::Ringer;
    let ran: Ran<L> = match run_threads(
        rt, alloc, config, image, jobs, depth, server, &Open, blank,
    ) {
        Ok(ran) => ran,
        Err(_) => return Err(TrialFault::Refused),
    };
    match bytes_of(&ran.jobs) {
        Some(bytes) => Ok(Done {
            commands: ran.report.submissions,
            entries: ran.book.log().len(),
            bytes,
        }),
        None => Err(TrialFault::Refused),
    }
}
