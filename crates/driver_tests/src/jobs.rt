//! Jobs that submitters do over and over, and how they must end.

use crate::looks::see;
use driver_threads::{Job, JobEnd, JobRefusal};
use entry_codec::Status;
use io_commands::Kind;
use session_scripts::desk::runs::job;
use std::alloc::{AllocError, Global};
use std::process::Abort;

/// A job on a queue, of this many blocks, each in a piece of its own.
#[derive(Clone, Copy)]
pub(crate) struct Asked {
    pub(crate) q: u16,
    pub(crate) kind: Kind,
    /// The first block of the first submitter.
    pub(crate) slba: u64,
    /// How many blocks further that of each other submitter is. At 0 all submitters have the same blocks.
    pub(crate) apart: u64,
    pub(crate) blocks: u32,
    /// The byte with which its blocks are filled. Where submitters have blocks of their own, it is this one in the first round of the first of them.
    pub(crate) byte: u8,
    /// How many such bytes it brings.
    pub(crate) brings: usize,
    pub(crate) end: Wanted,
    /// How many entries the log has of it: 8 of a command and those of its walk.
    pub(crate) entries: usize,
}

/// How a job ends.
#[derive(Clone, Copy)]
pub(crate) enum Wanted {
    /// With a status, and this many such bytes.
    Done(Status, usize),
    /// It is refused.
    Refused(JobRefusal),
}

/// A Read of the first block, which has zeros, with a list of one descriptor.
pub(crate) const READ: Asked = Asked {
    q: 1,
    kind: Kind::Read,
    slba: 0,
    apart: 0,
    blocks: 1,
    byte: 0,
    brings: 0,
    end: Wanted::Done(Status::SUCCESS, 512),
    entries: 8 + 2,
};

impl Asked {
    /// The byte with which its blocks are filled in this round of a submitter.
    fn byte(&self, worker: u8, round: u8) -> u8 {
        if self.apart == 0 {
            self.byte
        } else {
            let first = self.byte.wrapping_add(worker.wrapping_mul(16));
            first.wrapping_add(round % 16)
        }
    }

    /// Whether it ended as is wanted in this round of a submitter.
    fn is_end(&self, end: &JobEnd, worker: u8, round: u8) -> bool {
        match (self.end, end) {
            (Wanted::Done(wanted, length), JobEnd::Done { status, bytes }) => {
                let byte = self.byte(worker, round);
                for one in bytes.as_slice() {
                    if *one != byte {
                        return false;
                    }
                }
                *status == wanted && bytes.as_slice().len() == length
            }
            (Wanted::Refused(wanted), JobEnd::Refused(why)) => *why == wanted,
            _ => false,
        }
    }
}

/// The jobs of a submitter.
fn jobs_of(alloc: Global, asked: &[Asked], worker: u8, rounds: u8) -> Result<Vec<Job>, AllocError> {
    let mut jobs = Vec::new(alloc);
    for round in 0..rounds {
        for one in asked {
            let bytes = vec![in alloc; one.byte(worker, round); one.brings]?;
            let slba = one.slba.wrapping_add(one.apart.wrapping_mul(worker.into()));
            jobs.push(job(alloc, one.q, one.kind, slba, one.blocks, &bytes)?)?;
        }
    }
    Ok(jobs)
}

/// The jobs of this many submitters, each of which does them this many times.
pub(crate) fn lists_of(
    alloc: Global,
    asked: &[Asked],
    submitters: u8,
    rounds: u8,
) -> Result<Vec<Vec<Job>>, AllocError> {
    let mut lists = Vec::new(alloc);
    for worker in 0..submitters {
        lists.push(jobs_of(alloc, asked, worker, rounds)?)?;
    }
    Ok(lists)
}

/// Sees that the jobs of all submitters ended as is wanted, in their order.
pub(crate) fn see_ends<R: Abort>(
    rt: &R,
    lists: &[Vec<JobEnd>],
    asked: &[Asked],
    submitters: u8,
    rounds: u8,
) {
    see(rt, &lists.len(), &usize::from(submitters));
    for (list, worker) in lists.iter().zip(0..submitters) {
        let mut ends = list.iter();
        for round in 0..rounds {
            for one in asked {
                match ends.next() {
                    Some(end) => assert!(rt; one.is_end(end, worker, round)),
                    None => panic!(rt; "a job has no end"),
                }
            }
        }
        assert!(rt; ends.next().is_none());
    }
}
