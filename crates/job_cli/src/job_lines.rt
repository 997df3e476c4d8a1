//! How jobs ended, as text.

ghost use Rattle.std.specs.Prelude.{◌≡◌, ◌++◌, OnOk, string_bytes, codes};
ghost use Rattle.entry_codec.specs.Status.{status_text};
ghost use Rattle.job_cli.specs.JobLines.{too_few_text, job_refusal_text, job_end_text, job_text, is_well_end as spec_is_well_end, unwell_among as spec_unwell_among, unwell_in};
ghost use Rattle.script_cli.specs.Replies.{gathered_text, request_fault_name as spec_request_fault_name};

use driver_threads::{JobEnd, JobEnds, JobRefusal};
use entry_codec::Status;
use io_commands::{FillFault, Kind, RequestFault};
use script_cli::{put_gathered, put_not_filled, request_fault_name};
use std::alloc::AllocError;
use step_core::Bytes;

/// Puts how a command ended, and what it gathered.
fn put_done(out: &mut String, status: Status, bytes: &Bytes) -> Result<(), AllocError>
    ensures { OnOk result (string_bytes out.new ≡ string_bytes out.old ++ (codes "status " ++ (status_text status ++ (codes " " ++ gathered_text bytes.now)))) }
{
    write!(out, "status {status} ")?;
    put_gathered(out, bytes.as_slice())
}

/// Puts that a request has a fault.
fn put_bad(out: &mut String, why: RequestFault) -> Result<(), AllocError>
    ensures { OnOk result (string_bytes out.new ≡ string_bytes out.old ++ (codes "refused Bad " ++ spec_request_fault_name why)) }
{
    let name = request_fault_name(why);
    write!(out, "refused Bad {name}")
}

/// Puts that the pool has too few pages.
fn put_too_few(out: &mut String, need: u32, pool: u32) -> Result<(), AllocError>
    ensures { OnOk result (string_bytes out.new ≡ string_bytes out.old ++ too_few_text need pool) }
{
    write!(out, "refused NoPages need {need} pool {pool}")
}

/// Puts why a job was refused.
fn put_job_refusal(out: &mut String, why: JobRefusal) -> Result<(), AllocError>
    ensures { OnOk result (string_bytes out.new ≡ string_bytes out.old ++ job_refusal_text why) }
{
    match why {
        JobRefusal::NoQueue => out.push_str("refused NoQueue"),
        JobRefusal::QueueGone => out.push_str("refused QueueGone"),
        JobRefusal::Bad(fault) => put_bad(out, fault),
        JobRefusal::OtherBlocks => out.push_str("refused OtherBlocks"),
        JobRefusal::NoPages { need, pool } => put_too_few(out, need, pool),
        JobRefusal::WrongLength => put_not_filled(out, FillFault::WrongLength),
    }
}

/// Puts how a job ended.
fn put_job_end(out: &mut String, end: &JobEnd) -> Result<(), AllocError>
    ensures { OnOk result (string_bytes out.new ≡ string_bytes out.old ++ job_end_text end.now) }
{
    match end {
        JobEnd::Done { status, bytes } => put_done(out, *status, bytes),
        JobEnd::Refused(why) => put_job_refusal(out, *why),
    }
}

/// Appends the line of a job to a text: the number of its line, its submitter, its kind and how it ended.
///
/// # Errors
///
/// Where memory is refused. A part of the line may then be in the text.
pub fn append_job_line(
    out: &mut String,
    number: u32,
    seat: u16,
    kind: Kind,
    end: &JobEnd,
) -> Result<(), AllocError>
    ensures { OnOk result (string_bytes out.new ≡ string_bytes out.old ++ job_text number seat kind end.now) }
{
    let name = kind.name();
    write!(out, "{number} seat {seat} {name} ")?;
    put_job_end(out, end)?;
    out.push_str("\n")
}

/// Whether a job was not refused, and its status is 0:00.
pub(crate) fn is_well_end(end: &JobEnd) -> bool
    ensures { result ≡ spec_is_well_end end.now }
{
    match end {
        JobEnd::Done { status, .. } => status.is_success(),
        JobEnd::Refused(_) => false,
    }
}

/// How many jobs of a submitter were refused, or have a status other than 0:00.
fn unwell_among(ends: &[JobEnd]) -> usize
    ensures { result ≡ spec_unwell_among ends.now }
{
    ends.iter().filter(|end| !is_well_end(end)).count()
}

/// How many jobs were refused, or have a status other than 0:00; [`u64::MAX`] where there are more.
pub(crate) fn unwell_jobs(ends: &JobEnds) -> u64
    ensures { result ≡ unwell_in ends.now }
{
    let mut unwell = 0u64;
    let mut left = ends.as_slice();
    while let Some((list, others)) = left.split_first() {
        unwell = unwell.saturating_add(unwell_among(list) as u64);
        left = others;
    }
    unwell
}
