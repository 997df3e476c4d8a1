//! How a job ended, as an object of JSON.

use crate::job_lines::is_well_end;
use crate::job_runs::Heading;
use driver_threads::{JobEnd, JobRefusal};
use entry_codec::Status;
use entry_codec::status_names::name_of;
use io_commands::FillFault;
use script_cli::{fill_fault_name, request_fault_name};
use serde::Serialize;
use std::alloc::{AllocError, Global};
use step_core::Bytes;
use texts::objects::{hex_bytes, put_object};

/// How a job ended. What an end does not have is left out.
#[derive(Drop, Serialize)]
struct JobObject {
    line: u32,
    seat: u16,
    kind: &'static str,
    /// Whether it was not refused, and its status is 0:00.
    well: bool,
    answer: &'static str,
    #[serde(skip_serializing_if = "Option::is_none")]
    status: Option<String>,
    #[serde(skip_serializing_if = "Option::is_none")]
    name: Option<&'static str>,
    #[serde(skip_serializing_if = "Option::is_none")]
    bytes: Option<String>,
    #[serde(skip_serializing_if = "Option::is_none")]
    why: Option<&'static str>,
    #[serde(skip_serializing_if = "Option::is_none")]
    fault: Option<&'static str>,
    #[serde(skip_serializing_if = "Option::is_none")]
    need: Option<u32>,
    #[serde(skip_serializing_if = "Option::is_none")]
    pool: Option<u32>,
}

impl JobObject {
    /// The object of a heading with an answer's name alone.
    fn headed(heading: Heading, well: bool, answer: &'static str) -> JobObject {
        JobObject {
            line: heading.number,
            seat: heading.submitter,
            kind: heading.kind.name(),
            well,
            answer,
            status: None,
            name: None,
            bytes: None,
            why: None,
            fault: None,
            need: None,
            pool: None,
        }
    }

    /// This object of a command that is done.
    fn done(self, alloc: Global, status: Status, bytes: &Bytes) -> Result<JobObject, AllocError> {
        Ok(JobObject {
            status: Some(format!(in alloc; "{status}")?),
            name: name_of(status),
            bytes: Some(hex_bytes(alloc, bytes.as_slice())?),
            ..self
        })
    }

    /// This object of a refusal with this name.
    fn named(self, why: &'static str) -> JobObject {
        JobObject {
            why: Some(why),
            ..self
        }
    }

    /// This object of a refusal.
    fn refused(self, why: JobRefusal) -> JobObject {
        match why {
            JobRefusal::NoQueue => self.named("NoQueue"),
            JobRefusal::QueueGone => self.named("QueueGone"),
            JobRefusal::Bad(fault) => JobObject {
                fault: Some(request_fault_name(fault)),
                ..self.named("Bad")
            },
            JobRefusal::OtherBlocks => self.named("OtherBlocks"),
            JobRefusal::NoPages { need, pool } => JobObject {
                need: Some(need),
                pool: Some(pool),
                ..self.named("NoPages")
            },
            JobRefusal::WrongLength => self.named(fill_fault_name(FillFault::WrongLength)),
        }
    }
}

/// Puts the object of how a job ended.
pub(crate) fn put_job_object(
    alloc: Global,
    out: &mut String,
    heading: Heading,
    end: &JobEnd,
) -> Result<(), AllocError> {
    let well = is_well_end(end);
    let object = match end {
        JobEnd::Done { status, bytes } => {
            JobObject::headed(heading, well, "done").done(alloc, *status, bytes)?
        }
        JobEnd::Refused(why) => JobObject::headed(heading, well, "refused").refused(*why),
    };
    put_object(alloc, out, &object)
}
