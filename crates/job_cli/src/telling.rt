//! How jobs ended, as it is written while others are still being done.

ghost use Rattle.std.specs.Prelude.{◌≡◌, ◌≤◌, ◌⊎◌, ℕ, IfErr, IfOk, length, List, MatchOption, None, OnErr, OnOk, Some, string_bytes};
ghost use Rattle.std.specs.Io.KnownBytes.{Appends, Keeps};
ghost use Rattle.job_cli.specs.Headings.{end_at, headed_so_far, headed_text, without_end};
ghost use Rattle.job_cli.specs.JobRuns.{IsClosing};
ghost use Rattle.job_cli.specs.declared.telling.Form.TheVariants.{Lines};
ghost use Rattle.script_cli.specs.Inputs.{Gains, IsFront};
ghost use Rattle.script_cli.specs.Runs.{AreOwners};
ghost use Rattle.script_cli.specs.declared.fault.RunFault.TheVariants as run;

use crate::job_lines::append_job_line;
use crate::job_runs::Heading;
use crate::objects::put_job_object;
use driver_threads::{JobEnd, JobEnds};
use page_ledger::Owner;
use page_memory::PageNo;
use script_cli::{RunFault, append_counts, append_owners, flush, put};
use std::alloc::{AllocError, Global};
use std::io::Write;
use step_core::World;
use texts::objects::put_counts_object;

/// What is written of a run of jobs.
#[derive(Clone, Copy, Debug, PartialEq, Eq)]
pub enum Form {
    /// A line for each job, then the owners of all pages and the counts.
    Lines,
    /// An object of JSON on a line for each job, then one with the counts.
    Objects,
}

/// How the job of a heading ended.
fn end_of<'a>(ends: &'a JobEnds, heading: Heading) -> Option<&'a JobEnd>
    ensures { MatchOption result (end_at ends.now heading ≡ None) (λ end. end_at ends.now heading ≡ Some end.now) }
{
    let list = ends.as_slice().get(usize::from(heading.submitter))?;
    list.get(heading.place)
}

/// How a job ended, as text.
fn end_text(alloc: Global, form: Form, heading: Heading, end: &JobEnd) -> Result<String, AllocError>
    ensures line { form ≡ Lines → IfOk result (λ text. string_bytes text ≡ headed_text heading (Some end.now)) }
{
    let Heading {
        number,
        submitter,
        kind,
        ..
    } = heading;
    let mut text = String::new(alloc);
    match form {
        Form::Lines => append_job_line(&mut text, number, submitter, kind, end)?,
        Form::Objects => put_job_object(alloc, &mut text, heading, end)?,
    }
    Ok(text)
}

/// Writes how the jobs ended whose turn came: those of these headings, in their order, up to the first that has not ended. It answers that heading
/// and those after it.
pub(crate) fn write_ended<'a, W: Write>(
    alloc: Global,
    form: Form,
    headings: &'a [Heading],
    ends: &JobEnds,
    writer: &mut W,
) -> Result<&'a [Heading], RunFault>
    ensures left { IfOk result (λ left. left.now ≡ without_end ends.now headings.now) }
    ensures written { form ≡ Lines → OnOk result (Appends (W.contents writer.old) (W.contents writer.new) (headed_so_far ends.now headings.now)) }
    ensures cut { form ≡ Lines → OnErr result (Gains (W.contents writer.old) (W.contents writer.new) (λ front. IsFront front (headed_so_far ends.now headings.now))) }
    ensures fault { IfErr result (λ fault. (fault ≡ run.Memory) ⊎ (fault ≡ run.OutputFailed)) }
{
    let mut left = headings;
    while let Some((heading, later)) = left.split_first() {
        let Some(end) = end_of(ends, *heading) else {
            break;
        };
        let text = end_text(alloc, form, *heading, end)?;
        put(writer, text.as_bytes())?;
        left = later;
    }
    flush(writer)?;
    Ok(left)
}

/// The owners of all pages of a world, in the pages' order.
fn owners_of(alloc: Global, world: &World) -> Result<Vec<Owner>, AllocError>
    ensures owners { IfOk result (λ owners. AreOwners world.now.state owners.items) }
    ensures few { IfOk result (λ owners. length owners.items ≤ 65536) }
{
    let pages = world.pages();
    let mut owners = Vec::with_capacity(alloc, pages as usize)?;
    for p in 0..pages {
        owners.push_reserved(world.owner(PageNo(p)));
    }
    Ok(owners)
}

/// The owners of all pages of a world, and its counts.
fn closing_lines(alloc: Global, world: &World) -> Result<String, AllocError>
    ensures { IfOk result (λ text. IsClosing world.now.state (string_bytes text)) }
{
    let owners = owners_of(alloc, world)?;
    let mut text = String::new(alloc);
    append_owners(&mut text, &owners)?;
    append_counts(&mut text, world.counts())?;
    Ok(text)
}

/// The object with the counts of a world.
fn closing_object(alloc: Global, world: &World) -> Result<String, AllocError> {
    let mut text = String::new(alloc);
    put_counts_object(alloc, &mut text, world.counts())?;
    Ok(text)
}

/// Writes what follows the jobs.
pub(crate) fn write_closing<W: Write>(
    alloc: Global,
    form: Form,
    world: &World,
    writer: &mut W,
) -> Result<(), RunFault>
    ensures written { form ≡ Lines → OnOk result (Gains (W.contents writer.old) (W.contents writer.new) (λ text. IsClosing world.now.state text)) }
    ensures cut { form ≡ Lines → OnErr result (Keeps (W.contents writer.old) (W.contents writer.new) ⊎ Gains (W.contents writer.old) (W.contents writer.new) (λ front. (text : List ℕ) × IsClosing world.now.state text × IsFront front text)) }
    ensures fault { IfErr result (λ fault. (fault ≡ run.Memory) ⊎ (fault ≡ run.OutputFailed)) }
{
    let text = match form {
        Form::Lines => closing_lines(alloc, world)?,
        Form::Objects => closing_object(alloc, world)?,
    };
    put(writer, text.as_bytes())?;
    flush(writer)
}
