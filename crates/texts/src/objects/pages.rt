//! Who owns the pages, as objects.

ghost use Rattle.std.specs.Prelude.{◌≡◌, ◌++◌, IfOk, OnOk, string_bytes};
ghost use Rattle.texts.specs.Objects.{Sends, events_of, line_of, members_events};
ghost use Rattle.texts.specs.PageObjects.{class_counts, counts_object, owner_members, owners_object, run_object, runs_object, runs_of as spec_runs_of};
ghost use Rattle.script_cli.specs.Owners.{half_name as spec_half_name, role_name as spec_role_name};

use crate::objects::line::put_object;
use crate::objects::members::{put_number, put_text};
use page_ledger::{Counts, Owner, Role};
use page_memory::Half;
use serde::{Described, Serialize, Serializer};
use std::alloc::{AllocError, Global};

/// How many pages each class has.
#[derive(Drop)]
struct ClassCounts(Counts);

impl Described for ClassCounts {
    ghost writes = { λ it. Sends (events_of (class_counts it.0)) };
}

impl Serialize for ClassCounts {
    fn serialize<S: Serializer>(&self, out: &mut S) -> Result<(), S::Error> {
        out.begin_map(None)?;
        put_number(out, "free", u64::from(self.0.free_pages))?;
        put_number(out, "queue", u64::from(self.0.queue_pages))?;
        put_number(out, "chain", u64::from(self.0.chain_pages))?;
        put_number(out, "data", u64::from(self.0.data_pages))?;
        out.end_map()
    }
}

/// The last object of every run.
#[derive(Drop)]
struct LastObject {
    counts: ClassCounts,
}

impl Described for LastObject {
    ghost writes = { λ it. Sends (events_of (counts_object it.counts.0)) };
}

impl Serialize for LastObject {
    fn serialize<S: Serializer>(&self, out: &mut S) -> Result<(), S::Error> {
        out.begin_map(None)?;
        out.key("counts")?;
        self.counts.serialize(out)?;
        out.end_map()
    }
}

/// Puts the last object of a run: how many pages each class has.
///
/// # Errors
///
/// Where memory is refused.
pub fn put_counts_object(alloc: Global, out: &mut String, counts: Counts) -> Result<(), AllocError>
    ensures { OnOk result (string_bytes out.new ≡ string_bytes out.old ++ line_of (counts_object counts)) }
{
    let counts = ClassCounts(counts);
    put_object(alloc, out, &LastObject { counts })
}

/// Pages that follow each other and have one owner.
#[derive(Drop)]
pub struct Run {
    /// The first of them.
    pub first: usize,
    /// The last of them.
    pub last: usize,
    /// Their owner.
    pub owner: Owner,
}

/// The name of a ring.
fn half_name(half: Half) -> &'static str
    ensures { result.now ≡ spec_half_name half }
{
    match half {
        Half::Submission => "sq",
        Half::Completion => "cq",
    }
}

/// The name of what a page holds.
fn role_name(role: Role) -> &'static str
    ensures { result.now ≡ spec_role_name role }
{
    match role {
        Role::Data => "data",
        Role::Chain => "chain",
    }
}

/// Puts the members of an owner.
fn put_owner<S: Serializer>(out: &mut S, owner: Owner) -> Result<(), S::Error>
    ensures { OnOk result (Sends (members_events (owner_members owner)) (S.written out.old) (S.written out.new)) }
{
    match owner {
        Owner::Free => put_text(out, "owner", "free"),
        Owner::Queue { q, half } => {
            put_text(out, "owner", "queue")?;
            put_number(out, "q", u64::from(q))?;
            put_text(out, "role", half_name(half))
        }
        Owner::Command { q, cid, role } => {
            put_text(out, "owner", "command")?;
            put_number(out, "q", u64::from(q))?;
            put_number(out, "cid", u64::from(cid))?;
            put_text(out, "role", role_name(role))
        }
    }
}

impl Described for Run {
    ghost writes = { λ it. Sends (events_of (run_object it)) };
}

impl Serialize for Run {
    fn serialize<S: Serializer>(&self, out: &mut S) -> Result<(), S::Error> {
        out.begin_map(None)?;
        put_number(out, "first", self.first as u64)?;
        put_number(out, "last", self.last as u64)?;
        put_owner(out, self.owner)?;
        out.end_map()
    }
}

/// All pages, by their owners.
#[derive(Drop)]
struct OwnersObject {
    line: u32,
    runs: Vec<Run>,
}

impl Described for OwnersObject {
    ghost writes = { λ it. Sends (events_of (runs_object it.line it.runs.items)) };
}

impl Serialize for OwnersObject {
    fn serialize<S: Serializer>(&self, out: &mut S) -> Result<(), S::Error> {
        out.begin_map(None)?;
        put_number(out, "line", u64::from(self.line))?;
        put_text(out, "verb", "owners")?;
        out.key("owners")?;
        self.runs.serialize(out)?;
        out.end_map()
    }
}

/// The longest runs of pages with one owner.
fn runs_of(alloc: Global, owners: &[Owner]) -> Result<Vec<Run>, AllocError>
    ensures { IfOk result (λ runs. runs.items ≡ spec_runs_of owners.now) }
{
    let mut runs = Vec::new(alloc);
    let Some((run, mut rest)) = owners.split_first() else {
        return Ok(runs);
    };
    let (mut first, mut last, mut owner) = (0usize, 0usize, *run);
    while let Some((next, others)) = rest.split_first() {
        if *next != owner {
            runs.push(Run { first, last, owner })?;
            owner = *next;
            first = last + 1;
        }
        last += 1;
        rest = others;
    }
    runs.push(Run { first, last, owner })?;
    Ok(runs)
}

/// Puts the object of the line `owners` of this number: the longest runs of pages with one owner.
///
/// # Errors
///
/// Where memory is refused.
pub fn put_owners_object(
    alloc: Global,
    out: &mut String,
    number: u32,
    owners: &[Owner],
) -> Result<(), AllocError>
    ensures { OnOk result (string_bytes out.new ≡ string_bytes out.old ++ line_of (owners_object number owners.now)) }
{
    let object = OwnersObject {
        line: number,
        runs: runs_of(alloc, owners)?,
    };
    put_object(alloc, out, &object)
}
