//! The owners of all pages and the counts, as text.

ghost use Rattle.std.specs.Prelude.{◌≡◌, ◌≤◌, ◌++◌, OnOk, length, string_bytes};
ghost use Rattle.script_cli.specs.Owners.{is_same_role, is_same_owner, half_name as spec_half_name, role_name as spec_role_name, owner_text, owner_line, owners_text, counts_line};
ghost use Rattle.page_ledger.specs.Owners.{is_same_half};

use page_ledger::{Counts, Owner, Role};
use page_memory::Half;
use std::alloc::AllocError;

/// Whether two rings are the same of the two.
fn same_half(a: Half, b: Half) -> bool
    ensures { result ≡ is_same_half a b }
{
    match (a, b) {
        (Half::Submission, Half::Submission) | (Half::Completion, Half::Completion) => true,
        (Half::Submission, Half::Completion) | (Half::Completion, Half::Submission) => false,
    }
}

/// Whether two pages hold the same for their commands.
fn same_role(a: Role, b: Role) -> bool
    ensures { result ≡ is_same_role a b }
{
    match (a, b) {
        (Role::Data, Role::Data) | (Role::Chain, Role::Chain) => true,
        (Role::Data, Role::Chain) | (Role::Chain, Role::Data) => false,
    }
}

/// Whether two owners are the same.
fn same_owner(a: Owner, b: Owner) -> bool
    ensures { result ≡ is_same_owner a b }
{
    match (a, b) {
        (Owner::Free, Owner::Free) => true,
        (Owner::Queue { q, half }, Owner::Queue { q: p, half: other }) => {
            q == p && same_half(half, other)
        }
        (
            Owner::Command { q, cid, role },
            Owner::Command {
                q: p,
                cid: did,
                role: other,
            },
        ) => q == p && cid == did && same_role(role, other),
        _ => false,
    }
}

/// The name of a ring.
fn half_name(half: Half) -> &'static str
    ensures { result.now ≡ spec_half_name half }
{
    match half {
        Half::Submission => "sq",
        Half::Completion => "cq",
    }
}

/// The name of what a page holds.
fn role_name(role: Role) -> &'static str
    ensures { result.now ≡ spec_role_name role }
{
    match role {
        Role::Data => "data",
        Role::Chain => "chain",
    }
}

/// Puts an owner.
fn put_owner(out: &mut String, owner: Owner) -> Result<(), AllocError>
    ensures { OnOk result (string_bytes out.new ≡ string_bytes out.old ++ owner_text owner) }
{
    match owner {
        Owner::Free => out.push_str("free"),
        Owner::Queue { q, half } => {
            let name = half_name(half);
            write!(out, "queue {q} {name}")
        }
        Owner::Command { q, cid, role } => {
            let name = role_name(role);
            write!(out, "command {q} {cid} {name}")
        }
    }
}

/// Puts the line of a run of pages.
fn put_line(out: &mut String, first: usize, last: usize, owner: Owner) -> Result<(), AllocError>
    ensures { OnOk result (string_bytes out.new ≡ string_bytes out.old ++ owner_line first last owner) }
{
    write!(out, "{first}-{last} ")?;
    put_owner(out, owner)?;
    out.push_str("\n")
}

/// Appends the lines of the owners of all pages to a text: one line for each longest run of pages with one owner.
///
/// # Errors
///
/// Where memory is refused. A part of the lines may then be in the text.
pub fn append_owners(out: &mut String, owners: &[Owner]) -> Result<(), AllocError>
    requires { length owners.now ≤ 65536 }
    ensures { OnOk result (string_bytes out.new ≡ string_bytes out.old ++ owners_text owners.now) }
{
    let Some((run, mut rest)) = owners.split_first() else {
        return Ok(());
    };
    let mut owner = *run;
    let mut first = 0usize;
    let mut last = 0usize;
    while let Some((next, others)) = rest.split_first() {
        if !same_owner(*next, owner) {
            put_line(out, first, last, owner)?;
            owner = *next;
            first = last + 1;
        }
        last += 1;
        rest = others;
    }
    put_line(out, first, last, owner)
}

/// Appends the last line of every run to a text.
///
/// # Errors
///
/// Where memory is refused. A part of the line may then be in the text.
pub fn append_counts(out: &mut String, counts: Counts) -> Result<(), AllocError>
    ensures { OnOk result (string_bytes out.new ≡ string_bytes out.old ++ counts_line counts) }
{
    let (free, queue) = (counts.free_pages, counts.queue_pages);
    let (chain, data) = (counts.chain_pages, counts.data_pages);
    write!(
        out,
        "counts free {free} queue {queue} chain {chain} data {data}\n"
    )
}
