//! How commands ended.

ghost use Rattle.std.specs.Prelude.{◌≡◌, ◌<◌, All, length};
ghost use Rattle.load.specs.Planning.{IsInside};
ghost use Rattle.load.specs.Rounds.{noted, wrote as spec_wrote};
ghost use Rattle.load.specs.Tallies.{compared as spec_compared, no_tally, of_end as spec_of_end, tally_from};

use crate::bad::{Bad, Why};
use crate::layout::Layout;
use crate::plan::Planned;
use crate::tally::Tally;
use crate::task::{Found, TaskEnd};
use io_commands::Kind;

/// What commands came to: how many ended how, and the first that did not end well.
#[derive(Clone, Copy)]
pub(crate) struct Looked {
    pub(crate) tally: Tally,
    pub(crate) bad: Option<Bad>,
}

/// What a command came to that ended with status 0:00, by what is found of its bytes.
fn compared(found: Found) -> Tally
    ensures { result ≡ spec_compared found }
{
    let done = Tally {
        done: 1,
        ..Tally::NONE
    };
    match found {
        Found::NotCompared => done,
        Found::Same => Tally {
            verified: 1,
            ..done
        },
        Found::Differs => Tally { differ: 1, ..done },
    }
}

/// What a command came to.
fn of_end(end: &TaskEnd) -> Tally
    ensures { result ≡ spec_of_end end.now }
{
    match end {
        TaskEnd::Refused(_) => Tally {
            refused: 1,
            ..Tally::NONE
        },
        TaskEnd::Done { status, bytes } => {
            if !status.is_success() {
                return Tally {
                    failed: 1,
                    ..Tally::NONE
                };
            }
            compared(*bytes)
        }
    }
}

/// What is wrong with a command that came to this.
fn why_of(tally: Tally, end: &TaskEnd) -> Option<Why> {
    match end {
        TaskEnd::Refused(why) => Some(Why::Refused(*why)),
        TaskEnd::Done { status, .. } if tally.failed > 0 => Some(Why::Status(*status)),
        TaskEnd::Done { .. } if tally.differ > 0 => Some(Why::Differs),
        TaskEnd::Done { .. } => None,
    }
}

/// Looks at how the commands of a submitter ended.
pub(crate) fn look_at(layout: Layout, plan: &[Planned], ends: &[TaskEnd]) -> Looked
    requires { All (IsInside layout) plan.now }
    ensures { result.tally ≡ tally_from no_tally plan.now ends.now }
{
    let mut looked = Looked {
        tally: Tally::NONE,
        bad: None,
    };
    for (planned, end) in plan.iter().zip(ends) {
        let tally = of_end(end);
        looked.tally = looked.tally.and(tally);
        if let (None, Some(why)) = (looked.bad, why_of(tally, end)) {
            looked.bad = Some(Bad {
                kind: planned.kind,
                slba: layout.first_block(planned.slot),
                blocks: layout.slot_blocks,
                why,
            });
        }
    }
    looked
}

/// Whether a command wrote its slot. A Write that was refused or failed left it as it was.
fn wrote(kind: Kind, end: &TaskEnd) -> bool
    ensures { result ≡ spec_wrote kind end.now }
{
    match (kind, end) {
        (Kind::Write, TaskEnd::Done { status, .. }) => status.is_success(),
        _ => false,
    }
}

/// Notes how often slots were written.
pub(crate) fn note_writes(generations: &mut [u32], plan: &[Planned], ends: &[TaskEnd])
    requires { All (λ p. p.slot < length generations.old) plan.now }
    ensures { generations.new ≡ noted generations.old plan.now ends.now }
{
    for (planned, end) in plan.iter().zip(ends) {
        if wrote(planned.kind, end) {
            generations[planned.slot] = planned.generation;
        }
    }
}
