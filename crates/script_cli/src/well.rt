//! Which answers are well.

ghost use Rattle.std.specs.Prelude.{◌≡◌};
ghost use Rattle.script_cli.specs.Replies.{is_well as spec_is_well, is_well_reaped as spec_is_well_reaped, is_well_walk as spec_is_well_walk};

use controller_walk::WalkState;
use step_core::{Reaped, Reply};

/// Whether a reap found nothing, or a completion with the status 0:00.
fn is_well_reaped(what: &Reaped) -> bool
    ensures { result ≡ spec_is_well_reaped what.now }
{
    match *what {
        Reaped::Empty => true,
        Reaped::Done { status, .. } | Reaped::AdminDone { status, .. } => status.is_success(),
        Reaped::Rejected(_) => false,
    }
}

/// Whether a walk found no fault.
fn is_well_walk(state: WalkState) -> bool
    ensures { result ≡ spec_is_well_walk state }
{
    match state {
        WalkState::More | WalkState::End => true,
        WalkState::Fault(status) => status.is_success(),
    }
}

/// Whether a step was not refused, and what it answered has no status other than 0:00 and no rejected completion.
pub fn is_well(reply: &Reply) -> bool
    ensures { result ≡ spec_is_well reply.now }
{
    match reply {
        Reply::Walked { state, .. } => is_well_walk(*state),
        Reply::Reaps(what) => is_well_reaped(what),
        Reply::Collected { status, .. } => status.is_success(),
        Reply::NoValue | Reply::NotFilled(_) | Reply::Refused { .. } => false,
        _ => true,
    }
}
