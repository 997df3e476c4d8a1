//! Steps of the controller and reaps, as many as are made while the lock is held once, and who makes them.

use crate::book_lock::Shared;
use driver_book::{Book, LogBrand};
use shared::{Changes, Locked};
use std::alloc::{AllocError, Allocator};
use std::sync::MutexGuard;
use step_core::{ControllerStep, Refusal, WalkState};

/// Who serves in a run of threads. The steps are the same whoever that is.
#[derive(Clone, Copy, Debug, PartialEq, Eq)]
pub enum Server {
    /// A submitter that rang serves and reaps while it still has the lock, up to a bound. The controller's and the poller's threads do what is
    /// left.
    Ringer,
    /// The controller's thread alone serves, and the poller's alone reaps.
    Controller,
}

/// The most steps that a poller or a controller makes while it holds the lock once.
pub(crate) const MOST_OF_A_WORKER: u32 = 16;

/// The most steps of the controller, and the most reaps, that a submitter makes while it holds the lock once.
const MOST_OF_A_RINGER: u32 = 64;

/// Steps that were made while the lock was held once.
#[derive(Clone, Copy)]
pub(crate) struct Steps {
    /// Whether there was any.
    pub(crate) any: bool,
    /// What reaps may have changed. The lock sees what a step of the controller changed.
    changes: Changes,
    /// Whether memory was refused to the last one.
    short: bool,
}

/// No step.
const NO_STEPS: Steps = Steps {
    any: false,
    changes: Changes::NONE,
    short: false,
};

impl Steps {
    /// These, and one more that may have changed this, and why it was refused if it was.
    fn with(self, changes: Changes, refusal: Option<Refusal>) -> Steps {
        Steps {
            any: true,
            changes: self.changes.and(changes),
            short: matches!(refusal, Some(Refusal::Memory)),
        }
    }
}

/// Reaps the completions that are there, at most this many.
pub(crate) fn reap_some<L: LogBrand, A: Allocator + Copy>(
    book: &mut Book<L, A>,
    most: u32,
) -> Steps {
    let mut steps = NO_STEPS;
    for _ in 0..most {
        let Some(q) = book.next_completion() else {
            break;
        };
        let answer = book.reap(q);
        steps = steps.with(Changes::of_reap(q, &answer), answer.err());
        if steps.short {
            break;
        }
    }
    steps
}

/// Does a step of the controller, and answers the next one of its command where that is known: after a unit of a list the next unit while the walk
/// goes on, and then the completion.
///
/// # Errors
///
/// Why it was refused.
fn serve<L: LogBrand, A: Allocator + Copy>(
    book: &mut Book<L, A>,
    step: ControllerStep,
) -> Result<Option<ControllerStep>, Refusal> {
    match step {
        ControllerStep::Fetch { q } => match book.fetch(q) {
            Ok(_) => Ok(None),
            Err(refused) => Err(refused.why),
        },
        ControllerStep::Walk { q, cid } => match book.walk(q, cid) {
            Ok(walked) => Ok(Some(match walked.state {
                WalkState::More => step,
                WalkState::End | WalkState::Fault(_) => ControllerStep::Complete { q, cid },
            })),
            Err(refused) => Err(refused.why),
        },
        ControllerStep::Complete { q, cid } => match book.complete(q, cid) {
            Ok(_) => Ok(None),
            Err(refused) => Err(refused.why),
        },
    }
}

/// Does what the controller can do, at most this many steps. A command whose list is begun is walked and completed without a look for each step.
pub(crate) fn serve_some<L: LogBrand, A: Allocator + Copy>(
    book: &mut Book<L, A>,
    most: u32,
) -> Steps {
    let mut steps = NO_STEPS;
    let mut told = None;
    for _ in 0..most {
        let next = match told {
            Some(step) => Some(step),
            None => book.next_step(),
        };
        let Some(step) = next else {
            break;
        };
        let (refusal, behind) = match serve(book, step) {
            Ok(behind) => (None, behind),
            Err(why) => (Some(why), None),
        };
        steps = steps.with(Changes::NONE, refusal);
        if steps.short {
            break;
        }
        told = behind;
    }
    steps
}

/// Does what the controller can do once a submitter rang, and then reaps what there is.
fn serve_and_reap<L: LogBrand, A: Allocator + Copy>(book: &mut Book<L, A>) -> Steps {
    let steps = serve_some(book, MOST_OF_A_RINGER);
    if steps.short {
        return steps;
    }
    reap_some(book, MOST_OF_A_RINGER)
}

impl<L: LogBrand, A: Allocator + Copy> Shared<L, A> {
    /// Gives the lock back after steps, and wakes those who waited for what they changed, the poller and the controller where something is left for
    /// them.
    ///
    /// # Errors
    ///
    /// Where memory was refused to the last step.
    pub(crate) fn leave_behind(
        &self,
        locked: MutexGuard<'_, Locked<Book<L, A>>>,
        steps: Steps,
    ) -> Result<(), AllocError> {
        self.lock.leave(locked, steps.changes);
        if steps.short { Err(AllocError) } else { Ok(()) }
    }

    /// Gives the lock back after a ring: where a submitter that rang serves, it does so before. Whoever waits for what is left is woken.
    ///
    /// # Errors
    ///
    /// Where memory is refused as it serves or reaps.
    pub(crate) fn leave_rung(
        &self,
        locked: MutexGuard<'_, Locked<Book<L, A>>>,
    ) -> Result<(), AllocError> {
        let mut locked = locked;
        let steps = match self.server {
            Server::Ringer => serve_and_reap(&mut locked.machine),
            Server::Controller => NO_STEPS,
        };
        self.leave_behind(locked, steps)
    }
}
