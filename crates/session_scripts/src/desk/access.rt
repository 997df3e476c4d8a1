//! A driver: a book, or a book under its lock.

use crate::desk::answers::{done, refused, sent};
use driver_book::{Book, FullLogBrand};
use driver_threads::Shared;
use std::alloc::{Allocator, Global};
use std::sync::Wait;
use step_core::{Reply, ReplyIn, Step, StepIn, StepRefused};

/// What a driver's calls are made on: each is that of the book, or of its lock, under the same name.
pub enum Access<L: FullLogBrand, A: Allocator = Global> {
    /// The book itself.
    Book(Book<L, A>),
    /// The book under its lock.
    Lock(Shared<L, A>),
}

/// Makes a step through a book, one that takes no command and gives none. Any other is `NoValue`.
///
/// # Errors
///
/// Where the controller refuses it.
pub fn step_through_book<L: FullLogBrand, A: Allocator + Copy>(
    book: &mut Book<L, A>,
    step: &StepIn<A>,
) -> Result<ReplyIn<A>, StepRefused> {
    Ok(match *step {
        Step::Ring { q } => done(book.ring(q)),
        Step::Fetch { q } => {
            let fetched = book.fetch(q)?;
            Reply::Fetched {
                cid: fetched.cid,
                touched: fetched.touched,
            }
        }
        Step::Walk { q, cid } => {
            let walked = book.walk(q, cid)?;
            Reply::Walked {
                state: walked.state,
                touched: walked.touched,
            }
        }
        Step::Complete { q, cid } => Reply::Completed {
            touched: book.complete(q, cid)?.touched,
        },
        Step::Reap { q } => match book.reap(q) {
            Ok(what) => Reply::Reaps(what),
            Err(why) => refused(why),
        },
        Step::Abort { q, cid } => sent(book.abort(q, cid)),
        Step::DeleteSq { q } => sent(book.delete_sq(q)),
        Step::DeleteCq { q } => sent(book.delete_cq(q)),
        Step::CreateCq { q, vector } => sent(book.create_cq(q, vector)),
        Step::CreateSq { q } => sent(book.create_sq(q)),
        Step::Retire { q } => done(book.retire(q)),
        Step::Forge { q, slot, bytes } => done(book.forge(q, slot, bytes)),
        Step::Reset => done(book.reset()),
        _ => Reply::NoValue,
    })
}

/// Makes a step under a lock, one that takes no command and gives none. Any other is `NoValue`.
///
/// # Errors
///
/// Where the controller refuses it.
pub fn step_behind_lock<L: FullLogBrand, A: Allocator + Copy, R: Wait>(
    rt: &R,
    shared: &Shared<L, A>,
    step: &StepIn<A>,
) -> Result<ReplyIn<A>, StepRefused> {
    Ok(match *step {
        Step::Ring { q } => done(shared.ring(rt, q)),
        Step::Fetch { q } => {
            let fetched = shared.fetch(rt, q)?;
            Reply::Fetched {
                cid: fetched.cid,
                touched: fetched.touched,
            }
        }
        Step::Walk { q, cid } => {
            let walked = shared.walk(rt, q, cid)?;
            Reply::Walked {
                state: walked.state,
                touched: walked.touched,
            }
        }
        Step::Complete { q, cid } => Reply::Completed {
            touched: shared.complete(rt, q, cid)?.touched,
        },
        Step::Reap { q } => match shared.reap(rt, q) {
            Ok(what) => Reply::Reaps(what),
            Err(why) => refused(why),
        },
        Step::Abort { q, cid } => sent(shared.abort(rt, q, cid)),
        Step::DeleteSq { q } => sent(shared.delete_sq(rt, q)),
        Step::DeleteCq { q } => sent(shared.delete_cq(rt, q)),
        Step::CreateCq { q, vector } => sent(shared.create_cq(rt, q, vector)),
        Step::CreateSq { q } => sent(shared.create_sq(rt, q)),
        Step::Retire { q } => done(shared.retire(rt, q)),
        Step::Forge { q, slot, bytes } => done(shared.forge(rt, q, slot, bytes)),
        Step::Reset => done(shared.reset(rt)),
        _ => Reply::NoValue,
    })
}
