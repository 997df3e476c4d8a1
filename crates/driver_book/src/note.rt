//! What is written down of the answer to a call of the world: nothing where it was refused for want of memory.

ghost use Rattle.std.specs.Prelude.{◌≡◌, ◌+◌, ◌++◌, ◌∷◌, ◌<◌, [], None, IfOk, IfErr, OnOk, length};
ghost use Rattle.machine_model.specs.Events as events;
ghost use Rattle.step_core.specs.Replies.{accept_reply, collect_reply, ring_reply, reap_reply, complete_reply, fetch_reply, walk_reply, send_reply};
ghost use Rattle.driver_book.specs.History.{entry_of, told};
ghost use Rattle.driver_book.specs.Keeping.{HasNoRequest, bare_step};
ghost use Rattle.driver_book.specs.Entries.{Takes, answered};
ghost use Rattle.driver_book.specs.Calls.{noted, entries};

use crate::{KeptStep, Log, NoBytes};
use io_commands::{Draft, Finished, Request, Ticket};
use machine_model::words::{Reaped, Refusal};
use std::alloc::Allocator;
use step_core::{Completed, Fetched, Refused, Reply, Step, StepRefused, Touched, Walked};

/// Writes down a step that has no request, if there is something to write. The log has room.
pub(crate) fn note<A: Allocator>(
    log: &mut Log<A>,
    seat: Option<u16>,
    step: KeptStep,
    answer: Option<Reply<NoBytes>>,
)
    requires room { 0 < log.old.room.entries }
    requires bare { HasNoRequest step }
    ensures { log.new.entries ≡ log.old.entries ++ entries seat (bare_step step) None answer }
{
    match answer {
        Some(answer) => log.push(seat, step, answer),
        None => {}
    }
}

/// Writes down a reservation, if there is something to write: with its request, and the draft that came of it. The log has room.
pub(crate) fn note_reservation<A: Allocator>(
    log: &mut Log<A>,
    q: u16,
    answer: &Result<Draft<A>, Refused<Request<A>>>,
)
    requires draft { IfOk answer.now (λ draft. Takes log.old.room (length draft.request.pieces) (length draft.data_pages + length draft.chain_pages)) }
    requires request { IfErr answer.now (λ r. Takes log.old.room (length r.value.pieces) 0) }
    ensures draft { IfOk answer.now (λ draft. log.new.entries ≡ log.old.entries ++ entry_of None (events.Reserve draft.q draft.request) (events.Reserved draft) ∷ []) }
    ensures request { IfErr answer.now (λ r. log.new.entries ≡ log.old.entries ++ entries None (Step.Reserve q r.value) None (noted (events.Refused r.why []))) }
{
    match answer {
        Ok(draft) => log.push_reservation(None, draft),
        Err(r) => match refused(r.why) {
            Some(answer) => log.push_request(None, q, &r.value, answer),
            None => {}
        },
    }
}

/// Makes the submission that was written last say that it was refused, if it was.
pub(crate) fn note_refused<A: Allocator>(
    log: &mut Log<A>,
    answer: &Result<Ticket, Refused<Draft<A>>>,
)
    ensures accepted { OnOk answer.now (log.new ≡ log.old) }
    ensures refused { IfErr answer.now (λ r. log.new.entries ≡ answered (told (events.Refused r.why [])) log.old.entries) }
{
    match answer {
        Ok(_) => {}
        Err(r) => log.answer_last(Reply::Refused {
            why: r.why,
            touched: Touched::none(),
        }),
    }
}

/// Of a refusal, with the pages that were touched before it.
fn touching(why: Refusal, touched: Touched) -> Option<Reply<NoBytes>>
    ensures { result ≡ noted (events.Refused why touched) }
{
    match why {
        Refusal::Memory => None,
        why => Some(Reply::Refused { why, touched }),
    }
}

/// Of a refusal.
fn refused(why: Refusal) -> Option<Reply<NoBytes>>
    ensures { result ≡ noted (events.Refused why []) }
{
    touching(why, Touched::none())
}

/// Of the end of a draft or of a finished command.
pub(crate) fn ended<T>(answer: &Result<(), Refused<T>>) -> Option<Reply<NoBytes>>
    ensures { result ≡ noted (accept_reply answer.now) }
{
    match answer {
        Ok(()) => Some(Reply::Accepted),
        Err(r) => refused(r.why),
    }
}

/// Of a call that says no more than that it was done.
pub(crate) fn done(answer: &Result<(), Refusal>) -> Option<Reply<NoBytes>>
    ensures { result ≡ noted (ring_reply answer.now) }
{
    match answer {
        Ok(()) => Some(Reply::Accepted),
        Err(why) => refused(*why),
    }
}

/// Of a reap.
pub(crate) fn reaped(answer: &Result<Reaped, Refusal>) -> Option<Reply<NoBytes>>
    ensures { result ≡ noted (reap_reply answer.now) }
{
    match answer {
        Ok(what) => Some(Reply::Reaps(*what)),
        Err(why) => refused(*why),
    }
}

/// Of a collection.
pub(crate) fn collected<A: Allocator>(
    answer: &Result<Finished<A>, Refused<Ticket>>,
) -> Option<Reply<NoBytes>>
    ensures { result ≡ noted (collect_reply answer.now) }
{
    match answer {
        Ok(finished) => Some(Reply::Collected {
            status: finished.status(),
            hints: finished.hints(),
        }),
        Err(r) => refused(r.why),
    }
}

/// Of an admin command that was sent.
pub(crate) fn sent(answer: &Result<u16, Refusal>) -> Option<Reply<NoBytes>>
    ensures { result ≡ noted (send_reply answer.now) }
{
    match answer {
        Ok(cid) => Some(Reply::Sent { cid: *cid }),
        Err(why) => refused(*why),
    }
}

/// Of a refused step of the controller.
fn stopped(step: &StepRefused) -> Option<Reply<NoBytes>>
    ensures { result ≡ noted (events.Refused step.now.why step.now.touched) }
{
    touching(step.why, step.touched.copied())
}

/// Of a fetch.
pub(crate) fn fetched(answer: &Result<Fetched, StepRefused>) -> Option<Reply<NoBytes>>
    ensures { result ≡ noted (fetch_reply answer.now) }
{
    match answer {
        Ok(done) => Some(Reply::Fetched {
            cid: done.cid,
            touched: done.touched.copied(),
        }),
        Err(step) => stopped(step),
    }
}

/// Of a unit of a walk.
pub(crate) fn walked(answer: &Result<Walked, StepRefused>) -> Option<Reply<NoBytes>>
    ensures { result ≡ noted (walk_reply answer.now) }
{
    match answer {
        Ok(done) => Some(Reply::Walked {
            state: done.state,
            touched: done.touched.copied(),
        }),
        Err(step) => stopped(step),
    }
}

/// Of a completion.
pub(crate) fn completed(answer: &Result<Completed, StepRefused>) -> Option<Reply<NoBytes>>
    ensures { result ≡ noted (complete_reply answer.now) }
{
    match answer {
        Ok(done) => Some(Reply::Completed {
            touched: done.touched.copied(),
        }),
        Err(step) => stopped(step),
    }
}
