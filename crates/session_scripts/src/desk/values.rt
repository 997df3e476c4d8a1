//! Commands that a desk keeps: each is a draft, a ticket or a finished command.

use io_commands::{Draft, Finished, Ticket};
use std::alloc::{Allocator, Global};
use step_core::{Ended, Leftover};

/// How far a command has come.
#[derive(Clone, Copy, PartialEq, Eq)]
enum What {
    /// It was reserved.
    Draft,
    /// It was submitted.
    Ticket,
    /// It was collected.
    Finished,
}

/// A command that a desk keeps.
pub enum Value<A: Allocator = Global> {
    /// It was reserved.
    Draft(Draft<A>),
    /// It was submitted.
    Ticket(Ticket),
    /// It was collected.
    Finished(Finished<A>),
}

impl<A: Allocator> Value<A> {
    /// Whether it has come this far, and is of this queue and identifier.
    fn is(&self, what: What, q: u16, cid: u16) -> bool {
        let (own, own_q, own_cid) = match self {
            Value::Draft(draft) => (What::Draft, draft.q(), draft.cid()),
            Value::Ticket(ticket) => (What::Ticket, ticket.q(), ticket.cid()),
            Value::Finished(finished) => (What::Finished, finished.q(), finished.cid()),
        };
        own == what && own_q == q && own_cid == cid
    }

    /// The draft, if it is one.
    fn into_draft(self) -> Option<Draft<A>> {
        match self {
            Value::Draft(draft) => Some(draft),
            _ => None,
        }
    }

    /// The ticket, if it is one.
    fn into_ticket(self) -> Option<Ticket> {
        match self {
            Value::Ticket(ticket) => Some(ticket),
            _ => None,
        }
    }

    /// The finished command, if it is one.
    pub fn into_finished(self) -> Option<Finished<A>> {
        match self {
            Value::Finished(finished) => Some(finished),
            _ => None,
        }
    }
}

/// A command that is still there when its desk is given up is let go.
impl<A: Allocator> Drop for Value<A> {
    fn drop(self) {
        match self {
            Value::Draft(draft) => drop(draft.apart()),
            Value::Ticket(ticket) => drop(ticket.apart()),
            Value::Finished(finished) => drop(finished.apart()),
        }
    }
}

impl<A: Allocator> Leftover for Value<A> {
    fn after(self, ended: &Ended) {
        match self {
            Value::Draft(draft) => draft.after(ended),
            Value::Ticket(ticket) => ticket.after(ended),
            Value::Finished(finished) => finished.after(ended),
        }
    }
}

/// Takes a command away, where it is there and has come this far.
fn taken<A: Allocator>(
    values: &mut Vec<Value<A>>,
    what: What,
    q: u16,
    cid: u16,
) -> Option<Value<A>> {
    let mut place = 0usize;
    for value in values.iter() {
        if value.is(what, q, cid) {
            break;
        }
        place = place.saturating_add(1);
    }
    if place < values.len() {
        Some(values.remove(place))
    } else {
        None
    }
}

/// Takes a draft away, where it is there.
pub fn draft_of<A: Allocator>(values: &mut Vec<Value<A>>, q: u16, cid: u16) -> Option<Draft<A>> {
    taken(values, What::Draft, q, cid)?.into_draft()
}

/// Takes a ticket away, where it is there.
pub fn ticket_of<A: Allocator>(values: &mut Vec<Value<A>>, q: u16, cid: u16) -> Option<Ticket> {
    taken(values, What::Ticket, q, cid)?.into_ticket()
}

/// Takes a finished command away, where it is there.
pub fn finished_of<A: Allocator>(
    values: &mut Vec<Value<A>>,
    q: u16,
    cid: u16,
) -> Option<Finished<A>> {
    taken(values, What::Finished, q, cid)?.into_finished()
}
