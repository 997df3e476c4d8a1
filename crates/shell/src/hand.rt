//! Steps that a word with a dot makes.

use crate::record::Record;
use script_cli::transcripts::step_in;
use script_cli::{CommandVerb, QueueVerb, Verb, append_reply};
use std::alloc::{AllocError, Global};
use step_core::{Reply, Step};
use texts::traces::{Traced, put_trace};
use world_bench::Bench;

/// The most steps of the controller that one line asks for.
pub(crate) const MOST_STEPS: u32 = 1_000_000;

/// What makes the steps of one line.
#[derive(Drop)]
pub(crate) struct Hand<'a> {
    pub(crate) alloc: Global,
    pub(crate) bench: &'a mut Bench,
    /// What is said.
    pub(crate) out: &'a mut String,
    /// What is kept of the session.
    pub(crate) record: &'a mut Record,
    /// How many entries each queue has; identifiers lie below.
    pub(crate) entries: u16,
    /// How many steps the controller may still do.
    pub(crate) left: u32,
    /// Whether steps that are not refused are said, and not those alone that are.
    pub(crate) says: bool,
    /// Whether what they move is said too.
    pub(crate) traces: bool,
}

/// What a step answered, as it is printed after its verb.
fn answer_text(alloc: Global, verb: Verb, reply: &Reply) -> Result<String, AllocError> {
    let mut line = String::new(alloc);
    append_reply(&mut line, 0, verb, reply)?;
    let behind = line
        .split_once(' ')
        .and_then(|(_, rest)| rest.split_once(' '));
    match behind {
        Some((_, answer)) => String::from_str(alloc, answer),
        None => Ok(line),
    }
}

/// Whether a step was refused, and changed nothing.
fn is_refused(reply: &Reply) -> bool {
    matches!(
        reply,
        Reply::NoValue | Reply::NotFilled(_) | Reply::Refused { .. }
    )
}

impl Hand<'_> {
    /// Says a step on a queue and its answer.
    pub(crate) fn say_on_queue(
        &mut self,
        verb: Verb,
        q: u16,
        reply: &Reply,
    ) -> Result<(), AllocError> {
        let name = verb.name();
        let answer = answer_text(self.alloc, verb, reply)?;
        write!(self.out, "{name} {q} -> {answer}")
    }

    /// Says a step on a command and its answer.
    pub(crate) fn say_on_command(
        &mut self,
        verb: Verb,
        (q, cid): (u16, u16),
        reply: &Reply,
    ) -> Result<(), AllocError> {
        let name = verb.name();
        let answer = answer_text(self.alloc, verb, reply)?;
        write!(self.out, "{name} {q} {cid} -> {answer}")
    }

    /// Says what a step moved, if that is wanted.
    pub(crate) fn trace(&mut self, traced: Traced, reply: &Reply) -> Result<(), AllocError> {
        if self.traces {
            put_trace(self.out, self.bench, self.entries, traced, reply)?;
        }
        Ok(())
    }

    /// Says a step of the host on a queue that was done, and what it moved, if that is wanted.
    pub(crate) fn tell_on_queue(
        &mut self,
        verb: Verb,
        q: u16,
        traced: Traced,
        reply: &Reply,
    ) -> Result<(), AllocError> {
        if self.says {
            self.say_on_queue(verb, q, reply)?;
            self.trace(traced, reply)?;
        }
        Ok(())
    }

    /// Says a step of the host on a command that was done, and what it moved, if that is wanted.
    pub(crate) fn tell_on_command(
        &mut self,
        verb: CommandVerb,
        (q, cid): (u16, u16),
        reply: &Reply,
    ) -> Result<(), AllocError> {
        if self.says {
            self.say_on_command(Verb::OnCommand(verb), (q, cid), reply)?;
            self.trace(Traced::of(&verb.step(q, cid)), reply)?;
        }
        Ok(())
    }

    /// Makes a step. It is kept if it was not refused.
    pub(crate) fn make(&mut self, step: Step) -> Result<Reply, AllocError> {
        let verb = Verb::of(&step);
        let kept = step_in(self.alloc, &step)?;
        let reply = self.bench.step(step);
        if !is_refused(&reply) {
            self.record.begin(&kept)?;
            self.record.end(self.alloc, verb, &reply)?;
        }
        Ok(reply)
    }

    /// Makes a step on a queue.
    pub(crate) fn on_queue(&mut self, verb: QueueVerb, q: u16) -> Result<Reply, AllocError> {
        self.make(verb.step(q))
    }

    /// Makes a step on a command.
    pub(crate) fn on_command(
        &mut self,
        verb: CommandVerb,
        (q, cid): (u16, u16),
    ) -> Result<Reply, AllocError> {
        self.make(verb.step(q, cid))
    }
}
