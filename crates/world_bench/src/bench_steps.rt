//! The steps of a bench: each is a call of the world, or of a value that the bench keeps.

ghost use Rattle.std.specs.Prelude.{◌≡◌, [], length};
ghost use Rattle.step_core.specs.Bench.{Does};
ghost use Rattle.world_bench.specs.BenchTables.{table_of};
ghost use Rattle.host_bench.specs.CommandValues.{IsBench};
ghost use Rattle.step_core.specs.Touching.{StepTouches};

use crate::bench_tables::BenchTables;
use crate::fill::{build_draft, fill_draft, no_memory};
use host_bench::values::{
    CommandValue, drop_row, finished_in, put_back, put_next, take_draft, take_finished, take_ticket,
};
use host_core::Refused;
use io_commands::Request;
use machine_model::words::Refusal;
use std::alloc::Allocator;
use step_core::{Bytes, Reply, ReplyIn, Step, StepIn, StepRefused, Touched};

/// What a refused call of the host answers.
fn refused<A: Allocator>(why: Refusal) -> ReplyIn<A>
    ensures { result ≡ Reply.Refused why [] }
{
    Reply::Refused {
        why,
        touched: Touched::none(),
    }
}

/// What a refused step of the controller answers.
fn refused_step<A: Allocator>(step: StepRefused) -> ReplyIn<A>
    ensures { result ≡ Reply.Refused step.why step.touched }
{
    Reply::Refused {
        why: step.why,
        touched: step.touched,
    }
}

impl<A: Allocator + Copy> BenchTables<A> {
    /// Reserves a command, and keeps its draft.
    fn reserve(&mut self, q: u16, request: Request<A>) -> ReplyIn<A>
        requires { IsBench self.old.world.state self.old.values }
        ensures does { Does (table_of self.old) (Step.Reserve q request) result (table_of self.new) }
        ensures touches { StepTouches self.old.world.state.entries self.old.world.touches (Step.Reserve q request) result (table_of self.new) self.new.world.touches }
        ensures kept { IsBench self.new.world.state self.new.values }
    {
        match self.world.reserve(q, request) {
            Ok(draft) => {
                let reply = Reply::reserved(&draft);
                let cid = draft.cid();
                self.values.put(q, cid, Some(CommandValue::Draft(draft)));
                reply
            }
            Err(Refused { value: _, why }) => refused(why),
        }
    }

    /// Fills a draft.
    fn fill(&mut self, q: u16, cid: u16, bytes: Bytes<A>) -> ReplyIn<A>
        requires { IsBench self.old.world.state self.old.values }
        ensures does { Does (table_of self.old) (Step.Fill q cid bytes) result (table_of self.new) }
        ensures touches { StepTouches self.old.world.state.entries self.old.world.touches (Step.Fill q cid bytes) result (table_of self.new) self.new.world.touches }
        ensures kept { IsBench self.new.world.state self.new.values }
    {
        let Some(mut draft) = take_draft(&mut self.values, q, cid) else {
            return Reply::NoValue;
        };
        let reply = fill_draft(&mut draft, bytes);
        put_back(&mut self.values, q, cid, CommandValue::Draft(draft));
        reply
    }

    /// Builds a draft.
    fn build(&mut self, q: u16, cid: u16) -> ReplyIn<A>
        requires { IsBench self.old.world.state self.old.values }
        ensures does { Does (table_of self.old) (Step.Build q cid) result (table_of self.new) }
        ensures touches { StepTouches self.old.world.state.entries self.old.world.touches (Step.Build q cid) result (table_of self.new) self.new.world.touches }
        ensures kept { IsBench self.new.world.state self.new.values }
    {
        let Some(mut draft) = take_draft(&mut self.values, q, cid) else {
            return Reply::NoValue;
        };
        let reply = build_draft(&mut draft, self.alloc);
        put_back(&mut self.values, q, cid, CommandValue::Draft(draft));
        reply
    }

    /// Submits a draft, and keeps its ticket.
    fn submit(&mut self, q: u16, cid: u16) -> ReplyIn<A>
        requires { IsBench self.old.world.state self.old.values }
        ensures does { Does (table_of self.old) (Step.Submit q cid) result (table_of self.new) }
        ensures touches { StepTouches self.old.world.state.entries self.old.world.touches (Step.Submit q cid) result (table_of self.new) self.new.world.touches }
        ensures kept { IsBench self.new.world.state self.new.values }
    {
        let Some(draft) = take_draft(&mut self.values, q, cid) else {
            return Reply::NoValue;
        };
        match self.world.submit(draft) {
            Ok(ticket) => {
                put_next(&mut self.values, q, cid, CommandValue::Ticket(ticket));
                Reply::Accepted
            }
            Err(Refused { value, why }) => {
                put_back(&mut self.values, q, cid, CommandValue::Draft(value));
                refused(why)
            }
        }
    }

    /// Cancels a draft.
    fn cancel(&mut self, q: u16, cid: u16) -> ReplyIn<A>
        requires { IsBench self.old.world.state self.old.values }
        ensures does { Does (table_of self.old) (Step.Cancel q cid) result (table_of self.new) }
        ensures touches { StepTouches self.old.world.state.entries self.old.world.touches (Step.Cancel q cid) result (table_of self.new) self.new.world.touches }
        ensures kept { IsBench self.new.world.state self.new.values }
    {
        let Some(draft) = take_draft(&mut self.values, q, cid) else {
            return Reply::NoValue;
        };
        match self.world.cancel(draft) {
            Ok(()) => {
                drop_row(&mut self.values, q, cid);
                Reply::Accepted
            }
            Err(Refused { value, why }) => {
                put_back(&mut self.values, q, cid, CommandValue::Draft(value));
                refused(why)
            }
        }
    }

    /// Rings a queue's doorbell.
    fn ring(&mut self, q: u16) -> ReplyIn<A>
        requires { IsBench self.old.world.state self.old.values }
        ensures does { Does (table_of self.old) (Step.Ring q) result (table_of self.new) }
        ensures touches { StepTouches self.old.world.state.entries self.old.world.touches (Step.Ring q) result (table_of self.new) self.new.world.touches }
        ensures kept { IsBench self.new.world.state self.new.values }
    {
        match self.world.ring(q) {
            Ok(()) => Reply::Accepted,
            Err(why) => refused(why),
        }
    }

    /// Lets the controller fetch an entry.
    fn fetch(&mut self, q: u16) -> ReplyIn<A>
        requires { IsBench self.old.world.state self.old.values }
        ensures does { Does (table_of self.old) (Step.Fetch q) result (table_of self.new) }
        ensures touches { StepTouches self.old.world.state.entries self.old.world.touches (Step.Fetch q) result (table_of self.new) self.new.world.touches }
        ensures kept { IsBench self.new.world.state self.new.values }
    {
        match self.world.fetch(q) {
            Ok(done) => Reply::Fetched {
                cid: done.cid,
                touched: done.touched,
            },
            Err(refusal) => refused_step(refusal),
        }
    }

    /// Lets the controller do a unit of a command's list.
    fn walk(&mut self, q: u16, cid: u16) -> ReplyIn<A>
        requires { IsBench self.old.world.state self.old.values }
        ensures does { Does (table_of self.old) (Step.Walk q cid) result (table_of self.new) }
        ensures touches { StepTouches self.old.world.state.entries self.old.world.touches (Step.Walk q cid) result (table_of self.new) self.new.world.touches }
        ensures kept { IsBench self.new.world.state self.new.values }
    {
        match self.world.walk(q, cid) {
            Ok(done) => Reply::Walked {
                state: done.state,
                touched: done.touched,
            },
            Err(refusal) => refused_step(refusal),
        }
    }

    /// Lets the controller complete a command.
    fn complete(&mut self, q: u16, cid: u16) -> ReplyIn<A>
        requires { IsBench self.old.world.state self.old.values }
        ensures does { Does (table_of self.old) (Step.Complete q cid) result (table_of self.new) }
        ensures touches { StepTouches self.old.world.state.entries self.old.world.touches (Step.Complete q cid) result (table_of self.new) self.new.world.touches }
        ensures kept { IsBench self.new.world.state self.new.values }
    {
        match self.world.complete(q, cid) {
            Ok(done) => Reply::Completed {
                touched: done.touched,
            },
            Err(refusal) => refused_step(refusal),
        }
    }

    /// Takes a completion.
    fn reap(&mut self, q: u16) -> ReplyIn<A>
        requires { IsBench self.old.world.state self.old.values }
        ensures does { Does (table_of self.old) (Step.Reap q) result (table_of self.new) }
        ensures touches { StepTouches self.old.world.state.entries self.old.world.touches (Step.Reap q) result (table_of self.new) self.new.world.touches }
        ensures kept { IsBench self.new.world.state self.new.values }
    {
        match self.world.reap(q) {
            Ok(what) => Reply::Reaps(what),
            Err(why) => refused(why),
        }
    }

    /// Collects a command by its ticket, and keeps the finished command.
    fn collect(&mut self, q: u16, cid: u16) -> ReplyIn<A>
        requires { IsBench self.old.world.state self.old.values }
        ensures does { Does (table_of self.old) (Step.Collect q cid) result (table_of self.new) }
        ensures touches { StepTouches self.old.world.state.entries self.old.world.touches (Step.Collect q cid) result (table_of self.new) self.new.world.touches }
        ensures kept { IsBench self.new.world.state self.new.values }
    {
        let Some(ticket) = take_ticket(&mut self.values, q, cid) else {
            return Reply::NoValue;
        };
        match self.world.collect(ticket) {
            Ok(finished) => {
                let status = finished.status();
                let hints = finished.hints();
                put_next(&mut self.values, q, cid, CommandValue::Finished(finished));
                Reply::Collected { status, hints }
            }
            Err(Refused { value, why }) => {
                put_back(&mut self.values, q, cid, CommandValue::Ticket(value));
                refused(why)
            }
        }
    }

    /// Gathers a Read's bytes.
    fn gather(&mut self, q: u16, cid: u16) -> ReplyIn<A>
        requires { IsBench self.old.world.state self.old.values }
        ensures does { Does (table_of self.old) (Step.Gather q cid) result (table_of self.new) }
        ensures touches { StepTouches self.old.world.state.entries self.old.world.touches (Step.Gather q cid) result (table_of self.new) self.new.world.touches }
        ensures kept { IsBench self.new.world.state self.new.values }
    {
        let Some(finished) = finished_in(&self.values, q, cid) else {
            return Reply::NoValue;
        };
        match finished.gather(self.alloc) {
            Ok(bytes) => Reply::Gathered(Bytes::from_vec(bytes)),
            Err(_) => no_memory(),
        }
    }

    /// Releases a finished command.
    fn release(&mut self, q: u16, cid: u16) -> ReplyIn<A>
        requires { IsBench self.old.world.state self.old.values }
        ensures does { Does (table_of self.old) (Step.Release q cid) result (table_of self.new) }
        ensures touches { StepTouches self.old.world.state.entries self.old.world.touches (Step.Release q cid) result (table_of self.new) self.new.world.touches }
        ensures kept { IsBench self.new.world.state self.new.values }
    {
        let Some(finished) = take_finished(&mut self.values, q, cid) else {
            return Reply::NoValue;
        };
        match self.world.release(finished) {
            Ok(()) => {
                drop_row(&mut self.values, q, cid);
                Reply::Accepted
            }
            Err(Refused { value, why }) => {
                put_back(&mut self.values, q, cid, CommandValue::Finished(value));
                refused(why)
            }
        }
    }

    /// Sends an Abort.
    fn abort(&mut self, q: u16, cid: u16) -> ReplyIn<A>
        requires { IsBench self.old.world.state self.old.values }
        ensures does { Does (table_of self.old) (Step.Abort q cid) result (table_of self.new) }
        ensures touches { StepTouches self.old.world.state.entries self.old.world.touches (Step.Abort q cid) result (table_of self.new) self.new.world.touches }
        ensures kept { IsBench self.new.world.state self.new.values }
    {
        match self.world.abort(q, cid) {
            Ok(sent) => Reply::Sent { cid: sent },
            Err(why) => refused(why),
        }
    }

    /// Sends the deletion of a submission queue.
    fn delete_sq(&mut self, q: u16) -> ReplyIn<A>
        requires { IsBench self.old.world.state self.old.values }
        ensures does { Does (table_of self.old) (Step.DeleteSq q) result (table_of self.new) }
        ensures touches { StepTouches self.old.world.state.entries self.old.world.touches (Step.DeleteSq q) result (table_of self.new) self.new.world.touches }
        ensures kept { IsBench self.new.world.state self.new.values }
    {
        match self.world.delete_sq(q) {
            Ok(cid) => Reply::Sent { cid },
            Err(why) => refused(why),
        }
    }

    /// Sends the deletion of a completion queue.
    fn delete_cq(&mut self, q: u16) -> ReplyIn<A>
        requires { IsBench self.old.world.state self.old.values }
        ensures does { Does (table_of self.old) (Step.DeleteCq q) result (table_of self.new) }
        ensures touches { StepTouches self.old.world.state.entries self.old.world.touches (Step.DeleteCq q) result (table_of self.new) self.new.world.touches }
        ensures kept { IsBench self.new.world.state self.new.values }
    {
        match self.world.delete_cq(q) {
            Ok(cid) => Reply::Sent { cid },
            Err(why) => refused(why),
        }
    }

    /// Sends the creation of a completion queue.
    fn create_cq(&mut self, q: u16, vector: Option<u16>) -> ReplyIn<A>
        requires { IsBench self.old.world.state self.old.values }
        ensures does { Does (table_of self.old) (Step.CreateCq q vector) result (table_of self.new) }
        ensures touches { StepTouches self.old.world.state.entries self.old.world.touches (Step.CreateCq q vector) result (table_of self.new) self.new.world.touches }
        ensures kept { IsBench self.new.world.state self.new.values }
    {
        match self.world.create_cq(q, vector) {
            Ok(cid) => Reply::Sent { cid },
            Err(why) => refused(why),
        }
    }

    /// Sends the creation of a submission queue.
    fn create_sq(&mut self, q: u16) -> ReplyIn<A>
        requires { IsBench self.old.world.state self.old.values }
        ensures does { Does (table_of self.old) (Step.CreateSq q) result (table_of self.new) }
        ensures touches { StepTouches self.old.world.state.entries self.old.world.touches (Step.CreateSq q) result (table_of self.new) self.new.world.touches }
        ensures kept { IsBench self.new.world.state self.new.values }
    {
        match self.world.create_sq(q) {
            Ok(cid) => Reply::Sent { cid },
            Err(why) => refused(why),
        }
    }

    /// Retires a queue.
    fn retire(&mut self, q: u16) -> ReplyIn<A>
        requires { IsBench self.old.world.state self.old.values }
        ensures does { Does (table_of self.old) (Step.Retire q) result (table_of self.new) }
        ensures touches { StepTouches self.old.world.state.entries self.old.world.touches (Step.Retire q) result (table_of self.new) self.new.world.touches }
        ensures kept { IsBench self.new.world.state self.new.values }
    {
        match self.world.retire(q) {
            Ok(()) => Reply::Accepted,
            Err(why) => refused(why),
        }
    }

    /// Forges a completion.
    fn forge(&mut self, q: u16, slot: u16, bytes: [u8; 16]) -> ReplyIn<A>
        requires { IsBench self.old.world.state self.old.values }
        ensures does { Does (table_of self.old) (Step.Forge q slot bytes) result (table_of self.new) }
        ensures touches { StepTouches self.old.world.state.entries self.old.world.touches (Step.Forge q slot bytes) result (table_of self.new) self.new.world.touches }
        ensures kept { IsBench self.new.world.state self.new.values }
    {
        match self.world.forge(q, slot, bytes) {
            Ok(()) => Reply::Accepted,
            Err(why) => refused(why),
        }
    }

    /// Resets the controller.
    fn reset(&mut self) -> ReplyIn<A>
        requires { IsBench self.old.world.state self.old.values }
        ensures does { Does (table_of self.old) Step.Reset result (table_of self.new) }
        ensures touches { StepTouches self.old.world.state.entries self.old.world.touches Step.Reset result (table_of self.new) self.new.world.touches }
        ensures kept { IsBench self.new.world.state self.new.values }
    {
        self.world.reset();
        Reply::Accepted
    }

    /// Does a step.
    pub(crate) fn step(&mut self, step: StepIn<A>) -> ReplyIn<A>
        requires { IsBench self.old.world.state self.old.values }
        ensures does { Does (table_of self.old) step result (table_of self.new) }
        ensures touches { StepTouches self.old.world.state.entries self.old.world.touches step result (table_of self.new) self.new.world.touches }
        ensures kept { IsBench self.new.world.state self.new.values }
    {
        match step {
            Step::Reserve { q, request } => self.reserve(q, request),
            Step::Fill { q, cid, bytes } => self.fill(q, cid, bytes),
            Step::Build { q, cid } => self.build(q, cid),
            Step::Submit { q, cid } => self.submit(q, cid),
            Step::Cancel { q, cid } => self.cancel(q, cid),
            Step::Ring { q } => self.ring(q),
            Step::Fetch { q } => self.fetch(q),
            Step::Walk { q, cid } => self.walk(q, cid),
            Step::Complete { q, cid } => self.complete(q, cid),
            Step::Reap { q } => self.reap(q),
            Step::Collect { q, cid } => self.collect(q, cid),
            Step::Gather { q, cid } => self.gather(q, cid),
            Step::Release { q, cid } => self.release(q, cid),
            Step::Abort { q, cid } => self.abort(q, cid),
            Step::DeleteSq { q } => self.delete_sq(q),
            Step::DeleteCq { q } => self.delete_cq(q),
            Step::CreateCq { q, vector } => self.create_cq(q, vector),
            Step::CreateSq { q } => self.create_sq(q),
            Step::Retire { q } => self.retire(q),
            Step::Forge { q, slot, bytes } => self.forge(q, slot, bytes),
            Step::Reset => self.reset(),
        }
    }
}
