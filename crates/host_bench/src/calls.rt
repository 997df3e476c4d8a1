//! The calls: each is one of the host over its pages, or of a value that the bench keeps.

ghost use Rattle.std.specs.Prelude.{◌≡◌};
ghost use Rattle.std.specs.Option.{option_map};
ghost use Rattle.host_core.specs.Alone.{IsOver};
ghost use Rattle.host_bench.specs.Calls.{Does};
ghost use Rattle.host_core.specs.Doorbells as doorbells;
ghost use Rattle.host_bench.specs.BenchTables.{state_of, table_of};
ghost use Rattle.host_bench.specs.CommandValues.{IsBench};
ghost use Rattle.host_bench.specs.Reach.{WritesData, draft_data_at};
ghost use Rattle.std.specs.Fn.{FnOnceReturnsAtMut};

use crate::bench_tables::BenchTables;
use crate::call::{Call, CallIn, Reply, ReplyIn};
use crate::fill::{build_row, fill_draft, no_memory, write_draft};
use crate::values::{
    CommandValue, drop_row, finished_in, put_back, put_next, take_draft, take_finished, take_ticket,
};
use host_core::{Doorbell, Reap, Refused};
use io_commands::{Bytes, Request};
use machine_model::words::Refusal;
use std::alloc::Allocator;

/// What a refused call of the host answers.
fn refused<A: Allocator>(why: Refusal) -> ReplyIn<A>
    ensures { result ≡ Reply.Refused why }
{
    Reply::Refused(why)
}

/// The value for a queue's head doorbell, where a completion was taken.
fn head_bell(q: u16, slot: Option<u16>) -> Option<Doorbell>
    ensures { result ≡ option_map (doorbells.head_bell q) slot }
{
    match slot {
        Some(slot) => Some(Doorbell::head(q, slot)),
        None => None,
    }
}

impl<A: Allocator + Copy> BenchTables<A> {
    /// Reserves a command, and keeps its draft.
    fn reserve(&mut self, q: u16, request: Request<A>) -> ReplyIn<A>
        requires over { IsOver self.old.host self.old.store.pages }
        requires bench { IsBench (state_of self.old) self.old.values }
        ensures does { Does (table_of self.old) (Call.Reserve q request) result (table_of self.new) }
        ensures over { IsOver self.new.host self.new.store.pages }
        ensures kept { IsBench (state_of self.new) self.new.values }
    {
        match self.host.reserve(&mut self.store, q, request) {
            Ok(draft) => {
                let reply = Reply::reserved(&draft);
                let cid = draft.cid();
                self.values.put(q, cid, Some(CommandValue::Draft(draft)));
                reply
            }
            Err(Refused { value: _, why }) => refused(why),
        }
    }

    /// Fills a draft.
    pub(crate) fn fill(&mut self, q: u16, cid: u16, bytes: &[u8]) -> ReplyIn<A>
        requires over { IsOver self.old.host self.old.store.pages }
        requires bench { IsBench (state_of self.old) self.old.values }
        ensures does { Does (table_of self.old) (Call.Fill q cid bytes.now) result (table_of self.new) }
        ensures over { IsOver self.new.host self.new.store.pages }
        ensures kept { IsBench (state_of self.new) self.new.values }
    {
        let Some(mut draft) = take_draft(&mut self.values, q, cid) else {
            return Reply::NoValue;
        };
        let reply = fill_draft(&mut draft, bytes);
        put_back(&mut self.values, q, cid, CommandValue::Draft(draft));
        reply
    }

    /// Gives the bytes of a page of a draft's data to a closure.
    pub(crate) fn write_data<T, F: FnOnce(&mut [u8]) -> T>(
        &mut self,
        q: u16,
        cid: u16,
        i: usize,
        write: F,
    ) -> Option<T>
        requires over { IsOver self.old.host self.old.store.pages }
        requires bench { IsBench (state_of self.old) self.old.values }
        requires callable { F.IsAlwaysCallable write }
        ensures written { WritesData (λ old answer left. FnOnceReturnsAtMut F.FnOnce write old answer left) (table_of self.old) q cid i (draft_data_at (table_of self.old) q cid i) result (table_of self.new) }
        ensures over { IsOver self.new.host self.new.store.pages }
        ensures kept { IsBench (state_of self.new) self.new.values }
    {
        let mut draft = take_draft(&mut self.values, q, cid)?;
        let answer = write_draft(&mut draft, i, write);
        put_back(&mut self.values, q, cid, CommandValue::Draft(draft));
        answer
    }

    /// Builds a draft.
    fn build(&mut self, q: u16, cid: u16) -> ReplyIn<A>
        requires over { IsOver self.old.host self.old.store.pages }
        requires bench { IsBench (state_of self.old) self.old.values }
        ensures does { Does (table_of self.old) (Call.Build q cid) result (table_of self.new) }
        ensures over { IsOver self.new.host self.new.store.pages }
        ensures kept { IsBench (state_of self.new) self.new.values }
    {
        let alloc = self.alloc;
        match self.values.get_mut(q, cid) {
            Some(row) => build_row(row, alloc),
            None => Reply::NoValue,
        }
    }

    /// Submits a draft, and keeps its ticket.
    fn submit(&mut self, q: u16, cid: u16) -> ReplyIn<A>
        requires over { IsOver self.old.host self.old.store.pages }
        requires bench { IsBench (state_of self.old) self.old.values }
        ensures does { Does (table_of self.old) (Call.Submit q cid) result (table_of self.new) }
        ensures over { IsOver self.new.host self.new.store.pages }
        ensures kept { IsBench (state_of self.new) self.new.values }
    {
        let Some(draft) = take_draft(&mut self.values, q, cid) else {
            return Reply::NoValue;
        };
        match self.host.submit(&mut self.store, draft) {
            Ok(ticket) => {
                put_next(&mut self.values, q, cid, CommandValue::Ticket(ticket));
                Reply::Accepted
            }
            Err(Refused { value, why }) => {
                put_back(&mut self.values, q, cid, CommandValue::Draft(value));
                refused(why)
            }
        }
    }

    /// Cancels a draft.
    fn cancel(&mut self, q: u16, cid: u16) -> ReplyIn<A>
        requires over { IsOver self.old.host self.old.store.pages }
        requires bench { IsBench (state_of self.old) self.old.values }
        ensures does { Does (table_of self.old) (Call.Cancel q cid) result (table_of self.new) }
        ensures over { IsOver self.new.host self.new.store.pages }
        ensures kept { IsBench (state_of self.new) self.new.values }
    {
        let Some(draft) = take_draft(&mut self.values, q, cid) else {
            return Reply::NoValue;
        };
        match self.host.cancel(&mut self.store, draft) {
            Ok(()) => {
                drop_row(&mut self.values, q, cid);
                Reply::Accepted
            }
            Err(Refused { value, why }) => {
                put_back(&mut self.values, q, cid, CommandValue::Draft(value));
                refused(why)
            }
        }
    }

    /// Rings a queue.
    fn ring(&mut self, q: u16) -> ReplyIn<A>
        requires over { IsOver self.old.host self.old.store.pages }
        requires bench { IsBench (state_of self.old) self.old.values }
        ensures does { Does (table_of self.old) (Call.Ring q) result (table_of self.new) }
        ensures over { IsOver self.new.host self.new.store.pages }
        ensures kept { IsBench (state_of self.new) self.new.values }
    {
        match self.host.ring(q) {
            Ok(slot) => Reply::Rung(Doorbell::tail(q, slot)),
            Err(why) => refused(why),
        }
    }

    /// Takes a completion.
    fn reap(&mut self, q: u16) -> ReplyIn<A>
        requires over { IsOver self.old.host self.old.store.pages }
        requires bench { IsBench (state_of self.old) self.old.values }
        ensures does { Does (table_of self.old) (Call.Reap q) result (table_of self.new) }
        ensures over { IsOver self.new.host self.new.store.pages }
        ensures kept { IsBench (state_of self.new) self.new.values }
    {
        match self.host.reap(&mut self.store, q) {
            Ok(Reap { found, head }) => Reply::Reaps {
                found,
                bell: head_bell(q, head),
            },
            Err(why) => refused(why),
        }
    }

    /// Collects a command by its ticket, and keeps the finished command.
    fn collect(&mut self, q: u16, cid: u16) -> ReplyIn<A>
        requires over { IsOver self.old.host self.old.store.pages }
        requires bench { IsBench (state_of self.old) self.old.values }
        ensures does { Does (table_of self.old) (Call.Collect q cid) result (table_of self.new) }
        ensures over { IsOver self.new.host self.new.store.pages }
        ensures kept { IsBench (state_of self.new) self.new.values }
    {
        let Some(ticket) = take_ticket(&mut self.values, q, cid) else {
            return Reply::NoValue;
        };
        match self.host.collect(&mut self.store, ticket) {
            Ok(finished) => {
                let status = finished.status();
                let hints = finished.hints();
                put_next(&mut self.values, q, cid, CommandValue::Finished(finished));
                Reply::Collected { status, hints }
            }
            Err(Refused { value, why }) => {
                put_back(&mut self.values, q, cid, CommandValue::Ticket(value));
                refused(why)
            }
        }
    }

    /// Gathers a Read's bytes.
    fn gather(&mut self, q: u16, cid: u16) -> ReplyIn<A>
        requires over { IsOver self.old.host self.old.store.pages }
        requires bench { IsBench (state_of self.old) self.old.values }
        ensures does { Does (table_of self.old) (Call.Gather q cid) result (table_of self.new) }
        ensures over { IsOver self.new.host self.new.store.pages }
        ensures kept { IsBench (state_of self.new) self.new.values }
    {
        let Some(finished) = finished_in(&self.values, q, cid) else {
            return Reply::NoValue;
        };
        match finished.gather(self.alloc) {
            Ok(bytes) => Reply::Gathered(Bytes::from_vec(bytes)),
            Err(_) => no_memory(),
        }
    }

    /// Releases a finished command.
    fn release(&mut self, q: u16, cid: u16) -> ReplyIn<A>
        requires over { IsOver self.old.host self.old.store.pages }
        requires bench { IsBench (state_of self.old) self.old.values }
        ensures does { Does (table_of self.old) (Call.Release q cid) result (table_of self.new) }
        ensures over { IsOver self.new.host self.new.store.pages }
        ensures kept { IsBench (state_of self.new) self.new.values }
    {
        let Some(finished) = take_finished(&mut self.values, q, cid) else {
            return Reply::NoValue;
        };
        match self.host.release(&mut self.store, finished) {
            Ok(()) => {
                drop_row(&mut self.values, q, cid);
                Reply::Accepted
            }
            Err(Refused { value, why }) => {
                put_back(&mut self.values, q, cid, CommandValue::Finished(value));
                refused(why)
            }
        }
    }

    /// Sends an Abort.
    fn abort(&mut self, q: u16, cid: u16) -> ReplyIn<A>
        requires over { IsOver self.old.host self.old.store.pages }
        requires bench { IsBench (state_of self.old) self.old.values }
        ensures does { Does (table_of self.old) (Call.Abort q cid) result (table_of self.new) }
        ensures over { IsOver self.new.host self.new.store.pages }
        ensures kept { IsBench (state_of self.new) self.new.values }
    {
        match self.host.abort(&mut self.store, q, cid) {
            Ok(sent) => Reply::Sent { cid: sent },
            Err(why) => refused(why),
        }
    }

    /// Sends the deletion of a submission queue.
    fn delete_sq(&mut self, q: u16) -> ReplyIn<A>
        requires over { IsOver self.old.host self.old.store.pages }
        requires bench { IsBench (state_of self.old) self.old.values }
        ensures does { Does (table_of self.old) (Call.DeleteSq q) result (table_of self.new) }
        ensures over { IsOver self.new.host self.new.store.pages }
        ensures kept { IsBench (state_of self.new) self.new.values }
    {
        match self.host.delete_sq(&mut self.store, q) {
            Ok(cid) => Reply::Sent { cid },
            Err(why) => refused(why),
        }
    }

    /// Sends the deletion of a completion queue.
    fn delete_cq(&mut self, q: u16) -> ReplyIn<A>
        requires over { IsOver self.old.host self.old.store.pages }
        requires bench { IsBench (state_of self.old) self.old.values }
        ensures does { Does (table_of self.old) (Call.DeleteCq q) result (table_of self.new) }
        ensures over { IsOver self.new.host self.new.store.pages }
        ensures kept { IsBench (state_of self.new) self.new.values }
    {
        match self.host.delete_cq(&mut self.store, q) {
            Ok(cid) => Reply::Sent { cid },
            Err(why) => refused(why),
        }
    }

    /// Sends the creation of a completion queue.
    fn create_cq(&mut self, q: u16, vector: Option<u16>) -> ReplyIn<A>
        requires over { IsOver self.old.host self.old.store.pages }
        requires bench { IsBench (state_of self.old) self.old.values }
        ensures does { Does (table_of self.old) (Call.CreateCq q vector) result (table_of self.new) }
        ensures over { IsOver self.new.host self.new.store.pages }
        ensures kept { IsBench (state_of self.new) self.new.values }
    {
        match self.host.create_cq(&mut self.store, q, vector) {
            Ok(cid) => Reply::Sent { cid },
            Err(why) => refused(why),
        }
    }

    /// Sends the creation of a submission queue.
    fn create_sq(&mut self, q: u16) -> ReplyIn<A>
        requires over { IsOver self.old.host self.old.store.pages }
        requires bench { IsBench (state_of self.old) self.old.values }
        ensures does { Does (table_of self.old) (Call.CreateSq q) result (table_of self.new) }
        ensures over { IsOver self.new.host self.new.store.pages }
        ensures kept { IsBench (state_of self.new) self.new.values }
    {
        match self.host.create_sq(&mut self.store, q) {
            Ok(cid) => Reply::Sent { cid },
            Err(why) => refused(why),
        }
    }

    /// Retires a queue.
    fn retire(&mut self, q: u16) -> ReplyIn<A>
        requires over { IsOver self.old.host self.old.store.pages }
        requires bench { IsBench (state_of self.old) self.old.values }
        ensures does { Does (table_of self.old) (Call.Retire q) result (table_of self.new) }
        ensures over { IsOver self.new.host self.new.store.pages }
        ensures kept { IsBench (state_of self.new) self.new.values }
    {
        match self.host.retire(&mut self.store, q) {
            Ok(()) => Reply::Accepted,
            Err(why) => refused(why),
        }
    }

    /// Resets the controller.
    fn reset(&mut self) -> ReplyIn<A>
        requires over { IsOver self.old.host self.old.store.pages }
        requires bench { IsBench (state_of self.old) self.old.values }
        ensures does { Does (table_of self.old) Call.Reset result (table_of self.new) }
        ensures over { IsOver self.new.host self.new.store.pages }
        ensures kept { IsBench (state_of self.new) self.new.values }
    {
        self.host.reset(&mut self.store);
        Reply::Accepted
    }

    /// Makes a call.
    pub(crate) fn call(&mut self, call: CallIn<A>) -> ReplyIn<A>
        requires over { IsOver self.old.host self.old.store.pages }
        requires bench { IsBench (state_of self.old) self.old.values }
        ensures does { Does (table_of self.old) call result (table_of self.new) }
        ensures over { IsOver self.new.host self.new.store.pages }
        ensures kept { IsBench (state_of self.new) self.new.values }
    {
        match call {
            Call::Reserve { q, request } => self.reserve(q, request),
            Call::Fill { q, cid, bytes } => self.fill(q, cid, bytes.as_slice()),
            Call::Build { q, cid } => self.build(q, cid),
            Call::Submit { q, cid } => self.submit(q, cid),
            Call::Cancel { q, cid } => self.cancel(q, cid),
            Call::Ring { q } => self.ring(q),
            Call::Reap { q } => self.reap(q),
            Call::Collect { q, cid } => self.collect(q, cid),
            Call::Gather { q, cid } => self.gather(q, cid),
            Call::Release { q, cid } => self.release(q, cid),
            Call::Abort { q, cid } => self.abort(q, cid),
            Call::DeleteSq { q } => self.delete_sq(q),
            Call::DeleteCq { q } => self.delete_cq(q),
            Call::CreateCq { q, vector } => self.create_cq(q, vector),
            Call::CreateSq { q } => self.create_sq(q),
            Call::Retire { q } => self.retire(q),
            Call::Reset => self.reset(),
        }
    }
}
