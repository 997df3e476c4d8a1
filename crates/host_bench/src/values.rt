//! The values of outstanding commands, by queue and identifier: the draft of each that was reserved, its ticket, then the finished command.
//!
//! Whoever names commands by numbers keeps them so ([`crate::HostBench`], and the bench of a whole machine). A value is taken out of its row while a
//! call has it, and put back where the call refuses it; so a refused call leaves the table as it was.

ghost use Rattle.std.specs.Prelude.{◌≡◌, None, Some, IfSome, IfNone};
ghost use Rattle.std.specs.Option.{option_and_then, option_copied};
ghost use Rattle.slot_table.specs.Table.{IsPlace, with_row};
ghost use Rattle.slot_table.specs.Rows.{value_at, with_value, without};
ghost use Rattle.host_bench.specs.CommandValues.{IsDraftOf, IsFinishedOf, IsOut, IsTicketOf, as_draft, as_finished, as_ticket};

use io_commands::{Draft, Finished, Ticket};
use slot_table::SlotTable;
use std::alloc::Allocator;

/// The value that stands for an outstanding command.
pub enum CommandValue<A: Allocator> {
    /// It was reserved.
    Draft(Draft<A>),
    /// It was submitted.
    Ticket(Ticket),
    /// It was collected.
    Finished(Finished<A>),
}

impl<A: Allocator> CommandValue<A> {
    /// The finished command, if it is one.
    pub fn finished(&self) -> Option<&Finished<A>>
        ensures { option_copied result ≡ as_finished (Some self.now) }
    {
        match self {
            CommandValue::Finished(finished) => Some(finished),
            CommandValue::Draft(_) | CommandValue::Ticket(_) => None,
        }
    }

    /// The draft, or another value as it was.
    pub fn into_draft(self) -> Result<Draft<A>, Self>
        ensures { IsDraftOf self result }
    {
        match self {
            CommandValue::Draft(draft) => Ok(draft),
            other => Err(other),
        }
    }

    /// The ticket, or another value as it was.
    pub fn into_ticket(self) -> Result<Ticket, Self>
        ensures { IsTicketOf self result }
    {
        match self {
            CommandValue::Ticket(ticket) => Ok(ticket),
            other => Err(other),
        }
    }

    /// The finished command, or another value as it was.
    pub fn into_finished(self) -> Result<Finished<A>, Self>
        ensures { IsFinishedOf self result }
    {
        match self {
            CommandValue::Finished(finished) => Ok(finished),
            other => Err(other),
        }
    }
}

/// A bench that has ended lets go of the values that it keeps.
impl<A: Allocator> Drop for CommandValue<A> {
    fn drop(self) {
        match self {
            CommandValue::Draft(draft) => drop(draft.apart()),
            CommandValue::Ticket(ticket) => drop(ticket.apart()),
            CommandValue::Finished(finished) => drop(finished.apart()),
        }
    }
}

/// Values by queue and identifier, in the order in which they came about. A row is empty while its value is moved into a call.
pub type CommandValues<A> = SlotTable<Option<CommandValue<A>>, A>;

/// A finished command in its row.
pub fn finished_in<A: Allocator>(
    values: &CommandValues<A>,
    q: u16,
    cid: u16,
) -> Option<&Finished<A>>
    ensures { option_copied result ≡ option_and_then as_finished (value_at values.now.rows q cid) }
{
    let value = values.get(q, cid)?.as_ref()?;
    value.finished()
}

/// Takes a command's value out of its row. The row stays, and is empty.
fn take_value<A: Allocator>(
    values: &mut CommandValues<A>,
    q: u16,
    cid: u16,
) -> Option<CommandValue<A>>
    ensures out { IfSome result (λ value. IsOut values.old q cid value values.new) }
    ensures none { IfNone result (option_and_then (λ value. value) (value_at values.old.rows q cid) ≡ None) }
    ensures kept { IfNone result (values.new ≡ values.old) }
{
    let row = values.get_mut(q, cid)?;
    row.take()
}

/// Puts a value back into the row that it was taken out of.
pub fn put_back<A: Allocator>(
    values: &mut CommandValues<A>,
    q: u16,
    cid: u16,
    value: CommandValue<A>,
)
    requires { value_at values.old.rows q cid ≡ Some None }
    ensures { values.new ≡ record values.old { rows = with_value values.old.rows q cid (Some value) } }
{
    *values.get_mut(q, cid).unwrap() = Some(value);
}

/// Drops a row.
pub fn drop_row<A: Allocator>(values: &mut CommandValues<A>, q: u16, cid: u16)
    ensures rest { values.new ≡ record values.old { rows = without values.old.rows q cid } }
    ensures gone { value_at values.new.rows q cid ≡ None }
{
    drop(values.take(q, cid));
}

/// Puts a command's next value after all others, in place of the one that was taken out of its row.
pub fn put_next<A: Allocator>(
    values: &mut CommandValues<A>,
    q: u16,
    cid: u16,
    value: CommandValue<A>,
)
    requires { IsPlace values.old q cid }
    ensures { values.new ≡ with_row (record values.old { rows = without values.old.rows q cid }) q cid (Some value) }
{
    drop_row(values, q, cid);
    values.put(q, cid, Some(value));
}

/// Takes a command's draft out of its row.
pub fn take_draft<A: Allocator>(values: &mut CommandValues<A>, q: u16, cid: u16) -> Option<Draft<A>>
    ensures out { IfSome result (λ draft. IsOut values.old q cid (CommandValue.Draft draft) values.new) }
    ensures none { IfNone result (option_and_then as_draft (value_at values.old.rows q cid) ≡ None) }
    ensures kept { IfNone result (values.new ≡ values.old) }
{
    match take_value(values, q, cid)?.into_draft() {
        Ok(draft) => Some(draft),
        Err(other) => {
            put_back(values, q, cid, other);
            None
        }
    }
}

/// Takes a command's ticket out of its row.
pub fn take_ticket<A: Allocator>(values: &mut CommandValues<A>, q: u16, cid: u16) -> Option<Ticket>
    ensures out { IfSome result (λ ticket. IsOut values.old q cid (CommandValue.Ticket ticket) values.new) }
    ensures none { IfNone result (option_and_then as_ticket (value_at values.old.rows q cid) ≡ None) }
    ensures kept { IfNone result (values.new ≡ values.old) }
{
    match take_value(values, q, cid)?.into_ticket() {
        Ok(ticket) => Some(ticket),
        Err(other) => {
            put_back(values, q, cid, other);
            None
        }
    }
}

/// Takes a finished command out of its row.
pub fn take_finished<A: Allocator>(
    values: &mut CommandValues<A>,
    q: u16,
    cid: u16,
) -> Option<Finished<A>>
    ensures out { IfSome result (λ finished. IsOut values.old q cid (CommandValue.Finished finished) values.new) }
    ensures none { IfNone result (option_and_then as_finished (value_at values.old.rows q cid) ≡ None) }
    ensures kept { IfNone result (values.new ≡ values.old) }
{
    match take_value(values, q, cid)?.into_finished() {
        Ok(finished) => Some(finished),
        Err(other) => {
            put_back(values, q, cid, other);
            None
        }
    }
}
