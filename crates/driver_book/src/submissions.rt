//! The submissions of a book: how many there are, and which was the last one of each queue and identifier. Their drafts, with all their bytes, exist
//! in proofs alone.

ghost use Rattle.std.specs.Prelude.{◌≡◌, ◌+◌, ◌<◌, ◌≤◌, ◌^◌, ◌++◌, ◌∷◌, [], Some, OnOk, OnErr, false, true, is_some, length};
ghost use Rattle.std.specs.Bool.{OnTrue};
ghost use mathlib.Core.List.{IsPrefix};
ghost use Rattle.driver_book.specs.History.{last_place};
ghost use Rattle.driver_book.specs.Latest.{is_place, IsLatestIfAny};
ghost use Rattle.io_commands.specs.Drafts.{DraftContents};
ghost use Rattle.slot_table.specs.Rows.{value_at};

use crate::known_list::{Beginning, KnownList, Naming, Unnamed};
use io_commands::Draft;
use slot_table::SlotTable;
use std::alloc::{AllocError, Allocator};
use std::marker::Model;
use std::snapshot::Snapshot;

/// A list of drafts that no type names yet, and that has none.
pub type UnnamedDrafts<A> = Unnamed<Snapshot<Draft<A>>>;

/// Contracts see the drafts, in the order of the submissions, and whether there is a table.
#[derive(Drop)]
pub(crate) struct Submissions<L: Naming, A: Allocator> {
    count: u64,
    /// The number of the last submission of each queue and identifier. It is made for the first one.
    latest: Option<SlotTable<u64, A>>,
    drafts: KnownList<Snapshot<Draft<A>>, L>,
}

impl<L: Naming, A: Allocator> Model for Submissions<L, A> {
    ghost use Rattle.std.specs.Prelude.{◌≡◌, is_some, length, map};
    ghost use Rattle.driver_book.specs.Latest.{IsLatestIfAny, SubmissionsContents};

    ghost Value = { SubmissionsContents };

    ghost view = { λ s. record { drafts = map (λ draft. draft.value) s.drafts.entries; tabled = is_some s.latest } };

    ghost invariant = { λ s. (s.count ≡ length s.drafts.entries) × IsLatestIfAny s.latest (map (λ draft. draft.value) s.drafts.entries) };
}

/// Puts this number in the slot of a queue and identifier, where the table has that slot.
fn put<A: Allocator>(table: &mut SlotTable<u64, A>, q: u16, cid: u16, number: u64)
    ensures there { (n : _) → value_at table.new.rows q cid ≡ Some n → n ≡ number }
    ensures others { (p id n : _) → is_place q cid p id ≡ false → value_at table.new.rows p id ≡ Some n → value_at table.old.rows p id ≡ Some n }
{
    drop(table.take(q, cid));
    drop(table.try_put(q, cid, number));
}

/// Notes that the submission of this number is the last one of a queue and identifier, where there is a table.
fn note_latest<A: Allocator>(latest: &mut Option<SlotTable<u64, A>>, q: u16, cid: u16, number: u64)
    ensures same { is_some latest.new ≡ is_some latest.old }
    ensures latest { (drafts : _) (d : DraftContents) → q ≡ d.q → cid ≡ d.cid → number ≡ length drafts → IsLatestIfAny latest.old drafts → IsLatestIfAny latest.new (drafts ++ d ∷ []) }
{
    match latest {
        Some(table) => put(table, q, cid, number),
        None => {}
    }
}

/// Whether this number is in the slot of a queue and identifier.
fn has<A: Allocator>(table: &SlotTable<u64, A>, q: u16, cid: u16, number: u64) -> bool
    ensures { OnTrue result (value_at table.now.rows q cid ≡ Some number) }
{
    match table.get(q, cid) {
        Some(found) => *found == number,
        None => false,
    }
}

/// Submissions that are known, starting at the first one. Contracts see their drafts.
#[derive(Drop)]
pub(crate) struct Known<L: Naming, A: Allocator> {
    drafts: Beginning<Snapshot<Draft<A>>, L>,
}

impl<L: Naming, A: Allocator> Model for Known<L, A> {
    ghost use Rattle.std.specs.Prelude.{List, map};
    ghost use Rattle.io_commands.specs.Drafts.{DraftContents};

    ghost Value = { List DraftContents };

    ghost view = { λ k. map (λ draft. draft.value) k.drafts.entries };
}

impl<L: Naming, A: Allocator + Copy> Submissions<L, A> {
    /// None yet, and no table.
    pub(crate) fn named(unnamed: UnnamedDrafts<A>) -> Self
        requires { unnamed.name ≡ L.list }
        ensures { result ≡ record { drafts = []; tabled = false } }
    {
        Submissions {
            count: 0,
            latest: None,
            drafts: unnamed.named(),
        }
    }

    /// Makes the table, for this many queues whose rings have this many entries, where there is none.
    ///
    /// # Errors
    ///
    /// Where there is none and memory is refused.
    pub(crate) fn make_table(
        &mut self,
        alloc: A,
        queues: u16,
        entries: u16,
    ) -> Result<(), AllocError>
        ensures made { OnOk result (self.new ≡ record self.old { tabled = true }) }
        ensures same { OnErr result (self.new ≡ self.old) }
        ensures none { OnErr result (self.old.tabled ≡ false) }
    {
        if self.latest.is_none() {
            let table = SlotTable::open(alloc, u32::from(queues), u32::from(entries).max(1))?;
            self.latest = Some(table);
        }
        Ok(())
    }

    /// Adds a submission after the others: its queue, its identifier and its draft.
    pub(crate) fn push(&mut self, q: u16, cid: u16, draft: &Snapshot<Draft<A>>)
        requires queue { q ≡ draft.now.value.q }
        requires identifier { cid ≡ draft.now.value.cid }
        requires few { length self.old.drafts + 1 < 2 ^ 64 }
        ensures { self.new ≡ record self.old { drafts = self.old.drafts ++ draft.now.value ∷ [] } }
    {
        note_latest(&mut self.latest, q, cid, self.count);
        self.drafts.push(draft);
        self.count += 1;
    }
}

impl<L: Naming, A: Allocator> Submissions<L, A> {
    /// How many there are.
    pub(crate) fn len(&self) -> u64
        ensures { result ≡ length self.now.drafts }
    {
        self.count
    }

    /// Whether the last submission of this queue and identifier is known to be the one with this number, counted from 0.
    pub(crate) fn is_latest(&self, q: u16, cid: u16, number: u64) -> bool
        ensures { OnTrue result (last_place q cid self.now.drafts ≡ Some number) }
    {
        match &self.latest {
            Some(latest) => has(latest, q, cid, number),
            None => false,
        }
    }

    /// All of them, to be known anywhere.
    pub(crate) fn known(&mut self) -> Known<L, A>
        ensures all { result ≡ self.old.drafts }
        ensures same { self.new ≡ self.old }
    {
        Known {
            drafts: self.drafts.beginning(),
        }
    }

    /// Shows that they begin with those that are known, and changes nothing.
    pub(crate) fn begin_with(&mut self, known: &Known<L, A>)
        ensures same { self.new ≡ self.old }
        ensures begin { IsPrefix known.now self.new.drafts }
    {
        self.drafts.begins_with(&known.drafts);
    }
}
