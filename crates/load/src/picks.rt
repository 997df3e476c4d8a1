//! Which slots come next.

ghost use Rattle.std.specs.Prelude.{◌≡◌, ◌≤◌, ◌-◌, IfOk, false, true};
ghost use Rattle.load.specs.Picking.{AreCounted, AreNext, ArePicked, is_random as spec_is_random, kind_by as spec_kind_by, only_kind as spec_only_kind};

use io_commands::Kind;
use rand::seq::index;
use rand_core::Rng;
use rand_pcg::Pcg32;
use script_cli::workload::Pattern;
use std::alloc::{AllocError, Global};

/// What a submitter draws its commands from. A submitter's slots are counted from 0 here.
#[derive(Drop)]
pub(crate) struct Picks {
    pattern: Pattern,
    /// How many of a hundred commands of a mixed pattern are Reads.
    reads: u32,
    /// The slot that is next in turn.
    next: usize,
    words: Pcg32,
}

/// Whether the slots of a pattern come at random.
fn is_random(pattern: Pattern) -> bool
    ensures { result ≡ spec_is_random pattern }
{
    match pattern {
        Pattern::Read | Pattern::Write | Pattern::Rw => false,
        Pattern::RandRead | Pattern::RandWrite | Pattern::RandRw => true,
    }
}

/// The one kind of a pattern that is not mixed.
fn only_kind(pattern: Pattern) -> Option<Kind>
    ensures { result ≡ spec_only_kind pattern }
{
    match pattern {
        Pattern::Read | Pattern::RandRead => Some(Kind::Read),
        Pattern::Write | Pattern::RandWrite => Some(Kind::Write),
        Pattern::Rw | Pattern::RandRw => None,
    }
}

/// The numbers of a range.
fn in_turn(alloc: Global, from: usize, to: usize) -> Result<Vec<usize>, AllocError>
    requires { from ≤ to }
    ensures { IfOk result (λ slots. AreCounted from (to - from) slots.items) }
{
    let mut slots = Vec::with_capacity(alloc, to - from)?;
    for slot in from..to {
        slots.push(slot)?;
    }
    Ok(slots)
}

impl Picks {
    /// What a submitter draws from at first.
    pub(crate) fn new(pattern: Pattern, reads: u32, seed: u32, submitter: u16) -> Picks {
        Picks {
            pattern,
            reads,
            next: 0,
            words: Pcg32::new(u64::from(seed), u64::from(submitter)),
        }
    }

    /// This many different slots at most, out of a given number. In turn, they end with the last slot; the first comes after it.
    pub(crate) fn slots(
        &mut self,
        alloc: Global,
        slots: usize,
        most: usize,
    ) -> Result<Vec<usize>, AllocError>
        requires { 1 ≤ slots }
        ensures picked { IfOk result (λ picked. ArePicked slots most picked.items) }
        ensures in_turn { spec_is_random self.old.pattern ≡ false → IfOk result (λ picked. AreNext self.old.next slots most picked.items self.new.next) }
    {
        if is_random(self.pattern) {
            let some = index::sample(alloc, &mut self.words, slots, most.min(slots))?;
            return Ok(some.into_vec());
        }
        let from = if self.next < slots { self.next } else { 0 };
        let to = from + most.min(slots - from);
        self.next = if to < slots { to } else { 0 };
        in_turn(alloc, from, to)
    }

    /// Whether the next command reads or writes.
    pub(crate) fn kind(&mut self) -> Kind
        ensures { result ≡ spec_kind_by self.old.pattern self.old.reads self.old.words }
    {
        if let Some(kind) = only_kind(self.pattern) {
            return kind;
        }
        if self.words.next_u32() % 100 < self.reads {
            Kind::Read
        } else {
            Kind::Write
        }
    }
}
