//! A walk over one list.

ghost use Rattle.std.specs.Prelude.{◌≡◌, ◌<◌, ◌≤◌, ◌+◌, ◌/◌, ℕ, Some, None, length, min, not, true, false};
ghost use Rattle.std.specs.Option.{option_and_then};
ghost use Rattle.page_memory.specs.Memory.{Memory};
ghost use Rattle.controller_walk.specs.Units.{Course, Reads, Does, course_of_list};
ghost use Rattle.controller_walk.specs.Faults.{fault_of, fault_met, fault_status, answered_status, next_of, counts_of};
ghost use Rattle.controller_walk.specs.declared.walk.WalkState.TheVariants.{End};
ghost use Rattle.controller_walk.specs.Walks.{course, is_over as spec_is_over, need_of, counted_of, direction_of, is_more, IfMore, DoesFirst, LeavesRest, left_of, reads_first, reads_left};

use crate::cause::{DescriptorAt, WalkFault};
use crate::progress::{Progress, State, pages};
use entry_codec::Status;
use page_memory::Dma;
use sgl_descriptor::Direction;
use std::marker::Model;

/// What a step answers.
#[derive(Clone, Copy, Debug, PartialEq, Eq)]
pub enum WalkState {
    /// The walk goes on.
    More,
    /// All the bytes of the command are counted, and each of these that has an address was moved. What the list has after them was
    /// not examined.
    End,
    /// The walk met a fault, and is over: 0:04 for an unreadable byte, 0:0D, 0:0E, 0:0F or 0:11 for a list that breaks a rule (NVM
    /// Express Base Specification 2.0, Generic Command Status Values; which comes first is this project's own). [`Walk::fault`] says which.
    Fault(Status),
}

/// A walk over the list of one command. Contracts see how far it is, by the words of `specs/Walks.antt`.
#[derive(Clone, Copy, Debug)]
pub struct Walk {
    progress: Progress,
}

impl Model for Walk {
    ghost use Rattle.controller_walk.specs.declared.progress.Progress.{Progress};
    ghost use Rattle.controller_walk.specs.Progress.{IsProgress};

    ghost Value = { Progress };

    ghost view = { λ w. w.progress };

    ghost invariant = { λ w. IsProgress w.progress };

    ghost inverse = { λ p. record { progress = p } };
}

impl Walk {
    /// The walk over the list that an entry's descriptor begins (NVM Express Base Specification 2.0, section 4.1.2), for
    /// a command that moves `need` bytes, 1 to 1,048,576. No memory is read.
    pub fn begin(sgl1: [u8; 16], direction: Direction, need: u32) -> Walk
        requires some { 0 < need }
        requires most { need ≤ 1048576 }
        ensures course { (m : Memory) → course m result ≡ course_of_list m sgl1 direction need }
        ensures open { spec_is_over result ≡ false }
        ensures direction { direction_of result ≡ direction }
        ensures need { need_of result ≡ need }
        ensures left { left_of result ≡ 12289 + need / 4096 }
        ensures reads { reads_left result ≡ 4095 }
        ensures counted { counted_of result ≡ 0 }
        ensures next { next_of result ≡ Some (record { number = 1; place = None }) }
        ensures fault { fault_of result ≡ None }
    {
        Walk {
            progress: Progress {
                direction,
                need,
                wanted: need,
                allowed: 4095,
                state: State::First(sgl1),
            },
        }
    }

    /// Does the next unit: takes a descriptor, or moves the part of a Data Block that lies in one page.
    ///
    /// The walk isn't over, `staging` has the command's `need` bytes, and the touched list has room for two more
    /// pages. A destination's bytes go from `staging` to memory, a source's from memory to `staging`. Nothing else of either
    /// changes. After `End` and after a fault the walk is over.
    pub fn step<D: Dma>(&mut self, dma: &mut D, staging: &mut [u8]) -> WalkState
        requires open { spec_is_over self.old ≡ false }
        requires staging { length staging.old ≡ need_of self.old }
        requires room { length (D.reached dma.old) ≤ 2 }
        ensures does { DoesFirst (course (D.memory dma.old) self.old) (direction_of self.old) (D.memory dma.old) (D.memory dma.new)
            staging.old staging.new (D.reached dma.old) (D.reached dma.new) }
        ensures leaves { LeavesRest (course (D.memory dma.old) self.old) result (course (D.memory dma.old) self.new) }
        ensures over { spec_is_over self.new ≡ not (is_more result) }

        // The walk has a fault exactly where it answers one: that of the table, at its descriptor.
        ensures fault { fault_of self.new ≡ fault_met (D.memory dma.old) self.old }
        ensures status { fault_status (fault_of self.new) ≡ answered_status result }

        // What the taken descriptor counts is added, as far as it is wanted; a walk that ends well has counted all.
        ensures counts { counted_of self.new ≡ min (need_of self.old) (counted_of self.old + counts_of (D.memory dma.old) self.old) }
        ensures ended { result ≡ End → counted_of self.new ≡ need_of self.new }
        ensures direction { direction_of self.new ≡ direction_of self.old }
        ensures need { need_of self.new ≡ need_of self.old }
        ensures fewer { IfMore result (left_of self.new < left_of self.old) }

        // So a walk reads at most 4,095 descriptors, whatever happens to the memory between its steps.
        ensures reads { reads_first (course (D.memory dma.old) self.old) + reads_left self.new ≤ reads_left self.old }
        ensures touches { length (D.reached dma.new) ≤ length (D.reached dma.old) + 2 }
        ensures unlisted { D.unlisted dma.new ≡ D.unlisted dma.old }
        ensures pool { D.page_count dma.new ≡ D.page_count dma.old }
    {
        let (progress, answer) = self.progress.step(dma, staging);
        self.progress = progress;
        answer
    }

    /// How many steps the walk can still answer `More` to, at most: 12,289 and a 4,096th of the need as it
    /// begins, fewer after each `More`, and 0 once it is over.
    pub fn left(&self) -> u32
        ensures count { result ≡ left_of self.now }
        ensures over { spec_is_over self.now ≡ true → result ≡ 0 }
    {
        let progress = self.progress;
        let behind = 3 * progress.allowed + progress.wanted / 4096;
        match progress.state {
            State::First(_) => 4 + behind,
            State::Next(_) => 1 + behind,
            State::Data(block, _) => 1 + pages(block) + behind,
            State::Over(_) => 0,
        }
    }

    /// Whether the walk has answered `End` or a fault.
    pub fn is_over(&self) -> bool
        ensures { result ≡ spec_is_over self.now }
    {
        matches!(self.progress.state, State::Over(_))
    }

    /// How many bytes the command moves, as many as each step's `staging` has.
    pub fn need(&self) -> u32
        ensures need { result ≡ need_of self.now }
        ensures most { result ≤ 1048576 }
    {
        self.progress.need
    }

    /// The fault that the walk has answered, and at which descriptor of its list; `None` while it goes on, and after `End`.
    pub fn fault(&self) -> Option<WalkFault>
        ensures fault { result ≡ fault_of self.now }
        ensures open { spec_is_over self.now ≡ false → result ≡ None }
    {
        match self.progress.state {
            State::Over(fault) => fault,
            State::First(_) | State::Next(_) | State::Data(_, _) => None,
        }
    }

    /// The descriptor that the next step takes; `None` where that step moves data, and where the walk is over.
    pub fn at(&self) -> Option<DescriptorAt>
        ensures next { result ≡ next_of self.now }

        // A step that reads a descriptor reads this one.
        ensures reads { (m : Memory) (place : ℕ) (rest : Course) → course m self.now ≡ Does (Reads place) rest → option_and_then (λ at. at.place) result ≡ Some place }
    {
        let progress = self.progress;
        match progress.state {
            State::First(_) => Some(progress.taken_last(None)),
            State::Next(cursor) => Some(DescriptorAt {
                number: 4097 - progress.allowed,
                place: Some(cursor.place),
            }),
            State::Data(_, _) | State::Over(_) => None,
        }
    }

    /// How many of the command's bytes the descriptors that were taken have counted: of the last one also those that are still to be moved.
    pub fn counted(&self) -> u32
        ensures counted { result ≡ counted_of self.now }
        ensures most { result ≤ need_of self.now }
    {
        self.progress.need - self.progress.wanted
    }
}
