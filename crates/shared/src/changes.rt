//! What threads wait for, and a condition variable for each.

ghost use Rattle.std.specs.Prelude.{◌≡◌, ◌%◌, ◌^◌, ◌&&◌, ◌||◌, not, bit_xor};
ghost use Rattle.shared.specs.Changes.{are_one, bit_of, is_of_reap, is_told};

use std::sync::Condvar;
use step_core::{Reaped, Refusal};

/// How many condition variables those who wait for the end of a command share.
const PLACES: usize = 16;

/// What a thread waits for. Whoever waits looks as it wakes, since it may be woken for another thread too.
#[derive(Clone, Copy)]
pub enum Change {
    /// Pages or an identifier came back, or a queue changed.
    Room,
    /// A completion was posted.
    Posted,
    /// A doorbell was rung, or the controller can do something.
    Rung,
    /// A command ended whose queue and identifier have this place, 0 to 15.
    Ended {
        /// The place, as [`Change::end_of`] counts it.
        place: usize,
    },
}

impl Change {
    /// The end of a command. Up to sixteen commands of one queue with the lowest identifiers have places of their own, and so have the commands
    /// with one identifier of sixteen queues in a row from a multiple of sixteen on.
    pub fn end_of(q: u16, cid: u16) -> Change
        ensures { result ≡ Change.Ended (bit_xor q cid % 16) }
    {
        Change::Ended {
            place: usize::from(q ^ cid) % PLACES,
        }
    }

    /// The number whose one bit stands for it in [`Changes`].
    fn bit(self) -> u32
        ensures { result ≡ 2 ^ bit_of self }
    {
        match self {
            Change::Room => Changes::ROOM.bits,
            Change::Posted => Changes::POSTED.bits,
            Change::Rung => Changes::RUNG.bits,
            Change::Ended { place } => 1 << (place % PLACES),
        }
    }
}

/// Changes that a call may make: whoever waits for one of them is told. More than were made do no harm, but wake threads that sleep on.
/// [`Changes::ALL`] is always right. Fewer than were made leave a thread asleep.
///
/// | What is done | Its changes |
/// |---|---|
/// | `cancel`, `release`, `delete_sq`, `create_cq`, `create_sq` | [`Changes::ROOM`] |
/// | `reap` of an I/O queue | [`Changes::ENDED`], or after it [`Changes::of_reap`]; of a host also [`Changes::RUNG`], as a head doorbell is told |
/// | `reap` of queue 0, `retire`, `reset` | [`Changes::ALL`] |
/// | `ring` of a host, where a thread of yours plays the device | [`Changes::RUNG`] |
/// | an interrupt of a device that writes by itself | [`Changes::POSTED`] |
/// | everything else, `fetch`, `walk`, `complete` and `forge` too, and looks | [`Changes::NONE`] |
///
/// Besides, whoever waits for a completion is told wherever one is there, and whoever waits for what the controller can do wherever it can do
/// something: the lock looks at that itself, once somebody waits for it. Whoever waits for anything else by these names, as for a doorbell of a host,
/// is told only where the change is named.
#[derive(Clone, Copy)]
pub struct Changes {
    /// Bit `i` is the end of a command of place `i`, and the three bits above those are the others.
    bits: u32,
}

impl Changes {
    /// No change but those that the lock sees.
    pub const NONE: Changes = Changes { bits: 0 };

    /// That a command ended, whichever it is.
    pub const ENDED: Changes = Changes { bits: 0xffff };

    /// That pages or an identifier came back, or a queue changed.
    pub const ROOM: Changes = Changes { bits: 1 << 16 };

    /// That a completion was posted.
    pub const POSTED: Changes = Changes { bits: 1 << 17 };

    /// That a doorbell was rung, or the controller can do something.
    pub const RUNG: Changes = Changes { bits: 1 << 18 };

    /// Every change.
    pub const ALL: Changes = Changes { bits: 0x7_ffff };

    /// One change.
    pub fn of(change: Change) -> Changes
        ensures { (other : Change) → is_told result other ≡ are_one change other }
    {
        Changes { bits: change.bit() }
    }

    /// What a reap of a queue with this answer may have changed: its command ended. An admin command that ended may have changed a queue.
    #[tactic(auto, using(crate::proofs::Bits::told_by_all))]
    pub fn of_reap(q: u16, answer: &Result<Reaped, Refusal>) -> Changes
        ensures { (change : Change) → is_told result change ≡ is_of_reap q answer.now change }
    {
        match answer {
            Ok(Reaped::Done { cid, .. }) => Changes::of(Change::end_of(q, *cid)),
            Ok(Reaped::AdminDone { .. }) => Changes::ALL,
            Ok(Reaped::Rejected(_) | Reaped::Empty) | Err(_) => Changes::NONE,
        }
    }

    /// These and others.
    pub fn and(self, others: Changes) -> Changes
        ensures { (change : Change) → is_told result change ≡ is_told self change || is_told others change }
    {
        Changes {
            bits: self.bits | others.bits,
        }
    }

    /// Whether a change is among them.
    pub fn has(self, change: Change) -> bool
        ensures { result ≡ is_told self change }
    {
        self.bits & change.bit() != 0
    }

    /// Takes out those that are among others, and answers them.
    pub(crate) fn take(&mut self, others: Changes) -> Changes
        ensures taken { (change : Change) → is_told result change ≡ is_told self.old change && is_told others change }
        ensures left { (change : Change) → is_told self.new change ≡ is_told self.old change && not (is_told others change) }
    {
        let taken = Changes {
            bits: self.bits & others.bits,
        };
        self.bits &= !others.bits;
        taken
    }
}

/// A condition variable for each change.
#[derive(Drop)]
pub(crate) struct Condvars {
    room: Condvar,
    posted: Condvar,
    rung: Condvar,
    ended: [Condvar; PLACES],
}

impl Condvars {
    /// Condition variables at which nobody waits.
    pub(crate) fn new() -> Condvars {
        Condvars {
            room: Condvar::new(),
            posted: Condvar::new(),
            rung: Condvar::new(),
            ended: std::array::from_fn(|_| Condvar::new()),
        }
    }

    /// That of a change.
    pub(crate) fn at(&self, change: Change) -> &Condvar {
        match change {
            Change::Room => &self.room,
            Change::Posted => &self.posted,
            Change::Rung => &self.rung,
            Change::Ended { place } => &self.ended[place % PLACES],
        }
    }

    /// Wakes all who wait for these changes.
    pub(crate) fn notify(&self, told: Changes) {
        if told.bits == 0 {
            return;
        }
        for change in [Change::Room, Change::Posted, Change::Rung] {
            if told.has(change) {
                self.at(change).notify_all();
            }
        }
        for place in 0..PLACES {
            let change = Change::Ended { place };
            if told.has(change) {
                self.at(change).notify_all();
            }
        }
    }
}
