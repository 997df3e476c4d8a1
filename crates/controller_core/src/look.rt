//! What the controller can do: a look that changes nothing but the touched list, for an emulator that asks before it calls.

ghost use Rattle.std.specs.Prelude.{◌≡◌, ◌+◌, ◌<◌, ◌≤◌, ℕ, [], false, is_none, None, IfSome, IfNone, length};
ghost use Rattle.controller_core.specs.Posting.{post_refusal_at, post_refusal};
ghost use Rattle.controller_core.specs.Fetching.{fetch_refusal};
ghost use Rattle.controller_core.specs.Looks.{refusal_by, IsAtRest, IsStuck, post_touches, post_touches_at, fetch_touches, fetches_touch, command_touches, looked};
ghost use Rattle.page_memory.specs.Memory.{counted, TouchesMore};

use crate::controller::Controller;
use crate::queue::ControllerQueue;
use crate::refusal::ControllerRefusal;
use block_image::Blocks;
use page_memory::{Dma, TouchRecord};
use queue_pair::DevicePair;
use std::alloc::Allocator;

/// What a controller can do.
#[derive(Clone, Copy, Debug, PartialEq, Eq)]
pub enum ControllerStep {
    /// Fetch the entry at the head of a submission queue.
    Fetch {
        /// The queue.
        q: u16,
    },
    /// Do the next unit of a command's list.
    Walk {
        /// The command's queue.
        q: u16,
        /// Its identifier.
        cid: u16,
    },
    /// Post a command's completion.
    Complete {
        /// The command's queue.
        q: u16,
        /// Its identifier.
        cid: u16,
    },
}

/// What a completion is refused for: the ring is full, or a byte of the slot at the tail is missing.
fn post_cause<D: Dma>(pair: &DevicePair, dma: &mut D) -> Option<ControllerRefusal>
    requires room { length (D.reached dma.old) ≤ 2 }
    ensures cause { result ≡ post_refusal (D.memory dma.old) pair.now }
    ensures touched { length (D.reached dma.new) ≡ length (D.reached dma.old) + post_touches (D.memory dma.old) pair.now }
    ensures unlisted { D.unlisted dma.new ≡ D.unlisted dma.old }
    ensures memory { D.memory dma.new ≡ D.memory dma.old }
    ensures pool { D.page_count dma.new ≡ D.page_count dma.old }
{
    if pair.is_full() {
        return Some(ControllerRefusal::Full);
    }
    let mut slot = [0; 16];
    match dma.read(pair.post_address(), &mut slot) {
        Ok(()) => None,
        Err(_) => Some(ControllerRefusal::SlotOut),
    }
}

/// The same of a queue by its number.
fn post_cause_at<D: Dma>(
    queues: &[ControllerQueue],
    q: u16,
    dma: &mut D,
) -> Option<ControllerRefusal>
    requires room { length (D.reached dma.old) ≤ 2 }
    ensures cause { result ≡ post_refusal_at queues.now (D.memory dma.old) q }
    ensures touched { length (D.reached dma.new) ≡ length (D.reached dma.old) + post_touches_at queues.now (D.memory dma.old) q }
    ensures unlisted { D.unlisted dma.new ≡ D.unlisted dma.old }
    ensures memory { D.memory dma.new ≡ D.memory dma.old }
    ensures pool { D.page_count dma.new ≡ D.page_count dma.old }
{
    match queues.get(usize::from(q)) {
        Some(queue) => post_cause(&queue.controller, dma),
        None => None,
    }
}

impl<A: Allocator + Copy, I: Blocks> Controller<A, I> {
    /// Whether an entry of a queue can be fetched.
    fn can_fetch<D: TouchRecord>(&self, q: u16, dma: &mut D) -> bool
        ensures answer { result ≡ is_none (fetch_refusal self.now (D.memory dma.old) q) }
        ensures touches { TouchesMore (D.unlisted dma.old) (D.reached dma.old) (fetch_touches self.now (D.memory dma.old) q) (D.unlisted dma.new) (D.reached dma.new) }
        ensures memory { D.memory dma.new ≡ D.memory dma.old }
        ensures pool { D.page_count dma.new ≡ D.page_count dma.old }
    {
        dma.clear();
        match self.look(q, dma) {
            Ok(entry) => {
                if self.commands.get(q, entry.cid).is_some() {
                    post_cause_at(&self.queues, q, dma).is_none()
                } else {
                    true
                }
            }
            Err(_) => false,
        }
    }

    /// The first queue of which an entry can be fetched.
    fn next_fetch<D: TouchRecord>(&self, dma: &mut D) -> Option<u16>
        ensures some { IfSome result (λ q. fetch_refusal self.now (D.memory dma.old) q ≡ None) }
        ensures none { IfNone result ((q : ℕ) → q < 65536 → is_none (fetch_refusal self.now (D.memory dma.old) q) ≡ false) }
        ensures touches { TouchesMore (D.unlisted dma.old) (D.reached dma.old) (fetches_touch self.now (D.memory dma.old) result) (D.unlisted dma.new) (D.reached dma.new) }
        ensures memory { D.memory dma.new ≡ D.memory dma.old }
        ensures pool { D.page_count dma.new ≡ D.page_count dma.old }
    {
        let count = self.queues.len().min(65_536);
        for place in 0..count {
            if self.can_fetch(place as u16, dma) {
                return Some(place as u16);
            }
        }
        None
    }

    /// What can be done of a command.
    fn step_of<D: TouchRecord>(&self, q: u16, cid: u16, dma: &mut D) -> Option<ControllerStep>
        ensures some { IfSome result (λ step. refusal_by self.now (D.memory dma.old) step ≡ None) }
        ensures none { IfNone result (IsStuck self.now (D.memory dma.old) q cid) }
        ensures touches { TouchesMore (D.unlisted dma.old) (D.reached dma.old) (command_touches self.now (D.memory dma.old) result) (D.unlisted dma.new) (D.reached dma.new) }
        ensures memory { D.memory dma.new ≡ D.memory dma.old }
        ensures pool { D.page_count dma.new ≡ D.page_count dma.old }
    {
        dma.clear();
        if self.commands.check_walk(q, cid).is_ok() {
            return Some(ControllerStep::Walk { q, cid });
        }
        if self.check_complete(q, cid).is_err() {
            return None;
        }
        match post_cause_at(&self.queues, q, dma) {
            Some(_) => None,
            None => Some(ControllerStep::Complete { q, cid }),
        }
    }

    /// What can be done of the first command of which anything can be done.
    fn next_of_commands<D: TouchRecord>(&self, dma: &mut D) -> Option<ControllerStep>
        ensures some { IfSome result (λ step. refusal_by self.now (D.memory dma.old) step ≡ None) }
        ensures none { IfNone result ((q cid : ℕ) → IsStuck self.now (D.memory dma.old) q cid) }
        ensures touches { TouchesMore (D.unlisted dma.old) (D.reached dma.old) (command_touches self.now (D.memory dma.old) result) (D.unlisted dma.new) (D.reached dma.new) }
        ensures memory { D.memory dma.new ≡ D.memory dma.old }
        ensures pool { D.page_count dma.new ≡ D.page_count dma.old }
    {
        let mut name = self.first_command();
        for _ in 0..self.command_count() {
            let Some((q, cid)) = name else {
                return None;
            };
            match self.step_of(q, cid, dma) {
                Some(step) => return Some(step),
                None => {}
            }
            name = self.next_command(q, cid);
        }
        None
    }

    /// A call that the controller can make, if there is one: it is refused for want of memory at most, and `None` says that each call is
    /// refused for another cause. It makes none. The list of the touched pages is empty then; what the look touched is counted all the same: the
    /// heads of the queues up to that of which an entry can be fetched, else of all queues, and the slot of a completion that can be posted.
    pub fn next_step<D: TouchRecord>(&self, dma: &mut D) -> Option<ControllerStep>
        ensures possible { IfSome result (λ step. refusal_by self.now (D.memory dma.old) step ≡ None) }
        ensures rest { IfNone result (IsAtRest self.now (D.memory dma.old)) }
        ensures touches { D.unlisted dma.new ≡ counted (D.unlisted dma.old) (length (D.reached dma.old) + looked self.now (D.memory dma.old) result) }
        ensures cleared { D.reached dma.new ≡ [] }
        ensures memory { D.memory dma.new ≡ D.memory dma.old }
        ensures pool { D.page_count dma.new ≡ D.page_count dma.old }
    {
        let step = match self.next_fetch(dma) {
            Some(q) => Some(ControllerStep::Fetch { q }),
            None => self.next_of_commands(dma),
        };
        dma.clear();
        step
    }
}
