//! A host with its pages under the lock: its device is in other hands.

ghost use Rattle.std.specs.Prelude.{◌≡◌};
ghost use Rattle.shared.specs.Sharing.{Called};

use crate::changes::Changes;
use crate::lock::Shared;
use crate::machine::Machine;
use entry_codec::ComEntry;
use host_bench::{Call, CallIn, HostBench, HostState, ReplyIn};
use std::alloc::Allocator;
use std::sync::Wait;

/// Bytes of a page.
const PAGE: u64 = 4_096;

/// Whether a reap of a queue would take a completion: the entry where the host looks for the next one has the phase tag of a new one. None where there
/// is no such queue. Nothing changes.
fn completion_waits<A: Allocator>(bench: &mut HostBench<A>, q: u16) -> Option<bool>
    ensures { bench.new ≡ bench.old }
{
    let (HostState::Live | HostState::Deleting { .. } | HostState::Retired) = bench.queue_state(q)?
    else {
        return Some(false);
    };
    let Some(ring) = bench.queue_memory(q)?.completion else {
        return Some(false);
    };
    let at = bench.positions(q)?;
    let slot = PAGE * u64::from(ring.first.0) + 16 * u64::from(at.completion_head);
    let mut entry = [0; 16];
    match bench.read(slot, &mut entry) {
        Ok(()) => Some(ComEntry::read(&entry).phase == at.phase),
        Err(_) => Some(false),
    }
}

impl<A: Allocator> Machine for HostBench<A> {
    ghost use Rattle.std.specs.Prelude.{◌≡◌};
    ghost use Rattle.shared.specs.Sharing.{IsSoundBench};

    ghost is = { λ bench. IsSoundBench bench };

    ghost stays = { λ before after. after ≡ before };

    fn confirm(&self) {
        prove!(self.pages() == self.pages());
    }

    fn can_reap(&mut self) -> bool {
        for q in 0..u16::MAX {
            match completion_waits(self, q) {
                Some(true) => return true,
                Some(false) => {}
                None => break,
            }
        }
        false
    }

    fn can_serve(&mut self) -> bool {
        false
    }
}

/// What a call of a host may change that the lock does not see.
fn changed_by<A: Allocator>(call: &CallIn<A>) -> Changes {
    match call {
        Call::Cancel { .. }
        | Call::Release { .. }
        | Call::DeleteSq { .. }
        | Call::CreateCq { .. }
        | Call::CreateSq { .. } => Changes::ROOM,
        Call::Ring { .. } => Changes::RUNG,
        Call::Reap { q: 0 } | Call::Retire { .. } | Call::Reset => Changes::ALL,
        Call::Reap { .. } => Changes::ENDED.and(Changes::RUNG),
        _ => Changes::NONE,
    }
}

impl<A: Allocator + Copy> Shared<HostBench<A>> {
    /// [`HostBench::call`]. Whoever waits for what this call may change is told. A `Ring` or a `Reap` is made by [`Shared::with`] where its doorbell has a
    /// register: that is written while the lock is held, in the order of the calls.
    pub fn call<R: Wait>(&self, rt: &R, call: CallIn<A>) -> ReplyIn<A>
        ensures { Called call result }
    {
        let changes = changed_by(&call);
        self.with(rt, changes, call, |bench, call| bench.call(call))
    }
}
