//! The list of a command, descriptor by descriptor.

ghost use Rattle.std.specs.Prelude.{◌≡◌, ◌<◌, ◌≤◌, [], ℕ, Bool, List, false, length, option_and_then, Some, IfOk};
ghost use Rattle.std.specs.Option.{option_map};
ghost use Rattle.controller_walk.specs.Faults.{next_of};
ghost use Rattle.controller_walk.specs.Laws.{IsApart};
ghost use Rattle.controller_walk.specs.Units.{Course, Does, Reads};
ghost use Rattle.controller_walk.specs.Walks.{course, direction_of, is_over, left_of, need_of};
ghost use Rattle.sgl_descriptor.specs.declared.Direction.TheVariants.{Source};
ghost use Rattle.views.specs.Ending.{Ends, Goes, WalkedTo};
ghost use Rattle.views.specs.Fetched.{Fetches, fetched};
ghost use Rattle.views.specs.Taking.{AreOf, TellsTaken, ToldTo, taken_at, taken_next, with_next};
ghost use Rattle.views.specs.declared.explain.list.Taken.{Taken};
ghost use Rattle.page_memory.specs.Memory.{Memory};
ghost use Rattle.views.specs.Sparse.{byte_in};

use crate::sparse_memory::SparseMemory;
use controller_walk::{DescriptorAt, Walk, WalkFault};
use page_memory::Dma;
use std::alloc::{AllocError, Global};

/// A descriptor that a walk took.
#[derive(Clone, Copy, Debug, PartialEq, Eq)]
pub struct Taken {
    /// Which one, and where it is.
    pub at: DescriptorAt,
    /// Its 16 bytes.
    pub bytes: [u8; 16],
    /// How many of the command's bytes it counts.
    pub counted: u32,
}

/// A list whose walk is over.
#[derive(Debug, Drop)]
pub(crate) struct Walked {
    /// The descriptors that were taken, in order.
    pub(crate) taken: Vec<Taken>,
    /// Why the list is refused, if it is.
    pub(crate) fault: Option<WalkFault>,
}

/// The most descriptors of a list (`controller_walk`).
const MOST_DESCRIPTORS: u32 = 4096;

/// The descriptor that the next step takes, if it takes one: there is one more, and its bytes can be read. What it counts is left out.
fn next_taken<D: Dma>(walk: &Walk, sgl1: &[u8; 16], dma: &mut D) -> Option<Taken>
    requires { D.reached dma.old ≡ [] }
    ensures taken { result ≡ option_and_then (taken_at (D.memory dma.old) sgl1.now 0) (next_of walk.now) }
    ensures reads { (m : Memory) (place : ℕ) (rest : Course) → course m walk.now ≡ Does (Reads place) rest → option_and_then (λ at. at.place) (next_of walk.now) ≡ Some place }
    ensures memory { D.memory dma.new ≡ D.memory dma.old }
    ensures room { length (D.reached dma.new) ≤ 2 }
{
    let at = walk.at()?;
    if at.number > MOST_DESCRIPTORS {
        return None;
    }
    let mut bytes = *sgl1;
    if let Some(place) = at.place {
        dma.read(place, &mut bytes).ok()?;
    }
    Some(Taken {
        at,
        bytes,
        counted: 0,
    })
}

/// The descriptor, with how many of the command's bytes it counts.
fn counting(next: Option<Taken>, counted: u32) -> Option<Taken>
    ensures { result ≡ option_map (λ (taken : Taken). record taken { counted = counted }) next }
{
    Some(Taken { counted, ..next? })
}

/// Does a step over a memory in which nothing is touched, and tells the descriptor that it took, if it took one.
fn step<D: Dma>(walk: &mut Walk, sgl1: &[u8; 16], dma: &mut D, staging: &mut [u8]) -> Option<Taken>
    requires open { is_over walk.old ≡ false }
    requires staging { length staging.old ≡ need_of walk.old }
    requires room { D.reached dma.old ≡ [] }
    ensures walked { (at : ℕ → Bool) (m : Memory) (c : Course) → IsApart at (direction_of walk.old) c → Goes at m c walk.old (D.memory dma.old)
        → WalkedTo (is_over walk.new) at m c walk.new (D.memory dma.new) }

    // The descriptor is the one that the step reads, as it is in memory then,
    ensures taken { result ≡ taken_next (D.memory dma.old) sgl1.now walk.old }

    // and it is told exactly where it is read: after it, the other ones of the list are left to be told.
    ensures tells { (at : ℕ → Bool) (m : Memory) (c : Course) (told : List Taken) → IsApart at (direction_of walk.old) c
        → TellsTaken at m sgl1.now c told walk.old (D.memory dma.old)
        → ToldTo (is_over walk.new) at m sgl1.now c (with_next told (taken_next (D.memory dma.old) sgl1.now walk.old)) walk.new (D.memory dma.new) }

    // A walk that fetches leaves of its bytes what it left of those before.
    ensures fetches { Fetches walk.old walk.new (D.memory dma.old) (D.memory dma.new) staging.old staging.new }
    ensures direction { direction_of walk.new ≡ direction_of walk.old }
    ensures need { need_of walk.new ≡ need_of walk.old }
    ensures fewer { left_of walk.new < left_of walk.old }
{
    let next = next_taken(walk, sgl1, dma);
    let before = walk.counted();
    walk.step(dma, staging);
    counting(next, walk.counted() - before)
}

/// Walks a list to its end. The walk is one that begins with this descriptor, and `staging` has as many bytes as the command moves.
pub(crate) fn walk_list(
    alloc: Global,
    begun: Walk,
    sgl1: &[u8; 16],
    memory: &mut SparseMemory,
    staging: &mut [u8],
) -> Result<Walked, AllocError>
    requires open { is_over begun ≡ false }
    requires staging { length staging.old ≡ need_of begun }
    ensures ends { IfOk result (λ walked. (at : ℕ → Bool) (m : Memory) (c : Course) → IsApart at (direction_of begun) c → Goes at m c begun (byte_in memory.old.pool)
        → Ends at m c walked.fault) }
    ensures told { IfOk result (λ walked. (at : ℕ → Bool) (m : Memory) (c : Course) → IsApart at (direction_of begun) c
        → TellsTaken at m sgl1.now c [] begun (byte_in memory.old.pool) → AreOf m sgl1.now c walked.taken.items) }
    ensures fetched { IfOk result (λ _. direction_of begun ≡ Source → staging.new ≡ fetched (byte_in memory.old.pool) (course (byte_in memory.old.pool) begun) staging.old) }
    ensures staging { length staging.new ≡ length staging.old }
{
    let mut walk = begun;
    let mut taken = Vec::new(alloc);
    'walk: while !walk.is_over() {
        memory.make_room()?;
        if let Some(descriptor) = step(&mut walk, sgl1, memory, staging) {
            taken.push(descriptor)?;
        }
    }
    Ok(Walked {
        taken,
        fault: walk.fault(),
    })
}
