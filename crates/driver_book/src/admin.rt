//! The steps that no job takes: commands to the controller, retirements, forged entries and resets. A book takes them where its driver takes every
//! step. Each is written down unless it answers `Memory`: then only the spare room of the book's log may differ.

ghost use Rattle.std.specs.Prelude.{◌≡◌, IfErr, OnOk};
ghost use Rattle.machine_model.specs.Agreeing.{SidesAgree};
ghost use Rattle.machine_model.specs.Events as events;
ghost use Rattle.step_core.specs.Replies.{ring_reply, send_reply};
ghost use Rattle.driver_book.specs.Calls.{Does, WantsMemoryFor, IsLogFull};
ghost use Rattle.step_core.specs.Touching.{Touches};

use crate::book::{Book, FullLogBrand};
use crate::note::{done, note, sent};
use machine_model::words::Refusal;
use std::alloc::Allocator;
use step_core::{Reply, Step};

impl<L: FullLogBrand, A: Allocator + Copy> Book<L, A> {
    /// [`step_core::World::abort`].
    ///
    /// # Errors
    ///
    /// As there, and `Memory` where the log cannot grow.
    pub fn abort(&mut self, q: u16, cid: u16) -> Result<u16, Refusal>
        ensures step { Does self.old None (events.Abort q cid) (send_reply result) self.new }
        ensures touches { Touches self.old.world.entries self.old.touches (events.Abort q cid) (send_reply result) self.new.touches }
        ensures memory { WantsMemoryFor (IsLogFull self.old) (send_reply result) }
    {
        let Ok(()) = self.log.make_room(0, 0) else {
            return Err(Refusal::Memory);
        };
        let answer = self.world.abort(q, cid);
        note(&mut self.log, None, Step::Abort { q, cid }, sent(&answer));
        answer
    }

    /// [`step_core::World::delete_sq`].
    ///
    /// # Errors
    ///
    /// As there, and `Memory` where the log cannot grow.
    pub fn delete_sq(&mut self, q: u16) -> Result<u16, Refusal>
        ensures step { Does self.old None (events.DeleteSq q) (send_reply result) self.new }
        ensures touches { Touches self.old.world.entries self.old.touches (events.DeleteSq q) (send_reply result) self.new.touches }
        ensures memory { WantsMemoryFor (IsLogFull self.old) (send_reply result) }
    {
        let Ok(()) = self.log.make_room(0, 0) else {
            return Err(Refusal::Memory);
        };
        let answer = self.world.delete_sq(q);
        note(&mut self.log, None, Step::DeleteSq { q }, sent(&answer));
        answer
    }

    /// [`step_core::World::delete_cq`].
    ///
    /// # Errors
    ///
    /// As there, and `Memory` where the log cannot grow.
    pub fn delete_cq(&mut self, q: u16) -> Result<u16, Refusal>
        ensures step { Does self.old None (events.DeleteCq q) (send_reply result) self.new }
        ensures touches { Touches self.old.world.entries self.old.touches (events.DeleteCq q) (send_reply result) self.new.touches }
        ensures memory { WantsMemoryFor (IsLogFull self.old) (send_reply result) }
    {
        let Ok(()) = self.log.make_room(0, 0) else {
            return Err(Refusal::Memory);
        };
        let answer = self.world.delete_cq(q);
        note(&mut self.log, None, Step::DeleteCq { q }, sent(&answer));
        answer
    }

    /// [`step_core::World::create_cq`].
    ///
    /// # Errors
    ///
    /// As there, and `Memory` where the log cannot grow.
    pub fn create_cq(&mut self, q: u16, vector: Option<u16>) -> Result<u16, Refusal>
        ensures step { Does self.old None (events.CreateCq q vector) (send_reply result) self.new }
        ensures touches { Touches self.old.world.entries self.old.touches (events.CreateCq q vector) (send_reply result) self.new.touches }
        ensures memory { WantsMemoryFor (IsLogFull self.old) (send_reply result) }
    {
        let Ok(()) = self.log.make_room(0, 0) else {
            return Err(Refusal::Memory);
        };
        let answer = self.world.create_cq(q, vector);
        note(
            &mut self.log,
            None,
            Step::CreateCq { q, vector },
            sent(&answer),
        );
        answer
    }

    /// [`step_core::World::create_sq`].
    ///
    /// # Errors
    ///
    /// As there, and `Memory` where the log cannot grow.
    pub fn create_sq(&mut self, q: u16) -> Result<u16, Refusal>
        ensures step { Does self.old None (events.CreateSq q) (send_reply result) self.new }
        ensures touches { Touches self.old.world.entries self.old.touches (events.CreateSq q) (send_reply result) self.new.touches }
        ensures memory { WantsMemoryFor (IsLogFull self.old) (send_reply result) }
    {
        let Ok(()) = self.log.make_room(0, 0) else {
            return Err(Refusal::Memory);
        };
        let answer = self.world.create_sq(q);
        note(&mut self.log, None, Step::CreateSq { q }, sent(&answer));
        answer
    }

    /// [`step_core::World::retire`].
    ///
    /// # Errors
    ///
    /// As there, and `Memory` where the log cannot grow.
    pub fn retire(&mut self, q: u16) -> Result<(), Refusal>
        ensures step { Does self.old None (events.Retire q) (ring_reply result) self.new }
        ensures touches { Touches self.old.world.entries self.old.touches (events.Retire q) (ring_reply result) self.new.touches }
        ensures memory { WantsMemoryFor (IsLogFull self.old) (ring_reply result) }
    {
        let Ok(()) = self.log.make_room(0, 0) else {
            return Err(Refusal::Memory);
        };
        let answer = self.world.retire(q);
        note(&mut self.log, None, Step::Retire { q }, done(&answer));
        answer
    }

    /// [`step_core::World::forge`].
    ///
    /// # Errors
    ///
    /// As there, and `Memory` where the log cannot grow.
    pub fn forge(&mut self, q: u16, slot: u16, bytes: [u8; 16]) -> Result<(), Refusal>
        ensures step { Does self.old None (events.Forge q slot bytes) (ring_reply result) self.new }
        ensures touches { Touches self.old.world.entries self.old.touches (events.Forge q slot bytes) (ring_reply result) self.new.touches }
        ensures memory { WantsMemoryFor (IsLogFull self.old) (ring_reply result) }
    {
        let Ok(()) = self.log.make_room(0, 0) else {
            return Err(Refusal::Memory);
        };
        let answer = self.world.forge(q, slot, bytes);
        note(
            &mut self.log,
            None,
            Step::Forge { q, slot, bytes },
            done(&answer),
        );
        answer
    }

    /// [`step_core::World::reset`]. The receipts of seats stay.
    ///
    /// # Errors
    ///
    /// `Memory` where the log cannot grow.
    pub fn reset(&mut self) -> Result<(), Refusal>
        ensures step { Does self.old None events.Reset (ring_reply result) self.new }
        ensures touches { Touches self.old.world.entries self.old.touches events.Reset (ring_reply result) self.new.touches }
        ensures recovers { OnOk result (SidesAgree self.new.world) }
        ensures memory { IfErr result (λ why. (why ≡ Refusal.Memory) × IsLogFull self.old) }
    {
        let Ok(()) = self.log.make_room(0, 0) else {
            return Err(Refusal::Memory);
        };
        self.world.reset();
        note(&mut self.log, None, Step::Reset, Some(Reply::Accepted));
        Ok(())
    }
}
