//! A machine under a lock.

ghost use Rattle.std.specs.Sync.Mutex.{mutex_guard_value};

use crate::changes::{Change, Changes, Condvars};
use crate::machine::Machine;
use std::sync::{Mutex, MutexGuard, Wait};

/// What is under the lock.
#[derive(Drop)]
pub struct Locked<M: Drop> {
    /// The machine. Whoever has the lock leaves it in its place.
    pub machine: M,
    pub(crate) stopping: bool,
    /// What those who were not told since wait for.
    awaited: Changes,
}

/// A machine under a lock. Whoever waits sleeps on a condition variable, and looks at the machine as it wakes.
///
/// A closure that has the machine makes steps of it and looks at it, and leaves it in its place: it must not put another one there, which other threads
/// would then take for this one. No clause forbids that.
#[derive(Drop)]
pub struct Shared<M: Drop> {
    locked: Mutex<Locked<M>>,
    condvars: Condvars,
}

impl<M: Machine + Drop> Shared<M> {
    /// Puts a machine under a lock.
    pub fn new(machine: M) -> Self {
        Shared {
            locked: Mutex::new(Locked {
                machine,
                stopping: false,
                awaited: Changes::NONE,
            }),
            condvars: Condvars::new(),
        }
    }

    /// Takes the lock, for several steps in one hold, or for a step whose changes are known after it. Whoever drops what this hands out, instead of
    /// [`Shared::leave`], wakes nobody.
    pub fn lock<R: Wait>(&self, rt: &R) -> MutexGuard<'_, Locked<M>>
        ensures { M.is (mutex_guard_value result).machine }
    {
        let locked = self.locked.lock(rt);
        prove!({
            locked.machine.confirm();
            true
        });
        locked
    }

    /// Sleeps until a change is told. The lock is free meanwhile, and whoever takes it before finds that this change is awaited.
    pub fn wait<'a, R: Wait>(
        &self,
        rt: &R,
        locked: MutexGuard<'a, Locked<M>>,
        change: Change,
    ) -> MutexGuard<'a, Locked<M>>
        ensures { M.is (mutex_guard_value result).machine }
    {
        let mut locked = locked;
        locked.awaited = locked.awaited.and(Changes::of(change));
        let locked = self.condvars.at(change).wait(rt, locked);
        prove!({
            locked.machine.confirm();
            true
        });
        locked
    }

    /// Gives the lock back, and wakes those who wait for these changes, for a completion where one is there, or for the controller where it can do
    /// something.
    pub fn leave(&self, locked: MutexGuard<'_, Locked<M>>, changes: Changes) {
        let mut locked = locked;
        let mut changes = changes;
        if locked.awaited.has(Change::Posted) && locked.machine.can_reap() {
            changes = changes.and(Changes::POSTED);
        }
        if locked.awaited.has(Change::Rung) && locked.machine.can_serve() {
            changes = changes.and(Changes::RUNG);
        }
        let told = locked.awaited.take(changes);
        drop(locked);
        self.condvars.notify(told);
    }

    /// Does something with the machine that is locked, and gives the lock back.
    pub(crate) fn act_on<V, T, F: FnOnce(&mut M, V) -> T>(
        &self,
        locked: MutexGuard<'_, Locked<M>>,
        changes: Changes,
        value: V,
        act: F,
    ) -> T
        requires { F.IsAlwaysCallable act }
        ensures { (old : _) × (new : _) × M.is old.now × F.post act old value result new }
    {
        let mut locked = locked;
        prove!({
            locked.machine.confirm();
            true
        });
        let answer = act(&mut locked.machine, value);
        self.leave(locked, changes);
        answer
    }

    /// Does something with the machine, and with a value that is moved in, while it has the lock: a step, several, or a look. Whoever waits for one of
    /// these changes is told.
    pub fn with<V, T, F: FnOnce(&mut M, V) -> T, R: Wait>(
        &self,
        rt: &R,
        changes: Changes,
        value: V,
        act: F,
    ) -> T
        requires { F.IsAlwaysCallable act }
        ensures { (old : _) × (new : _) × M.is old.now × F.post act old value result new }
    {
        self.act_on(self.lock(rt), changes, value, act)
    }

    /// Does so once the machine is ready for it, or the workers are told to stop. Whether it is ready is asked before the thread sleeps, and after each
    /// change of this kind that is told. While it is not, asking must change nothing that others wait for.
    pub fn when<V, T, P: FnMut(&mut M, &V) -> bool, F: FnOnce(&mut M, V) -> T, R: Wait>(
        &self,
        rt: &R,
        change: Change,
        mut ready: P,
        changes: Changes,
        value: V,
        act: F,
    ) -> T
        requires looks { (state : P) (x : _) (v : _) → P.pre state x v }
        requires acts { F.IsAlwaysCallable act }
        ensures { (old : _) × (new : _) × M.is old.now × F.post act old value result new }
    {
        let mut locked = self.lock(rt);
        for _ in rt.forever() {
            if locked.stopping || ready(&mut locked.machine, &value) {
                break;
            }
            locked = self.wait(rt, locked, change);
        }
        self.act_on(locked, changes, value, act)
    }

    /// Tells the workers to stop: whoever waits is woken, and waits no more.
    pub fn stop<R: Wait>(&self, rt: &R) {
        let mut locked = self.lock(rt);
        locked.stopping = true;
        self.leave(locked, Changes::ALL);
    }

    /// Whether the workers are told to stop.
    pub fn stopping<R: Wait>(&self, rt: &R) -> bool {
        self.lock(rt).stopping
    }

    /// The machine, once nobody shares it.
    pub fn end(self) -> M {
        let Shared {
            locked,
            condvars: _,
        } = self;
        let Locked {
            machine,
            stopping: _,
            awaited: _,
        } = locked.into_inner();
        machine
    }
}
