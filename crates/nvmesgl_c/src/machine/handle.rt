//! A bench that C keeps between its calls.

ghost use Rattle.std.specs.Prelude.{◌≡◌, Option, Ok, Err, IfOk, IfErr, OnOk};
ghost use Rattle.machine_model.specs.Script.{Table};
ghost use Rattle.nvmesgl_c.specs.Keeping.{IsMarked};
ghost use Rattle.nvmesgl_c.specs.MachineOwned.{bench_coded, kept_owns, own_mark};

use crate::held::Held;
use crate::machine::desk::Desk;
use crate::words::code::{cause_of_mark, code_of_mark};
use std::alloc::Global;
use std::marker::Model;
use std::mem::replace;

/// A bench by its pointer, or none. It frees nothing by itself: a [`Handle`] does.
#[repr(C)]
#[derive(Drop)]
pub struct Kept {
    at: *mut u8,
    alloc: Global,
    pub ghost bench: { Option Table } by { bench_coded },
}

impl Model for Kept {
    ghost also_owns = { λ h. kept_owns h.alloc h.at h.bench };
}

// What frees the bench names no thread: a handle may go from thread to thread, where one call at a time is made on it.
unsafe impl Send for Kept {}

impl Kept {
    /// What is held.
    pub fn of_held(held: Held<Desk, Global>) -> Kept
        ensures { result.bench ≡ held.value }
    {
        let Held { at, alloc } = held;
        Kept {
            at: at as *mut u8,
            alloc,
        }
    }

    /// What is held.
    pub fn into_held(self) -> Held<Desk, Global>
        ensures { result.value ≡ self.bench }
    {
        let Kept { at, alloc } = self;
        Held {
            at: at as *mut Desk,
            alloc,
        }
    }
}

/// The mark of a handle that keeps a bench.
const OWN_MARK: u32 = 0x6863_616D;

/// A bench that C keeps, or none. C holds the bytes of this, all zero before the opening, and never looks inside.
#[repr(C)]
pub struct Handle {
    /// What is kept.
    kept: Kept,
    /// [`OWN_MARK`] where there is one, and 0 in a handle that is closed. A handle with another mark is not of this kind.
    mark: u32,
    pub ghost marked: { IsMarked own_mark mark kept.bench },
}

impl Handle {
    ghost use Rattle.nvmesgl_c.specs.MachineKept.{IsClosed, cause_in, code_in, kept_in};

    /// Takes the bench out for a call. A handle that keeps none stays as it is.
    ///
    /// # Errors
    ///
    /// The code, where none is kept: the handle is closed, or not of this kind.
    pub fn take(&mut self, alloc: Global) -> Result<Box<Desk, Global>, u32>
        ensures taken { IfOk result (λ taken. kept_in self.old ≡ Ok taken.value) }
        ensures left { OnOk result (kept_in self.new ≡ Err self.new) }
        ensures closed { OnOk result (IsClosed self.new) }
        ensures none { IfErr result (λ code. kept_in self.old ≡ Err self.old) }
        ensures same { IfErr result (λ code. kept_in self.new ≡ Err self.old) }
        ensures code { IfErr result (λ code. code ≡ code_in self.old) }
    {
        if self.mark == OWN_MARK {
            let kept = replace(&mut self.kept, Kept::of_held(Held::none(alloc)));
            self.mark = 0;
            return Ok(kept.into_held().into_box());
        }
        Err(code_of_mark(self.mark))
    }

    /// Keeps a bench, in the place of what was there.
    pub fn put(&mut self, bench: Box<Desk, Global>)
        ensures { kept_in self.new ≡ Ok bench.value }
    {
        *self = Handle {
            kept: Kept::of_held(Held::of(bench)),
            mark: OWN_MARK,
        };
    }

    /// What an opening is refused with for what the handle is: it is open, or not of this kind.
    pub fn cause(&self) -> Option<u32>
        ensures { result ≡ cause_in (kept_in self.now) }
    {
        cause_of_mark(self.mark, OWN_MARK)
    }
}

impl Drop for Handle {
    fn drop(self) {
        let Handle { kept, mark } = self;
        if mark == OWN_MARK {
            drop(kept.into_held().into_box());
        } else {
            drop(kept);
        }
    }
}
